// The answers of requests.
ghost use Rattle.std.specs.Prelude.{◌≡◌, [], ◌∷◌, ◌++◌, IfOk, OnOk};
ghost use Rattle.std.specs.List.{filter_map, flat_map};
ghost use Rattle.std.specs.List.Sorted.{IsSorted};
ghost use Rattle.lists.specs.Lists.{ordered};
ghost use Rattle.sd_call.specs.Answers.{answer_cmp};
ghost use Rattle.mdns_history.specs.Questions.{keys_of};
ghost use Rattle.mdns_history.specs.Answers.{matching, datum_of, found_in, resolved_with, resolved_pairs, answers_from, answers_over};
ghost use Rattle.sd_answer.specs.Known.{rrs_in};

use crate::KnownRecords;
use bytes::Bytes;
use dns_record::{Key, Rdata, Rr, kinds, matches_any};
use lists::List;
use sd_call::{Answer, Request, answer_cmp};
use std::alloc::{AllocError, Global};

/// The answers of an operation.
pub type Answers = List<Answer>;

/// The answers that known records, held or own, give to a request with its questions, each once and in the order of their bytes.
/// Two answers are the same exactly where their bytes in a frame are. A Query and an Address are answered by the type and data of each
/// record that matches, a Browse by the targets of the PTR records, a Resolve by all pairs of SRV data and TXT data. Records
/// don't answer a Register, an Update or a Stop. Refused only for want of memory. (RFC 6763 sections 4, 5 and 6)
#[tactic(auto, unfolding(mdns_history::specs::Answers::answers_over))]
pub fn answers_of(
    alloc: Global,
    request: &Request,
    questions: &[Key],
    known: &KnownRecords<'_>,
) -> Result<Answers, AllocError>
    requires { questions.now ≡ keys_of request.now }
    ensures value { IfOk result (λ answers. answers ≡ answers_over request.now (rrs_in known.now)) }
    ensures sorted { IfOk result (λ answers. IsSorted answer_cmp answers) }
{
    let mut answers = Answers::new(alloc);
    put_answers(&mut answers, request, questions, known)?;
    let ordered = ordered_once(answers.into_vec())?;
    Ok(ordered)
}

// Answers in order, of those of the same bytes the first alone. Refused only for want of memory.
fn ordered_once(mut answers: Vec<Answer>) -> Result<Answers, AllocError>
    ensures { IfOk result (λ sorted. sorted ≡ ordered answer_cmp answers.items) }
{
    answers.sort_by(|left, right| answer_cmp(left, right))?;
    answers.dedup_by(|later, kept| answer_cmp(later, kept).is_eq());
    Ok(Answers::from_vec(answers))
}

// Puts the answers that the matching records give.
fn put_answers(
    answers: &mut Answers,
    request: &Request,
    questions: &[Key],
    known: &KnownRecords<'_>,
) -> Result<(), AllocError>
    ensures { OnOk result (answers.new ≡ answers.old ++ answers_from request.now (matching questions.now (rrs_in known.now))) }
{
    match request {
        Request::Query { .. } | Request::Address { .. } => put_data(answers, questions, known),
        Request::Browse { .. } => put_instances(answers, questions, known),
        Request::Resolve { .. } => put_places(answers, questions, known),
        Request::Register { .. } | Request::Update { .. } | Request::Stop => Ok(()),
    }
}

// Puts the data of the matching records.
fn put_data(
    answers: &mut Answers,
    questions: &[Key],
    known: &KnownRecords<'_>,
) -> Result<(), AllocError>
    ensures { OnOk result (answers.new ≡ answers.old ++ filter_map datum_of (matching questions.now (rrs_in known.now))) }
{
    for one in known.held {
        put_datum(answers, questions, &one.rr)?;
    }
    for rr in known.own {
        put_datum(answers, questions, rr)?;
    }
    Ok(())
}

// Puts a record's type and data, where it matches.
fn put_datum(answers: &mut Answers, questions: &[Key], rr: &Rr) -> Result<(), AllocError>
    ensures { OnOk result (answers.new ≡ answers.old ++ filter_map datum_of (matching questions.now (rr.now ∷ []))) }
{
    if !matches_any(questions, rr) {
        return Ok(());
    }
    let rdata = rr.rdata.copy()?;
    answers.push(Answer::Datum { rdata })?;
    Ok(())
}

// Puts the targets of the matching PTR records.
fn put_instances(
    answers: &mut Answers,
    questions: &[Key],
    known: &KnownRecords<'_>,
) -> Result<(), AllocError>
    ensures { OnOk result (answers.new ≡ answers.old ++ filter_map (λ rr. found_in rr.rdata) (matching questions.now (rrs_in known.now))) }
{
    for one in known.held {
        put_instance(answers, questions, &one.rr)?;
    }
    for rr in known.own {
        put_instance(answers, questions, rr)?;
    }
    Ok(())
}

// Puts the target of a PTR record, where it matches.
fn put_instance(answers: &mut Answers, questions: &[Key], rr: &Rr) -> Result<(), AllocError>
    ensures { OnOk result (answers.new ≡ answers.old ++ filter_map (λ rr. found_in rr.rdata) (matching questions.now (rr.now ∷ []))) }
{
    if !matches_any(questions, rr) {
        return Ok(());
    }
    match &rr.rdata {
        Rdata::Ptr(target) => {
            answers.push(Answer::Found {
                instance: target.copy(),
            })?;
            Ok(())
        }
        _ => Ok(()),
    }
}

// Puts each pair of matching SRV and TXT data.
fn put_places(
    answers: &mut Answers,
    questions: &[Key],
    known: &KnownRecords<'_>,
) -> Result<(), AllocError>
    ensures { OnOk result (answers.new ≡ answers.old ++ resolved_pairs (matching questions.now (rrs_in known.now))) }
{
    for one in known.held {
        put_place(answers, questions, known, &one.rr)?;
    }
    for rr in known.own {
        put_place(answers, questions, known, rr)?;
    }
    Ok(())
}

// Puts a record's pairs with the matching TXT data, where it matches.
fn put_place(
    answers: &mut Answers,
    questions: &[Key],
    known: &KnownRecords<'_>,
    rr: &Rr,
) -> Result<(), AllocError>
    ensures { OnOk result (answers.new ≡ answers.old ++ flat_map (λ srv. filter_map (λ txt. resolved_with srv.rdata txt.rdata) (matching questions.now (rrs_in known.now))) (matching questions.now (rr.now ∷ []))) }
{
    if !matches_any(questions, rr) {
        return Ok(());
    }
    put_pairs(answers, &rr.rdata, questions, known)?;
    Ok(())
}

// Puts the pairs of SRV data with the matching TXT data; of other data there are none.
fn put_pairs(
    answers: &mut Answers,
    place: &Rdata,
    questions: &[Key],
    known: &KnownRecords<'_>,
) -> Result<(), AllocError>
    ensures { OnOk result (answers.new ≡ answers.old ++ filter_map (λ txt. resolved_with place.now txt.rdata) (matching questions.now (rrs_in known.now))) }
{
    if place.kind() != kinds::SRV {
        return Ok(());
    }
    for one in known.held {
        put_pair(answers, place, questions, &one.rr)?;
    }
    for rr in known.own {
        put_pair(answers, place, questions, rr)?;
    }
    Ok(())
}

// Puts the pair of SRV data with a record's TXT data, where it matches.
fn put_pair(
    answers: &mut Answers,
    place: &Rdata,
    questions: &[Key],
    rr: &Rr,
) -> Result<(), AllocError>
    ensures { OnOk result (answers.new ≡ answers.old ++ filter_map (λ txt. resolved_with place.now txt.rdata) (matching questions.now (rr.now ∷ []))) }
{
    if !matches_any(questions, rr) {
        return Ok(());
    }
    match pair(place, &rr.rdata)? {
        Some(answer) => {
            answers.push(answer)?;
            Ok(())
        }
        None => Ok(()),
    }
}

// The answer of SRV data with TXT data.
fn pair(place: &Rdata, txt: &Rdata) -> Result<Option<Answer>, AllocError>
    ensures { IfOk result (λ found. found ≡ resolved_with place.now txt.now) }
{
    match (place, txt) {
        (
            Rdata::Srv {
                priority,
                weight,
                port,
                target,
            },
            Rdata::Txt(txt),
        ) => Ok(Some(Answer::Resolved {
            priority: *priority,
            weight: *weight,
            port: *port,
            target: target.copy(),
            txt: txt.clone()?,
        })),
        _ => Ok(None),
    }
}
