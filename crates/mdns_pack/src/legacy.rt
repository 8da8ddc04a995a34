// The one reply in the old way, to another port than 5353.
ghost use Rattle.std.specs.Prelude.{◌≡◌, ◌≤◌, [], length, map, take, nat_lt, false, IfOk};
ghost use Rattle.dns_message.specs.Packing.{is_within_length, fits, parts_of, first_part, plain_question, plain_record, legacy_reply, pack_legacy};

use crate::messages::PACKET_LENGTH;
use dns_message::{Draft, Message, Questions, Rrs};
use dns_record::{Question, Rr};
use std::alloc::{AllocError, Global};

// The bytes within which the questions alone stand: what any resolver takes. (RFC 1035 4.2.1)
const QUESTIONS_LENGTH: usize = 512;

// The seconds for which such an asker may keep a record at most. (RFC 6762 6.7)
const LEGACY_TTL: u32 = 10;

/// The one reply to an asker at another port than 5353, who knows unicast DNS alone. It repeats the ID of its query and, in
/// their order and without the unicast bit, as many of the leading questions as fit 512 bytes without records, and at least
/// one. The answers follow in their order, without the flush bit and with a TTL of ten seconds at most: the first in any case,
/// further ones while the message stays within 1440 bytes; where one was left out, it says so (TC). There are no additional
/// records. Refused only for want of memory. (RFC 6762 6.7)
#[tactic(auto, unfolding(dns_message::specs::Packing::pack_legacy))]
pub fn pack_legacy(
    alloc: Global,
    id: u16,
    questions: &[Question],
    answers: &[Rr],
) -> Result<Message, AllocError>
    ensures { IfOk result (λ message. message ≡ pack_legacy id questions.now answers.now) }
{
    // Neither the ID nor what is plain makes a message longer or shorter, so it is drafted as it is.
    let mut draft = Draft::reply(alloc)?;
    let asked = put_leading(&mut draft, questions)?;
    let put = put_fitting(&mut draft, answers)?;
    let mut message = draft.into_message();
    message.id = id;
    message.truncated = put < answers.len();
    message.questions = plain_questions(alloc, &questions[..asked])?;
    message.answers = plain_records(message.answers);
    Ok(message)
}

// Puts as many of the leading questions as fit, one at least, and tells how many.
fn put_leading<'a>(draft: &mut Draft<'a>, questions: &'a [Question]) -> Result<usize, AllocError>
    requires { draft.old ≡ legacy_reply 0 [] [] false }
    ensures put { IfOk result (λ len. draft.new ≡ legacy_reply 0 (take len questions.now) [] false) }
    ensures within { IfOk result (λ len. len ≤ length questions.now) }
    ensures first { IfOk result (λ len. first_part (parts_of (λ qs. is_within_length 512 (legacy_reply 0 qs [] false)) questions.now) ≡ take len questions.now) }
{
    let Some(first) = questions.first() else {
        return Ok(0);
    };
    draft.question_always(first)?;
    for len in 1..questions.len() {
        if !draft.question(&questions[len], QUESTIONS_LENGTH)? {
            return Ok(len);
        }
    }
    Ok(questions.len())
}

// Puts answers behind the questions up to one that doesn't fit, the first in any case, and tells how many.
fn put_fitting<'a>(draft: &mut Draft<'a>, answers: &'a [Rr]) -> Result<usize, AllocError>
    requires { draft.old ≡ legacy_reply 0 draft.old.questions [] false }
    ensures put { IfOk result (λ len. draft.new ≡ legacy_reply 0 draft.old.questions (take len answers.now) false) }
    ensures first { IfOk result (λ len. first_part (parts_of (λ rrs. fits (legacy_reply 0 draft.old.questions rrs false)) answers.now) ≡ take len answers.now) }
    ensures more { IfOk result (λ len. nat_lt 1 (length (parts_of (λ rrs. fits (legacy_reply 0 draft.old.questions rrs false)) answers.now)) ≡ nat_lt len (length answers.now)) }
{
    let Some(first) = answers.first() else {
        return Ok(0);
    };
    draft.answer_always(first)?;
    for len in 1..answers.len() {
        if !draft.answer(&answers[len], PACKET_LENGTH)? {
            return Ok(len);
        }
    }
    Ok(answers.len())
}

// The questions without the unicast bit.
fn plain_questions(alloc: Global, questions: &[Question]) -> Result<Questions, AllocError>
    ensures { IfOk result (λ plain. plain ≡ map plain_question questions.now) }
{
    let mut plain = Questions::new(alloc);
    for question in questions {
        plain.push(Question {
            name: question.name.copy(),
            kind: question.kind,
            unicast: false,
        })?;
    }
    Ok(plain)
}

// The records without the flush bit, and with a TTL of ten seconds at most.
fn plain_records(records: Rrs) -> Rrs
    ensures { result ≡ map plain_record records }
{
    let mut plain = records.into_vec();
    make_all_plain(plain.as_mut_slice());
    Rrs::from_vec(plain)
}

fn make_all_plain(records: &mut [Rr])
    ensures { records.new ≡ map plain_record records.old }
{
    for rr in records.iter_mut() {
        make_plain(rr);
    }
}

fn make_plain(rr: &mut Rr)
    ensures { rr.new ≡ plain_record rr.old }
{
    rr.flush = false;
    rr.ttl = rr.ttl.min(LEGACY_TTL);
}
