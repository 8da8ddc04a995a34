// The questions that another's query asks in the daemon's stead. (RFC 6762 7.3)
ghost use Rattle.std.specs.Prelude.{◌≡◌, ◌&&◌, ◌==◌, ◌++◌, not, ◌||◌, true, IfOk, OnOk};
ghost use Rattle.std.specs.List.{list_all, list_any};
ghost use Rattle.std.specs.Option.{option_copied};
ghost use Rattle.mdns_base.specs.Hosts.{mdns_port};
ghost use Rattle.dns_record.specs.Records.{matches, same};
ghost use Rattle.mdns_history.specs.Asking.{asks_openly, heard_askings, is_asked_by, knows_no_more};
ghost use Rattle.plain_history.specs.Kept.{kept_if};
ghost use Rattle.plain_history.specs.Last.{are_by};

use crate::active::active_questions;
use crate::known::known_answers;
use crate::question::ActiveQuestion;
use crate::series::series_due;
use dns_record::{Key, Question, Rr, matches};
use mdns_base::{MDNS_PORT, Moment};
use mdns_history::{Cause, Mark};
use plain_history::{HeardMessage, HistoryEntry};
use std::alloc::{AllocError, Global};

// Whether a question of the link asks the same without a unicast reply.
#[tactic(auto, unfolding(dns_record::specs::Records::key_eq))]
fn asks_openly(question: &Key, asked: &Question) -> bool
    ensures { result ≡ asks_openly question.now asked.now }
{
    question.name.folded_eq(&asked.name) && question.kind == asked.kind && !asked.unicast
}

fn is_asked_openly(question: &Key, asked: &[Question]) -> bool
    ensures { result ≡ list_any (asks_openly question.now) asked.now }
{
    asked.iter().any(|one| asks_openly(question, one))
}

// Whether a message is a whole query from port 5353 that asks a question.
fn is_query_for(question: &Key, heard: &HeardMessage) -> bool
    ensures { result ≡ (not heard.now.message.response && (heard.now.from.port == mdns_port) && not heard.now.message.truncated && list_any (asks_openly question.now) heard.now.message.questions) }
{
    !heard.message.response
        && heard.from.port == MDNS_PORT
        && !heard.message.truncated
        && is_asked_openly(question, heard.message.questions.as_slice())
}

// Whether each of some answers to a question is among those that are known.
fn are_known(question: &Key, answers: &[Rr], known: &[Rr]) -> bool
    ensures { result ≡ list_all (λ rr. not (matches question.now rr) || list_any (same rr) known.now) answers.now }
{
    answers
        .iter()
        .all(|rr| !matches(question, rr) || is_known(known, rr))
}

fn is_known(known: &[Rr], rr: &Rr) -> bool
    ensures { result ≡ list_any (same rr.now) known.now }
{
    known.iter().any(|other| rr.same(other))
}

// Whether another's query stands for the daemon's own, which is due within a second.
fn is_asked_by(
    alloc: Global,
    history: &[HistoryEntry],
    moment: Moment,
    heard: &HeardMessage,
    active: &ActiveQuestion,
) -> Result<bool, AllocError>
    requires { are_by moment history.now ≡ true }
    ensures { IfOk result (λ asked. asked ≡ is_asked_by history.now moment heard.now active.now) }
{
    if !is_query_for(&active.key, heard) {
        return Ok(false);
    }
    let due = series_due(alloc, active, history)?;
    if due > moment.ms() + 1000 {
        return Ok(false);
    }
    let known = known_answers(alloc, &active.key, history, moment)?;
    Ok(are_known(
        &active.key,
        heard.message.answers.as_slice(),
        known.as_slice(),
    ))
}

/// The marks of the questions that a heard message at a moment asks behind a history in the daemon's stead, by folded name
/// and then by type. No entry may be later than the moment. Refused only for want of memory.
#[tactic(auto, using(crate::proofs::Lists::made_more), unfolding(mdns_history::specs::Asking::heard_askings))]
pub fn heard_askings(
    alloc: Global,
    history: &[HistoryEntry],
    moment: Moment,
    heard: Option<&HeardMessage>,
) -> Result<Vec<Mark>, AllocError>
    requires { are_by moment history.now ≡ true }
    ensures { IfOk result (λ marks. marks.items ≡ heard_askings history.now moment (option_copied heard.entry)) }
{
    let mut marks = Vec::new(alloc);
    let Some(query) = heard else {
        return Ok(marks);
    };
    for active in active_questions(alloc, history)? {
        let asked = is_asked_by(alloc, history, moment, query, &active)?;
        put_heard_if(&mut marks, asked, &active)?;
    }
    Ok(marks)
}

// Puts the mark of a question that was heard behind others, where a test passed.
fn put_heard_if(
    marks: &mut Vec<Mark>,
    test: bool,
    active: &ActiveQuestion,
) -> Result<(), AllocError>
    ensures { OnOk result (marks.new.items ≡ marks.old.items ++ kept_if test (Mark.Asked active.now.key Cause.Heard)) }
{
    if test {
        let question = active.key.copy();
        let cause = Cause::Heard;
        marks.push(Mark::Asked { question, cause })?;
    }
    Ok(())
}
