// With which entries questions begin.
ghost use Rattle.std.specs.Prelude.{◌≡◌, IsTrue, IfOk};
ghost use Rattle.std.specs.List.{find};
ghost use Rattle.std.specs.Option.{option_and_then, option_copied};
ghost use Rattle.dns_record.specs.Records.{key_eq};
ghost use Rattle.sd_call.specs.Requests.{well_formed};
ghost use Rattle.mdns_history.specs.History.{last_at};
ghost use Rattle.mdns_history.specs.Sessions.{accepted_in};
ghost use Rattle.mdns_history.specs.Questions.{begins_asking, begun_with, keys_of};
ghost use Rattle.plain_asking.specs.Begun.{begins_last, begun_last, entries_since};

use crate::active::is_active;
use crate::question::ActiveQuestion;
use dns_record::Key;
use plain_history::{HistoryEntry, key_eq};
use sd_answer::questions_of;
use sd_call::Request;
use std::alloc::{AllocError, Global};

// Whether a question gets its first operation with the last entry.
#[tactic(auto, using(crate::proofs::Begins::begins_none, crate::proofs::Begins::begins_both))]
fn begins_last(alloc: Global, question: &Key, history: &[HistoryEntry]) -> Result<bool, AllocError>
    ensures { IfOk result (λ begins. begins ≡ begins_last question.now history.now) }
{
    let Some((_, past)) = history.split_first() else {
        return Ok(false);
    };
    let active = is_active(alloc, question, history)?;
    let before = is_active(alloc, question, past)?;
    Ok(active && !before)
}

// A question as the call of the last entry spells it, where it begins with that entry.
#[tactic(auto, using(crate::proofs::Begins::begun_none, crate::proofs::Begins::unspelled, crate::proofs::Begins::unbegun, crate::proofs::Begins::spelled))]
fn begun_last(
    alloc: Global,
    question: &Key,
    history: &[HistoryEntry],
) -> Result<Option<ActiveQuestion>, AllocError>
    ensures { IfOk result (λ begun. begun ≡ begun_last question.now history.now) }
{
    let Some((entry, _)) = history.split_first() else {
        return Ok(None);
    };
    let Some(key) = spelled_in(question, entry) else {
        return Ok(None);
    };
    let begins = begins_last(alloc, question, history)?;
    if !begins {
        return Ok(None);
    }
    Ok(Some(ActiveQuestion {
        key,
        start: entry.moment(),
        word: entry.entry().word,
    }))
}

// A question as the call that an entry accepted spells it.
fn spelled_in(question: &Key, entry: &HistoryEntry) -> Option<Key>
    ensures { result ≡ option_and_then (λ call. find (key_eq question.now) (keys_of call.request)) (accepted_in entry.now) }
{
    match entry.accepted_call() {
        Some((_, _, request)) => spelled_by(question, request),
        None => None,
    }
}

// A question as a request spells it.
fn spelled_by(question: &Key, request: &Request) -> Option<Key>
    requires { IsTrue (well_formed request.now) }
    ensures { result ≡ find (key_eq question.now) (keys_of request.now) }
{
    let keys = questions_of(request);
    match find_key(question, keys.as_slice()) {
        Some(key) => Some(key.copy()),
        None => None,
    }
}

fn find_key<'a>(question: &Key, keys: &'a [Key]) -> Option<&'a Key>
    ensures { option_copied result ≡ find (key_eq question.now) keys.now }
{
    keys.iter().find(|key| key_eq(question, key))
}

/// A question as the operation spells it with which it began last. Refused only for want of memory.
#[tactic(auto, using(crate::proofs::Begins::begun_here, crate::proofs::Begins::begun_before, crate::proofs::Begins::begun_never))]
pub fn last_begun(
    alloc: Global,
    question: &Key,
    history: &[HistoryEntry],
) -> Result<Option<ActiveQuestion>, AllocError>
    ensures { IfOk result (λ begun. begun ≡ last_at (begun_with question.now) history.now) }
{
    let mut rest = history;
    while let Some((_, past)) = rest.split_first() {
        let begun = begun_last(alloc, question, rest)?;
        if let Some(begun) = begun {
            return Ok(Some(begun));
        }
        rest = past;
    }
    Ok(None)
}

/// The entries behind the one with which a question began last, the last first. Refused only for want of memory.
pub fn entries_since<'a>(
    alloc: Global,
    question: &Key,
    history: &'a [HistoryEntry],
) -> Result<&'a [HistoryEntry], AllocError>
    ensures { IfOk result (λ entries. entries.now ≡ entries_since (begins_asking question.now) history.now) }
{
    for place in 0..history.len() {
        let begins = begins_last(alloc, question, &history[place..])?;
        if begins {
            return Ok(&history[..place]);
        }
    }
    Ok(history)
}
