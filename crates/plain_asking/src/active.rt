// Which questions are active. (RFC 6762 5.2, RFC 6763 4, 5 and 7.1)
ghost use Rattle.std.specs.Prelude.{◌≡◌, ◌++◌, IsTrue, IfOk, OnOk};
ghost use Rattle.std.specs.List.{flat_map, list_any};
ghost use Rattle.std.specs.Option.{option_to_list};
ghost use Rattle.dns_record.specs.Records.{key_eq};
ghost use Rattle.sd_call.specs.Requests.{well_formed};
ghost use Rattle.mdns_history.specs.Sessions.{operations};
ghost use Rattle.mdns_history.specs.Questions.{active_questions, is_active, keys_of};

use crate::begun::last_begun;
use crate::question::ActiveQuestion;
use dns_record::Key;
use plain_history::{HistoryEntry, LiveOperation, key_eq, operations, ordered_keys};
use sd_answer::questions_of;
use sd_call::Request;
use std::alloc::{AllocError, Global};

/// Whether a live operation asks a question. Refused only for want of memory.
#[tactic(auto, unfolding(mdns_history::specs::Questions::is_active))]
pub fn is_active(
    alloc: Global,
    question: &Key,
    history: &[HistoryEntry],
) -> Result<bool, AllocError>
    ensures { IfOk result (λ active. active ≡ is_active question.now history.now) }
{
    let live = operations(alloc, history)?;
    Ok(is_asked_by_one(question, &live))
}

fn is_asked_by_one(question: &Key, operations: &[LiveOperation]) -> bool
    ensures { result ≡ list_any (λ operation. list_any (key_eq question.now) (keys_of operation.request)) operations.now }
{
    operations.iter().any(|operation| asks(question, operation))
}

// Whether an operation asks a question.
fn asks(question: &Key, operation: &LiveOperation) -> bool
    ensures { result ≡ list_any (key_eq question.now) (keys_of operation.now.request) }
{
    let keys = questions_of(&operation.request);
    is_among(question, keys.as_slice())
}

fn is_among(question: &Key, keys: &[Key]) -> bool
    ensures { result ≡ list_any (key_eq question.now) keys.now }
{
    keys.iter().any(|key| key_eq(question, key))
}

/// The active questions, by folded name and then by type. Refused only for want of memory.
#[tactic(auto, using(crate::proofs::Lists::given_more), unfolding(mdns_history::specs::Questions::active_questions))]
pub fn active_questions(
    alloc: Global,
    history: &[HistoryEntry],
) -> Result<Vec<ActiveQuestion>, AllocError>
    ensures { IfOk result (λ active. active.items ≡ active_questions history.now) }
{
    let asked = asked_keys(alloc, history)?;
    let keys = ordered_keys(asked)?;
    let mut active = Vec::new(alloc);
    for key in keys {
        let begun = last_begun(alloc, &key, history)?;
        put_begun(&mut active, begun)?;
    }
    Ok(active)
}

// Puts a question that began behind others.
fn put_begun(
    active: &mut Vec<ActiveQuestion>,
    begun: Option<ActiveQuestion>,
) -> Result<(), AllocError>
    ensures { OnOk result (active.new.items ≡ active.old.items ++ option_to_list begun) }
{
    if let Some(question) = begun {
        active.push(question)?;
    }
    Ok(())
}

// The questions of all live operations.
fn asked_keys(alloc: Global, history: &[HistoryEntry]) -> Result<Vec<Key>, AllocError>
    ensures { IfOk result (λ keys. keys.items ≡ flat_map (λ operation. keys_of operation.request) (operations history.now)) }
{
    let mut keys = Vec::new(alloc);
    for operation in operations(alloc, history)? {
        put_questions(&mut keys, &operation.request)?;
    }
    Ok(keys)
}

// Puts the questions of a request behind others.
fn put_questions(keys: &mut Vec<Key>, request: &Request) -> Result<(), AllocError>
    requires { IsTrue (well_formed request.now) }
    ensures { OnOk result (keys.new.items ≡ keys.old.items ++ keys_of request.now) }
{
    let questions = questions_of(request);
    put_keys(keys, questions.as_slice())
}

fn put_keys(keys: &mut Vec<Key>, more: &[Key]) -> Result<(), AllocError>
    ensures { OnOk result (keys.new.items ≡ keys.old.items ++ more.now) }
{
    for key in more {
        keys.push(key.copy())?;
    }
    Ok(())
}
