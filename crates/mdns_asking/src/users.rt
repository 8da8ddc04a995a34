// Which questions get and lose a user, and what an asker is told of them. (RFC 6762 5.2)
ghost use Rattle.std.specs.Prelude.{◌≡◌, ◌++◌, ◌+◌, ◌≤◌, filter, length, IsTrue, IfOk, OnOk};
ghost use Rattle.std.specs.List.{flat_map};
ghost use Rattle.sd_call.specs.Requests.{well_formed};
ghost use Rattle.mdns_history.specs.Sessions.{has_op};
ghost use Rattle.mdns_history.specs.Questions.{keys_of};
ghost use Rattle.mdns_happened.specs.Told.{told_by};
ghost use Rattle.sd_sessions.specs.Kept.{AreWellFormed, IsWellFormedCall};
ghost use Rattle.mdns_asking.specs.Asked.{begun_keys, ended_told, all_begun, all_ended, all_asked};

use dns_record::Key;
use mdns_happened::{Happened, When};
use mdns_history::{Cause, Operation};
use mdns_question::Asker;
use sd_answer::questions_of;
use sd_call::Request;
use sd_sessions::Sessions;
use std::alloc::{AllocError, Global};

/// The questions of what an accepted call starts. Refused only for want of memory.
pub fn begun_keys(alloc: Global, happened: &Happened<'_>) -> Result<Vec<Key>, AllocError>
    requires { IsWellFormedCall (told_by happened.now).call }
    ensures { IfOk result (λ keys. keys.items ≡ begun_keys (told_by happened.now).call) }
{
    let mut keys = Vec::new(alloc);
    if let Happened::Called {
        request,
        code: 0,
        ..
    } = happened
    {
        put_questions(&mut keys, request)?;
    }
    Ok(keys)
}

/// The questions of the operations that end by an accepted call or with their session. Refused only for want of memory.
pub fn ended_keys(
    alloc: Global,
    sessions: &Sessions,
    happened: &Happened<'_>,
) -> Result<Vec<Key>, AllocError>
    ensures { IfOk result (λ keys. keys.items ≡ ended_told (told_by happened.now).call (told_by happened.now).detached sessions.now.sessions) }
{
    match happened {
        Happened::Called {
            session,
            op,
            request: Request::Stop,
            code: 0,
        } => keys_of_one(alloc, sessions.operations(*session), *op),
        Happened::Detached { session } => keys_of_all(alloc, sessions.operations(*session)),
        _ => Ok(Vec::new(alloc)),
    }
}

// The questions of the operation of a number.
fn keys_of_one(alloc: Global, operations: &[Operation], op: u32) -> Result<Vec<Key>, AllocError>
    requires { AreWellFormed operations.now }
    ensures { IfOk result (λ keys. keys.items ≡ flat_map (λ operation. keys_of operation.request) (filter (has_op op) operations.now)) }
{
    let mut keys = Vec::new(alloc);
    for operation in operations {
        if operation.op == op {
            put_questions(&mut keys, &operation.request)?;
        }
    }
    Ok(keys)
}

// The questions of each operation.
fn keys_of_all(alloc: Global, operations: &[Operation]) -> Result<Vec<Key>, AllocError>
    requires { AreWellFormed operations.now }
    ensures { IfOk result (λ keys. keys.items ≡ flat_map (λ operation. keys_of operation.request) operations.now) }
{
    let mut keys = Vec::new(alloc);
    for operation in operations {
        put_questions(&mut keys, &operation.request)?;
    }
    Ok(keys)
}

// Puts the questions of a request behind others.
fn put_questions(keys: &mut Vec<Key>, request: &Request) -> Result<(), AllocError>
    requires { IsTrue (well_formed request.now) }
    ensures { OnOk result (keys.new.items ≡ keys.old.items ++ keys_of request.now) }
{
    let questions = questions_of(request);
    put_keys(keys, questions.as_slice())
}

fn put_keys(keys: &mut Vec<Key>, more: &[Key]) -> Result<(), AllocError>
    ensures { OnOk result (keys.new.items ≡ keys.old.items ++ more.now) }
{
    for key in more {
        keys.push(key.copy())?;
    }
    Ok(())
}

/// Gives a user to each of these questions, for which there is room. It takes no memory.
pub fn begin(asker: &mut Asker, when: When, keys: &[Key])
    requires { length keys.now ≤ asker.old.spare }
    ensures { asker.new.questions ≡ all_begun when.moment when.word keys.now asker.old.questions }
{
    for key in keys {
        let _ = asker.start(when.at(), when.word, key);
    }
}

/// Takes a user from each of these questions.
pub fn end(asker: &mut Asker, keys: &[Key])
    ensures { asker.new.questions ≡ all_ended keys.now asker.old.questions }
{
    for key in keys {
        asker.stop(key);
    }
}

/// Notes the questions that are asked.
pub fn note(asker: &mut Asker, when: When, asked: &[(Key, Cause)])
    ensures { asker.new.questions ≡ all_asked when.moment asked.now asker.old.questions }
{
    for one in asked {
        asker.asked(when.at(), &one.0, one.1);
    }
}
