// What an event changes in the sessions, told by the records of the names that were walked, and by what is told of registrations.
ghost use Rattle.std.specs.Prelude.{◌≡◌, ◌||◌, ◌++◌, [], List, map, true, false, if◌then◌else◌, IsTrue, IfOk, OnOk, IfSome};
ghost use Rattle.std.specs.List.{AllByRecursion};
ghost use Rattle.std.specs.List.Sorted.{IsSorted};
ghost use Rattle.std.specs.Option.{option_copied, option_to_list};
ghost use Rattle.lists.specs.Lists.{without};
ghost use Rattle.sd_call.specs.declared.answer.Answer.{Answer};
ghost use Rattle.sd_call.specs.declared.item.Item.TheVariants as item;
ghost use Rattle.sd_call.specs.Answers.{answer_cmp, answer_eq};
ghost use Rattle.sd_call.specs.Requests.{is_register, well_formed};
ghost use Rattle.sd_answer.specs.Known.{rrs_in, rrs_of};
ghost use Rattle.mdns_history.specs.Answers.{answers_over};
ghost use Rattle.mdns_history.specs.Questions.{keys_of};
ghost use Rattle.mdns_history.specs.Sessions.{is_number};
ghost use Rattle.mdns_happened.specs.Told.{told_by};
ghost use Rattle.sd_sessions.specs.Answered.{answered, View};
ghost use Rattle.sd_sessions.specs.Changes.{had, items_between};
ghost use Rattle.sd_operations.specs.Codes.{is_running};
ghost use Rattle.sd_sessions.specs.Settling.{own_call, brought_told, change_told};
ghost use Rattle.sd_operations.specs.Operations.{after_own, AreRising};
ghost use Rattle.sd_sessions.specs.Kept.{session_of, sessions_of, AreWellFormed, HaveRising, HaveWellFormed, IsWellFormedCall, IsWellFormedOwn};
ghost use Rattle.sd_sessions.specs.Walked.{walk_for, IsSeen, IsSeenOf, IsCompared, IsInOrder};
ghost use Rattle.sd_sessions.specs.Concerned.{concerned, IsCallMet, IsCovered, IsMet, IsOwnCovered};

use crate::change::{SessionChange, own_call};
use crate::concerned::numbers_of;
use crate::session::SessionState;
use crate::walks::{earlier_of, later_of};
use dns_record::Key;
use mdns_happened::{Around, Happened, Registered, Walk, registered_in, walk_of};
use mdns_history::{Items, Operation};
use sd_answer::{Answers, KnownRecords, answers_of, questions_of};
use sd_call::{Answer, Item};
use sd_index::Asker;
use sd_operations::{Call, concerned_after, has_one, is_running, put_adds, put_removes, registers};
use std::alloc::{AllocError, Global};

/// The answers of an operation before an event and after it.
#[derive(Drop)]
pub struct Compared {
    pub had: Answers,
    pub has: Answers,
}

/// What is looked up around an event, and the numbers of the operations of a session that it concerns.
#[derive(Drop)]
struct Looked<'a> {
    around: &'a Around<'a>,
    numbers: &'a [u32],
}

/// The changes of all sessions, in their order, where an event concerns no operations but these. Refused only for want of memory.
pub fn changes_by_names(
    alloc: Global,
    sessions: &[SessionState],
    concerned: &[Asker],
    happened: &Happened<'_>,
    around: &Around<'_>,
) -> Result<Vec<SessionChange>, AllocError>
    requires operations { HaveWellFormed (sessions_of sessions.now) }
    requires rising { HaveRising (sessions_of sessions.now) }
    requires call { IsWellFormedCall (told_by happened.now).call }
    requires met { AllByRecursion (IsMet concerned.now around.now) (sessions_of sessions.now) }
    requires called { IsCallMet concerned.now (told_by happened.now).call }
    ensures { IfOk result (λ changes. (earlier later : View) → AllByRecursion (IsSeen (told_by happened.now) earlier later around.now) (sessions_of sessions.now)
        → changes.items ≡ map (change_told (told_by happened.now) (answered earlier) (answered later)) (sessions_of sessions.now)) }
{
    let mut changes = Vec::new(alloc);
    for session in sessions {
        let numbers = numbers_of(alloc, concerned, session.number)?;
        let looked = Looked {
            around,
            numbers: &numbers,
        };
        changes.push(change_by_names(alloc, session, happened, &looked)?)?;
    }
    Ok(changes)
}

fn change_by_names(
    alloc: Global,
    session: &SessionState,
    happened: &Happened<'_>,
    looked: &Looked<'_>,
) -> Result<SessionChange, AllocError>
    requires operations { AreWellFormed session.now.operations.items }
    requires rising { AreRising session.now.operations.items }
    requires call { IsWellFormedCall (told_by happened.now).call }
    requires covered { AllByRecursion (IsCovered looked.now.numbers.now looked.now.around.now session.now.operations.items) session.now.operations.items }
    requires called { IsOwnCovered looked.now.numbers.now (own_call (told_by happened.now).call session.now.number) }
    ensures { IfOk result (λ change. (earlier later : View) → IsSeen (told_by happened.now) earlier later looked.now.around.now (session_of session.now)
        → change ≡ change_told (told_by happened.now) (answered earlier) (answered later) (session_of session.now)) }
{
    let call = own_call(alloc, session.number, happened)?;
    let brought = bring_by_names(alloc, session, &call, happened, looked)?;
    let cuts = session.outbox.passes(brought.as_slice());
    Ok(SessionChange {
        session: session.number,
        call,
        brought,
        cuts,
    })
}

// What a session is brought: nothing where it was cut or is detached.
fn bring_by_names(
    alloc: Global,
    session: &SessionState,
    call: &Option<Call>,
    happened: &Happened<'_>,
    looked: &Looked<'_>,
) -> Result<Items, AllocError>
    requires operations { AreWellFormed session.now.operations.items }
    requires rising { AreRising session.now.operations.items }
    requires call { IsWellFormedOwn call.now }
    requires covered { AllByRecursion (IsCovered looked.now.numbers.now looked.now.around.now session.now.operations.items) session.now.operations.items }
    requires called { IsOwnCovered looked.now.numbers.now call.now }
    ensures { IfOk result (λ items. (earlier later : View) → IsSeen (told_by happened.now) earlier later looked.now.around.now (session_of session.now)
        → call.now ≡ own_call (told_by happened.now).call session.now.number
        → items ≡ brought_told (told_by happened.now) (answered earlier) (answered later) (session_of session.now)) }
{
    if gets_nothing(session, happened) {
        return Ok(Items::new(alloc));
    }
    let reply = happened.reply_to(session.number);
    let items = items_with_call(alloc, reply, session, call, looked)?;
    Ok(items)
}

// Whether a session is brought nothing.
fn gets_nothing(session: &SessionState, happened: &Happened<'_>) -> bool
    ensures { result ≡ ((session_of session.now).cut || is_number session.now.number (told_by happened.now).detached) }
{
    session.outbox.is_cut() || happened.detaches(session.number)
}

// What a session that isn't cut or detached is brought, behind a reply: by its call the operations change.
fn items_with_call(
    alloc: Global,
    reply: Option<Item>,
    session: &SessionState,
    call: &Option<Call>,
    looked: &Looked<'_>,
) -> Result<Items, AllocError>
    requires operations { AreWellFormed session.now.operations.items }
    requires rising { AreRising session.now.operations.items }
    requires call { IsWellFormedOwn call.now }
    requires covered { AllByRecursion (IsCovered looked.now.numbers.now looked.now.around.now session.now.operations.items) session.now.operations.items }
    requires called { IsOwnCovered looked.now.numbers.now call.now }
    ensures { IfOk result (λ items. (earlier later : View) → let before = session.now.operations.items in let after = after_own session.now.number call.now before in
        AllByRecursion (IsSeenOf earlier later looked.now.around.now before) after → items ≡ items_between (answered earlier) (answered later) reply before after) }
{
    let before = session.operations.as_slice();
    match call {
        Some(call) => {
            let after = concerned_after(alloc, before, session.number, call, looked.numbers)?;
            let items = items_by_names(alloc, reply, before, &after, looked)?;
            Ok(items)
        }
        None => {
            let items = items_by_names(alloc, reply, before, before, looked)?;
            Ok(items)
        }
    }
}

// What a session is brought where its operations change from those before to those after.
fn items_by_names(
    alloc: Global,
    reply: Option<Item>,
    before: &[Operation],
    after: &[Operation],
    looked: &Looked<'_>,
) -> Result<Items, AllocError>
    requires formed { AreWellFormed after.now }
    requires covered { AllByRecursion (IsCovered looked.now.numbers.now looked.now.around.now before.now) after.now }
    ensures { IfOk result (λ items. (earlier later : View) → AllByRecursion (IsSeenOf earlier later looked.now.around.now before.now) after.now
        → items ≡ items_between (answered earlier) (answered later) reply before.now after.now) }
{
    let mut brought = replied(alloc, reply)?;
    let mut adds = Items::new(alloc);
    let operations = concerned(after, looked.numbers);
    for operation in operations {
        let found = compare_answers(alloc, before, operation, looked)?;
        put_compared(&mut brought, &mut adds, operation.op, found)?;
    }
    brought.append(adds)?;
    Ok(brought)
}

// The reply to a call, where there is one.
fn replied(alloc: Global, reply: Option<Item>) -> Result<Items, AllocError>
    ensures { IfOk result (λ items. items ≡ option_to_list reply) }
{
    let mut items = Items::new(alloc);
    if let Some(reply) = reply {
        items.push(reply)?;
    }
    Ok(items)
}

// Puts what an operation has no more, and what it has newly.
fn put_compared(
    removes: &mut Items,
    adds: &mut Items,
    op: u32,
    found: Option<Compared>,
) -> Result<(), AllocError>
    requires { IfSome found (λ compared. IsInOrder compared) }
    ensures removes { OnOk result ((had has : List Answer) → IsCompared found had has
        → removes.new ≡ removes.old ++ map (λ answer. item.Remove op answer) (without answer_eq had has)) }
    ensures adds { OnOk result ((had has : List Answer) → IsCompared found had has
        → adds.new ≡ adds.old ++ map (λ answer. item.Add op answer) (without answer_eq has had)) }
{
    match found {
        Some(Compared { had, has }) => {
            put_removes(removes, op, had.as_slice(), has.as_slice())?;
            put_adds(adds, op, has.as_slice(), had.as_slice())?;
            Ok(())
        }
        None => Ok(()),
    }
}

// The operations that walks and registrations may concern: none where there are neither.
fn concerned<'a>(operations: &'a [Operation], numbers: &[u32]) -> &'a [Operation]
    ensures { result.now ≡ concerned numbers.now operations.now }
{
    if numbers.is_empty() { &[] } else { operations }
}

// The answers of an operation before and after; `None` where they are the same: the event doesn't concern it, its name was not walked, or
// nothing is told of it as a registration.
fn compare_answers(
    alloc: Global,
    before: &[Operation],
    operation: &Operation,
    looked: &Looked<'_>,
) -> Result<Option<Compared>, AllocError>
    requires formed { IsTrue (well_formed operation.now.request) }
    requires covered { IsCovered looked.now.numbers.now looked.now.around.now before.now operation.now }
    ensures value { IfOk result (λ found. (earlier later : View) → IsSeenOf earlier later looked.now.around.now before.now operation.now
        → IsCompared found (had (answered earlier) before.now operation.now.op) (answered later operation.now)) }
    ensures sorted { IfOk result (λ found. IfSome found (λ compared. IsInOrder compared)) }
{
    if !has_one(looked.numbers, operation.op) {
        Ok(None)
    } else if registers(&operation.request) {
        compare_registered(alloc, before, operation, looked.around)
    } else {
        compare_walked(alloc, before, operation, looked.around)
    }
}

// The answers of a registration before and after; `None` where nothing is told of it.
fn compare_registered(
    alloc: Global,
    before: &[Operation],
    operation: &Operation,
    around: &Around<'_>,
) -> Result<Option<Compared>, AllocError>
    requires { is_register operation.now.request ≡ true }
    ensures value { IfOk result (λ found. (earlier later : View) → IsSeenOf earlier later around.now before.now operation.now
        → IsCompared found (had (answered earlier) before.now operation.now.op) (answered later operation.now)) }
    ensures sorted { IfOk result (λ found. IfSome found (λ compared. IsInOrder compared)) }
{
    match registered_in(around.registered, operation.session, operation.op) {
        Some(told) => {
            let had = had_registered(alloc, before, operation, told)?;
            let has = one_answer(alloc, &told.has)?;
            Ok(Some(Compared { had, has }))
        }
        None => Ok(None),
    }
}

// The answers over records before and after; `None` where the operation's name was not walked.
fn compare_walked(
    alloc: Global,
    before: &[Operation],
    operation: &Operation,
    around: &Around<'_>,
) -> Result<Option<Compared>, AllocError>
    requires formed { IsTrue (well_formed operation.now.request) }
    requires other { is_register operation.now.request ≡ false }
    ensures value { IfOk result (λ found. (earlier later : View) → IsSeenOf earlier later around.now before.now operation.now
        → IsCompared found (had (answered earlier) before.now operation.now.op) (answered later operation.now)) }
    ensures sorted { IfOk result (λ found. IfSome found (λ compared. IsInOrder compared)) }
{
    let questions = questions_of(&operation.request);
    let questions = questions.as_slice();
    match walk_for(questions, around.walks) {
        Some(walk) => {
            let had = had_by(alloc, before, operation, questions, &earlier_of(walk))?;
            let has = answers_of(alloc, &operation.request, questions, &later_of(walk))?;
            Ok(Some(Compared { had, has }))
        }
        None => Ok(None),
    }
}

// The walk of the name of questions.
fn walk_for<'a>(questions: &[Key], walks: &'a [Walk]) -> Option<&'a Walk>
    ensures { option_copied result ≡ walk_for questions.now walks.now }
{
    match questions.first() {
        Some(question) => walk_of(&question.name, walks),
        None => None,
    }
}

// What an operation had over records, nothing where it wasn't there.
fn had_by(
    alloc: Global,
    before: &[Operation],
    operation: &Operation,
    questions: &[Key],
    known: &KnownRecords<'_>,
) -> Result<Answers, AllocError>
    requires { questions.now ≡ keys_of operation.now.request }
    ensures value { IfOk result (λ answers. answers ≡ (if is_running operation.now.op before.now then answers_over operation.now.request (rrs_in known.now) else [])) }
    ensures sorted { IfOk result (λ answers. IsSorted answer_cmp answers) }
{
    if !is_running(before, operation.op) {
        return Ok(Answers::new(alloc));
    }
    answers_of(alloc, &operation.request, questions, known)
}

// What a registration had, nothing where it wasn't there.
fn had_registered(
    alloc: Global,
    before: &[Operation],
    operation: &Operation,
    told: &Registered,
) -> Result<Answers, AllocError>
    ensures value { IfOk result (λ answers. answers ≡ (if is_running operation.now.op before.now then option_to_list told.now.had else [])) }
    ensures sorted { IfOk result (λ answers. IsSorted answer_cmp answers) }
{
    if is_running(before, operation.op) {
        one_answer(alloc, &told.had)
    } else {
        Ok(Answers::new(alloc))
    }
}

// An answer that may be there, copied.
fn one_answer(alloc: Global, answer: &Option<Answer>) -> Result<Answers, AllocError>
    ensures value { IfOk result (λ answers. answers ≡ option_to_list answer.now) }
    ensures sorted { IfOk result (λ answers. IsSorted answer_cmp answers) }
{
    let mut answers = Answers::new(alloc);
    match answer {
        Some(answer) => {
            answers.push(answer.copy()?)?;
            Ok(answers)
        }
        None => Ok(answers),
    }
}
