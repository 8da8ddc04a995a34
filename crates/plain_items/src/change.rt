// What an entry brings a session.
ghost use Rattle.std.specs.Prelude.{◌≡◌, ◌<◌, ◌^◌, ◌++◌, [], map, length, IfOk};
ghost use Rattle.std.specs.List.{flat_map, list_any};
ghost use Rattle.std.specs.Option.{option_to_list};
ghost use Rattle.lists.specs.Lists.{without};
ghost use Rattle.sd_call.specs.Answers.{answer_eq};
ghost use Rattle.sd_call.specs.declared.item.Item.TheVariants.{Add, Remove};
ghost use Rattle.mdns_history.specs.Sessions.{operations_of};
ghost use Rattle.mdns_history.specs.Items.{change_items, earlier_answers, reply_of, verb_of};
ghost use Rattle.plain_items.specs.LastEntry.{of_last};
ghost use Rattle.plain_items.specs.Changes.{adds_between, removes_between};

use crate::found::answers;
use mdns_history::{Entry, Event, Outcome};
use plain_history::{HistoryEntry, LiveOperation, find_op, operations_of};
use sd_answer::Answers;
use sd_call::{Answer, Item, Request, Verb, answer_cmp};
use std::alloc::{AllocError, Global};

// What a request's reply says that it answers.
fn verb_of(request: &Request) -> Verb
    ensures { result ≡ verb_of request.now }
{
    match request {
        Request::Update { .. } => Verb::Update,
        Request::Stop => Verb::Stop,
        _ => Verb::Start,
    }
}

// The reply to a session's own call.
fn reply_of(session: u64, entry: &Entry) -> Option<Item>
    ensures { result ≡ reply_of session entry.now.event entry.now.outcome }
{
    match (&entry.event, &entry.outcome) {
        (
            Event::Call {
                session: its_session,
                op,
                request,
            },
            Outcome::Code { code },
        ) if *its_session == session => Some(Item::Reply {
            op: *op,
            verb: verb_of(request),
            code: *code,
        }),
        _ => None,
    }
}

// The answers that a session's operation had before, where it was live.
fn earlier_answers(
    alloc: Global,
    session: u64,
    past: &[HistoryEntry],
    operation: &LiveOperation,
) -> Result<Answers, AllocError>
    requires { length past.now < 2 ^ 30 }
    ensures { IfOk result (λ found. found ≡ earlier_answers session past.now operation.now) }
{
    let live = operations_of(alloc, session, past)?;
    match find_op(&live, operation.op) {
        Some(before) => answers(alloc, before, past),
        None => Ok(Answers::new(alloc)),
    }
}

// Whether two answers have the same bytes.
#[tactic(auto, unfolding(sd_call::specs::Answers::answer_eq))]
fn is_same(left: &Answer, right: &Answer) -> bool
    ensures { result ≡ answer_eq left.now right.now }
{
    answer_cmp(left, right).is_eq()
}

// Whether an answer is among others.
fn is_among(answer: &Answer, answers: &[Answer]) -> bool
    ensures { result ≡ list_any (answer_eq answer.now) answers.now }
{
    answers.iter().any(|other| is_same(answer, other))
}

// Removes of the answers that others haven't.
fn removes_of(
    alloc: Global,
    op: u32,
    before: &[Answer],
    after: &[Answer],
) -> Result<Vec<Item>, AllocError>
    ensures { IfOk result (λ items. items.items ≡ map (λ answer. Remove op answer) (without answer_eq before.now after.now)) }
{
    let mut items = Vec::new(alloc);
    for answer in before {
        if !is_among(answer, after) {
            let answer = answer.copy()?;
            items.push(Item::Remove { op, answer })?;
        }
    }
    Ok(items)
}

// Adds of the answers that others haven't.
fn adds_of(
    alloc: Global,
    op: u32,
    before: &[Answer],
    after: &[Answer],
) -> Result<Vec<Item>, AllocError>
    ensures { IfOk result (λ items. items.items ≡ map (λ answer. Add op answer) (without answer_eq after.now before.now)) }
{
    let mut items = Vec::new(alloc);
    for answer in after {
        if !is_among(answer, before) {
            let answer = answer.copy()?;
            items.push(Item::Add { op, answer })?;
        }
    }
    Ok(items)
}

// What an operation had before and has no more.
fn removes(
    alloc: Global,
    session: u64,
    past: &[HistoryEntry],
    history: &[HistoryEntry],
    operation: &LiveOperation,
) -> Result<Vec<Item>, AllocError>
    requires short { length history.now < 2 ^ 30 }
    requires before { length past.now < 2 ^ 30 }
    ensures { IfOk result (λ items. items.items ≡ removes_between session past.now history.now operation.now) }
{
    let before = earlier_answers(alloc, session, past, operation)?;
    let after = answers(alloc, operation, history)?;
    removes_of(alloc, operation.op, before.as_slice(), after.as_slice())
}

// What an operation has newly.
fn adds(
    alloc: Global,
    session: u64,
    past: &[HistoryEntry],
    history: &[HistoryEntry],
    operation: &LiveOperation,
) -> Result<Vec<Item>, AllocError>
    requires short { length history.now < 2 ^ 30 }
    requires before { length past.now < 2 ^ 30 }
    ensures { IfOk result (λ items. items.items ≡ adds_between session past.now history.now operation.now) }
{
    let before = earlier_answers(alloc, session, past, operation)?;
    let after = answers(alloc, operation, history)?;
    adds_of(alloc, operation.op, before.as_slice(), after.as_slice())
}

// The removes of all operations.
fn all_removes(
    alloc: Global,
    session: u64,
    past: &[HistoryEntry],
    history: &[HistoryEntry],
    live: &[LiveOperation],
) -> Result<Vec<Item>, AllocError>
    requires short { length history.now < 2 ^ 30 }
    requires before { length past.now < 2 ^ 30 }
    ensures { IfOk result (λ items. items.items ≡ flat_map (removes_between session past.now history.now) live.now) }
{
    let mut items = Vec::new(alloc);
    for operation in live {
        let mut more = removes(alloc, session, past, history, operation)?;
        items.append(&mut more)?;
    }
    Ok(items)
}

// The adds of all operations.
fn all_adds(
    alloc: Global,
    session: u64,
    past: &[HistoryEntry],
    history: &[HistoryEntry],
    live: &[LiveOperation],
) -> Result<Vec<Item>, AllocError>
    requires short { length history.now < 2 ^ 30 }
    requires before { length past.now < 2 ^ 30 }
    ensures { IfOk result (λ items. items.items ≡ flat_map (adds_between session past.now history.now) live.now) }
{
    let mut items = Vec::new(alloc);
    for operation in live {
        let mut more = adds(alloc, session, past, history, operation)?;
        items.append(&mut more)?;
    }
    Ok(items)
}

// A list of an item, if there is one.
fn listed(alloc: Global, item: Option<Item>) -> Result<Vec<Item>, AllocError>
    ensures { IfOk result (λ items. items.items ≡ option_to_list item) }
{
    let mut items = Vec::new(alloc);
    if let Some(item) = item {
        items.push(item)?;
    }
    Ok(items)
}

// The reply to the call of an entry, then the removes, then the adds.
fn changes(
    alloc: Global,
    session: u64,
    entry: &HistoryEntry,
    past: &[HistoryEntry],
    history: &[HistoryEntry],
) -> Result<Vec<Item>, AllocError>
    requires short { length history.now < 2 ^ 30 }
    requires before { length past.now < 2 ^ 30 }
    ensures { IfOk result (λ items. items.items ≡ (option_to_list (reply_of session entry.now.event entry.now.outcome) ++ flat_map (removes_between session past.now history.now) (operations_of session history.now)) ++ flat_map (adds_between session past.now history.now) (operations_of session history.now)) }
{
    let live = operations_of(alloc, session, history)?;
    let mut items = listed(alloc, reply_of(session, entry.entry()))?;
    let mut removed = all_removes(alloc, session, past, history, &live)?;
    let mut added = all_adds(alloc, session, past, history, &live)?;
    items.append(&mut removed)?;
    items.append(&mut added)?;
    Ok(items)
}

/// What the last entry of a history brings a session: the reply to its call, then the removes, then the adds, by operation and answer;
/// nothing where there is no entry. Refused only for want of memory.
#[tactic(auto, using(crate::proofs::LastEntries::changes_last, crate::proofs::LastEntries::last_of_none))]
pub fn change_items(
    alloc: Global,
    session: u64,
    history: &[HistoryEntry],
) -> Result<Vec<Item>, AllocError>
    requires { length history.now < 2 ^ 30 }
    ensures { IfOk result (λ items. items.items ≡ of_last [] (change_items session) history.now) }
{
    let Some((entry, past)) = history.split_first() else {
        return Ok(Vec::new(alloc));
    };
    let items = changes(alloc, session, entry, past, history)?;
    Ok(items)
}
