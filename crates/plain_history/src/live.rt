// The live operations, and what they ask.
ghost use Rattle.std.specs.Prelude.{◌≡◌, ◌++◌, [], IfOk, OnOk};
ghost use Rattle.std.specs.Option.{option_copied, option_map};
ghost use Rattle.std.specs.List.{find};
ghost use Rattle.mdns_history.specs.Sessions.{has_op, operations, operations_of, operation_request, present_txt, txt_of};
ghost use Rattle.plain_history.specs.After.{operations_after};

use crate::HistoryEntry;
use crate::calls::detached;
use crate::operation::LiveOperation;
use crate::running::after_request;
use crate::sessions::attached_sessions;
use bytes::Bytes;
use sd_call::Request;
use std::alloc::{AllocError, Global};

/// The live operations of a session, by number. Refused only for want of memory.
#[tactic(auto, unfolding(mdns_history::specs::Sessions::operations_of))]
pub fn operations_of(
    alloc: Global,
    session: u64,
    history: &[HistoryEntry],
) -> Result<Vec<LiveOperation>, AllocError>
    ensures { IfOk result (λ live. live.items ≡ operations_of session history.now) }
{
    let mut live = Vec::new(alloc);
    let mut place = history.len();
    while place > 0 {
        place -= 1;
        live = after_entry(alloc, session, &history[place], live)?;
    }
    Ok(live)
}

// The operations of a session after an entry.
fn after_entry(
    alloc: Global,
    session: u64,
    entry: &HistoryEntry,
    before: Vec<LiveOperation>,
) -> Result<Vec<LiveOperation>, AllocError>
    ensures { IfOk result (λ live. live.items ≡ operations_after session entry.now before.items) }
{
    if detached(&entry.entry().event, &entry.entry().outcome) == Some(session) {
        return Ok(Vec::new(alloc));
    }
    match entry.accepted_call() {
        Some((its_session, op, request)) if its_session == session => {
            after_request(alloc, session, op, request, before)
        }
        _ => Ok(before),
    }
}

/// All live operations, by session and then by number. Refused only for want of memory.
#[tactic(auto, unfolding(mdns_history::specs::Sessions::operations))]
pub fn operations(alloc: Global, history: &[HistoryEntry]) -> Result<Vec<LiveOperation>, AllocError>
    ensures { IfOk result (λ live. live.items ≡ operations history.now) }
{
    let mut all = Vec::new(alloc);
    let sessions = attached_sessions(alloc, history)?;
    for session in sessions.as_slice() {
        let mut live = operations_of(alloc, *session, history)?;
        all.append(&mut live)?;
    }
    Ok(all)
}

/// The request of a live operation. Refused only for want of memory.
#[tactic(auto, unfolding(mdns_history::specs::Sessions::operation_request))]
pub fn operation_request(
    alloc: Global,
    session: u64,
    op: u32,
    history: &[HistoryEntry],
) -> Result<Option<Request>, AllocError>
    ensures { IfOk result (λ request. request ≡ operation_request session op history.now) }
{
    let live = operations_of(alloc, session, history)?;
    match find_op(&live, op) {
        Some(operation) => Ok(Some(operation.request.copy(alloc)?)),
        None => Ok(None),
    }
}

/// The operation of a number, the first where there are several.
pub fn find_op(operations: &[LiveOperation], op: u32) -> Option<&LiveOperation>
    ensures { option_copied result ≡ find (has_op op) operations.now }
{
    operations.iter().find(|operation| operation.op == op)
}

/// The TXT with which a registration stands. Refused only for want of memory.
#[tactic(auto, unfolding(mdns_history::specs::Sessions::present_txt))]
pub fn present_txt(
    alloc: Global,
    session: u64,
    op: u32,
    history: &[HistoryEntry],
) -> Result<Bytes, AllocError>
    ensures { IfOk result (λ txt. txt ≡ present_txt session op history.now) }
{
    match operation_request(alloc, session, op, history)? {
        Some(request) => Ok(txt_of(request)),
        None => Ok(Bytes::new()),
    }
}

// The TXT of a registration, none of another request.
fn txt_of(request: Request) -> Bytes
    ensures { result ≡ txt_of request }
{
    match request {
        Request::Register { txt, .. } => txt,
        _ => Bytes::new(),
    }
}
