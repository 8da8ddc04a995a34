// The codes of calls.
ghost use Rattle.std.specs.Prelude.{◌≡◌, ◌<◌, ◌^◌, ◌==◌, ◌&&◌, Some, length, IfOk};
ghost use Rattle.std.specs.List.{find};
ghost use Rattle.std.specs.Option.{is_some};
ghost use Rattle.sd_call.specs.Requests.{is_start};
ghost use Rattle.mdns_history.specs.Groups.{host_of};
ghost use Rattle.mdns_history.specs.Sessions.{operation_request};
ghost use Rattle.mdns_history.specs.Outcomes.{call_code, is_bad_reference, is_refused, is_unsupported, may_update};

use crate::found::{group_of, is_register};
use crate::name_conflict::is_name_conflict;
use plain_groups::{LiveGroup, groups, registered_count};
use plain_history::{HistoryEntry, config_of, operation_request, operations_of};
use sd_call::{Request, well_formed};
use sd_name::local_name;
use std::alloc::{AllocError, Global};

const NO_ERROR: i32 = 0;

/// A request isn't well formed.
const BAD_PARAM: i32 = -65540;

/// A stop or an update is of what isn't there.
const BAD_REFERENCE: i32 = -65541;

/// A name isn't under `local`, or a service is registered where there is no host.
const UNSUPPORTED: i32 = -65544;

/// A name is held.
const NAME_CONFLICT: i32 = -65548;

/// The number of an operation is in use.
const INVALID: i32 = -65549;

/// A limit is reached.
const REFUSED: i32 = -65553;

/// The most live operations of a session.
const MOST_OPERATIONS: usize = 64;

/// The most registrations of a daemon over its life.
const MOST_OVER_LIFE: u64 = 1 << 63;

/// The code of a call: 0, or that of the first fault. They are the codes of `dns_sd.h`. Refused only for want of memory.
#[tactic(auto, unfolding(mdns_history::specs::Outcomes::call_code))]
pub fn call_code(
    alloc: Global,
    session: u64,
    op: u32,
    request: &Request,
    history: &[HistoryEntry],
) -> Result<i32, AllocError>
    requires { length history.now < 2 ^ 30 }
    ensures { IfOk result (λ code. code ≡ call_code session op request.now history.now) }
{
    let running = is_running(alloc, session, op, history)?;
    if is_start(request) && running {
        return Ok(INVALID);
    }
    let unknown = is_bad_reference(alloc, session, op, request, history)?;
    if unknown {
        return Ok(BAD_REFERENCE);
    }
    if !well_formed(request) {
        return Ok(BAD_PARAM);
    }
    if is_unsupported(request, history) {
        return Ok(UNSUPPORTED);
    }
    let refused = is_refused(alloc, session, request, history)?;
    if refused {
        return Ok(REFUSED);
    }
    let held = is_name_conflict(alloc, request, history)?;
    Ok(if held { NAME_CONFLICT } else { NO_ERROR })
}

fn is_start(request: &Request) -> bool
    ensures { result ≡ is_start request.now }
{
    !matches!(request, Request::Update { .. } | Request::Stop)
}

// Whether an operation is live.
fn is_running(
    alloc: Global,
    session: u64,
    op: u32,
    history: &[HistoryEntry],
) -> Result<bool, AllocError>
    ensures { IfOk result (λ running. running ≡ is_some (operation_request session op history.now)) }
{
    let request = operation_request(alloc, session, op, history)?;
    Ok(request.is_some())
}

// Whether a stop isn't of a live operation, or an update of no live registration.
fn is_bad_reference(
    alloc: Global,
    session: u64,
    op: u32,
    request: &Request,
    history: &[HistoryEntry],
) -> Result<bool, AllocError>
    requires { length history.now < 2 ^ 30 }
    ensures { IfOk result (λ unknown. unknown ≡ is_bad_reference session op request.now history.now) }
{
    match request {
        Request::Stop => {
            let running = is_running(alloc, session, op, history)?;
            Ok(!running)
        }
        Request::Update { .. } => {
            let live = may_update(alloc, session, op, history)?;
            Ok(!live)
        }
        _ => Ok(false),
    }
}

// Whether an operation is a live registration that hasn't failed.
fn may_update(
    alloc: Global,
    session: u64,
    op: u32,
    history: &[HistoryEntry],
) -> Result<bool, AllocError>
    requires { length history.now < 2 ^ 30 }
    ensures { IfOk result (λ live. live ≡ may_update session op (operation_request session op history.now) history.now) }
{
    match operation_request(alloc, session, op, history)? {
        Some(request) => is_live_registration(alloc, session, op, &request, history),
        None => Ok(false),
    }
}

// Whether an operation with this request is a registration that hasn't failed.
fn is_live_registration(
    alloc: Global,
    session: u64,
    op: u32,
    request: &Request,
    history: &[HistoryEntry],
) -> Result<bool, AllocError>
    requires { length history.now < 2 ^ 30 }
    ensures { IfOk result (λ live. live ≡ may_update session op (Some request.now) history.now) }
{
    let live = groups(alloc, history)?;
    Ok(is_register(request) && has_group(session, op, &live))
}

// Whether one of the groups is that of an operation.
fn has_group(session: u64, op: u32, live: &[LiveGroup]) -> bool
    ensures { result ≡ is_some (find (λ group. (group.session == session) && (group.op == op)) live.now) }
{
    match group_of(session, op, live) {
        Some(_) => true,
        None => false,
    }
}

// Whether a name isn't under `local`, or a service is registered where there is no host.
fn is_unsupported(request: &Request, history: &[HistoryEntry]) -> bool
    ensures { result ≡ is_unsupported request.now history.now }
{
    match request {
        Request::Query { name, .. } | Request::Address { name, .. } => !name.under(&local_name()),
        Request::Register { .. } => !has_host(history),
        _ => false,
    }
}

// Whether a daemon has a host.
fn has_host(history: &[HistoryEntry]) -> bool
    ensures { result ≡ is_some (host_of history.now) }
{
    match config_of(history) {
        Some(config) => config.host.is_some(),
        None => false,
    }
}

// Whether there is no room for another operation of the session, or for another registration.
fn is_refused(
    alloc: Global,
    session: u64,
    request: &Request,
    history: &[HistoryEntry],
) -> Result<bool, AllocError>
    ensures { IfOk result (λ refused. refused ≡ is_refused session request.now history.now) }
{
    let live = operations_of(alloc, session, history)?;
    Ok(
        is_start(request)
            && (live.len() >= MOST_OPERATIONS
                || (is_register(request) && registered_count(history) >= MOST_OVER_LIFE)),
    )
}
