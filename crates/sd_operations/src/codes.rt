// How calls are answered.
ghost use Rattle.std.specs.Prelude.{◌≡◌, ◌^◌, ◌<◌, length};
ghost use Rattle.std.specs.List.{find};
ghost use Rattle.std.specs.Option.{option_copied};
ghost use Rattle.sd_call.specs.Requests.{is_register, is_start};
ghost use Rattle.mdns_history.specs.Sessions.{has_op, is_stop};
ghost use Rattle.sd_operations.specs.Codes.{kept_code, is_running, is_too_many, refers_to_none, is_foreign, updates_none};

use mdns_history::Operation;
use sd_call::{Request, well_formed};
use sd_name::local_name;

const NO_ERROR: i32 = 0;

const BAD_PARAM: i32 = -65540;

const BAD_REFERENCE: i32 = -65541;

const UNSUPPORTED: i32 = -65544;

const NAME_CONFLICT: i32 = -65548;

const INVALID: i32 = -65549;

const REFUSED: i32 = -65553;

/// The most live operations of a session.
const MOST_OPERATIONS: usize = 64;

/// What is known of registrations where a call comes.
#[derive(Clone, Copy, Drop)]
pub struct Registering {
    /// The daemon has a host, so services can be registered.
    pub hosted: bool,
    /// As many registrations were accepted as a daemon accepts over its life.
    pub spent: bool,
    /// The call's operation is a registration whose group is live.
    pub live: bool,
    /// The call registers a name that is to be kept, and a live group holds it.
    pub taken: bool,
}

/// The code of a call of a session with these operations: 0, or that of the first fault. They are the codes of `dns_sd.h`.
#[tactic(auto, unfolding(crate::specs::Codes::kept_code))]
pub fn call_code(known: Registering, operations: &[Operation], op: u32, request: &Request) -> i32
    ensures { result ≡ kept_code known operations.now op request.now }
{
    let starts = is_start(request);
    if starts && is_running(operations, op) {
        INVALID
    } else if refers_to_none(known, op, request, operations) {
        BAD_REFERENCE
    } else if !well_formed(request) {
        BAD_PARAM
    } else if is_foreign(known, request) {
        UNSUPPORTED
    } else if starts && is_too_many(known, request, operations) {
        REFUSED
    } else if known.taken {
        NAME_CONFLICT
    } else {
        NO_ERROR
    }
}

/// Whether a request begins an operation.
pub fn is_start(request: &Request) -> bool
    ensures { result ≡ is_start request.now }
{
    !matches!(request, Request::Update { .. } | Request::Stop)
}

/// Whether an operation of the number is live.
pub fn is_running(operations: &[Operation], op: u32) -> bool
    ensures { result ≡ is_running op operations.now }
{
    for operation in operations {
        if operation.op == op {
            return true;
        }
    }
    false
}

/// Whether a request registers a service.
pub fn registers(request: &Request) -> bool
    ensures { result ≡ is_register request.now }
{
    matches!(request, Request::Register { .. })
}

/// Whether a request stops an operation.
pub fn is_stop(request: &Request) -> bool
    ensures { result ≡ is_stop request.now }
{
    matches!(request, Request::Stop)
}

/// The operation of a number.
pub fn operation_of(operations: &[Operation], op: u32) -> Option<&Operation>
    ensures { option_copied result ≡ find (has_op op) operations.now }
{
    operations.iter().find(|operation| operation.op == op)
}

// Whether a request stops what isn't there, or updates what is no live registration.
fn refers_to_none(known: Registering, op: u32, request: &Request, operations: &[Operation]) -> bool
    ensures { result ≡ refers_to_none known op request.now operations.now }
{
    match request {
        Request::Stop => !is_running(operations, op),
        Request::Update { .. } => updates_none(known, op, operations),
        _ => false,
    }
}

// Whether an update is of no live registration.
fn updates_none(known: Registering, op: u32, operations: &[Operation]) -> bool
    ensures { result ≡ updates_none known (find (has_op op) operations.now) }
{
    match operation_of(operations, op) {
        Some(operation) => !(registers(&operation.request) && known.live),
        None => true,
    }
}

// Whether a request speaks of a name outside `local`, or registers a service where there is no host.
fn is_foreign(known: Registering, request: &Request) -> bool
    ensures { result ≡ is_foreign known request.now }
{
    match request {
        Request::Query { name, .. } | Request::Address { name, .. } => !name.under(&local_name()),
        Request::Register { .. } => !known.hosted,
        _ => false,
    }
}

// Whether a request that begins an operation begins one too many.
fn is_too_many(known: Registering, request: &Request, operations: &[Operation]) -> bool
    ensures { result ≡ is_too_many known request.now operations.now }
{
    operations.len() >= MOST_OPERATIONS || (registers(request) && known.spent)
}
