// What a call makes of the operations of its session.
ghost use Rattle.std.specs.Prelude.{◌≡◌, ◌≤◌, not, map, filter, length, IsTrue, IfOk};
ghost use Rattle.sd_call.specs.Requests.{well_formed, with_txt};
ghost use Rattle.txt_record.specs.Strings.{is_txt};
ghost use Rattle.lists.specs.Lists.{insert_by};
ghost use Rattle.mdns_history.specs.Sessions.{after_request, updated, has_op, by_op};
ghost use Rattle.plain_history.specs.Places.{count_below};

use crate::operation::LiveOperation;
use bytes::Bytes;
use sd_call::Request;
use std::alloc::{AllocError, Global};

/// The operations of a session after a call that was answered with code 0: a start adds one, a stop takes one out, an update
/// replaces the TXT of one. Refused only for want of memory.
pub fn after_request(
    alloc: Global,
    session: u64,
    op: u32,
    request: &Request,
    before: Vec<LiveOperation>,
) -> Result<Vec<LiveOperation>, AllocError>
    requires { IsTrue (well_formed request.now) }
    ensures { IfOk result (λ after. after.items ≡ after_request session op request.now before.items) }
{
    match request {
        Request::Update { txt } => with_update(alloc, &before, op, txt),
        Request::Stop => without(alloc, before, op),
        Request::Query { .. }
        | Request::Browse { .. }
        | Request::Resolve { .. }
        | Request::Address { .. }
        | Request::Register { .. } => {
            let request = request.copy(alloc)?;
            let started = LiveOperation {
                session,
                op,
                request,
            };
            with_start(before, started)
        }
    }
}

// The operations with one more, in its place by number.
#[tactic(auto, using(crate::proofs::OperationPlaces::insert_place))]
fn with_start(
    mut operations: Vec<LiveOperation>,
    started: LiveOperation,
) -> Result<Vec<LiveOperation>, AllocError>
    ensures { IfOk result (λ after. after.items ≡ insert_by by_op started operations.items) }
{
    let place = count_below(&operations, started.op);
    operations.insert(place, started)?;
    Ok(operations)
}

// How many operations stand before the first of this number or of a greater one.
fn count_below(operations: &[LiveOperation], op: u32) -> usize
    ensures value { result ≡ count_below op operations.now }
    ensures bound { result ≤ length operations.now }
{
    let mut count = 0;
    for operation in operations {
        if operation.op >= op {
            return count;
        }
        count += 1;
    }
    count
}

// The operations but those of a number.
fn without(
    alloc: Global,
    operations: Vec<LiveOperation>,
    op: u32,
) -> Result<Vec<LiveOperation>, AllocError>
    ensures { IfOk result (λ after. after.items ≡ filter (λ operation. not (has_op op operation)) operations.items) }
{
    let mut after = Vec::new(alloc);
    for operation in operations {
        if operation.op != op {
            after.push(operation)?;
        }
    }
    Ok(after)
}

// The operations with the TXT of one replaced.
fn with_update(
    alloc: Global,
    operations: &[LiveOperation],
    op: u32,
    txt: &Bytes,
) -> Result<Vec<LiveOperation>, AllocError>
    requires { IsTrue (is_txt txt.now) }
    ensures { IfOk result (λ after. after.items ≡ map (updated op txt.now) operations.now) }
{
    let mut after = Vec::new(alloc);
    for operation in operations {
        after.push(updated(alloc, operation, op, txt)?)?;
    }
    Ok(after)
}

fn updated(
    alloc: Global,
    operation: &LiveOperation,
    op: u32,
    txt: &Bytes,
) -> Result<LiveOperation, AllocError>
    requires { IsTrue (is_txt txt.now) }
    ensures { IfOk result (λ after. after ≡ updated op txt.now operation.now) }
{
    if operation.op != op {
        return operation.copy(alloc);
    }
    Ok(LiveOperation {
        session: operation.session,
        op: operation.op,
        request: with_txt(alloc, &operation.request, txt)?,
    })
}

// A registration with its TXT replaced; every other request as it is.
fn with_txt(alloc: Global, request: &Request, txt: &Bytes) -> Result<Request, AllocError>
    requires txt { IsTrue (is_txt txt.now) }
    requires well_formed { IsTrue (well_formed request.now) }
    ensures value { IfOk result (λ after. after ≡ with_txt txt.now request.now) }
    ensures well_formed { IfOk result (λ after. IsTrue (well_formed after)) }
{
    match request {
        Request::Register {
            label,
            regtype,
            port,
            norename,
            ..
        } => Ok(Request::Register {
            label: label.copy(alloc)?,
            regtype: regtype.copy(alloc)?,
            port: *port,
            norename: *norename,
            txt: txt.clone()?,
        }),
        _ => request.copy(alloc),
    }
}
