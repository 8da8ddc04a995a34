// What a call makes of the operations of its session.
ghost use Rattle.std.specs.Prelude.{◌≡◌, ◌<◌, ◌≤◌, not, map, filter, length, position, true, vec_len, vec_capacity};
ghost use Rattle.std.specs.Option.{is_some};
ghost use Rattle.lists.specs.Lists.{insert_by};
ghost use Rattle.sd_call.specs.Requests.{with_txt};
ghost use Rattle.mdns_history.specs.Sessions.{after_request, updated, has_op, by_op};
ghost use Rattle.sd_operations.specs.Operations.{AreRising, after_own, count_below};

use crate::call::Call;
use bytes::Bytes;
use mdns_history::Operation;
use sd_call::Request;

/// Makes of the operations of a session what its own call makes of them, where there is one. It takes no memory.
pub fn run_own(operations: &mut Vec<Operation>, session: u64, call: Option<Call>)
    requires rising { AreRising operations.old.items }
    requires room { is_some call ≡ true → vec_len operations.old < vec_capacity operations.old }
    ensures { operations.new.items ≡ after_own session call operations.old.items }
{
    if let Some(call) = call {
        run(operations, session, call);
    }
}

/// Makes of the operations of a session what a call makes of them: a start adds one, for which there is room, a stop takes one
/// out, an update replaces the TXT of one. It takes no memory.
pub fn run(operations: &mut Vec<Operation>, session: u64, call: Call)
    requires rising { AreRising operations.old.items }
    requires room { vec_len operations.old < vec_capacity operations.old }
    ensures { operations.new.items ≡ after_request session call.op call.request operations.old.items }
{
    let Call { op, request } = call;
    match request {
        Request::Update { txt } => replace_txt(operations, op, txt),
        Request::Stop => take_out(operations, op),
        Request::Query { .. }
        | Request::Browse { .. }
        | Request::Resolve { .. }
        | Request::Address { .. }
        | Request::Register { .. } => {
            let started = Operation {
                session,
                op,
                request,
            };
            put_in(operations, started);
        }
    }
}

// Puts an operation in its place by number.
#[tactic(auto, using(crate::proofs::OperationPlaces::insert_place))]
fn put_in(operations: &mut Vec<Operation>, started: Operation)
    requires { vec_len operations.old < vec_capacity operations.old }
    ensures { operations.new.items ≡ insert_by by_op started operations.old.items }
{
    let place = count_below(operations, started.op);
    let _ = operations.insert(place, started);
}

// How many operations stand before the first of this number or of a greater one.
fn count_below(operations: &[Operation], op: u32) -> usize
    ensures value { result ≡ count_below op operations.now }
    ensures bound { result ≤ length operations.now }
{
    let mut count = 0;
    for operation in operations {
        if operation.op >= op {
            return count;
        }
        count += 1;
    }
    count
}

// Takes the operations of a number out.
fn take_out(operations: &mut Vec<Operation>, op: u32)
    ensures { operations.new.items ≡ filter (λ operation. not (has_op op operation)) operations.old.items }
{
    operations.retain(|operation| operation.op != op);
}

// Replaces the TXT of the operation of a number.
fn replace_txt(operations: &mut [Operation], op: u32, txt: Bytes)
    requires { AreRising operations.old }
    ensures { operations.new ≡ map (updated op txt) operations.old }
{
    match place_of(operations, op) {
        Some(place) => update(&mut operations[place].request, txt),
        None => {}
    }
}

// The place of the operation of a number.
fn place_of(operations: &[Operation], op: u32) -> Option<usize>
    ensures { result ≡ position (has_op op) operations.now }
{
    operations.iter().position(|operation| operation.op == op)
}

// Replaces the TXT of a registration; every other request stays as it is.
fn update(request: &mut Request, new: Bytes)
    ensures { request.new ≡ with_txt new request.old }
{
    if let Request::Register { txt, .. } = request {
        *txt = new;
    }
}
