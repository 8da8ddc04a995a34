// The operations of some numbers.
ghost use Rattle.std.specs.Prelude.{◌≡◌, IfOk};
ghost use Rattle.mdns_history.specs.Sessions.{after_request};
ghost use Rattle.sd_operations.specs.Operations.{AreRising, has_one, of_numbers};

use crate::call::Call;
use crate::running::run;
use mdns_history::Operation;
use std::alloc::{AllocError, Global};

/// The operations of some numbers after a call of their session, copied; the others are left alone. Refused only for want of memory.
pub fn concerned_after(
    alloc: Global,
    operations: &[Operation],
    session: u64,
    call: &Call,
    numbers: &[u32],
) -> Result<Vec<Operation>, AllocError>
    requires { AreRising operations.now }
    ensures { IfOk result (λ after. after.items ≡ after_request session call.now.op call.now.request (of_numbers numbers.now operations.now)) }
{
    let mut some = of_numbers(alloc, operations, numbers)?;
    let call = call.copy(alloc)?;
    some.reserve(1)?;
    run(&mut some, session, call);
    Ok(some)
}

// The operations of these numbers, copied.
fn of_numbers(
    alloc: Global,
    operations: &[Operation],
    numbers: &[u32],
) -> Result<Vec<Operation>, AllocError>
    ensures { IfOk result (λ some. some.items ≡ of_numbers numbers.now operations.now) }
{
    let mut some = Vec::new(alloc);
    for operation in operations {
        if has_one(numbers, operation.op) {
            some.push(operation.copy(alloc)?)?;
        }
    }
    Ok(some)
}

/// Whether a number is one of several.
pub fn has_one(numbers: &[u32], op: u32) -> bool
    ensures { result ≡ has_one numbers.now op }
{
    numbers.iter().any(|number| *number == op)
}
