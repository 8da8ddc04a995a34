// Copies of records.
ghost use Rattle.std.specs.Prelude.{◌≡◌, ◌++◌, OnOk};

use crate::Rr;
use std::alloc::AllocError;

/// Puts copies of records behind others. Refused only for want of memory.
pub fn put_copies(records: &mut Vec<Rr>, others: &[Rr]) -> Result<(), AllocError>
    ensures { OnOk result (records.new.items ≡ records.old.items ++ others.now) }
{
    records.reserve(others.len())?;
    for rr in others {
        records.push(rr.copy()?)?;
    }
    Ok(())
}
