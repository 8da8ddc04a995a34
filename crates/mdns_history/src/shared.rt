// Records that several hold together.
ghost use Rattle.std.specs.Prelude.{◌≡◌, ◌++◌, IfOk, OnOk};

use dns_record::Rr;
use lists::List;
use std::alloc::{AllocError, Global};
use std::marker::Model;
use std::ops::Deref;
use std::sync::Arc;

/// A record that several hold together, and nobody changes: one that was heard is held by the cache and by who looks at it, and
/// nothing of it is copied. A contract sees the record.
#[derive(Drop)]
pub struct SharedRr {
    rr: Arc<Rr>,
}

/// Shared records, in an order.
pub type SharedRrs = List<SharedRr>;

impl Model for SharedRr {
    ghost use Rattle.std.specs.Arc.{arc_value};
    ghost use Rattle.dns_record.specs.declared.record.Rr.{Rr};

    ghost Value = { Rr };

    ghost view = { λ s. arc_value s.rr };
}

impl SharedRr {
    /// A record that has one holder. Refused only for want of memory.
    pub fn new(alloc: Global, rr: Rr) -> Result<SharedRr, AllocError>
        ensures { IfOk result (λ shared. shared ≡ rr) }
    {
        Ok(SharedRr {
            rr: Arc::new(alloc, rr)?,
        })
    }

    /// The same record for one more holder. It takes no memory, and is refused only where 2^63 hold it.
    pub fn share(&self) -> Result<SharedRr, AllocError>
        ensures { IfOk result (λ shared. shared ≡ self.now) }
    {
        Ok(SharedRr {
            rr: Arc::try_clone(&self.rr)?,
        })
    }
}

// What a shared record is read as: the record.
impl Deref for SharedRr {
    type Target = Rr;

    ghost deref_gives = { λ shared rr. rr ≡ shared };

    fn deref(&self) -> &Rr
        ensures { result.now ≡ self.now }
    {
        &self.rr
    }
}

/// Puts copies of records, to be shared, behind others. Refused only for want of memory.
pub fn put_shared(
    alloc: Global,
    records: &mut Vec<SharedRr>,
    others: &[Rr],
) -> Result<(), AllocError>
    ensures { OnOk result (records.new.items ≡ records.old.items ++ others.now) }
{
    records.reserve(others.len())?;
    for rr in others {
        records.push(SharedRr::new(alloc, rr.copy()?)?)?;
    }
    Ok(())
}
