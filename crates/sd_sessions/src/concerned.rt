// The operations that an event concerns.
ghost use Rattle.std.specs.Prelude.{◌≡◌, ℕ, true, IsTrue, IfOk, OnOk};
ghost use Rattle.std.specs.List.{AllByRecursion};
ghost use Rattle.mdns_happened.specs.Told.{told_by};
ghost use Rattle.sd_sessions.specs.Concerned.{asker_at, is_one_of, AreMore, AreToldMet, IsCallMet, IsStill, IsWalkMet};
ghost use Rattle.sd_operations.specs.Operations.{has_one};

use crate::walks::{earlier_of, later_of};
use mdns_happened::{Around, Happened, Registered, Walk};
use sd_index::{Asker, Askers};
use std::alloc::{AllocError, Global};

/// The operations that an event concerns: those that the index has under the names that were walked and whose records changed, the
/// registrations of which something is told, and that of an accepted call. Refused only for want of memory.
pub fn find_concerned(
    alloc: Global,
    askers: &Askers,
    happened: &Happened<'_>,
    around: &Around<'_>,
) -> Result<Vec<Asker>, AllocError>
    ensures walked { IfOk result (λ concerned. AllByRecursion (IsWalkMet askers.now.entries concerned.items) around.now.walks.now) }
    ensures told { IfOk result (λ concerned. AreToldMet concerned.items around.now.registered.now) }
    ensures call { IfOk result (λ concerned. IsCallMet concerned.items (told_by happened.now).call) }
{
    let mut concerned = Vec::new(alloc);
    put_walked(&mut concerned, askers, around.walks)?;
    put_told(&mut concerned, around.registered)?;
    put_called(&mut concerned, happened)?;
    Ok(concerned)
}

/// The numbers of the operations of a session that are among these. Refused only for want of memory.
pub fn numbers_of(alloc: Global, concerned: &[Asker], session: u64) -> Result<Vec<u32>, AllocError>
    ensures { IfOk result (λ numbers. (op : ℕ) → has_one numbers.items op ≡ is_one_of concerned.now (asker_at session op)) }
{
    let mut numbers = Vec::new(alloc);
    for asker in concerned {
        if asker.session == session {
            numbers.push(asker.op)?;
        }
    }
    Ok(numbers)
}

// Puts the operations that ask for the names that were walked and whose records changed.
fn put_walked(concerned: &mut Vec<Asker>, askers: &Askers, walks: &[Walk]) -> Result<(), AllocError>
    ensures kept { OnOk result (AreMore concerned.old.items concerned.new.items) }
    ensures put { OnOk result (AllByRecursion (IsWalkMet askers.now.entries concerned.new.items) walks.now) }
{
    for walk in walks {
        put_moved(concerned, askers, walk)?;
    }
    Ok(())
}

// Puts the operations that ask for a name that was walked, where its records changed.
fn put_moved(concerned: &mut Vec<Asker>, askers: &Askers, walk: &Walk) -> Result<(), AllocError>
    ensures kept { OnOk result (AreMore concerned.old.items concerned.new.items) }
    ensures put { OnOk result (IsWalkMet askers.now.entries concerned.new.items walk.now) }
{
    if is_still(walk) {
        return Ok(());
    }
    askers.put_askers(concerned, &walk.name)?;
    Ok(())
}

// Whether the records of a name that was walked are as they were.
fn is_still(walk: &Walk) -> bool
    ensures { IsTrue result → IsStill walk.now }
{
    earlier_of(walk).agree(&later_of(walk))
}

// Puts the registrations of which something is told.
fn put_told(concerned: &mut Vec<Asker>, told: &[Registered]) -> Result<(), AllocError>
    ensures kept { OnOk result (AreMore concerned.old.items concerned.new.items) }
    ensures put { OnOk result (AreToldMet concerned.new.items told.now) }
{
    for one in told {
        put_one(concerned, one.session, one.op)?;
    }
    Ok(())
}

// Puts the operation of an accepted call.
fn put_called(concerned: &mut Vec<Asker>, happened: &Happened<'_>) -> Result<(), AllocError>
    ensures kept { OnOk result (AreMore concerned.old.items concerned.new.items) }
    ensures put { OnOk result (IsCallMet concerned.new.items (told_by happened.now).call) }
{
    match happened {
        Happened::Called {
            session,
            op,
            code: 0,
            ..
        } => put_one(concerned, *session, *op),
        _ => Ok(()),
    }
}

// Puts one operation.
fn put_one(concerned: &mut Vec<Asker>, session: u64, op: u32) -> Result<(), AllocError>
    ensures kept { OnOk result (AreMore concerned.old.items concerned.new.items) }
    ensures put { OnOk result (is_one_of concerned.new.items (asker_at session op) ≡ true) }
{
    concerned.push(Asker { session, op })?;
    Ok(())
}
