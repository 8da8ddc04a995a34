// Which debts are due, and which records a tick releases for them. (RFC 6762 6)
ghost use Rattle.std.specs.Prelude.{◌≡◌, ◌<◌, ◌^◌, ◌&&◌, filter, length, map, not, nat_le, IfOk};
ghost use Rattle.std.specs.List.{list_any};
ghost use Rattle.mdns_base.specs.declared.host.Dest.TheVariants.{All};
ghost use Rattle.mdns_base.specs.Hosts.{dest_eq};
ghost use Rattle.lists.specs.Lists.{ordered};
ghost use Rattle.dns_record.specs.Records.{record_cmp, same};
ghost use Rattle.mdns_history.specs.Multicasts.{due_multicasts, due_unicasts, may_go, released_records};

use crate::debt::StandingDebt;
use crate::last::{is_long_ago, last_multicast};
use crate::standing::standing_debts;
use dns_record::Rr;
use mdns_base::{Dest, Moment};
use plain_history::{HistoryEntry, ordered_records};
use std::alloc::{AllocError, Global};

/// The least time between two multicasts of a record, in ms.
const MULTICAST_GAP: u64 = 1000;

/// The least time between two multicasts of a record that a probe asks for, in ms.
const DEFENCE_GAP: u64 = 250;

// Whether a debt goes to all.
fn is_to_all(debt: &StandingDebt) -> bool
    ensures { result ≡ dest_eq debt.now.to All }
{
    matches!(debt.to, Dest::All)
}

// Whether a debt goes to all and is due at a moment.
fn is_due_multicast(debt: &StandingDebt, moment: Moment) -> bool
    ensures { result ≡ (dest_eq debt.now.to All && nat_le debt.now.due moment) }
{
    is_to_all(debt) && debt.due <= moment.ms()
}

// Whether a debt goes to the asker and is due at a moment.
fn is_due_unicast(debt: &StandingDebt, moment: Moment) -> bool
    ensures { result ≡ (not (dest_eq debt.now.to All) && nat_le debt.now.due moment) }
{
    !is_to_all(debt) && debt.due <= moment.ms()
}

/// The debts to all that are due at a moment. Refused only for want of memory.
#[tactic(auto, unfolding(mdns_history::specs::Multicasts::due_multicasts))]
pub fn due_multicasts(
    alloc: Global,
    history: &[HistoryEntry],
    moment: Moment,
) -> Result<Vec<StandingDebt>, AllocError>
    requires { length history.now < 2 ^ 30 }
    ensures { IfOk result (λ due. due.items ≡ due_multicasts history.now moment) }
{
    let mut due = Vec::new(alloc);
    for debt in standing_debts(alloc, history)? {
        if is_due_multicast(&debt, moment) {
            due.push(debt)?;
        }
    }
    Ok(due)
}

/// The debts to askers that are due at a moment. Refused only for want of memory.
#[tactic(auto, unfolding(mdns_history::specs::Multicasts::due_unicasts))]
pub fn due_unicasts(
    alloc: Global,
    history: &[HistoryEntry],
    moment: Moment,
) -> Result<Vec<StandingDebt>, AllocError>
    requires { length history.now < 2 ^ 30 }
    ensures { IfOk result (λ due. due.items ≡ due_unicasts history.now moment) }
{
    let mut due = Vec::new(alloc);
    for debt in standing_debts(alloc, history)? {
        if is_due_unicast(&debt, moment) {
            due.push(debt)?;
        }
    }
    Ok(due)
}

// Whether a probe asks for a record.
fn is_probed(due: &[StandingDebt], rr: &Rr) -> bool
    ensures { result ≡ list_any (λ debt. debt.probing && same debt.rr rr.now) due.now }
{
    due.iter().any(|debt| debt.probing && debt.rr.same(rr))
}

/// Whether the time since the last multicast lets a record go at a moment: a second, or a quarter where one of the debts that
/// are due is of a probe and of the record.
pub fn may_go(history: &[HistoryEntry], moment: Moment, due: &[StandingDebt], rr: &Rr) -> bool
    ensures { result ≡ may_go history.now moment due.now rr.now }
{
    is_long_ago(MULTICAST_GAP, moment, last_multicast(rr, history))
        || (is_probed(due, rr) && is_long_ago(DEFENCE_GAP, moment, last_multicast(rr, history)))
}

// The records of debts.
fn records_of(alloc: Global, debts: &[StandingDebt]) -> Result<Vec<Rr>, AllocError>
    ensures { IfOk result (λ rrs. rrs.items ≡ map (λ debt. debt.rr) debts.now) }
{
    let mut rrs = Vec::new(alloc);
    for debt in debts {
        let rr = debt.rr.copy()?;
        rrs.push(rr)?;
    }
    Ok(rrs)
}

// The records that the time since their last multicast lets go, with debts that are due.
fn free_records(
    alloc: Global,
    rrs: Vec<Rr>,
    history: &[HistoryEntry],
    moment: Moment,
    due: &[StandingDebt],
) -> Result<Vec<Rr>, AllocError>
    ensures { IfOk result (λ free. free.items ≡ filter (may_go history.now moment due.now) rrs.items) }
{
    let mut free = Vec::new(alloc);
    for rr in rrs {
        if may_go(history, moment, due, &rr) {
            free.push(rr)?;
        }
    }
    Ok(free)
}

// The records that a tick releases for debts that are due.
fn released_for(
    alloc: Global,
    history: &[HistoryEntry],
    moment: Moment,
    due: &[StandingDebt],
) -> Result<Vec<Rr>, AllocError>
    ensures { IfOk result (λ rrs. rrs.items ≡ ordered record_cmp (filter (may_go history.now moment due.now) (map (λ debt. debt.rr) due.now))) }
{
    let rrs = records_of(alloc, due)?;
    let free = free_records(alloc, rrs, history, moment, due)?;
    ordered_records(free)
}

/// The records that a tick at a moment releases for debts, in record order. Refused only for want of memory.
pub fn released_records(
    alloc: Global,
    history: &[HistoryEntry],
    moment: Moment,
) -> Result<Vec<Rr>, AllocError>
    requires { length history.now < 2 ^ 30 }
    ensures { IfOk result (λ rrs. rrs.items ≡ released_records history.now moment) }
{
    let due = due_multicasts(alloc, history, moment)?;
    let rrs = released_for(alloc, history, moment, &due)?;
    Ok(rrs)
}
