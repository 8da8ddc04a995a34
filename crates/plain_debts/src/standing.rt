// Which debts stand. (RFC 6762 7.1, 7.2 and 7.4)
ghost use Rattle.std.specs.Prelude.{◌≡◌, ◌<◌, ◌^◌, ◌++◌, filter, length, IfOk};
ghost use Rattle.std.specs.List.{list_any};
ghost use Rattle.mdns_history.specs.History.{is_tick};
ghost use Rattle.mdns_history.specs.Debts.{debts_made, is_ours, standing_debts, stays_open, strikes};
ghost use Rattle.plain_debts.specs.Meeting.{covers, left_open, met_by};

use crate::debt::StandingDebt;
use crate::last::is_multicast_in;
use crate::owed::is_ours;
use crate::query::debts_made;
use crate::ways::host_eq;
use dns_record::Rr;
use mdns_base::Dest;
use mdns_history::{Entry, Event};
use mdns_known::is_struck;
use plain_history::{HeardMessage, HistoryEntry, counted_records, heard_in, query_of};
use std::alloc::{AllocError, Global};

// Whether a later query takes a debt back.
fn strikes(debt: &StandingDebt, query: &Option<HeardMessage>) -> bool
    ensures { result ≡ strikes debt.now query.now }
{
    match query {
        Some(heard) => {
            debt.truncated
                && host_eq(&debt.from, &heard.from)
                && is_struck(heard.message.answers.as_slice(), &debt.rr)
        }
        None => false,
    }
}

// Whether another's record has the data of one's own and no less TTL.
fn covers(own: &Rr, other: &Rr) -> bool
    ensures { result ≡ covers own.now other.now }
{
    own.same(other) && own.ttl <= other.ttl
}

fn is_covered(own: &Rr, counted: &[Rr]) -> bool
    ensures { result ≡ list_any (covers own.now) counted.now }
{
    counted.iter().any(|other| covers(own, other))
}

fn is_tick(entry: &Entry) -> bool
    ensures { result ≡ is_tick entry.now.event }
{
    matches!(entry.event, Event::Tick)
}

// Whether an entry that heard these records meets a debt: one to all by a multicast or by another's, one to the asker by the tick
// that sends it.
fn is_met(debt: &StandingDebt, entry: &Entry, counted: &[Rr]) -> bool
    ensures { result ≡ met_by counted.now debt.now entry.now }
{
    match debt.to {
        Dest::All => is_multicast_in(&debt.rr, entry) || is_covered(&debt.rr, counted),
        Dest::One(_) => is_tick(entry) && debt.due <= entry.moment,
    }
}

// Whether an entry that heard this query or these records leaves a debt open.
fn is_left_open(
    entry: &Entry,
    query: &Option<HeardMessage>,
    counted: &[Rr],
    debt: &StandingDebt,
) -> bool
    ensures { result ≡ left_open query.now counted.now entry.now debt.now }
{
    !strikes(debt, query) && !is_met(debt, entry, counted)
}

// The debts that an entry leaves open which heard this query or these records.
fn left_open(
    alloc: Global,
    debts: Vec<StandingDebt>,
    entry: &Entry,
    query: &Option<HeardMessage>,
    counted: &[Rr],
) -> Result<Vec<StandingDebt>, AllocError>
    ensures { IfOk result (λ left. left.items ≡ filter (left_open query.now counted.now entry.now) debts.items) }
{
    let mut left = Vec::new(alloc);
    for debt in debts {
        if is_left_open(entry, query, counted, &debt) {
            left.push(debt)?;
        }
    }
    Ok(left)
}

// The debts that an entry leaves open.
fn still_open(
    alloc: Global,
    debts: Vec<StandingDebt>,
    entry: &Entry,
) -> Result<Vec<StandingDebt>, AllocError>
    ensures { IfOk result (λ left. left.items ≡ filter (stays_open entry.now) debts.items) }
{
    let heard = heard_in(alloc, entry)?;
    let query = query_of(heard);
    let again = heard_in(alloc, entry)?;
    let counted = counted_records(alloc, again)?;
    let left = left_open(alloc, debts, entry, &query, counted.as_slice())?;
    Ok(left)
}

// The debts whose record is the daemon's to send.
fn still_ours(
    alloc: Global,
    debts: Vec<StandingDebt>,
    history: &[HistoryEntry],
) -> Result<Vec<StandingDebt>, AllocError>
    requires { length history.now < 2 ^ 30 }
    ensures { IfOk result (λ ours. ours.items ≡ filter (λ debt. is_ours debt.rr history.now) debts.items) }
{
    let mut ours = Vec::new(alloc);
    for debt in debts {
        if is_ours(alloc, &debt.rr, history)? {
            ours.push(debt)?;
        }
    }
    Ok(ours)
}

// The debts behind an entry: those that it leaves open, and those that it makes.
fn behind_entry(
    alloc: Global,
    before: Vec<StandingDebt>,
    entry: &HistoryEntry,
    past: &[HistoryEntry],
) -> Result<Vec<StandingDebt>, AllocError>
    requires { length past.now < 2 ^ 30 }
    ensures { IfOk result (λ debts. debts.items ≡ filter (stays_open entry.now) before.items ++ debts_made entry.now past.now) }
{
    let mut debts = still_open(alloc, before, entry.entry())?;
    let mut made = debts_made(alloc, entry, past)?;
    debts.append(&mut made)?;
    Ok(debts)
}

/// The debts that stand, in the order of the queries: those that an entry made and each later one left open, while their record is
/// the daemon's to send. Refused only for want of memory.
#[tactic(auto, unfolding(mdns_history::specs::Debts::standing_debts))]
pub fn standing_debts(
    alloc: Global,
    history: &[HistoryEntry],
) -> Result<Vec<StandingDebt>, AllocError>
    requires { length history.now < 2 ^ 30 }
    ensures { IfOk result (λ debts. debts.items ≡ standing_debts history.now) }
{
    let mut debts = Vec::new(alloc);
    let mut place = history.len();
    while place > 0 {
        place -= 1;
        let all = behind_entry(alloc, debts, &history[place], &history[place + 1..])?;
        debts = still_ours(alloc, all, &history[place..])?;
    }
    Ok(debts)
}
