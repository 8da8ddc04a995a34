// What a query is owed. (RFC 6762 6, 6.3, 7.1 and 7.2)
ghost use Rattle.std.specs.Prelude.{◌≡◌, ◌<◌, ◌^◌, ◌++◌, Some, length, map, not, filter, IfOk, OnOk};
ghost use Rattle.std.specs.List.{flat_map, list_all, list_any};
ghost use Rattle.lists.specs.Lists.{each_once};
ghost use Rattle.plain_history.specs.Kept.{kept_if};
ghost use Rattle.mdns_history.specs.Debts.{debt_of, debts_from, debts_made, is_struck, is_unique, owed_by, owed_eq, owed_for, owed_to};

use crate::debt::{OwedRecord, StandingDebt};
use crate::owed::owed_to;
use crate::ways::{debt_wait, dest_eq, way_of};
use dns_record::{Question, Rr};
use mdns_known::is_struck;
use plain_history::{HeardMessage, HistoryEntry, heard_in, query_of};
use std::alloc::{AllocError, Global};

// Whether the answers that a query lists silence a record.
fn is_silenced(heard: &HeardMessage, rr: &Rr) -> bool
    ensures { result ≡ is_struck heard.now.message.answers rr.now }
{
    is_struck(heard.message.answers.as_slice(), rr)
}

// What a question of a query is owed that the query's own answers don't silence.
fn unstruck(
    alloc: Global,
    heard: &HeardMessage,
    past: &[HistoryEntry],
    question: &Question,
) -> Result<Vec<Rr>, AllocError>
    requires { length past.now < 2 ^ 30 }
    ensures { IfOk result (λ rrs. rrs.items ≡ filter (λ rr. not (is_struck heard.now.message.answers rr)) (owed_to past.now question.now)) }
{
    let mut rrs = Vec::new(alloc);
    for rr in owed_to(alloc, past, question)? {
        if !is_silenced(heard, &rr) {
            rrs.push(rr)?;
        }
    }
    Ok(rrs)
}

// What a query's question is owed and isn't struck by its own answers, with the ways.
fn owed_for(
    alloc: Global,
    heard: &HeardMessage,
    entry: &HistoryEntry,
    past: &[HistoryEntry],
    question: &Question,
) -> Result<Vec<OwedRecord>, AllocError>
    requires { length past.now < 2 ^ 30 }
    ensures { IfOk result (λ owed. owed.items ≡ owed_for heard.now entry.now past.now question.now) }
{
    let mut owed = Vec::new(alloc);
    for rr in unstruck(alloc, heard, past, question)? {
        let to = way_of(heard, entry, past, question, &rr);
        owed.push(OwedRecord { rr, to })?;
    }
    Ok(owed)
}

// Whether two owed records and their ways are one.
fn owed_eq(left: &OwedRecord, right: &OwedRecord) -> bool
    ensures { result ≡ owed_eq left.now right.now }
{
    left.rr.same(&right.rr) && dest_eq(&left.to, &right.to)
}

// Whether one of some owed records is one with another.
fn is_among(owed: &[OwedRecord], one: &OwedRecord) -> bool
    ensures { result ≡ list_any (λ other. owed_eq other one.now) owed.now }
{
    owed.iter().any(|other| owed_eq(other, one))
}

// An equal record and way.
fn copied(one: &OwedRecord) -> Result<OwedRecord, AllocError>
    ensures { IfOk result (λ copy. copy ≡ one.now) }
{
    let rr = one.rr.copy()?;
    Ok(OwedRecord { rr, to: one.to })
}

// Puts an owed record behind others, unless it is among some.
fn put_once(
    kept: &mut Vec<OwedRecord>,
    earlier: &[OwedRecord],
    one: &OwedRecord,
) -> Result<(), AllocError>
    ensures { OnOk result (kept.new.items ≡ kept.old.items ++ kept_if (not (list_any (λ other. owed_eq other one.now) earlier.now)) one.now) }
{
    if !is_among(earlier, one) {
        let copy = copied(one)?;
        kept.push(copy)?;
    }
    Ok(())
}

// Each record and way once.
fn once(alloc: Global, owed: &[OwedRecord]) -> Result<Vec<OwedRecord>, AllocError>
    ensures { IfOk result (λ kept. kept.items ≡ each_once owed_eq owed.now) }
{
    let mut kept = Vec::new(alloc);
    for (place, one) in owed.iter().enumerate() {
        put_once(&mut kept, &owed[..place], one)?;
    }
    Ok(kept)
}

// What all questions of a query are owed.
fn owed_for_all(
    alloc: Global,
    heard: &HeardMessage,
    entry: &HistoryEntry,
    past: &[HistoryEntry],
) -> Result<Vec<OwedRecord>, AllocError>
    requires { length past.now < 2 ^ 30 }
    ensures { IfOk result (λ owed. owed.items ≡ flat_map (owed_for heard.now entry.now past.now) heard.now.message.questions) }
{
    let mut all = Vec::new(alloc);
    for question in heard.message.questions.as_slice() {
        let mut owed = owed_for(alloc, heard, entry, past, question)?;
        all.append(&mut owed)?;
    }
    Ok(all)
}

/// All that a query is owed which an entry heard behind a history, each record and way once. Refused only for want of memory.
pub fn owed_by(
    alloc: Global,
    heard: &HeardMessage,
    entry: &HistoryEntry,
    past: &[HistoryEntry],
) -> Result<Vec<OwedRecord>, AllocError>
    requires { length past.now < 2 ^ 30 }
    ensures { IfOk result (λ owed. owed.items ≡ owed_by heard.now entry.now past.now) }
{
    let owed = owed_for_all(alloc, heard, entry, past)?;
    once(alloc, &owed)
}

// Whether all owed records are unique.
fn are_unique(owed: &[OwedRecord]) -> bool
    ensures { result ≡ list_all (λ one. is_unique one.0) owed.now }
{
    owed.iter().all(|one| one.rr.flush)
}

// The debt of an owed record, which is one of all that its query is owed.
fn debt_of(
    heard: &HeardMessage,
    entry: &HistoryEntry,
    past: &[HistoryEntry],
    all: &[OwedRecord],
    owed: OwedRecord,
) -> StandingDebt
    ensures { result ≡ debt_of heard.now entry.now past.now (list_all (λ one. is_unique one.0) all.now) owed }
{
    let wait = debt_wait(heard, entry.entry().word, are_unique(all));
    StandingDebt {
        place: past.len(),
        from: heard.from,
        truncated: heard.message.truncated,
        probing: 0 < heard.message.authority.as_slice().len(),
        rr: owed.rr,
        to: owed.to,
        due: entry.moment().ms() + wait,
    }
}

// The debts of all that a query is owed.
fn debts_for(
    alloc: Global,
    heard: &HeardMessage,
    entry: &HistoryEntry,
    past: &[HistoryEntry],
    owed: &[OwedRecord],
) -> Result<Vec<StandingDebt>, AllocError>
    ensures { IfOk result (λ debts. debts.items ≡ map (debt_of heard.now entry.now past.now (list_all (λ one. is_unique one.0) owed.now)) owed.now) }
{
    let mut debts = Vec::new(alloc);
    for one in owed {
        let copy = copied(one)?;
        debts.push(debt_of(heard, entry, past, owed, copy))?;
    }
    Ok(debts)
}

// The debts of a query.
fn debts_from(
    alloc: Global,
    heard: &HeardMessage,
    entry: &HistoryEntry,
    past: &[HistoryEntry],
) -> Result<Vec<StandingDebt>, AllocError>
    requires { length past.now < 2 ^ 30 }
    ensures { IfOk result (λ debts. debts.items ≡ debts_from (Some heard.now) entry.now past.now) }
{
    let owed = owed_by(alloc, heard, entry, past)?;
    let debts = debts_for(alloc, heard, entry, past, &owed)?;
    Ok(debts)
}

/// The debts that an entry makes behind a history: those of the query that it heard. Refused only for want of memory.
#[tactic(auto, unfolding(mdns_history::specs::Debts::debts_made))]
pub fn debts_made(
    alloc: Global,
    entry: &HistoryEntry,
    past: &[HistoryEntry],
) -> Result<Vec<StandingDebt>, AllocError>
    requires { length past.now < 2 ^ 30 }
    ensures { IfOk result (λ debts. debts.items ≡ debts_made entry.now past.now) }
{
    let heard = heard_in(alloc, entry.entry())?;
    match query_of(heard) {
        Some(query) => debts_from(alloc, &query, entry, past),
        None => Ok(Vec::new(alloc)),
    }
}
