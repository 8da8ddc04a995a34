// The replies to askers. (RFC 6762 5.4 and 6.7)
ghost use Rattle.std.specs.Prelude.{◌≡◌, ◌==◌, ◌<◌, ◌+◌, ◌-◌, ◌^◌, ◌++◌, [], ◌∷◌, filter, length, slice_get, map, not, IfOk, OnOk};
ghost use Rattle.std.specs.List.{flat_map, list_any};
ghost use Rattle.std.specs.Option.{option_and_then, option_copied};
ghost use Rattle.lists.specs.Lists.{each_once, ordered};
ghost use Rattle.dns_record.specs.Records.{record_cmp};
ghost use Rattle.dns_message.specs.Packing.{pack_legacy};
ghost use Rattle.mdns_history.specs.Hearings.{heard_in};
ghost use Rattle.mdns_history.specs.Sending.{entry_at, reply_at, reply_to, sent_unicasts, to_one};
ghost use Rattle.plain_history.specs.Kept.{kept_if};

use crate::sent::{each_to_one, to_one};
use dns_record::Rr;
use mdns_base::{MDNS_PORT, Moment};
use mdns_history::Sent;
use mdns_pack::{pack_legacy, pack_plain};
use plain_debts::{StandingDebt, due_unicasts};
use plain_history::{HeardMessage, HistoryEntry, heard_in, ordered_records};
use std::alloc::{AllocError, Global};

// The one reply to another port than 5353.
fn legacy_reply(alloc: Global, heard: &HeardMessage, rrs: &[Rr]) -> Result<Vec<Sent>, AllocError>
    ensures { IfOk result (λ sent. sent.items ≡ to_one heard.now.from (pack_legacy heard.now.message.id heard.now.message.questions rrs.now) ∷ []) }
{
    let questions = heard.message.questions.as_slice();
    let message = pack_legacy(alloc, heard.message.id, questions, rrs)?;
    let mut sent = Vec::new(alloc);
    sent.push(to_one(heard.from, message))?;
    Ok(sent)
}

/// The reply to the asker of a query with the records that are due. Refused only for want of memory.
pub fn reply_to(alloc: Global, heard: &HeardMessage, rrs: &[Rr]) -> Result<Vec<Sent>, AllocError>
    ensures { IfOk result (λ sent. sent.items ≡ reply_to heard.now rrs.now) }
{
    if heard.from.port != MDNS_PORT {
        return legacy_reply(alloc, heard, rrs);
    }
    let messages = pack_plain(alloc, rrs)?;
    each_to_one(alloc, heard.from, messages)
}

// Where the entry at a place stands in a history of a length, whose last entry stands first.
fn from_front(place: usize, len: usize) -> usize
    ensures { result ≡ len - (place + 1) }
{
    len.saturating_sub(1).saturating_sub(place)
}

// The entry that stands so far from the front of a history.
fn entry_from_front(history: &[HistoryEntry], place: usize) -> Option<&HistoryEntry>
    ensures { option_copied result ≡ slice_get history.now place }
{
    history.get(place)
}

// The entry at a place.
fn entry_at(place: usize, history: &[HistoryEntry]) -> Option<&HistoryEntry>
    ensures { option_copied result ≡ entry_at place history.now }
{
    entry_from_front(history, from_front(place, history.len()))
}

// The message that was heard with the entry at a place.
fn heard_at(
    alloc: Global,
    place: usize,
    history: &[HistoryEntry],
) -> Result<Option<HeardMessage>, AllocError>
    ensures { IfOk result (λ heard. heard ≡ option_and_then heard_in (entry_at place history.now)) }
{
    match entry_at(place, history) {
        Some(entry) => heard_in(alloc, entry.entry()),
        None => Ok(None),
    }
}

// Puts the record of a debt behind others, where its query stands at a place.
fn put_record_at(rrs: &mut Vec<Rr>, debt: &StandingDebt, place: usize) -> Result<(), AllocError>
    ensures { OnOk result (rrs.new.items ≡ rrs.old.items ++ kept_if (debt.now.place == place) debt.now.rr) }
{
    if debt.place == place {
        let rr = debt.rr.copy()?;
        rrs.push(rr)?;
    }
    Ok(())
}

// The records of the debts whose query stands at a place.
#[tactic(auto, using(crate::proofs::Lists::made_more))]
fn records_at(alloc: Global, due: &[StandingDebt], place: usize) -> Result<Vec<Rr>, AllocError>
    ensures { IfOk result (λ rrs. rrs.items ≡ map (λ debt. debt.rr) (filter (λ debt. debt.place == place) due.now)) }
{
    let mut rrs = Vec::new(alloc);
    for debt in due {
        put_record_at(&mut rrs, debt, place)?;
    }
    Ok(rrs)
}

/// The reply to the query at a place with what is due. Refused only for want of memory.
pub fn reply_at(
    alloc: Global,
    history: &[HistoryEntry],
    due: &[StandingDebt],
    place: usize,
) -> Result<Vec<Sent>, AllocError>
    ensures { IfOk result (λ sent. sent.items ≡ reply_at history.now due.now place) }
{
    let found = records_at(alloc, due, place)?;
    let rrs = ordered_records(found)?;
    match heard_at(alloc, place, history)? {
        Some(heard) => reply_to(alloc, &heard, &rrs),
        None => Ok(Vec::new(alloc)),
    }
}

// The places of the queries of debts.
fn places_of(alloc: Global, due: &[StandingDebt]) -> Result<Vec<usize>, AllocError>
    ensures { IfOk result (λ places. places.items ≡ map (λ debt. debt.place) due.now) }
{
    let mut places = Vec::new(alloc);
    for debt in due {
        places.push(debt.place)?;
    }
    Ok(places)
}

// Whether a place is among others.
fn is_among(places: &[usize], place: usize) -> bool
    ensures { result ≡ list_any (λ other. other == place) places.now }
{
    places.iter().any(|other| *other == place)
}

// Puts a place behind others, unless it is among some.
fn put_once(kept: &mut Vec<usize>, earlier: &[usize], place: usize) -> Result<(), AllocError>
    ensures { OnOk result (kept.new.items ≡ kept.old.items ++ kept_if (not (list_any (λ other. other == place) earlier.now)) place) }
{
    if !is_among(earlier, place) {
        kept.push(place)?;
    }
    Ok(())
}

// Each place once.
fn once(alloc: Global, places: &[usize]) -> Result<Vec<usize>, AllocError>
    ensures { IfOk result (λ kept. kept.items ≡ each_once (λ a b. a == b) places.now) }
{
    let mut kept = Vec::new(alloc);
    for (index, place) in places.iter().enumerate() {
        put_once(&mut kept, &places[..index], *place)?;
    }
    Ok(kept)
}

/// The replies to askers that are due at a moment, in the order of hearing. Refused only for want of memory.
pub fn sent_unicasts(
    alloc: Global,
    history: &[HistoryEntry],
    moment: Moment,
) -> Result<Vec<Sent>, AllocError>
    requires { length history.now < 2 ^ 30 }
    ensures { IfOk result (λ sent. sent.items ≡ sent_unicasts history.now moment) }
{
    let due = due_unicasts(alloc, history, moment)?;
    let all = places_of(alloc, &due)?;
    let places = once(alloc, &all)?;
    replies_at(alloc, history, &due, &places)
}

// The replies to the queries at some places.
fn replies_at(
    alloc: Global,
    history: &[HistoryEntry],
    due: &[StandingDebt],
    places: &[usize],
) -> Result<Vec<Sent>, AllocError>
    ensures { IfOk result (λ sent. sent.items ≡ flat_map (reply_at history.now due.now) places.now) }
{
    let mut sent = Vec::new(alloc);
    for place in places {
        let mut replies = reply_at(alloc, history, due, *place)?;
        sent.append(&mut replies)?;
    }
    Ok(sent)
}
