// What hearings do to the records that are filed by name.
ghost use Rattle.std.specs.Prelude.{◌≡◌, ℕ, suc, ◌+◌, ◌<◌, ◌≤◌, ◌^◌, [], ◌∷◌, ◌++◌, List, length, map, filter, min, slice_get, not, ◌&&◌, ◌==◌, true, Some, None, IsSome};
ghost use Rattle.std.specs.List.Sorted.{IsPermutation};
ghost use Rattle.std.specs.Map.{keys_of, values_of};
ghost use Rattle.indexmap.specs.Layout.{set_value_at};
ghost use Rattle.mdns_history.specs.Lifetimes.{cuts, is_other};
ghost use Rattle.dns_name.specs.Names.{folded_eq};
ghost use Rattle.dns_record.specs.Records.{same, kind_of};
ghost use Rattle.by_name.specs.At.{at, owner_of};
ghost use Rattle.by_name.specs.Filed.{found};
ghost use Rattle.mdns_cache.specs.Flushed.{is_flushed_by, without_flush, put_off, after_put_off};
ghost use Rattle.mdns_cache.specs.Lifetimes.{hearing_at, shortened, renewed, after_hearings};
ghost use Rattle.mdns_cache.specs.Ends.{IsPlayed};
ghost use Rattle.mdns_cache.specs.Named.{AreFiled, AreOnce};

use crate::ends::{mend, mend_changed};
use crate::holdings::Holdings;
use crate::look::same_near;
use by_name::Place;
use dns_record::Rr;
use mdns_base::Moment;
use mdns_history::{Held, SharedRr};

/// Hears records one after another, where there is room for as many.
pub fn hear_all(
    records: &mut Holdings,
    nodes: &mut [usize],
    now: Moment,
    word: u32,
    mut heard: Vec<SharedRr>,
)
    requires filed { AreFiled records.old.entries }
    requires once { AreOnce (values_of records.old.entries) }
    requires played { IsPlayed (values_of records.old.entries) [] nodes.old }
    requires room { length records.old.entries + records.old.spare ≤ length nodes.old }
    requires size { length nodes.old < 2 ^ 60 }
    requires spare { length heard.items ≤ records.old.spare }
    ensures held { IsPermutation (after_hearings (values_of records.old.entries) (map (hearing_at now word) heard.items)) (values_of records.new.entries) }
    ensures filed { AreFiled records.new.entries }
    ensures once { AreOnce (values_of records.new.entries) }
    ensures played { IsPlayed (values_of records.new.entries) [] nodes.new }
    ensures room { length records.new.entries + records.new.spare ≡ length records.old.entries + records.old.spare }
    ensures spare { records.old.spare ≤ records.new.spare + length heard.items }
{
    heard.reverse();
    let mut near = 0;
    while let Some(rr) = heard.pop() {
        let one = renewed(now, word, rr);
        near = hear_one(records, nodes, one, heard.as_slice(), near);
    }
}

// Hears one record, which is as it is held then: lives of its name are cut, what it is the same as gives way to it, and it is held
// itself. Its flush is put off where one of these flushes the same, which are heard behind it. What it is the same as is looked for at the
// index `near` first, and the index behind it is the result: mostly the records of a packet stand side by side, as they were heard before.
fn hear_one(
    records: &mut Holdings,
    nodes: &mut [usize],
    one: Held,
    later: &[SharedRr],
    near: usize,
) -> usize
    requires renewed { one ≡ renewed (hearing_at one.heard one.word one.rr) }
    requires filed { AreFiled records.old.entries }
    requires once { AreOnce (values_of records.old.entries) }
    requires played { IsPlayed (values_of records.old.entries) [] nodes.old }
    requires room { length records.old.entries + records.old.spare ≤ length nodes.old }
    requires size { length nodes.old < 2 ^ 60 }
    requires spare { 0 < records.old.spare }
    ensures held { IsPermutation (after_put_off later.now (values_of records.old.entries) (hearing_at one.heard one.word one.rr)) (values_of records.new.entries) }
    ensures filed { AreFiled records.new.entries }
    ensures played { IsPlayed (values_of records.new.entries) [] nodes.new }
    ensures room { length records.new.entries + records.new.spare ≡ length records.old.entries + records.old.spare }
    ensures spare { records.old.spare ≤ records.new.spare + 1 }
{
    let rr: &Rr = &one.rr;
    shorten(records, nodes, one.heard, rr, later);
    if rr.ttl > 0 {
        renew(records, nodes, one, near)
    } else {
        near
    }
}

// Cuts the lives of records to a second where a hearing does so: a goodbye does, and a flush that isn't put off.
fn shorten(records: &mut Holdings, nodes: &mut [usize], now: Moment, rr: &Rr, later: &[SharedRr])
    requires filed { AreFiled records.old.entries }
    requires once { AreOnce (values_of records.old.entries) }
    requires played { IsPlayed (values_of records.old.entries) [] nodes.old }
    requires room { length records.old.entries ≤ length nodes.old }
    requires size { length nodes.old < 2 ^ 60 }
    ensures values { values_of records.new.entries ≡ map (shortened (hearing_at now 0 (put_off later.now rr.now))) (values_of records.old.entries) }
    ensures filed { AreFiled records.new.entries }
    ensures played { IsPlayed (values_of records.new.entries) [] nodes.new }
    ensures len { length records.new.entries ≡ length records.old.entries }
    ensures spare { records.new.spare ≡ records.old.spare }
{
    if is_flush_now(rr, later) {
        shorten_all(records, nodes, now, rr);
    } else if rr.ttl == 0 {
        take_back(records, nodes, now, rr);
    }
}

// Whether a record has the flush bit, and none of those that are heard behind it flushes the same.
fn is_flush_now(rr: &Rr, later: &[SharedRr]) -> bool
    ensures { result ≡ (rr.now.flush && not (is_flushed_by rr.now later.now)) }
{
    rr.flush && !is_flushed_by(rr, later)
}

// Whether one of some records flushes the same as this one would.
fn is_flushed_by(rr: &Rr, later: &[SharedRr]) -> bool
    ensures { result ≡ is_flushed_by rr.now later.now }
{
    later.iter().any(|other| flushes_same(other, rr))
}

// Whether a record has the flush bit, and the owner and the type of another.
fn flushes_same(other: &Rr, rr: &Rr) -> bool
    ensures { result ≡ (other.now.flush && (kind_of rr.now.rdata == kind_of other.now.rdata) && folded_eq rr.now.owner other.now.owner) }
{
    other.flush && rr.rdata.kind() == other.rdata.kind() && rr.owner.folded_eq(&other.owner)
}

// The same of a goodbye, whatever it flushes: it cuts the life of the record that is the same, if one is held.
fn take_back(records: &mut Holdings, nodes: &mut [usize], now: Moment, rr: &Rr)
    requires goodbye { rr.now.ttl ≡ 0 }
    requires filed { AreFiled records.old.entries }
    requires once { AreOnce (values_of records.old.entries) }
    requires played { IsPlayed (values_of records.old.entries) [] nodes.old }
    requires room { length records.old.entries ≤ length nodes.old }
    requires size { length nodes.old < 2 ^ 60 }
    ensures values { values_of records.new.entries ≡ map (shortened (hearing_at now 0 (without_flush rr.now))) (values_of records.old.entries) }
    ensures filed { AreFiled records.new.entries }
    ensures played { IsPlayed (values_of records.new.entries) [] nodes.new }
    ensures len { length records.new.entries ≡ length records.old.entries }
    ensures spare { records.new.spare ≡ records.old.spare }
{
    if let Some(index) = records.find(rr) {
        cut_at(records, nodes, index, now);
    }
}

// Cuts the lives of records to a second where a hearing does so, going over all records of the name.
fn shorten_all(records: &mut Holdings, nodes: &mut [usize], now: Moment, rr: &Rr)
    requires filed { AreFiled records.old.entries }
    requires played { IsPlayed (values_of records.old.entries) [] nodes.old }
    requires room { length records.old.entries ≤ length nodes.old }
    requires size { length nodes.old < 2 ^ 60 }
    ensures values { values_of records.new.entries ≡ map (shortened (hearing_at now 0 rr.now)) (values_of records.old.entries) }
    ensures filed { AreFiled records.new.entries }
    ensures played { IsPlayed (values_of records.new.entries) [] nodes.new }
    ensures len { length records.new.entries ≡ length records.old.entries }
    ensures spare { records.new.spare ≡ records.old.spare }
{
    let mut number = 0;
    let mut place = Place::new(&rr.owner, 0);
    while let Some(index) = records.index_of(&place) {
        shorten_at(records, nodes, index, now, rr);
        number += 1;
        place.go(number);
    }
}

// Cuts the life of the record at an index to a second where a hearing does so.
fn shorten_at(records: &mut Holdings, nodes: &mut [usize], index: usize, now: Moment, rr: &Rr)
    requires index { index < length records.old.entries }
    requires played { IsPlayed (values_of records.old.entries) [] nodes.old }
    requires room { length records.old.entries ≤ length nodes.old }
    requires size { length nodes.old < 2 ^ 60 }
    ensures entries { (one : Held) → slice_get (values_of records.old.entries) index ≡ Some one
        → records.new.entries ≡ set_value_at records.old.entries index (shortened (hearing_at now 0 rr.now) one) }
    ensures played { IsPlayed (values_of records.new.entries) [] nodes.new }
    ensures spare { records.new.spare ≡ records.old.spare }
{
    if records.values()[index].is_cut_by(now, rr) {
        cut_at(records, nodes, index, now);
    }
}

// Cuts the life of the record at an index to a second.
fn cut_at(records: &mut Holdings, nodes: &mut [usize], index: usize, now: Moment)
    requires index { index < length records.old.entries }
    requires played { IsPlayed (values_of records.old.entries) [] nodes.old }
    requires room { length records.old.entries ≤ length nodes.old }
    requires size { length nodes.old < 2 ^ 60 }
    ensures entries { (one : Held) → slice_get (values_of records.old.entries) index ≡ Some one
        → records.new.entries ≡ set_value_at records.old.entries index (record one { end = min (now + 1000) one.end }) }
    ensures played { IsPlayed (values_of records.new.entries) [] nodes.new }
    ensures spare { records.new.spare ≡ records.old.spare }
{
    let end = records.values()[index].end;
    records.set_end(index, (now.ms() + 1000).min(end));
    mend_changed(nodes, records.values(), index);
}

fn renewed(now: Moment, word: u32, rr: SharedRr) -> Held
    ensures { result ≡ renewed (hearing_at now word rr) }
{
    let end = now.ms() + rr.ttl_ms();
    Held {
        rr,
        heard: now,
        word,
        end,
    }
}

// Puts a record in place of the one that is the same, which is looked for at an index first, or behind the others of its name. The result
// is the index behind it.
fn renew(records: &mut Holdings, nodes: &mut [usize], one: Held, near: usize) -> usize
    requires filed { AreFiled records.old.entries }
    requires once { AreOnce (values_of records.old.entries) }
    requires played { IsPlayed (values_of records.old.entries) [] nodes.old }
    requires room { length records.old.entries < length nodes.old }
    requires size { length nodes.old < 2 ^ 60 }
    requires spare { 0 < records.old.spare }
    ensures held { IsPermutation (filter (is_other one.rr) (values_of records.old.entries) ++ one ∷ []) (values_of records.new.entries) }
    ensures filed { AreFiled records.new.entries }
    ensures played { IsPlayed (values_of records.new.entries) [] nodes.new }
    ensures room { length records.new.entries + records.new.spare ≡ length records.old.entries + records.old.spare }
    ensures spare { records.old.spare ≤ records.new.spare + 1 }
{
    match same_near(records, &one.rr, near) {
        Ok(index) => {
            put_at(records, nodes, index, one);
            index.saturating_add(1)
        }
        Err(place) => {
            push(records, nodes, place, one);
            records.len()
        }
    }
}

// Puts a record in place of the one at an index that is the same.
fn put_at(records: &mut Holdings, nodes: &mut [usize], index: usize, one: Held)
    requires filed { AreFiled records.old.entries }
    requires once { AreOnce (values_of records.old.entries) }
    requires same { (old : Held) × (slice_get (values_of records.old.entries) index ≡ Some old) × (same old.rr one.rr ≡ true) }
    requires played { IsPlayed (values_of records.old.entries) [] nodes.old }
    requires room { length records.old.entries < length nodes.old }
    requires size { length nodes.old < 2 ^ 60 }
    ensures held { IsPermutation (filter (is_other one.rr) (values_of records.old.entries) ++ one ∷ []) (values_of records.new.entries) }
    ensures filed { AreFiled records.new.entries }
    ensures played { IsPlayed (values_of records.new.entries) [] nodes.new }
    ensures len { length records.new.entries ≡ length records.old.entries }
    ensures spare { records.new.spare ≡ records.old.spare }
{
    records.put(index, one);
    mend_changed(nodes, records.values(), index);
}

// Puts a record behind the others of its name.
fn push(records: &mut Holdings, nodes: &mut [usize], place: Place, one: Held)
    requires filed { AreFiled records.old.entries }
    requires owner { place.owner ≡ owner_of one.rr.owner }
    requires absent { found place.owner place.number records.old.entries ≡ None }
    requires next { (number : ℕ) → suc number ≡ place.number → IsSome (found place.owner number records.old.entries) }
    requires played { IsPlayed (values_of records.old.entries) [] nodes.old }
    requires room { length records.old.entries < length nodes.old }
    requires size { length nodes.old < 2 ^ 60 }
    requires spare { 0 < records.old.spare }
    ensures entries { records.new.entries ≡ records.old.entries ++ (place, one) ∷ [] }
    ensures filed { AreFiled records.new.entries }
    ensures played { IsPlayed (values_of records.new.entries) [] nodes.new }
    ensures spare { records.new.spare + 1 ≡ records.old.spare }
{
    let index = records.len();
    records.push(place, one);
    mend(nodes, records.values(), index);
}
