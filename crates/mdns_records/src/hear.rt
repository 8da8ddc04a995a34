// What hearings do to the records of a name, in a list of their own, which shares them.
ghost use Rattle.std.specs.Prelude.{◌≡◌, ◌+◌, ◌<◌, ◌≤◌, ◌^◌, ◌&&◌, ◌++◌, ◌∷◌, [], map, filter, length, position, IfOk, IfSome, OnOk};
ghost use Rattle.mdns_history.specs.Lifetimes.{cuts, is_live_at, is_other};
ghost use Rattle.mdns_cache.specs.Lifetimes.{hearing_at, shortened, renewed, after_hearing};
ghost use Rattle.mdns_records.specs.After.{held_after, after_rest, is_named};

use dns_name::Name;
use dns_record::Rr;
use mdns_happened::When;
use mdns_history::{Held, SharedRr, drop_same};
use std::alloc::{AllocError, Global};

/// The records of a name after an event that brings these records, made of those before it. Refused only for want of memory.
pub fn heard_copy(
    alloc: Global,
    earlier: &[Held],
    name: &Name,
    when: When,
    heard: &[SharedRr],
) -> Result<Vec<Held>, AllocError>
    ensures { IfOk result (λ later. later.items ≡ held_after when.moment when.word (filter (is_named name.now) heard.now) earlier.now) }
{
    match first_of(name, heard) {
        Some(first) => {
            let mut later = first_heard_copy(alloc, earlier, when, &heard[first])?;
            hear_all(&mut later, name, when, &heard[first + 1..])?;
            Ok(later)
        }
        None => {
            let later = live_copies(alloc, earlier, when)?;
            Ok(later)
        }
    }
}

// The place of the first of some records that is of a name.
fn first_of(name: &Name, heard: &[SharedRr]) -> Option<usize>
    ensures is { result ≡ position (is_named name.now) heard.now }
    ensures within { IfSome result (λ first. first < length heard.now) }
{
    heard.iter().position(|rr| rr.owner.folded_eq(name))
}

// The records that are live, once one more is heard: what that is the same as isn't among them.
fn first_heard_copy(
    alloc: Global,
    earlier: &[Held],
    when: When,
    rr: &SharedRr,
) -> Result<Vec<Held>, AllocError>
    ensures { IfOk result (λ later. later.items ≡ after_hearing (filter (is_live_at when.moment) earlier.now) (hearing_at when.moment when.word rr.now)) }
{
    let one: &Rr = rr;
    if one.ttl == 0 {
        let mut later = live_copies(alloc, earlier, when)?;
        shorten(&mut later, when, one);
        return Ok(later);
    }
    let mut later = other_copies(alloc, earlier, when, one)?;
    renew(&mut later, when, rr)?;
    Ok(later)
}

// Those of the records that are live then.
fn live_copies(alloc: Global, held: &[Held], when: When) -> Result<Vec<Held>, AllocError>
    ensures { IfOk result (λ live. live.items ≡ filter (is_live_at when.moment) held.now) }
{
    let mut live = Vec::with_capacity(alloc, held.len())?;
    for one in held {
        if one.is_live(when.at()) {
            live.push(one.copy()?)?;
        }
    }
    Ok(live)
}

// Those of them that aren't the same as a record. There is room for one more: most names own one record of a packet.
fn other_copies(alloc: Global, held: &[Held], when: When, rr: &Rr) -> Result<Vec<Held>, AllocError>
    ensures { IfOk result (λ live. live.items ≡ filter (λ one. is_live_at when.moment one && is_other rr.now one) held.now) }
{
    let mut live = Vec::with_capacity(alloc, held.len().saturating_add(1))?;
    for one in held {
        if is_live_other(one, when, rr) {
            live.push(one.copy()?)?;
        }
    }
    Ok(live)
}

// Whether a record is live then, and not the same as another.
fn is_live_other(one: &Held, when: When, rr: &Rr) -> bool
    ensures { result ≡ (is_live_at when.moment one.now && is_other rr.now one.now) }
{
    one.is_live(when.at()) && !one.rr.same(rr)
}

// Hears those of the records that are of a name, one after another.
fn hear_all(
    held: &mut Vec<Held>,
    name: &Name,
    when: When,
    heard: &[SharedRr],
) -> Result<(), AllocError>
    ensures { OnOk result (held.new.items ≡ after_rest when.moment when.word name.now held.old.items heard.now) }
{
    for rr in heard {
        if rr.owner.folded_eq(name) {
            hear_one(held, when, rr)?;
        }
    }
    Ok(())
}

// Hears one record: what it is the same as is dropped, other lives are cut, and it is held itself.
fn hear_one(held: &mut Vec<Held>, when: When, rr: &SharedRr) -> Result<(), AllocError>
    ensures { OnOk result (held.new.items ≡ after_hearing held.old.items (hearing_at when.moment when.word rr.now)) }
{
    if rr.ttl == 0 {
        shorten(held, when, rr);
        return Ok(());
    }
    drop_same(held, rr);
    renew(held, when, rr)
}

// The same of one that isn't a goodbye, where what it is the same as isn't there.
fn renew(held: &mut Vec<Held>, when: When, rr: &SharedRr) -> Result<(), AllocError>
    ensures { OnOk result (held.new.items ≡ map (shortened (hearing_at when.moment when.word rr.now)) held.old.items ++ renewed (hearing_at when.moment when.word rr.now) ∷ []) }
{
    shorten(held, when, rr);
    let end = when.moment + rr.ttl_ms();
    held.push(Held {
        rr: rr.share()?,
        heard: when.at(),
        word: when.word,
        end,
    })?;
    Ok(())
}

// Cuts the lives of records to a second where a hearing does so. (A hearing's word doesn't count here and below, so the
// clauses write 0.)
fn shorten(held: &mut [Held], when: When, rr: &Rr)
    ensures { held.new ≡ map (shortened (hearing_at when.moment 0 rr.now)) held.old }
{
    for one in held.iter_mut() {
        shorten_one(one, when, rr);
    }
}

fn shorten_one(one: &mut Held, when: When, rr: &Rr)
    ensures { one.new ≡ shortened (hearing_at when.moment 0 rr.now) one.old }
{
    if one.is_cut_by(when.at(), rr) {
        one.end = (when.moment + 1000).min(one.end);
    }
}
