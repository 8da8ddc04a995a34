// Rows of a cache of heard records.

use crate::numbered::packet;
use crate::read::{Packet, shared, when};
use mdns_base::Moment;
use mdns_cache::{Cache, HearError, Steps};
use mdns_happened::When;
use mdns_history::{Held, SharedRr};
use row_words::{RowError, Told, moment, name_of, number};
use std::alloc::AllocError;
use std::sync::ledger::Ledger;

// The key of the names.
const KEY: u64 = 7;

/// A row of a cache: `hear` has a moment, a random word and records; what has ended by then is taken out first, and told. `fill` hears
/// so many packets of numbered records at a moment, with a word.
pub fn cache_row<L: Ledger>(
    told: &mut Told,
    cache: &mut Cache,
    steps: &mut Steps<L>,
    row: &[&str],
) -> Result<(), RowError> {
    match row {
        ["new", limit] => renew(told, cache, *limit),
        ["reserve", more] => reserve(told, cache, *more),
        ["hear", now, word, heard] => {
            let packet = Packet::read(told.alloc, *now, *word, *heard)?;
            tell_hearing(told, cache, steps, packet)
        }
        ["fill", now, word, count] => {
            let when = when(*now, *word)?;
            fill(told, cache, steps, when, number(*count)?)
        }
        ["visit", name, place] => tell_visit(told, cache, steps, *name, *place),
        _ => cache_look(told, cache, row),
    }
}

fn renew(told: &mut Told, cache: &mut Cache, limit: &str) -> Result<(), RowError> {
    *cache = Cache::new(told.alloc, number::<u32>(limit)? as usize, KEY)?;
    told.put("done")
}

fn reserve(told: &mut Told, cache: &mut Cache, more: &str) -> Result<(), RowError> {
    cache.reserve(number::<u32>(more)? as usize)?;
    told.put("done")
}

// A row that changes nothing.
fn cache_look(told: &mut Told, cache: &Cache, row: &[&str]) -> Result<(), RowError> {
    match row {
        ["fits", now, heard] => {
            let heard = shared(told.alloc, *heard)?;
            tell_room(told, cache, moment(*now)?, heard.as_slice())
        }
        ["count"] => told.put_count("", cache.len()),
        ["empty"] => told.put_yes(cache.is_empty()),
        ["next"] => told.put_number(cache.next_end()),
        ["ended", now] => {
            let ended = cache.ended(moment(*now)?)?;
            told.put_count("", ended.len())
        }
        ["codes"] => {
            told.put_count("full ", HearError::Full as usize)?;
            told.put_count(", no memory ", HearError::NoMemory as usize)
        }
        _ => Err(RowError::NotUnderstood),
    }
}

fn tell_visit<L: Ledger>(
    told: &mut Told,
    cache: &Cache,
    steps: &mut Steps<L>,
    name: &str,
    place: &str,
) -> Result<(), RowError> {
    let place = number::<u32>(place)? as usize;
    told.put_yes(cache.visit(&name_of(name)?, place, steps).is_some())
}

fn tell_room(
    told: &mut Told,
    cache: &Cache,
    now: Moment,
    heard: &[SharedRr],
) -> Result<(), RowError> {
    told.put_yes(cache.fits(now, heard))
}

// Hears a packet, once what has ended is put behind the rest that is gone. Whether there was room.
fn hear<L: Ledger>(
    cache: &mut Cache,
    steps: &mut Steps<L>,
    gone: &mut Vec<Held>,
    packet: Packet,
) -> Result<bool, RowError> {
    let when = packet.when;
    for _ in 0..=cache.len() {
        match cache.expire(when.at(), steps) {
            Some(one) => gone.push(one)?,
            None => {
                return match cache.hear(when.at(), when.word, packet.heard) {
                    Ok(()) => Ok(true),
                    Err(HearError::Full) => Ok(false),
                    Err(HearError::NoMemory) => Err(RowError::NoMemory(AllocError)),
                };
            }
        }
    }
    Err(RowError::NotUnderstood)
}

fn tell_hearing<L: Ledger>(
    told: &mut Told,
    cache: &mut Cache,
    steps: &mut Steps<L>,
    packet: Packet,
) -> Result<(), RowError> {
    let mut gone = Vec::new(told.alloc);
    let has_room = hear(cache, steps, &mut gone, packet)?;
    told.put(if has_room { "heard" } else { "full" })?;
    put_gone(told, &gone)
}

// Each record that was taken out on a line of its own.
fn put_gone(told: &mut Told, gone: &[Held]) -> Result<(), RowError> {
    for one in gone {
        told.put("\n  ended ")?;
        told.put_record(&one.rr)?;
        told.put(" from ")?;
        told.put_decimal(one.heard.ms())?;
        told.put(" to ")?;
        told.put_decimal(one.end)?;
        told.put(" word ")?;
        told.put_decimal(u64::from(one.word))?;
    }
    Ok(())
}

// Hears so many packets of numbered records at one moment.
fn fill<L: Ledger>(
    told: &mut Told,
    cache: &mut Cache,
    steps: &mut Steps<L>,
    when: When,
    count: u32,
) -> Result<(), RowError> {
    let mut gone = Vec::new(told.alloc);
    for place in 0..count {
        let heard = packet(told.alloc, place)?;
        if !hear(cache, steps, &mut gone, Packet { when, heard })? {
            return told.put_count("full at packet ", place as usize);
        }
    }
    told.put("heard")?;
    put_gone(told, &gone)
}
