// Rows of the records that are held, and of how an event changes those of a name.

use crate::numbered::of_names;
use crate::read::{Packet, when};
use dns_name::Name;
use mdns_base::Moment;
use mdns_cache::Steps;
use mdns_happened::Walk;
use mdns_history::Held;
use mdns_records::Records;
use row_words::{RowError, Told, name_of, number};
use std::sync::ledger::Ledger;

// The word of which the key of the names is made.
const WORD: u32 = 7;

/// A row of held records: `hear` has a moment, a random word, a name and records. It tells how many names the event touches, the ends of
/// the name's records before and after it, and how many records are held after it. `fill` hears so many records of as many names, and
/// `looks` tells how often an event looks at a record.
pub fn held_row<L: Ledger>(
    told: &mut Told,
    held: &mut Records,
    steps: &mut Steps<L>,
    row: &[&str],
) -> Result<(), RowError> {
    match row {
        ["new"] => renew(told, held),
        ["hear", row @ ..] => hear(told, held, steps, row),
        ["fill", row @ ..] => fill(told, held, steps, row),
        ["looks", row @ ..] => look(told, held, steps, row),
        ["next"] => told.put_number(held.next_end()),
        _ => Err(RowError::NotUnderstood),
    }
}

fn renew(told: &mut Told, held: &mut Records) -> Result<(), RowError> {
    *held = Records::new(told.alloc, WORD)?;
    told.put("done")
}

fn hear<L: Ledger>(
    told: &mut Told,
    held: &mut Records,
    steps: &mut Steps<L>,
    row: &[&str],
) -> Result<(), RowError> {
    let [now, word, name, heard] = row else {
        return Err(RowError::NotUnderstood);
    };
    let packet = Packet::read(told.alloc, *now, *word, *heard)?;
    tell_touched(told, held, &packet)?;
    tell_walk(told, held, steps, &packet, name_of(*name)?)?;
    carry_out(told, held, steps, packet)
}

fn fill<L: Ledger>(
    told: &mut Told,
    held: &mut Records,
    steps: &mut Steps<L>,
    row: &[&str],
) -> Result<(), RowError> {
    let [now, word, count] = row else {
        return Err(RowError::NotUnderstood);
    };
    told.put("done")?;
    let when = when(*now, *word)?;
    let heard = of_names(told.alloc, number(*count)?)?;
    carry_out(told, held, steps, Packet { when, heard })
}

fn look<L: Ledger>(
    told: &mut Told,
    held: &mut Records,
    steps: &mut Steps<L>,
    row: &[&str],
) -> Result<(), RowError> {
    let [now, word, heard] = row else {
        return Err(RowError::NotUnderstood);
    };
    let packet = Packet::read(told.alloc, *now, *word, *heard)?;
    tell_looks(told, held, steps, &packet)?;
    carry_out(told, held, steps, packet)
}

// How many names a packet touches. Nothing is changed.
fn tell_touched(told: &mut Told, held: &Records, packet: &Packet) -> Result<(), RowError> {
    let touched = held.touched(packet.when.at(), packet.heard.as_slice())?;
    told.put_count("touched ", touched.len())
}

// What becomes of the records of a name. Nothing is changed.
fn tell_walk<L: Ledger>(
    told: &mut Told,
    held: &Records,
    steps: &mut Steps<L>,
    packet: &Packet,
    name: Name,
) -> Result<(), RowError> {
    let mut names = Vec::new(told.alloc);
    names.push(name)?;
    let walks = held.walk(packet.when, packet.heard.as_slice(), names, steps)?;
    put_walks(told, &walks)
}

fn put_walks(told: &mut Told, walks: &[Walk]) -> Result<(), RowError> {
    for walk in walks {
        put_ends(told, ", before", &walk.earlier)?;
        put_ends(told, ", after", &walk.later)?;
    }
    Ok(())
}

// How often an event looks at a record, as the calls say: at each record of the names that it touches, and once more for each name; then at
// what has ended, and once more.
fn tell_looks<L: Ledger>(
    told: &mut Told,
    held: &Records,
    steps: &mut Steps<L>,
    packet: &Packet,
) -> Result<(), RowError> {
    let heard = packet.heard.as_slice();
    let names = held.touched(packet.when.at(), heard)?;
    let mut looks = 1usize;
    for walk in held.walk(packet.when, heard, names, steps)? {
        let ended = ended_in(&walk.earlier, packet.when.at());
        looks = looks.saturating_add(walk.earlier.len().saturating_add(ended).saturating_add(1));
    }
    told.put_count("looks ", looks)
}

// How many records have ended by a moment.
fn ended_in(held: &[Held], now: Moment) -> usize {
    let mut ended = 0usize;
    for one in held {
        if !one.is_live(now) {
            ended = ended.saturating_add(1);
        }
    }
    ended
}

// The ends of records, in their order; `-` is none.
fn put_ends(told: &mut Told, words: &str, held: &[Held]) -> Result<(), RowError> {
    told.put(words)?;
    for one in held {
        told.put(" ")?;
        told.put_decimal(one.end)?;
    }
    told.put(if held.is_empty() { " -" } else { "" })
}

// Hears the packet, where there is room.
fn carry_out<L: Ledger>(
    told: &mut Told,
    held: &mut Records,
    steps: &mut Steps<L>,
    packet: Packet,
) -> Result<(), RowError> {
    let heard = packet.heard.as_slice();
    if !held.fits(packet.when.at(), heard) {
        return told.put(", full");
    }
    held.reserve(heard.len())?;
    held.apply(packet.when, packet.heard, steps);
    told.put_count(", held ", held.len())
}
