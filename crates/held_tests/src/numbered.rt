// Records that are many and soon told apart.

use dns_name::{Label, Name};
use dns_record::{Rdata, Rr};
use mdns_history::{SharedRr, SharedRrs};
use row_words::RowError;
use std::alloc::Global;

// How many records a packet has.
const PACKET: u32 = 512;

// What labels are cut from.
const LETTERS: &[u8] =
    b"abcdefghijklmnopqrstuvwxyz012345abcdefghijklmnopqrstuvwxyz012345abcdefghijklmnopqrstuvwxyz0123";

/// The packet at a place, counted from 0, of numbered records. The first record of the first packet lives for a second, and each
/// other one for two minutes.
pub fn packet(alloc: Global, place: u32) -> Result<SharedRrs, RowError> {
    let first = place.checked_mul(PACKET).ok_or(RowError::NotUnderstood)?;
    let mut rrs = SharedRrs::new(alloc);
    for within in 0..PACKET {
        let number = first.saturating_add(within);
        let ttl = if number == 0 { 1 } else { 120 };
        rrs.push(SharedRr::new(alloc, numbered(number, ttl)?)?)?;
    }
    Ok(rrs)
}

/// So many records of as many names, up to 2016, which live for two minutes.
pub fn of_names(alloc: Global, count: u32) -> Result<SharedRrs, RowError> {
    let mut rrs = SharedRrs::new(alloc);
    for number in 0..count {
        rrs.push(SharedRr::new(alloc, numbered(number, 120)?)?)?;
    }
    Ok(rrs)
}

// The record of a number, with an address of its own. Its name has one of 63 lengths and of 32 first letters.
fn numbered(number: u32, ttl: u32) -> Result<Rr, RowError> {
    let size = number as usize % 63;
    let first = number as usize / 63 % 32;
    let letters = LETTERS
        .get(first..first + size + 1)
        .ok_or(RowError::NotUnderstood)?;
    let label = Label::new(letters).ok_or(RowError::NotUnderstood)?;
    Ok(Rr {
        owner: Name::root().child(&label)?,
        flush: false,
        ttl,
        rdata: Rdata::A(number),
    })
}
