// Records put into record order.
ghost use Rattle.std.specs.Prelude.{◌≡◌, IsTrue, IfOk};
ghost use Rattle.std.specs.List.{list_any};
ghost use Rattle.lists.specs.Lists.{sorted_by, ordered};
ghost use Rattle.dns_record.specs.Records.{record_cmp, same};

use crate::Listing;
use dns_message::Rrs;
use dns_record::{Rr, record_cmp};
use std::alloc::AllocError;
use std::marker::Model;

/// Records in record order; those that compare equal stay in the order of the list. Refused only for want of memory.
pub fn sorted(mut records: Vec<Rr>) -> Result<Rrs, AllocError>
    ensures { IfOk result (λ sorted. sorted ≡ sorted_by record_cmp records.items) }
{
    records.sort_by(|left, right| record_cmp(left, right))?;
    Ok(Rrs::from_vec(records))
}

/// Records in record order, of those that compare equal the first alone. Refused only for want of memory.
pub fn in_order(records: Vec<Rr>) -> Result<Rrs, AllocError>
    ensures { IfOk result (λ sorted. sorted ≡ ordered record_cmp records.items) }
{
    if is_in_order(&records) {
        return Ok(Rrs::from_vec(records));
    }
    put_in_order(records)
}

// Whether each record stands before the next one in record order: then they are in order, and each is there once.
fn is_in_order(records: &[Rr]) -> bool
    ensures { IsTrue result → ordered record_cmp records.now ≡ records.now }
{
    for next in 1..records.len() {
        if !record_cmp(&records[next - 1], &records[next]).is_lt() {
            return false;
        }
    }
    true
}

// Puts records into record order, of those that compare equal the first alone.
fn put_in_order(mut records: Vec<Rr>) -> Result<Rrs, AllocError>
    ensures { IfOk result (λ sorted. sorted ≡ ordered record_cmp records.items) }
{
    records.sort_by(|left, right| record_cmp(left, right))?;
    records.dedup_by(|later, kept| record_cmp(later, kept).is_eq());
    Ok(Rrs::from_vec(records))
}

/// The same of records that are listed.
pub fn listings_in_order(listings: Vec<Listing<'_>>) -> Result<Vec<Listing<'_>>, AllocError>
    ensures { IfOk result (λ sorted. sorted.items ≡ ordered record_cmp listings.entry.items) }
{
    if are_in_order(&listings) {
        return Ok(listings);
    }
    put_listings_in_order(listings)
}

// Whether each stands before the next one in record order.
fn are_in_order(listings: &[Listing<'_>]) -> bool
    ensures { IsTrue result → ordered record_cmp listings.now ≡ listings.now }
{
    for next in 1..listings.len() {
        if !listings[next - 1].record_cmp(&listings[next]).is_lt() {
            return false;
        }
    }
    true
}

// Puts them into record order, of those that compare equal the first alone.
fn put_listings_in_order(mut listings: Vec<Listing<'_>>) -> Result<Vec<Listing<'_>>, AllocError>
    ensures { IfOk result (λ sorted. sorted.items ≡ ordered record_cmp listings.entry.items) }
{
    listings.sort_by(|left, right| left.record_cmp(right))?;
    listings.dedup_by(|later, kept| later.record_cmp(kept).is_eq());
    Ok(listings)
}

/// Records in record order, each once, so that one of them is soon found.
#[derive(Drop)]
pub struct Ordered {
    records: Rrs,
}

impl Model for Ordered {
    ghost use Rattle.std.specs.Prelude.{List};
    ghost use Rattle.std.specs.List.Sorted.{IsSorted};
    ghost use Rattle.dns_record.specs.declared.record.Rr.{Rr};
    ghost use Rattle.dns_record.specs.Records.{record_cmp};

    ghost Value = { List Rr };

    ghost view = { λ o. o.records };

    ghost invariant = { λ o. IsSorted record_cmp o.records };
}

impl Ordered {
    /// Records in record order, of those that compare equal the first alone. Refused only for want of memory.
    pub fn of(records: Vec<Rr>) -> Result<Self, AllocError>
        ensures { IfOk result (λ kept. kept ≡ ordered record_cmp records.items) }
    {
        Ok(Ordered {
            records: in_order(records)?,
        })
    }

    /// Whether a record is the same as one of these.
    pub fn has(&self, rr: &Rr) -> bool
        ensures { result ≡ list_any (same rr.now) self.now }
    {
        let found = self
            .records
            .as_slice()
            .binary_search_by(|other| record_cmp(other, rr));
        found.is_ok()
    }
}
