// Records and questions in order, each once.
ghost use Rattle.std.specs.Prelude.{◌≡◌, ◌≤◌, length, IfOk};
ghost use Rattle.std.specs.List.{prefix_len};
ghost use Rattle.std.specs.Ordering.{is_lt};
ghost use Rattle.lists.specs.Lists.{ordered, sorted_by};
ghost use Rattle.dns_record.specs.Records.{key_cmp, key_eq, record_cmp};

use dns_record::{Key, Rr, record_cmp};
use std::alloc::{AllocError, Global};
use std::cmp::Ordering;

/// Records in record order, of those that are the same the first alone. Refused only for want of memory.
pub fn ordered_records(mut records: Vec<Rr>) -> Result<Vec<Rr>, AllocError>
    ensures { IfOk result (λ sorted. sorted.items ≡ ordered record_cmp records.items) }
{
    records.sort_by(|left, right| record_cmp(left, right))?;
    records.dedup_by(|later, kept| record_cmp(later, kept).is_eq());
    Ok(records)
}

/// Records in record order; those that are the same stay in the order of the list. Refused only for want of memory.
pub fn sorted_records(alloc: Global, mut records: Vec<Rr>) -> Result<Vec<Rr>, AllocError>
    ensures { IfOk result (λ sorted. sorted.items ≡ sorted_by record_cmp records.items) }
{
    let mut sorted = Vec::new(alloc);
    while let Some(rr) = records.pop() {
        let place = place_of(&sorted, &rr);
        sorted.insert(place, rr)?;
    }
    Ok(sorted)
}

// How many records stand before the first that isn't below one.
fn place_of(records: &[Rr], rr: &Rr) -> usize
    ensures place { result ≡ prefix_len (λ other. is_lt (record_cmp other rr.now)) records.now }
    ensures within { result ≤ length records.now }
{
    let mut count = 0;
    for other in records {
        if !record_cmp(other, rr).is_lt() {
            return count;
        }
        count += 1;
    }
    count
}

/// Questions by folded name and then by type, of those that are equal the first alone. Refused only for want of memory.
pub fn ordered_keys(mut keys: Vec<Key>) -> Result<Vec<Key>, AllocError>
    ensures { IfOk result (λ sorted. sorted.items ≡ ordered key_cmp keys.items) }
{
    keys.sort_by(|left, right| key_cmp(left, right))?;
    keys.dedup_by(|later, kept| key_cmp(later, kept).is_eq());
    Ok(keys)
}

/// Whether two questions are one: the folded names and the types agree.
#[tactic(auto, unfolding(dns_record::specs::Records::key_eq))]
pub fn key_eq(left: &Key, right: &Key) -> bool
    ensures { result ≡ key_eq left.now right.now }
{
    left.name.folded_eq(&right.name) && left.kind == right.kind
}

// The order of questions: by folded name, then by type.
#[tactic(auto, unfolding(dns_record::specs::Records::key_cmp))]
fn key_cmp(left: &Key, right: &Key) -> Ordering
    ensures { result ≡ key_cmp left.now right.now }
{
    match left.name.folded_cmp(&right.name) {
        Ordering::Equal => left.kind.cmp(&right.kind),
        unequal => unequal,
    }
}
