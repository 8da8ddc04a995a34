// Looking among the records that are filed by name.
ghost use Rattle.std.specs.Prelude.{◌≡◌, ◌≤◌, ℕ, suc, slice_get, true, false, Some, None, IsSome, IfOk, IfErr};
ghost use Rattle.std.specs.List.{AllByRecursion};
ghost use Rattle.std.specs.Map.{values_of};
ghost use Rattle.dns_record.specs.Records.{same};
ghost use Rattle.by_name.specs.At.{owner_of};
ghost use Rattle.by_name.specs.Filed.{found};
ghost use Rattle.mdns_cache.specs.Named.{AreFiled};

use crate::holdings::Holdings;
use by_name::Place;
use dns_record::Rr;
use mdns_history::Held;

/// The index of the record that is the same as this one, or the place behind the last of its name.
pub fn same_of(records: &Holdings, rr: &Rr) -> Result<usize, Place>
    requires { AreFiled records.now.entries }
    ensures found { IfOk result (λ index. (one : Held) × (slice_get (values_of records.now.entries) index ≡ Some one) × (same one.rr rr.now ≡ true)) }
    ensures none { IfErr result (λ _. AllByRecursion (λ (one : Held). same one.rr rr.now ≡ false) (values_of records.now.entries)) }
    ensures owner { IfErr result (λ place. place.owner ≡ owner_of rr.now.owner) }
    ensures absent { IfErr result (λ place. found place.owner place.number records.now.entries ≡ None) }
    ensures next { IfErr result (λ place. (number : ℕ) → suc number ≡ place.number → IsSome (found place.owner number records.now.entries)) }
{
    match records.find(rr) {
        Some(index) => Ok(index),
        None => Err(records.end_of(&rr.owner)),
    }
}

/// The same, found at once where it is the record at the index `near`.
pub fn same_near(records: &Holdings, rr: &Rr, near: usize) -> Result<usize, Place>
    requires { AreFiled records.now.entries }
    ensures found { IfOk result (λ index. (one : Held) × (slice_get (values_of records.now.entries) index ≡ Some one) × (same one.rr rr.now ≡ true)) }
    ensures none { IfErr result (λ _. AllByRecursion (λ (one : Held). same one.rr rr.now ≡ false) (values_of records.now.entries)) }
    ensures owner { IfErr result (λ place. place.owner ≡ owner_of rr.now.owner) }
    ensures absent { IfErr result (λ place. found place.owner place.number records.now.entries ≡ None) }
    ensures next { IfErr result (λ place. (number : ℕ) → suc number ≡ place.number → IsSome (found place.owner number records.now.entries)) }
{
    if is_same_at(records.values(), rr, near) {
        Ok(near)
    } else {
        same_of(records, rr)
    }
}

// Whether the record at an index is the same as this one.
fn is_same_at(held: &[Held], rr: &Rr, index: usize) -> bool
    ensures { result ≡ true → (one : Held) × (slice_get held.now index ≡ Some one) × (same one.rr rr.now ≡ true) }
{
    match held.get(index) {
        Some(one) => one.rr.same(rr),
        None => false,
    }
}
