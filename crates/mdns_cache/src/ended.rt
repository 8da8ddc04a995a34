// The names of the records that have ended, found without a change.
ghost use Rattle.std.specs.Prelude.{◌≡◌, ℕ, ◌+◌, ◌*◌, ◌<◌, ◌≤◌, ◌^◌, [], List, length, Some, slice_get, true, OnOk, IfOk};
ghost use Rattle.std.specs.Map.{values_of};
ghost use Rattle.std.specs.Option.{option_copied};
ghost use Rattle.mdns_cache.specs.Ends.{IsOn, IsPlayed};
ghost use Rattle.mdns_cache.specs.EndedPlaces.{AreEnded};
ghost use Rattle.mdns_cache.specs.Ended.{is_among, HasEnded, AreOfEnded};
ghost use Rattle.by_name.specs.Filed.{in_layers};

use crate::ends::winner;
use crate::holdings::Holdings;
use dns_name::Name;
use mdns_base::Moment;
use mdns_history::Held;
use std::alloc::{AllocError, Global};

/// The owners of all records that have ended at `now`, in ms. Refused only for want of memory.
pub fn ended_names(
    alloc: Global,
    records: &Holdings,
    nodes: &[usize],
    now: Moment,
) -> Result<Vec<Name>, AllocError>
    requires played { IsPlayed (values_of records.now.entries) [] nodes.now }
    requires room { length records.now.entries ≤ length nodes.now }
    requires size { length nodes.now < 2 ^ 60 }
    ensures all { IfOk result (λ names. HasEnded (in_layers records.now.entries) now names.items) }
    ensures only { IfOk result (λ names. AreOfEnded (in_layers records.now.entries) now names.items) }
{
    let mut names = Vec::new(alloc);
    if nodes.is_empty() {
        return Ok(names);
    }
    put_ended(records.values(), nodes, 1, now, &mut names)?;
    Ok(names)
}

fn record_of(held: &[Held], place: usize) -> Option<&Held>
    ensures { option_copied result ≡ slice_get held.now place }
{
    held.get(place)
}

// Puts the owners of the records that have ended below a node.
fn put_ended(
    held: &[Held],
    nodes: &[usize],
    node: usize,
    now: Moment,
    names: &mut Vec<Name>,
) -> Result<(), AllocError>
    requires some { 1 ≤ node }
    requires below { node < 2 * length nodes.now }
    requires size { length nodes.now < 2 ^ 60 }
    requires played { IsPlayed held.now [] nodes.now }
    ensures found { OnOk result ((place : ℕ) (one : Held) → IsOn (length nodes.now + place) node → slice_get held.now place ≡ Some one → one.end ≤ now
        → place < length nodes.now → is_among names.new.items one.rr.owner ≡ true) }
    ensures kept { (name : List (List ℕ)) → is_among names.old.items name ≡ true → is_among names.new.items name ≡ true }
    ensures only { AreEnded held.now now names.old.items → AreEnded held.now now names.new.items }
{
    let place = winner(nodes, node);
    let one = match record_of(held, place) {
        None => return Ok(()),
        Some(one) => one,
    };
    if one.end > now.ms() {
        return Ok(());
    }
    if node >= nodes.len() {
        names.push(one.rr.owner.copy())?;
        return Ok(());
    }
    put_ended(held, nodes, 2 * node, now, names)?;
    put_ended(held, nodes, 2 * node + 1, now, names)
}
