// Values in slots: each in the slot of its number, and nothing in the others.
ghost use Rattle.std.specs.Prelude.{ℕ, ◌≡◌, ◌<◌, ◌≤◌, ◌==◌, cond, Some, OnOk, OnErr, vec_len};
ghost use Rattle.mdns_hub.specs.Slots.{slot_at};

use std::alloc::AllocError;

/// Puts a value into the slot at a place, of which there are 17. Refused only for want of memory; then each slot is as before.
pub(crate) fn put<T: Drop>(
    slots: &mut Vec<Option<T>>,
    place: usize,
    value: T,
) -> Result<(), AllocError>
    requires place { place ≤ 16 }
    requires few { vec_len slots.old ≤ 17 }
    ensures done { OnOk result ((other : ℕ) → slot_at slots.new.items other ≡ cond (other == place) (Some value) (slot_at slots.old.items other)) }
    ensures err { OnErr result ((other : ℕ) → slot_at slots.new.items other ≡ slot_at slots.old.items other) }
    ensures few { vec_len slots.new ≤ 17 }
{
    make_place(slots, place)?;
    slots[place] = Some(value);
    Ok(())
}

// Makes empty slots up to a place.
fn make_place<T: Drop>(slots: &mut Vec<Option<T>>, place: usize) -> Result<(), AllocError>
    requires place { place ≤ 16 }
    requires few { vec_len slots.old ≤ 17 }
    ensures same { (other : ℕ) → slot_at slots.new.items other ≡ slot_at slots.old.items other }
    ensures made { OnOk result (place < vec_len slots.new) }
    ensures few { vec_len slots.new ≤ 17 }
{
    while slots.len() <= place {
        slots.push(None)?;
    }
    Ok(())
}
