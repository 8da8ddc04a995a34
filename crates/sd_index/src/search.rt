// Operations among those that are filed under a name.
ghost use Rattle.std.specs.Prelude.{◌≡◌, ℕ, ◌<◌, List, ◌∷◌, ◌++◌, true, false, Some, IfSome, IfNone, OnOk, if◌then◌else◌};
ghost use Rattle.std.specs.List.{list_any};
ghost use Rattle.std.specs.List.Sorted.{IsPermutation};
ghost use Rattle.std.specs.Str.{bytes_eq};
ghost use Rattle.by_name.specs.At.{at, owner_of};
ghost use Rattle.by_name.specs.Filed.{found};
ghost use Rattle.sd_index.specs.declared.asker.Asker.{Asker as AskerValue};
ghost use Rattle.sd_index.specs.Asked.{asker_eq, asker_of, askers_of};

use crate::Asker;
use by_name::{ByName, Place};
use dns_name::Name;
use std::alloc::AllocError;

/// Files an operation behind the others of a name, for which there is room.
pub fn put_behind(filed: &mut ByName<Asker>, name: &Name, asker: Asker)
    requires { 0 < filed.old.spare }
    ensures { (owner : List ℕ) → IsPermutation (askers_of owner filed.new.entries) (asker_of owner (at (owner_of name.now) 0, asker) ++ askers_of owner filed.old.entries) }
{
    let place = filed.end_of(name);
    filed.push(place, asker);
}

/// Takes out an operation that is filed under a name.
pub fn take_from(filed: &mut ByName<Asker>, name: &Name, asker: Asker)
    ensures { (owner : List ℕ) (rest : List AskerValue) → IsPermutation (askers_of owner filed.old.entries) (asker_of owner (at (owner_of name.now) 0, asker) ++ rest)
        → IsPermutation (askers_of owner filed.new.entries) rest }
{
    if let Some(place) = place_of(filed, name, asker) {
        let _ = filed.take_out(&place);
    }
}

/// Puts the operations behind others that are filed under a name. Refused only for want of memory.
pub fn put_all(
    askers: &mut Vec<Asker>,
    filed: &ByName<Asker>,
    name: &Name,
) -> Result<(), AllocError>
    ensures { OnOk result (IsPermutation askers.new.items (askers.old.items ++ askers_of (owner_of name.now) filed.now.entries)) }
{
    let _len = filed.len();
    let mut number = 0;
    let mut place = Place::new(name, 0);
    while let Some(asker) = filed.get(&place) {
        askers.push(*asker)?;
        number += 1;
        place.go(number);
    }
    Ok(())
}

// The place of an operation among those that are filed under a name.
fn place_of(filed: &ByName<Asker>, name: &Name, asker: Asker) -> Option<Place>
    ensures some { IfSome result (λ place. (place.owner ≡ owner_of name.now) × (found place.owner place.number filed.now.entries ≡ Some asker)) }
    ensures none { IfNone result (list_any (asker_eq asker) (askers_of (owner_of name.now) filed.now.entries) ≡ false) }
{
    let _len = filed.len();
    let mut number = 0;
    let mut place = Place::new(name, 0);
    while let Some(one) = filed.get(&place) {
        if one.is(&asker) {
            return Some(place);
        }
        number += 1;
        place.go(number);
    }
    None
}
