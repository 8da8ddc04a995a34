// The names of which a record becomes own behind a plan, or ceases to be.
ghost use Rattle.std.specs.Prelude.{List, OnOk, [], false, length, not, true, ℕ, ◌&&◌, ◌<◌, ◌≡◌};
ghost use Rattle.std.specs.List.{list_all};
ghost use Rattle.std.specs.Option.{option_map, option_map_or};
ghost use Rattle.dns_name.specs.Names.{folded_eq};
ghost use Rattle.mdns_claims.specs.Later.{begun_by, groups_behind, later_of, shown_all, shown_of};
ghost use Rattle.mdns_claims.specs.Moved.{is_kept, is_moved};
ghost use Rattle.mdns_claims.specs.Seen.{means_in};
ghost use Rattle.mdns_claimants.specs.Owned.{AreWithin, claimed, is_among, own_in};
ghost use Rattle.mdns_probe.specs.Kept.{Kept};

use crate::behind::Behind;
use crate::later::begun;
use dns_name::Name;
use mdns_claimants::Claimant;
use mdns_claimants::names::put_once;
use std::alloc::{AllocError, Global};

impl Behind<'_> {
    /// Puts the names behind others of which a record becomes own behind the plan or ceases to be, each once, case aside. Nothing comes
    /// or goes with a record that another group has as well. Refused only for want of memory.
    pub fn put_moved_names(&self, alloc: Global, names: &mut Vec<Name>) -> Result<(), AllocError>
        ensures kept { OnOk result (AreWithin names.old.items names.new.items) }
        ensures moved { OnOk result ((name : List (List ℕ)) → is_moved name (own_in self.now.groups.now) (own_in (groups_behind self.now)) ≡ true → is_among names.new.items name ≡ true) }
        ensures only { OnOk result ((name : List (List ℕ)) → is_among names.new.items name ≡ true → is_among names.old.items name ≡ false
            → is_moved name (own_in self.now.groups.now) (own_in (groups_behind self.now)) ≡ true) }
    {
        let mut concerned = Vec::new(alloc);
        self.put_names(&mut concerned)?;
        self.put_moved_of(names, &concerned)?;
        Ok(())
    }

    // Puts those of these names of which a record comes or goes.
    fn put_moved_of(&self, names: &mut Vec<Name>, concerned: &[Name]) -> Result<(), AllocError>
        ensures kept { OnOk result (AreWithin names.old.items names.new.items) }
        ensures moved { OnOk result ((name : List (List ℕ)) → is_among concerned.now name ≡ true
            → is_moved name (own_in self.now.groups.now) (own_in (groups_behind self.now)) ≡ true → is_among names.new.items name ≡ true) }
        ensures only { OnOk result ((name : List (List ℕ)) → is_among names.new.items name ≡ true → is_among names.old.items name ≡ false
            → is_moved name (own_in self.now.groups.now) (own_in (groups_behind self.now)) ≡ true) }
    {
        for name in concerned {
            self.put_if_moved(names, name)?;
        }
        Ok(())
    }

    // Puts a name if a record of it comes or goes.
    fn put_if_moved(&self, names: &mut Vec<Name>, name: &Name) -> Result<(), AllocError>
        ensures kept { OnOk result (AreWithin names.old.items names.new.items) }
        ensures moved { OnOk result ((other : List (List ℕ)) → folded_eq other name.now ≡ true
            → is_moved other (own_in self.now.groups.now) (own_in (groups_behind self.now)) ≡ true → is_among names.new.items other ≡ true) }
        ensures only { OnOk result ((other : List (List ℕ)) → is_among names.new.items other ≡ true → is_among names.old.items other ≡ false
            → is_moved other (own_in self.now.groups.now) (own_in (groups_behind self.now)) ≡ true) }
    {
        if self.is_moved(name) {
            put_once(names, name)?;
        }
        Ok(())
    }

    // Whether a record of a name comes or goes. Groups that the plan doesn't touch have the same records before and behind it.
    fn is_moved(&self, name: &Name) -> bool
        ensures { (other : List (List ℕ)) → folded_eq other name.now ≡ true
            → is_moved other (own_in self.now.groups.now) (own_in (groups_behind self.now)) ≡ result }
    {
        let mut from = 0;
        while let Some(place) = self.place_touched(from) {
            if self.moves(place, &self.groups[place], name) {
                return true;
            }
            from = place + 1;
        }
        self.begins(name)
    }

    // Whether a record of a name comes or goes with the group in a place.
    fn moves(&self, place: usize, one: &Claimant, name: &Name) -> bool
        ensures { result ≡ not (list_all (is_kept name.now (own_in (groups_behind self.now))) (claimed one.now.claim.sure one.now.claim)
            && list_all (is_kept name.now (own_in self.now.groups.now)) (option_map_or shown_all (option_map shown_of (later_of (means_in self.now.means) self.now.deed.now place one.now)) [])) }
    {
        let claim = one.claim();
        if !self.stay(claim, claim.sure, name) {
            return true;
        }
        match self.means.later(self.deed, place, one) {
            Some(later) => !self.were(later.claim, later.sure, name),
            None => false,
        }
    }

    // Whether a record of a name comes with the group that begins.
    fn begins(&self, name: &Name) -> bool
        ensures { result ≡ not (list_all (is_kept name.now (own_in self.now.groups.now)) (option_map_or (λ (one : Kept). claimed one.claim.sure one.claim) (begun_by self.now.deed.now) [])) }
    {
        match begun(self.deed) {
            Some(one) => !self.were(one.claim(), one.claim().sure, name),
            None => false,
        }
    }
}
