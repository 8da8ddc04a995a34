// A group that claims a name.
ghost use Rattle.std.specs.Prelude.{List, [], false, true, ℕ, ◌++◌, ◌^◌, ◌≡◌, ◌≤◌};
ghost use Rattle.mdns_claimants.specs.Bits.{bit_of, have_bits};
ghost use Rattle.mdns_claimants.specs.Due.{ticked_at};
ghost use Rattle.mdns_claimants.specs.Named.{IsNamed, with_renewal};
ghost use Rattle.mdns_claimants.specs.Owned.{of_name};
ghost use Rattle.mdns_probe.specs.Kept.{name_of};

use crate::owners::with_bits;
use crate::renewal::Renewal;
use dns_name::Name;
use mdns_base::Moment;
use mdns_probe::{Claim, Naming};
use std::marker::Model;

/// A live group: what it is called, the number of its name, and its claim of it.
#[derive(Drop)]
pub struct Claimant {
    naming: Naming,
    number: u32,
    name: Name,
    claim: Claim,
    // The bits of the owners of its records, so that a group with no record of a name is mostly passed over by one test.
    owners: u64,
}

impl Model for Claimant {
    ghost use Rattle.std.specs.Prelude.{true, ◌++◌, ◌≡◌};
    ghost use Rattle.mdns_history.specs.Groups.{numbered_name};
    ghost use Rattle.mdns_probe.specs.Kept.{Kept};
    ghost use Rattle.mdns_claimants.specs.Bits.{have_bits};
    ghost use Rattle.mdns_claimants.specs.Named.{IsNamed};

    ghost Value = { Kept };

    ghost view = { λ a. record { group = a.naming; number = a.number; claim = a.claim } };

    ghost invariant = { λ a. (a.name ≡ numbered_name a.naming a.number) × IsNamed (record { group = a.naming; number = a.number; claim = a.claim })
        × (have_bits a.owners (a.claim.unique ++ a.claim.shared) ≡ true) };
}

impl Claimant {
    /// The group under a number, with its claim of that name.
    pub fn new(naming: Naming, number: u32, claim: Claim) -> Claimant
        requires { IsNamed (record { group = naming; number = number; claim = claim }) }
        ensures { result ≡ record { group = naming; number = number; claim = claim } }
    {
        let name = naming.name_under(number);
        let owners = owners_of(&claim);
        Claimant {
            naming,
            number,
            name,
            claim,
            owners,
        }
    }

    /// What the group is called. The unique records of its claim have its name.
    pub fn naming(&self) -> &Naming
        ensures naming { result.now ≡ self.now.group }
        ensures named { IsNamed self.now }
    {
        &self.naming
    }

    /// The number of its name.
    pub fn number(&self) -> u32
        ensures { result ≡ self.now.number }
    {
        self.number
    }

    /// Its name.
    pub fn name(&self) -> &Name
        ensures { result.now ≡ name_of self.now }
    {
        &self.name
    }

    /// Its claim, whose unique records have its name.
    pub fn claim(&self) -> &Claim
        ensures claim { result.now ≡ self.now.claim }
        ensures named { IsNamed self.now }
    {
        &self.claim
    }

    /// Whether its claim may have a record of a name that has this bit. Where it doesn't it surely has none.
    pub fn may_have(&self, bit: u64) -> bool
        ensures { result ≡ false → (name : List (List ℕ)) → bit ≡ bit_of name → of_name name (self.now.claim.unique ++ self.now.claim.shared) ≡ [] }
    {
        self.owners & bit != 0
    }

    /// Notes a tick, with announcements where there are any.
    pub fn tick(&mut self, now: Moment, announces: bool)
        ensures { self.new ≡ ticked_at now announces self.old }
    {
        self.claim.note_tick(now, announces);
    }

    /// Gives the group another number and other records, if there are any.
    pub fn renew(&mut self, renewal: Option<Renewal>)
        requires { IsNamed (with_renewal renewal self.old) }
        ensures { self.new ≡ with_renewal renewal self.old }
    {
        if let Some(renewal) = renewal {
            self.number = renewal.number;
            self.name = self.naming.name_under(renewal.number);
            self.owners = owners_of(&renewal.claim);
            self.claim = renewal.claim;
        }
    }
}

// The bits of the owners of a claim's records.
fn owners_of(claim: &Claim) -> u64
    ensures { have_bits result (claim.now.unique ++ claim.now.shared) ≡ true }
{
    let unique = with_bits(0, claim.unique.as_slice());
    with_bits(unique, claim.shared.as_slice())
}
