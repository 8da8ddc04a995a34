// A record that is owed, and where it goes.
ghost use Rattle.std.specs.Prelude.{◌≡◌};
ghost use Rattle.mdns_base.specs.Hosts.{dest_eq};
ghost use Rattle.mdns_history.specs.Debts.{owed_eq};
ghost use Rattle.mdns_debts.specs.Queries.{is_to_all};
ghost use Rattle.mdns_owing.specs.Keys.{owed_writes, owed_is_equivalence, owed_is_partial, same_writes};

use dns_record::Rr;
use mdns_base::Dest;
use mdns_reply::Mark;
use std::hash::{Hash, Hasher};
use std::marker::Model;

/// A record that is owed, and where it goes: to all, or to the asker. Two are equal where the records are the same and the ways are one.
#[derive(Drop)]
pub struct Owed {
    pub rr: Rr,
    pub to: Dest,
}

impl Model for Owed {
    ghost use Rattle.mdns_history.specs.Debts.{Owed};

    ghost Value = { Owed };

    ghost view = { λ o. (o.rr, o.to) };
}

impl Owed {
    /// Whether it goes to all.
    pub fn is_to_all(&self) -> bool
        ensures { result ≡ is_to_all self.now }
    {
        match self.to {
            Dest::All => true,
            Dest::One(_) => false,
        }
    }
}

impl PartialEq for Owed {
    ghost eq = { owed_eq };

    ghost laws = { owed_is_partial };

    fn eq(&self, other: &Self) -> bool {
        self.rr.same(&other.rr) && is_same_way(self.to, other.to)
    }
}

impl Eq for Owed {
    ghost laws = { owed_is_equivalence };
}

impl Hash for Owed {
    ghost hash_input = { owed_writes };

    ghost respects_eq = { same_writes };

    fn hash<H: Hasher>(&self, state: &mut H) {
        Mark::sought(&self.rr).hash(state);
    }
}

// Whether two ways are one.
fn is_same_way(left: Dest, right: Dest) -> bool
    ensures { result ≡ dest_eq left right }
{
    match (left, right) {
        (Dest::All, Dest::All) => true,
        (Dest::One(left), Dest::One(right)) => left.ip == right.ip && left.port == right.port,
        _ => false,
    }
}
