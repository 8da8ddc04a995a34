// Where a value stands among those of its name.
ghost use Rattle.std.specs.Prelude.{◌≡◌, ◌∷◌, ◌++◌, []};
ghost use Rattle.std.specs.Hash as fed;
ghost use Rattle.std.specs.Cmp.Rules.{comparing, hashing};
ghost use Rattle.std.proofs.Common.{rules};
ghost use Rattle.by_name.specs.At.{At, at_eq, at, owner_of};

use dns_name::{FoldedName, Name};
use std::hash::{Hash, Hasher};
use std::marker::Model;

/// A name in lower case, in wire form, and a number among its values.
#[derive(Drop)]
pub struct Place {
    owner: FoldedName,
    number: usize,
}

impl Model for Place {
    ghost use Rattle.by_name.specs.At.{At};

    ghost Value = { At };

    ghost view = { λ a. record { owner = a.owner; number = a.number } };
}

impl PartialEq for Place {
    ghost eq = { at_eq };

    ghost laws = { Prim.search (comparing, rules) };

    fn eq(&self, other: &Place) -> bool {
        self.owner.is_same(&other.owner) && self.number == other.number
    }
}

impl Eq for Place {
    ghost laws = { Prim.search (comparing, rules) };
}

impl Hash for Place {
    ghost hash_input = { λ x. fed.usize x.number ++ x.owner ∷ [] };

    ghost respects_eq = { Prim.search (hashing, rules) };

    fn hash<H: Hasher>(&self, state: &mut H) {
        state.write_usize(self.number);
        state.write(self.owner.as_slice());
    }
}

impl Place {
    /// The place of a number among the values of a name.
    pub fn new(name: &Name, number: usize) -> Place
        ensures { result ≡ at (owner_of name.now) number }
    {
        Place {
            owner: FoldedName::of(name),
            number,
        }
    }

    /// The name in lower case, in wire form.
    pub fn owner(&self) -> &[u8]
        ensures { result.now ≡ self.now.owner }
    {
        self.owner.as_slice()
    }

    /// The number.
    pub fn number(&self) -> usize
        ensures { result ≡ self.now.number }
    {
        self.number
    }

    /// The place of another number of the same name.
    pub fn other(&self, number: usize) -> Place
        ensures { result ≡ at self.now.owner number }
    {
        Place {
            owner: self.owner.copy(),
            number,
        }
    }

    /// Goes to another number of the same name.
    pub fn go(&mut self, number: usize)
        ensures { self.new ≡ at self.old.owner number }
    {
        self.number = number;
    }
}
