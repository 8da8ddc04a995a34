// Names without their letters' cases.
ghost use Rattle.std.specs.Prelude.{◌≡◌};
ghost use Rattle.std.specs.Str.{bytes_eq};
ghost use Rattle.dns_name.specs.Names.{wire_of, folded};

use crate::Name;
use crate::wire_bytes::WireBytes;
use std::marker::Model;

/// A name in lower case, in wire form: names that are one, case aside, have the same. (RFC 6762 16)
#[derive(Drop)]
pub struct FoldedName {
    wire: WireBytes,
}

impl Model for FoldedName {
    ghost use Rattle.std.specs.Prelude.{List, ℕ};
    ghost use Rattle.dns_name.specs.InPlace.{bytes_in};

    ghost Value = { List ℕ };

    ghost view = { λ a. bytes_in a.wire };
}

impl FoldedName {
    /// A name in lower case.
    #[tactic(auto, using(crate::proofs::Folding::folded_wire))]
    pub fn of(name: &Name) -> FoldedName
        ensures { result ≡ wire_of (folded name.now) }
    {
        let mut wire = name.bytes();
        wire.lower();
        FoldedName { wire }
    }

    /// The bytes.
    pub fn as_slice(&self) -> &[u8]
        ensures { result.now ≡ self.now }
    {
        self.wire.as_slice()
    }

    /// Whether the bytes are the other's.
    pub fn is_same(&self, other: &FoldedName) -> bool
        ensures { result ≡ bytes_eq self.now other.now }
    {
        self.wire.is_spelled_as(&other.wire)
    }

    /// An equal one.
    pub fn copy(&self) -> FoldedName
        ensures { result ≡ self.now }
    {
        FoldedName { wire: self.wire }
    }
}
