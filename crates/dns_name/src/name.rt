ghost use Rattle.std.specs.Prelude.{◌≡◌, ◌↔◌, ℕ, ◌+◌, ◌≤◌, List, [], ◌∷◌, ◌++◌, length, slice_get, IsTrue, MatchOption, IsOk, IfOk, IfErr};
ghost use Rattle.std.specs.Option.{option_copied};
ghost use Rattle.dns_name.specs.InPlace.{bytes_in};
ghost use Rattle.dns_name.specs.Names.{is_label, is_name, wire_of, folded, folded_eq, exact_eq, name_cmp, is_under};

use crate::fold::{folded_order, is_same_folded, surely_differ};
use crate::wire_bytes::WireBytes;
use crate::{Label, NameError};
use std::cmp::Ordering;
use std::marker::Model;

/// A name, seen as the list of its labels from the left: at most 255 bytes in wire form. (RFC 1035 3.1)
#[derive(Drop)]
pub struct Name {
    // Each label behind its length, and a zero byte at the end.
    wire: WireBytes,
}

impl Model for Name {
    ghost use Rattle.std.specs.Prelude.{List, ℕ};
    ghost use Rattle.dns_name.specs.Names.{labels_of, IsNameInWire};
    ghost use Rattle.dns_name.specs.InPlace.{bytes_in};

    ghost Value = { List (List ℕ) };

    ghost view = { λ a. labels_of (bytes_in a.wire) };

    ghost invariant = { λ a. IsNameInWire (bytes_in a.wire) };
}

impl Name {
    /// The root, which has no label.
    pub fn root() -> Name
        ensures { result ≡ [] }
    {
        let mut wire = WireBytes::new();
        wire.push(0);
        Name { wire }
    }

    /// The wire form: each label behind its length, and a zero byte at the end. (RFC 1035 3.1)
    pub fn as_wire(&self) -> &[u8]
        ensures value { result.now ≡ wire_of self.now }
        ensures name { IsTrue (is_name self.now) }
    {
        self.wire.as_slice()
    }

    /// The wire form in its place. (RFC 1035 3.1)
    pub(crate) fn bytes(&self) -> WireBytes
        ensures value { bytes_in result ≡ wire_of self.now }
        ensures name { IsTrue (is_name self.now) }
    {
        self.wire
    }

    /// How many bytes the wire form has, from 1 to 255.
    pub fn wire_len(&self) -> usize
        ensures value { result ≡ length (wire_of self.now) }
        ensures name { IsTrue (is_name self.now) }
    {
        self.wire.len()
    }

    /// Puts a label at the right end, where the wire form has room for it.
    pub fn push(&mut self, label: &Label)
        requires { length (wire_of self.old) + length label.now + 1 ≤ 255 }
        ensures { self.new ≡ self.old ++ label.now ∷ [] }
    {
        self.push_bytes(label.as_slice());
    }

    /// The same, of the bytes of a label.
    pub fn push_bytes(&mut self, label: &[u8])
        requires label { IsTrue (is_label label.now) }
        requires room { length (wire_of self.old) + length label.now + 1 ≤ 255 }
        ensures { self.new ≡ self.old ++ label.now ∷ [] }
    {
        self.wire.pop();
        self.wire.push(label.len() as u8);
        self.wire.extend(label);
        self.wire.push(0);
    }

    /// An equal name.
    pub fn copy(&self) -> Name
        ensures { result ≡ self.now }
    {
        Name { wire: self.wire }
    }

    /// Whether the names are one, case aside: ASCII letters alone have two cases. (RFC 6762 16)
    pub fn folded_eq(&self, other: &Name) -> bool
        ensures value { result ≡ folded_eq self.now other.now }
        ensures same { IsTrue result ↔ (folded self.now ≡ folded other.now) }
    {
        let (ours, theirs) = (self.as_wire(), other.as_wire());
        if surely_differ(ours, theirs) {
            return false;
        }
        // Most names that are one are spelled the same, too.
        if self.is_spelled_as(other) {
            return true;
        }
        is_same_folded(ours, theirs)
    }

    // Whether the names are spelled the same.
    fn is_spelled_as(&self, other: &Name) -> bool
        ensures { IsTrue result ↔ (self.now ≡ other.now) }
    {
        self.wire.is_spelled_as(&other.wire)
    }

    /// Whether the names agree byte for byte.
    pub fn exact_eq(&self, other: &Name) -> bool
        ensures value { result ≡ exact_eq self.now other.now }
        ensures same { IsTrue result ↔ (self.now ≡ other.now) }
    {
        self.is_spelled_as(other)
    }

    /// The order of names: that of the bytes of their wire forms in lower case.
    pub fn folded_cmp(&self, other: &Name) -> Ordering
        ensures value { result ≡ name_cmp self.now other.now }
        ensures equal { (result ≡ Ordering.Equal) ↔ (folded self.now ≡ folded other.now) }
    {
        // Records that are put into order have one owner often, spelled the same.
        if self.is_spelled_as(other) {
            return Ordering::Equal;
        }
        folded_order(self.as_wire(), other.as_wire())
    }

    /// How many labels the name has.
    pub fn count(&self) -> usize
        ensures { result ≡ length self.now }
    {
        let mut labels = self.labels();
        let mut count = 0;
        while labels.next_label().is_some() {
            count += 1;
        }
        count
    }

    /// The label at a place, counted from 0 at the left.
    pub fn label(&self, place: usize) -> Option<&[u8]>
        ensures { option_copied result ≡ slice_get self.now place }
    {
        let mut labels = self.labels();
        for _ in 0..place {
            labels.next_label()?;
        }
        labels.next_label()
    }

    /// The name without its first label, `None` exactly at the root.
    pub fn parent(&self) -> Option<Name>
        ensures { MatchOption result (self.now ≡ []) (λ parent. (first : List ℕ) × (self.now ≡ first ∷ parent)) }
    {
        let mut labels = self.labels();
        let _first = labels.next_label()?;
        Some(labels.to_name())
    }

    /// The name with a label in front, `LongName` exactly where its wire form has no room.
    pub fn child(&self, label: &Label) -> Result<Name, NameError>
        ensures child { IfOk result (λ child. child ≡ label.now ∷ self.now) }
        ensures fits { IsOk result ↔ (length (wire_of (label.now ∷ self.now)) ≤ 255) }
        ensures long { IfErr result (λ fault. fault ≡ NameError.LongName) }
    {
        let label = label.as_slice();
        if 1 + label.len() + self.wire.len() > 255 {
            return Err(NameError::LongName);
        }
        let mut wire = WireBytes::new();
        wire.push(label.len() as u8);
        wire.extend(label);
        wire.extend(self.wire.as_slice());
        Ok(Name { wire })
    }

    /// Whether the name ends with all labels of the other, case aside. Each name is under itself and under the root.
    pub fn under(&self, other: &Name) -> bool
        ensures value { result ≡ is_under self.now other.now }
        ensures ends { IsTrue result ↔ ((front : List (List ℕ)) × (folded self.now ≡ front ++ folded other.now)) }
    {
        let (ours, theirs) = (self.count(), other.count());
        if ours < theirs {
            return false;
        }
        let mut labels = self.labels();
        for _ in theirs..ours {
            labels.next_label();
        }
        labels.is_same(other)
    }

    /// The labels, from the left.
    pub fn labels(&self) -> Labels<'_>
        ensures value { result ≡ self.now }
        ensures name { IsTrue (is_name self.now) }
    {
        Labels {
            wire: self.wire.as_slice(),
        }
    }
}

/// The labels of a name that are still to come, from the left.
#[derive(Drop)]
pub struct Labels<'a> {
    wire: &'a [u8],
}

impl<'a> Model for Labels<'a> {
    ghost use Rattle.std.specs.Prelude.{List, ℕ};
    ghost use Rattle.dns_name.specs.Names.{labels_of, IsNameInWire};

    ghost Value = { List (List ℕ) };

    ghost view = { λ a. labels_of a.wire.now };

    ghost invariant = { λ a. IsNameInWire a.wire.now };
}

impl<'a> Labels<'a> {
    /// Takes the next label, where one is left.
    pub fn next_label(&mut self) -> Option<&'a [u8]>
        ensures { MatchOption result ((self.old ≡ []) × (self.new ≡ []))
            (λ label. (self.old ≡ label.now ∷ self.new) × IsTrue (is_label label.now)) }
    {
        let (size, rest) = self.wire.split_first()?;
        if *size == 0 {
            return None;
        }
        let (label, after) = rest.split_at(usize::from(*size));
        self.wire = after;
        Some(label)
    }

    /// The wire form of the labels that are still to come.
    pub fn as_wire(&self) -> &'a [u8]
        ensures { result.now ≡ wire_of self.now }
    {
        self.wire
    }

    /// The name of the labels that are still to come.
    pub fn to_name(&self) -> Name
        ensures { result ≡ self.now }
    {
        let mut wire = WireBytes::new();
        wire.extend(self.wire);
        Name { wire }
    }

    // Whether they are the labels of a name, case aside.
    fn is_same(&self, name: &Name) -> bool
        ensures { IsTrue result ↔ (folded self.now ≡ folded name.now) }
    {
        is_same_folded(self.wire, name.as_wire())
    }
}
