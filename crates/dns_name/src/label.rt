ghost use Rattle.std.specs.Prelude.{◌≡◌, ◌↔◌, IsTrue, IsSome, IfSome};
ghost use Rattle.dns_name.specs.Names.{is_label};

use arrayvec::ArrayVec;
use std::marker::Model;

/// A label of a name: 1 to 63 bytes. (RFC 1035 3.1)
#[derive(Drop)]
pub struct Label {
    bytes: ArrayVec<u8, 63>,
}

impl Model for Label {
    ghost use Rattle.std.specs.Prelude.{List, ℕ, IsTrue};
    ghost use Rattle.dns_name.specs.Names.{is_label};

    ghost Value = { List ℕ };

    ghost view = { λ a. a.bytes.items };

    ghost invariant = { λ a. IsTrue (is_label a.bytes.items) };
}

impl Label {
    /// The label of these bytes, `None` exactly where they are none or more than 63.
    pub fn new(bytes: &[u8]) -> Option<Label>
        ensures some { IsSome result ↔ IsTrue (is_label bytes.now) }
        ensures value { IfSome result (λ label. label ≡ bytes.now) }
    {
        if bytes.is_empty() {
            return None;
        }
        let mut held = ArrayVec::new();
        held.try_extend_from_slice(bytes).ok()?;
        Some(Label { bytes: held })
    }

    /// Its bytes.
    pub fn as_slice(&self) -> &[u8]
        ensures value { result.now ≡ self.now }
        ensures label { IsTrue (is_label result.now) }
    {
        self.bytes.as_slice()
    }
}
