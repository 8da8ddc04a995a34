ghost use Rattle.std.specs.Prelude.{◌≡◌, ◌↔◌, ◌⊎◌, ℕ, IsTrue, List, [], ◌∷◌, ◌++◌, length, filter, nat_lt, Ok, Err, OnOk, IfOk, IfErr};
ghost use Rattle.std.specs.Option.{option_map_or};
ghost use Rattle.dns_name.specs.TextItems.{items_of};
ghost use Rattle.dns_name.specs.ReadName.{Takes, Refuses, first_fault, name_spelled, read_name, HasItemsOf, IsSpelling};
ghost use Rattle.dns_name.specs.Names.{is_name};

use crate::{Name, NameError, TextItem, TextItems};
use arrayvec::ArrayVec;
use std::marker::Model;

impl Name {
    /// The name that a text spells: its labels, each followed by a dot, of which the last may be missing; a dot alone
    /// is the root. In a label `\.` is a dot, `\\` a backslash and `\DDD` the byte of these decimal digits; every
    /// other byte stands for itself. The error is the first fault from the left, a label's 64th byte before the
    /// wire form's 256th. (RFC 1035 5.1)
    pub fn parse_text(text: &str) -> Result<Name, NameError>
        ensures value { result ≡ read_name text.now }
        ensures spelled { (name : List (List ℕ)) → (result ≡ Ok name) ↔ IsSpelling text.now name }
    {
        if text == "." {
            return Ok(Name::root());
        }
        if text.is_empty() {
            return Err(NameError::EmptyLabel);
        }
        read_labels(text.as_bytes())
    }
}

fn read_labels(text: &[u8]) -> Result<Name, NameError>
    ensures value { result ≡ option_map_or Err (first_fault [] (items_of text.now)) (Ok (name_spelled (items_of text.now))) }
    ensures spelled { IfOk result (λ name. IsTrue (is_name name) × HasItemsOf (items_of text.now) name) }
{
    let mut reading = Reading::new();
    let mut items = TextItems::new(text);
    while let Some(item) = items.next_item() {
        reading.take(item)?;
    }
    Ok(reading.finish())
}

// A name that is being read: its whole labels, and the bytes so far of the one under way.
#[derive(Drop)]
struct Reading {
    name: Name,
    label: ArrayVec<u8, 63>,
}

impl Model for Reading {
    ghost use Rattle.std.specs.Prelude.{List, ℕ, [], ◌∷◌, ◌++◌, ◌+◌, ◌<◌, ◌≤◌, length, IsTrue};
    ghost use Rattle.dns_name.specs.Names.{is_name, wire_of};

    ghost Value = { List (List ℕ) };

    ghost view = { λ a. a.name ++ a.label.items ∷ [] };

    // A label under way fits behind the whole ones.
    ghost invariant = { λ a. IsTrue (is_name a.name) × (0 < length a.label.items → length (wire_of a.name) + length a.label.items + 1 ≤ 255) };
}

impl Reading {
    fn new() -> Reading
        ensures { result ≡ [] ∷ [] }
    {
        Reading {
            name: Name::root(),
            label: ArrayVec::new(),
        }
    }

    // Takes an item behind those that spelled the labels so far.
    fn take(&mut self, item: TextItem) -> Result<(), NameError>
        ensures ok { OnOk result (Takes self.old item self.new) }
        ensures err { IfErr result (Refuses self.old item) }
    {
        match item {
            TextItem::Dot => self.take_dot(),
            TextItem::Byte(byte) => self.take_byte(byte),
            TextItem::Bad => Err(NameError::BadEscape),
        }
    }

    fn take_dot(&mut self) -> Result<(), NameError>
        ensures ok { OnOk result (Takes self.old TextItem.Dot self.new) }
        ensures err { IfErr result (Refuses self.old TextItem.Dot) }
    {
        if self.label.is_empty() {
            return Err(NameError::EmptyLabel);
        }
        self.name.push_bytes(self.label.as_slice());
        self.label.clear();
        Ok(())
    }

    fn take_byte(&mut self, byte: u8) -> Result<(), NameError>
        ensures ok { OnOk result (Takes self.old (TextItem.Byte byte) self.new) }
        ensures err { IfErr result (Refuses self.old (TextItem.Byte byte)) }
    {
        if self.label.is_full() {
            return Err(NameError::LongLabel);
        }
        if self.name.wire_len() + self.label.len() + 2 > 255 {
            return Err(NameError::LongName);
        }
        self.label.push(byte);
        Ok(())
    }

    // The name, behind whose final dot no label is under way.
    fn finish(mut self) -> Name
        ensures value { result ≡ filter (λ label. nat_lt 0 (length label)) self }
        ensures name { IsTrue (is_name result) }
        ensures ends { (self ≡ result ++ [] ∷ []) ⊎ (self ≡ result) }
    {
        if !self.label.is_empty() {
            self.name.push_bytes(self.label.as_slice());
        }
        self.name
    }
}
