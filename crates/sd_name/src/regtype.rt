ghost use Rattle.std.specs.Prelude.{◌≡◌, ◌==◌, ◌<◌, ◌≤◌, if◌then◌else◌, length, option_map, slice_get, IfSome, MatchOption, IfOk, OnErr};
ghost use Rattle.std.specs.List.{slice_split};
ghost use Rattle.std.specs.Option.{option_copied};
ghost use Rattle.dns_name.specs.Names.{wire_of};
ghost use Rattle.sd_name.specs.ServiceTypes.{service_type, is_subtype, type_name, subtype_name};

use crate::TypeError;
use crate::grammar::{are_type_labels, cut, is_subtype};
use crate::names::push_bytes;
use arrayvec::ArrayVec;
use dns_name::{Label, Name};
use std::marker::Model;

/// A service type, seen as its name under `local` and its subtypes, which are at most 16. (RFC 6763 section 7)
#[derive(Drop)]
pub struct RegType {
    type_name: Name,
    subtypes: ArrayVec<Subtype, 16>,
}

impl Model for RegType {
    ghost use Rattle.std.specs.Prelude.{◌≤◌, length};
    ghost use Rattle.dns_name.specs.Names.{wire_of};
    ghost use Rattle.sd_name.specs.ServiceTypes.{ServiceType};

    ghost Value = { ServiceType };

    ghost view = { λ a. record { name = a.type_name; subtypes = a.subtypes.items } };

    ghost invariant = { λ a. length (wire_of a.type_name) ≤ 29 };
}

// A subtype as it was written.
#[derive(Drop)]
struct Subtype {
    label: Label,
}

impl Model for Subtype {
    ghost use Rattle.std.specs.Prelude.{List, ℕ};

    ghost Value = { List ℕ };

    ghost view = { λ a. a.label };
}

// What stands in the places of a list that are not in use.
impl Default for Subtype {
    fn default() -> Subtype {
        Subtype {
            label: Label::new(b"_").unwrap(),
        }
    }
}

impl Subtype {
    // The subtype of these bytes, where they are one.
    fn new(bytes: &[u8]) -> Option<Subtype>
        ensures { result ≡ (if is_subtype bytes.now then Some bytes.now else None) }
    {
        if !is_subtype(bytes) {
            return None;
        }
        let label = Label::new(bytes)?;
        Some(Subtype { label })
    }
}

impl RegType {
    /// The service type that a text spells: `_app._tcp` or `_app._udp`, perhaps a final dot, and a comma and a subtype
    /// for each of at most 16 subtypes. `BadType` exactly where the text is no such type. (RFC 6335 section 5.1, RFC 6763
    /// section 7)
    pub fn parse(text: &str) -> Result<RegType, TypeError>
        ensures ok { IfOk result (λ regtype. service_type text.now ≡ Some regtype) }
        ensures few { IfOk result (λ regtype. length regtype.subtypes ≤ 16) }
        ensures bad { OnErr result (IfSome (service_type text.now) (λ regtype. 16 < length regtype.subtypes)) }
    {
        parsed(text.as_bytes()).ok_or(TypeError::BadType)
    }

    /// The name of the type under `local`, as it was written.
    pub fn type_name(&self) -> Name
        ensures name { result ≡ self.now.name }
        ensures short { length (wire_of result) ≤ 29 }
    {
        self.type_name.copy()
    }

    /// How many subtypes the type has, at most 16.
    pub fn subtype_count(&self) -> usize
        ensures count { result ≡ length self.now.subtypes }
        ensures few { result ≤ 16 }
    {
        self.subtypes.len()
    }

    /// The subtype at a place, counted from 0 in the order written, with its underscore where it has one. `None` exactly
    /// past the last. (RFC 6763 section 7.1)
    pub fn subtype(&self, place: usize) -> Option<&Label>
        ensures { option_copied result ≡ slice_get self.now.subtypes place }
    {
        let subtype = self.subtypes.as_slice().get(place)?;
        Some(&subtype.label)
    }

    /// The name at which the subtype at a place is browsed: the subtype and `_sub` in front of the type. `None` exactly
    /// past the last. (RFC 6763 section 7.1)
    pub fn subtype_name(&self, place: usize) -> Option<Name>
        ensures { result ≡ option_map (λ subtype. subtype_name subtype self.now) (slice_get self.now.subtypes place) }
    {
        let subtype = self.subtype(place)?;
        let _ = subtype.as_slice();
        let sub = Label::new(b"_sub").unwrap();
        Some(self.type_name.child(&sub).unwrap().child(subtype).unwrap())
    }
}

// The service type that bytes spell with at most 16 subtypes.
fn parsed(text: &[u8]) -> Option<RegType>
    ensures { MatchOption result (IfSome (service_type text.now) (λ regtype. 16 < length regtype.subtypes))
        (λ regtype. (service_type text.now ≡ Some regtype) × (length regtype.subtypes ≤ 16)) }
{
    let (first, mut rest) = cut(text, b',');
    let type_name = type_name_of(first)?;
    let mut subtypes = ArrayVec::new();
    while let Some(pieces) = rest {
        let (piece, after) = cut(pieces, b',');
        if subtypes.is_full() {
            return None;
        }
        subtypes.push(Subtype::new(piece)?);
        rest = after;
    }
    Some(RegType {
        type_name,
        subtypes,
    })
}

// The name under `local` of a type without its subtypes.
fn type_name_of(text: &[u8]) -> Option<Name>
    ensures name { result ≡ type_name (slice_split (λ b. b == 46) text.now) }
    ensures short { IfSome result (λ name. length (wire_of name) ≤ 29) }
{
    let (app, rest) = cut(text, b'.');
    let (transport, rest) = cut(rest?, b'.');
    if !are_type_labels(app, transport, rest) {
        return None;
    }
    let mut name = Name::root();
    push_bytes(&mut name, app);
    push_bytes(&mut name, transport);
    push_bytes(&mut name, b"local");
    Some(name)
}
