ghost use Rattle.std.specs.Prelude.{◌≡◌, ◌↔◌, ◌+◌, ◌≤◌, [], ◌∷◌, ◌++◌, length, IsTrue, IsSome, IfSome};
ghost use Rattle.dns_name.specs.Names.{is_label, is_under, wire_of};
ghost use Rattle.sd_name.specs.ServiceTypes.{instance_name, local_name, types_name};

use crate::RegType;
use dns_name::{Label, Name};

/// The full name of a service: its label in front of its type. (RFC 6763 section 4.1)
pub fn full_name(label: &Label, regtype: &RegType) -> Name
    ensures { result ≡ instance_name label.now regtype.now }
{
    let _ = label.as_slice();
    regtype.type_name().child(label).unwrap()
}

/// The label of a service and the name of its type, by the full name. `None` exactly where the name has fewer than four
/// labels or isn't under `local`. (RFC 6763 section 4.3)
pub fn split_full(name: &Name) -> Option<(Label, Name)>
    ensures some { IsSome result ↔ ((4 ≤ length name.now) × IsTrue (is_under name.now local_name)) }
    ensures parts { IfSome result (λ parts. name.now ≡ parts.0 ∷ parts.1) }
{
    if name.count() < 4 || !name.under(&local_name()) {
        return None;
    }
    let mut labels = name.labels();
    let label = Label::new(labels.next_label()?)?;
    Some((label, labels.to_name()))
}

/// The name at which the types of all services stand: `_services._dns-sd._udp.local`. (RFC 6763 section 9)
pub fn types_name() -> Name
    ensures { result ≡ types_name }
{
    let mut name = Name::root();
    push_bytes(&mut name, b"_services");
    push_bytes(&mut name, b"_dns-sd");
    push_bytes(&mut name, b"_udp");
    push_bytes(&mut name, b"local");
    name
}

/// The top domain, under which all names are. (RFC 6762 section 3)
pub fn local_name() -> Name
    ensures { result ≡ local_name }
{
    let mut name = Name::root();
    push_bytes(&mut name, b"local");
    name
}

/// Puts the label of these bytes at the right end.
pub(crate) fn push_bytes(name: &mut Name, bytes: &[u8])
    requires label { IsTrue (is_label bytes.now) }
    requires room { length (wire_of name.old) + length bytes.now + 1 ≤ 255 }
    ensures { name.new ≡ name.old ++ bytes.now ∷ [] }
{
    let label = Label::new(bytes).unwrap();
    name.push(&label);
}
