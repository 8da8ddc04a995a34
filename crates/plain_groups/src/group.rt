// Groups of records under one name.
ghost use Rattle.std.specs.Prelude.{◌≡◌};
ghost use Rattle.mdns_history.specs.Groups.{no_type, host_group};

use dns_name::{Label, Name};
use mdns_history::HostConfig;
use sd_name::local_name;
use std::alloc::Global;
use std::marker::Model;

/// What the name of a group stands under, and the subtypes that point to it.
#[derive(Drop)]
pub struct GroupType {
    pub name: Name,
    pub subtypes: Vec<Label>,
}

impl Model for GroupType {
    ghost use Rattle.std.specs.Prelude.{◌≤◌, length};
    ghost use Rattle.dns_name.specs.Names.{wire_of};
    ghost use Rattle.sd_name.specs.ServiceTypes.{ServiceType};

    ghost Value = { ServiceType };

    ghost view = { λ a. record { name = a.name; subtypes = a.subtypes.items } };

    ghost invariant = { λ a. length (wire_of a.name) ≤ 29 };
}

/// A group: the host is number 0, the n-th accepted registration number n. It began with a number for its name.
#[derive(Drop)]
pub struct LiveGroup {
    pub id: u64,
    pub session: u64,
    pub op: u32,
    pub label: Label,
    pub regtype: GroupType,
    pub port: u16,
    pub norename: bool,
    pub first: u32,
}

impl Model for LiveGroup {
    ghost use Rattle.std.specs.Prelude.{◌≤◌, ◌+◌, ◌^◌};
    ghost use Rattle.mdns_history.specs.Groups.{Group};

    ghost Value = { Group };

    ghost view = { λ a. record { id = a.id; session = a.session; op = a.op; label = a.label; type = a.regtype; port = a.port; norename = a.norename; first = a.first } };

    ghost invariant = { λ a. a.first ≤ 2 ^ 30 + 1 };
}

/// The group of a host.
pub fn host_group(alloc: Global, host: &HostConfig) -> LiveGroup
    ensures { result ≡ host_group host.now }
{
    LiveGroup {
        id: 0,
        session: 0,
        op: 0,
        label: copied(&host.label),
        regtype: no_type(alloc),
        port: 0,
        norename: false,
        first: 1,
    }
}

/// What hosts stand under.
pub fn no_type(alloc: Global) -> GroupType
    ensures { result ≡ no_type }
{
    GroupType {
        name: local_name(),
        subtypes: Vec::new(alloc),
    }
}

/// An equal label.
pub fn copied(label: &Label) -> Label
    ensures { result ≡ label.now }
{
    Label::new(label.as_slice()).unwrap()
}
