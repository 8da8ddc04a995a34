// The groups that begin.
ghost use Rattle.std.specs.Prelude.{◌≡◌, ◌<◌, ◌+◌, ◌^◌, length, IfOk};
ghost use Rattle.std.specs.Option.{option_copied, option_and_then};
ghost use Rattle.mdns_history.specs.History.{booted};
ghost use Rattle.mdns_history.specs.Groups.{begun_in, group_of};

use crate::group::{LiveGroup, host_group};
use crate::names::free_number;
use crate::registration::{Registered, registration_in};
use dns_name::Name;
use mdns_history::{Event, HostConfig};
use plain_history::HistoryEntry;
use std::alloc::{AllocError, Global};

/// The group that begins with an entry, beside groups of these names: the host at the boot, and a registration, which gets the
/// given number. Refused only for want of memory.
pub fn begun_in(
    alloc: Global,
    entry: &HistoryEntry,
    id: u64,
    names: &[Name],
) -> Result<Option<LiveGroup>, AllocError>
    requires { length names.now < 2 ^ 30 }
    ensures { IfOk result (λ group. group ≡ begun_in entry.now id names.now) }
{
    if let Some(host) = booted_host(&entry.entry().event) {
        return Ok(Some(host_group(alloc, host)));
    }
    match registration_in(alloc, entry)? {
        Some(registered) => Ok(Some(group_of(id, names, registered))),
        None => Ok(None),
    }
}

// The host with which a daemon is booted.
fn booted_host(event: &Event) -> Option<&HostConfig>
    ensures { option_copied result ≡ option_and_then (λ config. config.host) (booted event.now) }
{
    match event {
        Event::Boot { config } => config.host.as_ref(),
        _ => None,
    }
}

// The group of a registration.
fn group_of(id: u64, names: &[Name], registered: Registered) -> LiveGroup
    requires { length names.now < 2 ^ 30 }
    ensures { result ≡ group_of id names.now registered }
{
    let mut group = LiveGroup {
        id,
        session: registered.session,
        op: registered.op,
        label: registered.label,
        regtype: registered.regtype,
        port: registered.port,
        norename: registered.norename,
        first: 1,
    };
    group.first = free_number(1, names, &group);
    group
}
