// Which groups are live.
ghost use Rattle.std.specs.Prelude.{◌≡◌, ◌≤◌, ◌<◌, ◌+◌, ◌++◌, ◌^◌, [], filter, map, length, not, vec_len, ◌==◌, IfOk, OnOk};
ghost use Rattle.std.specs.List.{list_any};
ghost use Rattle.std.specs.Option.{option_copied, option_to_list};
ghost use Rattle.mdns_history.specs.History.{has_mark};
ghost use Rattle.mdns_history.specs.Groups.{Group, begun_in, ends_group, groups, group_name, host_name, host_of, is_failure_of, is_group, names_of, registered_count};

use crate::begun::begun_in;
use crate::group::{LiveGroup, host_group};
use crate::names::group_name;
use crate::registration::registered_count;
use dns_name::Name;
use mdns_history::{Entry, HostConfig, Mark};
use plain_history::{HistoryEntry, config_of, ends_operation};
use std::alloc::{AllocError, Global};

/// The live groups, by number: each from the entry in which it began, until one ends it. Refused only for want of memory.
#[tactic(auto, unfolding(mdns_history::specs::Groups::groups))]
pub fn groups(alloc: Global, history: &[HistoryEntry]) -> Result<Vec<LiveGroup>, AllocError>
    requires { length history.now < 2 ^ 30 }
    ensures value { IfOk result (λ live. live.items ≡ groups history.now) }
    ensures len { IfOk result (λ live. vec_len live ≤ length history.now) }
{
    let mut live = Vec::new(alloc);
    let mut place = history.len();
    while place > 0 {
        place -= 1;
        live = after_entry(alloc, live, &history[place], &history[place + 1..])?;
    }
    Ok(live)
}

// The live groups after an entry.
fn after_entry(
    alloc: Global,
    before: Vec<LiveGroup>,
    entry: &HistoryEntry,
    past: &[HistoryEntry],
) -> Result<Vec<LiveGroup>, AllocError>
    requires few { vec_len before < 2 ^ 30 }
    requires short { length past.now < 2 ^ 30 }
    ensures value { IfOk result (λ live. live.items ≡ filter (λ group. not (ends_group entry.now group)) before.items
        ++ option_to_list (begun_in entry.now (registered_count past.now + 1) (names_of before.items past.now))) }
    ensures len { IfOk result (λ live. vec_len live ≤ vec_len before + 1) }
{
    let names = names_of(alloc, &before, past)?;
    let begun = begun_in(alloc, entry, registered_count(past) + 1, &names)?;
    let mut live = without_ended(alloc, before, entry.entry())?;
    put_begun(&mut live, begun)?;
    Ok(live)
}

// The groups that an entry doesn't end.
fn without_ended(
    alloc: Global,
    groups: Vec<LiveGroup>,
    entry: &Entry,
) -> Result<Vec<LiveGroup>, AllocError>
    ensures value { IfOk result (λ live. live.items ≡ filter (λ group. not (ends_group entry.now group)) groups.items) }
    ensures len { IfOk result (λ live. vec_len live ≤ vec_len groups) }
{
    let mut live = Vec::new(alloc);
    for group in groups {
        if !ends_group(entry, &group) {
            live.push(group)?;
        }
    }
    Ok(live)
}

// Puts a group that begins behind the others.
fn put_begun(live: &mut Vec<LiveGroup>, begun: Option<LiveGroup>) -> Result<(), AllocError>
    ensures value { OnOk result (live.new.items ≡ live.old.items ++ option_to_list begun) }
    ensures len { OnOk result (vec_len live.new ≤ vec_len live.old + 1) }
{
    if let Some(group) = begun {
        live.push(group)?;
    }
    Ok(())
}

// Whether an entry ends a group: with its operation, or by its mark Failed.
fn ends_group(entry: &Entry, group: &LiveGroup) -> bool
    ensures { result ≡ ends_group entry.now group.now }
{
    ends_operation(group.session, group.op, entry) || fails(group.id, entry)
}

fn fails(id: u64, entry: &Entry) -> bool
    ensures { result ≡ has_mark (is_failure_of id) entry.now }
{
    entry
        .marks
        .as_slice()
        .iter()
        .any(|mark| is_failure_of(id, mark))
}

fn is_failure_of(id: u64, mark: &Mark) -> bool
    ensures { result ≡ is_failure_of id mark.now }
{
    match mark {
        Mark::Failed { group } => *group == id,
        _ => false,
    }
}

/// The present names of groups. Refused only for want of memory.
pub fn names_of(
    alloc: Global,
    groups: &[LiveGroup],
    history: &[HistoryEntry],
) -> Result<Vec<Name>, AllocError>
    ensures value { IfOk result (λ names. names.items ≡ names_of groups.now history.now) }
    ensures len { IfOk result (λ names. vec_len names ≡ length groups.now) }
{
    let mut names = Vec::new(alloc);
    for group in groups {
        names.push(group_name(group, history))?;
    }
    Ok(names)
}

/// Whether a number is that of a live group. Refused only for want of memory.
pub fn is_group(alloc: Global, id: u64, history: &[HistoryEntry]) -> Result<bool, AllocError>
    requires { length history.now < 2 ^ 30 }
    ensures { IfOk result (λ found. found ≡ is_group id history.now) }
{
    let live = groups(alloc, history)?;
    Ok(has_id(&live, id))
}

// Whether a group has a number.
fn has_id(groups: &[LiveGroup], id: u64) -> bool
    ensures { result ≡ list_any (λ group. group.id == id) groups.now }
{
    groups.iter().any(|group| group.id == id)
}

// The host of a daemon.
fn host_of(history: &[HistoryEntry]) -> Option<&HostConfig>
    ensures { option_copied result ≡ host_of history.now }
{
    config_of(history)?.host.as_ref()
}

/// The host's present name, the root on a daemon without a host.
#[tactic(auto, unfolding(mdns_history::specs::Groups::host_name))]
pub fn host_name(alloc: Global, history: &[HistoryEntry]) -> Name
    ensures { result ≡ host_name history.now }
{
    match host_of(history) {
        Some(host) => group_name(&host_group(alloc, host), history),
        None => Name::root(),
    }
}
