// The names of groups, and which are free.
ghost use Rattle.std.specs.Prelude.{◌≡◌, ◌≤◌, ◌<◌, ◌+◌, ◌^◌, length, max, IfSome};
ghost use Rattle.std.specs.Option.{unwrap_or};
ghost use Rattle.mdns_history.specs.History.{latest};
ghost use Rattle.mdns_history.specs.Groups.{numbered_label, numbered_name, number_in_mark, renaming, number_of, group_name, is_taken, free_number};

use crate::group::LiveGroup;
use dns_name::{Label, Name};
use mdns_history::Mark;
use plain_history::HistoryEntry;
use sd_name::{host_renamed, renamed};

// The label of a group under a number.
fn numbered_label(group: &LiveGroup, number: u32) -> Label
    ensures { result ≡ numbered_label group.now number }
{
    if group.id == 0 {
        host_renamed(&group.label, number)
    } else {
        renamed(&group.label, number)
    }
}

/// The name of a group under a number.
pub fn numbered_name(group: &LiveGroup, number: u32) -> Name
    ensures { result ≡ numbered_name group.now number }
{
    let label = numbered_label(group, number);
    let _ = label.as_slice();
    group.regtype.name.child(&label).unwrap()
}

fn number_in_mark(id: u64, mark: &Mark) -> Option<u32>
    ensures { result ≡ number_in_mark id mark.now }
{
    match mark {
        Mark::Renamed { group, number } if *group == id => Some(*number),
        _ => None,
    }
}

// The number that an entry gave to a group.
fn renaming(id: u64, entry: &HistoryEntry) -> Option<u32>
    ensures value { result ≡ renaming id entry.now }
    ensures bound { IfSome result (λ number. number ≤ 999999) }
{
    for mark in entry.marks() {
        if let Some(number) = number_in_mark(id, mark) {
            return Some(number);
        }
    }
    None
}

/// The number of a group's name.
#[tactic(auto, unfolding(mdns_history::specs::Groups::number_of))]
pub fn number_of(group: &LiveGroup, history: &[HistoryEntry]) -> u32
    ensures value { result ≡ number_of group.now history.now }
    ensures bound { result ≤ 2 ^ 30 + 1 }
{
    for entry in history {
        if let Some(number) = renaming(group.id, entry) {
            return number;
        }
    }
    group.first
}

/// The present name of a group.
#[tactic(auto, unfolding(mdns_history::specs::Groups::group_name))]
pub fn group_name(group: &LiveGroup, history: &[HistoryEntry]) -> Name
    ensures { result ≡ group_name group.now history.now }
{
    numbered_name(group, number_of(group, history))
}

/// Whether a name is among others, case aside.
pub fn is_taken(names: &[Name], name: &Name) -> bool
    ensures { result ≡ is_taken names.now name.now }
{
    names.iter().any(|other| name.folded_eq(other))
}

/// The least number from a given one on under which a group's name is none of these.
#[tactic(auto, unfolding(mdns_history::specs::Groups::free_number))]
pub fn free_number(from: u32, names: &[Name], group: &LiveGroup) -> u32
    requires { from + length names.now + 2 < 2 ^ 32 }
    ensures value { result ≡ free_number from names.now group.now }
    ensures bound { result ≤ from + length names.now + 1 }
{
    let more = names.len() as u32 + 2;
    for number in from..from + more {
        if !is_taken(names, &numbered_name(group, number)) {
            return number;
        }
    }
    from
}
