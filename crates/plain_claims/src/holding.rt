// The names that groups hold while a packet is judged.
ghost use Rattle.std.specs.Prelude.{◌≡◌, ◌≤◌, ◌==◌, not, filter, length, vec_len, map, IfOk, if◌then◌else◌};
ghost use Rattle.mdns_history.specs.Claims.{Holding, held_by_others, holding_of, holdings_after};
ghost use Rattle.mdns_history.specs.Groups.{numbered_name};

use dns_name::Name;
use mdns_history::Mark;
use plain_groups::{LiveGroup, group_name, numbered_name};
use plain_history::HistoryEntry;
use std::alloc::{AllocError, Global};
use std::marker::Model;

/// A group's number and the name that it holds.
#[derive(Drop)]
pub struct HeldName {
    pub id: u64,
    pub name: Name,
}

impl Model for HeldName {
    ghost use Rattle.mdns_history.specs.Claims.{Holding};

    ghost Value = { Holding };

    ghost view = { λ a. record { id = a.id; name = a.name } };
}

/// Groups with the names that they hold. Refused only for want of memory.
pub fn holdings_of(
    alloc: Global,
    groups: &[LiveGroup],
    history: &[HistoryEntry],
) -> Result<Vec<HeldName>, AllocError>
    ensures value { IfOk result (λ holdings. holdings.items ≡ map (holding_of history.now) groups.now) }
    ensures len { IfOk result (λ holdings. vec_len holdings ≤ length groups.now) }
{
    let mut holdings = Vec::new(alloc);
    for group in groups {
        holdings.push(HeldName {
            id: group.id,
            name: group_name(group, history),
        })?;
    }
    Ok(holdings)
}

/// The names that all groups but one hold. Refused only for want of memory.
pub fn held_by_others(
    alloc: Global,
    id: u64,
    holdings: &[HeldName],
) -> Result<Vec<Name>, AllocError>
    ensures value { IfOk result (λ names. names.items ≡ held_by_others id holdings.now) }
    ensures len { IfOk result (λ names. vec_len names ≤ length holdings.now) }
{
    let mut names = Vec::new(alloc);
    for holding in holdings {
        if holding.id != id {
            names.push(holding.name.copy())?;
        }
    }
    Ok(names)
}

/// The names after the mark of a group, if it got one: a renamed group holds its new name alone, a failed one none. Refused only for
/// want of memory.
pub fn holdings_after(
    alloc: Global,
    group: &LiveGroup,
    mark: &Option<Mark>,
    holdings: Vec<HeldName>,
) -> Result<Vec<HeldName>, AllocError>
    ensures value { IfOk result (λ after. after.items ≡ holdings_after group.now mark.now holdings.items) }
    ensures len { IfOk result (λ after. vec_len after ≤ vec_len holdings) }
{
    match mark {
        Some(Mark::Renamed { group: id, number }) => {
            with_name(alloc, holdings, *id, &numbered_name(group, *number))
        }
        Some(Mark::Failed { group: id }) => without(alloc, holdings, *id),
        _ => Ok(holdings),
    }
}

// The holdings with the name of one group replaced.
fn with_name(
    alloc: Global,
    holdings: Vec<HeldName>,
    id: u64,
    name: &Name,
) -> Result<Vec<HeldName>, AllocError>
    ensures value { IfOk result (λ after. after.items ≡ map (λ holding. if holding.id == id then (record { id = id; name = name.now }) else holding) holdings.items) }
    ensures len { IfOk result (λ after. vec_len after ≤ vec_len holdings) }
{
    let mut after = Vec::new(alloc);
    for holding in holdings {
        after.push(renamed_if(holding, id, name))?;
    }
    Ok(after)
}

// A holding with its name replaced, where it is that of a group.
fn renamed_if(holding: HeldName, id: u64, name: &Name) -> HeldName
    ensures { result ≡ (if holding.id == id then (record { id = id; name = name.now }) else holding) }
{
    if holding.id == id {
        HeldName {
            id,
            name: name.copy(),
        }
    } else {
        holding
    }
}

// The holdings but those of one group.
fn without(alloc: Global, holdings: Vec<HeldName>, id: u64) -> Result<Vec<HeldName>, AllocError>
    ensures value { IfOk result (λ after. after.items ≡ filter (λ holding. not (holding.id == id)) holdings.items) }
    ensures len { IfOk result (λ after. vec_len after ≤ vec_len holdings) }
{
    let mut after = Vec::new(alloc);
    for holding in holdings {
        if holding.id != id {
            after.push(holding)?;
        }
    }
    Ok(after)
}
