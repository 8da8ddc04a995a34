// The marks that a packet gives to claims: group by group, each beside the names that the ones before it left. (RFC 6762 9)
ghost use Rattle.std.specs.Prelude.{IfOk, OnOk, Some, filter, map, not, ◌++◌, ◌==◌, ◌≡◌};
ghost use Rattle.std.specs.Option.{option_to_list};
ghost use Rattle.mdns_contest.specs.Turning.{disturbs_any, mark_of, renamed_to, said};
ghost use Rattle.mdns_happened.specs.Told.{told_by};
ghost use Rattle.mdns_history.specs.Claims.{held_by_others, holdings_after};
ghost use Rattle.mdns_probe.specs.Kept.{disturbed_for, giving_up_for, holding_for, mark_for, marks_for_turn};

use crate::disturb::{Disturbance, disturbs};
use dns_name::Name;
use mdns_claimants::Claimant;
use mdns_happened::{Happened, Heard};
use mdns_history::{Mark, Marks};
use std::alloc::{AllocError, Global};
use std::marker::Model;

/// The greatest number of a name.
const GREATEST_NUMBER: u32 = 999_999;

/// Past so many groups there is no memory for another.
pub const MOST_GROUPS: usize = 1 << 30;

/// A group's number, and the name that it holds.
#[derive(Drop)]
struct Holding {
    id: u64,
    name: Name,
}

impl Model for Holding {
    ghost use Rattle.mdns_history.specs.Claims as history;

    ghost Value = { history.Holding };

    ghost view = { λ a. record { id = a.id; name = a.name } };
}

/// The marks that an event gives to claims. Refused only for want of memory.
pub fn claim_marks(
    alloc: Global,
    groups: &[Claimant],
    happened: &Happened<'_>,
) -> Result<Marks, AllocError>
    ensures { IfOk result (λ marks. marks ≡ disturbed_for (told_by happened.now).heard groups.now) }
{
    match happened {
        Happened::Heard(heard) => heard_marks(alloc, groups, heard),
        _ => Ok(Marks::new(alloc)),
    }
}

#[tactic(auto, using(crate::proofs::Turned::undisturbed))]
fn heard_marks(alloc: Global, groups: &[Claimant], heard: &Heard<'_>) -> Result<Marks, AllocError>
    ensures { IfOk result (λ marks. marks ≡ marks_for_turn (said heard.now) groups.now (map holding_for groups.now)) }
{
    if !disturbs_any(alloc, groups, heard)? {
        return Ok(Marks::new(alloc));
    }
    let mut holdings = holdings_of(alloc, groups)?;
    turn_marks(alloc, groups, heard, &mut holdings)
}

// Whether a message disturbs one of the groups. Refused only for want of memory.
fn disturbs_any(alloc: Global, groups: &[Claimant], heard: &Heard<'_>) -> Result<bool, AllocError>
    ensures { IfOk result (λ any. any ≡ disturbs_any (said heard.now) groups.now) }
{
    for one in groups {
        if disturbs(alloc, heard, one)?.is_some() {
            return Ok(true);
        }
    }
    Ok(false)
}

fn holdings_of(alloc: Global, groups: &[Claimant]) -> Result<Vec<Holding>, AllocError>
    ensures { IfOk result (λ holdings. holdings.items ≡ map holding_for groups.now) }
{
    let mut holdings = Vec::with_capacity(alloc, groups.len())?;
    for one in groups {
        holdings.push(Holding {
            id: one.naming().id(),
            name: one.name().copy(),
        })?;
    }
    Ok(holdings)
}

fn turn_marks(
    alloc: Global,
    groups: &[Claimant],
    heard: &Heard<'_>,
    holdings: &mut Vec<Holding>,
) -> Result<Marks, AllocError>
    ensures { IfOk result (λ marks. marks ≡ marks_for_turn (said heard.now) groups.now holdings.old.items) }
{
    let mut marks = Marks::new(alloc);
    for one in groups {
        put_mark(&mut marks, alloc, one, heard, holdings)?;
    }
    Ok(marks)
}

// Puts the mark of a group in its turn, if it gets one, and notes which names are then held. Refused only for want of memory.
fn put_mark(
    marks: &mut Marks,
    alloc: Global,
    one: &Claimant,
    heard: &Heard<'_>,
    holdings: &mut Vec<Holding>,
) -> Result<(), AllocError>
    ensures marks { OnOk result (marks.new ≡ marks.old ++ option_to_list (mark_for (said heard.now) one.now (held_by_others one.now.group.id holdings.old.items))) }
    ensures holdings { OnOk result (holdings.new.items ≡ holdings_after one.now.group (mark_for (said heard.now) one.now (held_by_others one.now.group.id holdings.old.items)) holdings.old.items) }
{
    let Some(found) = disturbs(alloc, heard, one)? else {
        return Ok(());
    };
    let mark = mark_of(alloc, one, found, holdings)?;
    note_mark(holdings, one, &mark);
    marks.push(mark)
}

// The mark of a disturbance of a group. Refused only for want of memory.
fn mark_of(
    alloc: Global,
    one: &Claimant,
    found: Disturbance,
    holdings: &[Holding],
) -> Result<Mark, AllocError>
    ensures { IfOk result (λ mark. mark ≡ mark_of one.now (held_by_others one.now.group.id holdings.now) found) }
{
    let group = one.naming().id();
    match found {
        Disturbance::Contested => Ok(Mark::Contested { group }),
        Disturbance::Tied => Ok(Mark::TieLost { group }),
        Disturbance::GivenUp => {
            let others = held_by_others(alloc, holdings, group)?;
            giving_up(one, &others)
        }
    }
}

// The names that all groups but one hold. Refused only for want of memory.
fn held_by_others(alloc: Global, holdings: &[Holding], id: u64) -> Result<Vec<Name>, AllocError>
    ensures { IfOk result (λ names. names.items ≡ held_by_others id holdings.now) }
{
    let mut names = Vec::with_capacity(alloc, holdings.len())?;
    for holding in holdings {
        if holding.id != id {
            names.push(holding.name.copy())?;
        }
    }
    Ok(names)
}

// The mark of a group that gives up its name: another number, or that it fails. Refused only for want of memory, as it is
// where there are more names than memory ever has.
#[tactic(auto, using(crate::proofs::Numbers::past_the_greatest))]
fn giving_up(one: &Claimant, others: &[Name]) -> Result<Mark, AllocError>
    ensures { IfOk result (λ mark. mark ≡ giving_up_for one.now others.now) }
{
    let group = one.naming().id();
    if one.naming().norename() {
        return Ok(Mark::Failed { group });
    }
    if one.number() >= GREATEST_NUMBER {
        return Ok(Mark::Failed { group });
    }
    if others.len() > MOST_GROUPS {
        return Err(AllocError);
    }
    let number = one.naming().free_number(one.number() + 1, others);
    Ok(if number > GREATEST_NUMBER {
        Mark::Failed { group }
    } else {
        Mark::Renamed { group, number }
    })
}

// Notes which names are held behind the mark of a group. It takes no memory.
fn note_mark(holdings: &mut Vec<Holding>, one: &Claimant, mark: &Mark)
    ensures { holdings.new.items ≡ holdings_after one.now.group (Some mark.now) holdings.old.items }
{
    match mark {
        Mark::Renamed { group, number } => {
            rename(holdings, *group, &one.naming().name_under(*number));
        }
        Mark::Failed { group } => let_go(holdings, *group),
        _ => {}
    }
}

fn rename(holdings: &mut [Holding], id: u64, name: &Name)
    ensures { holdings.new ≡ map (renamed_to id name.now) holdings.old }
{
    for holding in holdings.iter_mut() {
        rename_one(holding, id, name);
    }
}

fn rename_one(holding: &mut Holding, id: u64, name: &Name)
    ensures { holding.new ≡ renamed_to id name.now holding.old }
{
    if holding.id == id {
        holding.name = name.copy();
    }
}

fn let_go(holdings: &mut Vec<Holding>, id: u64)
    ensures { holdings.new.items ≡ filter (λ holding. not (holding.id == id)) holdings.old.items }
{
    holdings.retain(|holding| holding.id != id);
}
