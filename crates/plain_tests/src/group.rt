// Rows on the names that a daemon claims: `plain_groups`.
use crate::kept::Kept;
use crate::row_error::RowError;
use crate::words::{count, number, numbers, yes_or_no};
use plain_groups::{
    group_records, groups, host_name, is_group, is_own, is_sure, names_of, own_records,
    registered_count, sure_groups, tick_moments,
};
use std::alloc::Global;

/// A call on the groups of the history.
pub fn row(alloc: Global, kept: &Kept, text: &str) -> Result<String, RowError> {
    let words: Vec<&str> = text.split(' ').collect(alloc)?;
    match words.as_slice() {
        ["live"] => count(alloc, groups(alloc, kept.entries())?.len()),
        ["registered"] => Ok(registered_count(kept.entries()).to_string(alloc)?),
        ["names"] => names(alloc, kept),
        ["is", id] => {
            yes_or_no(
                alloc,
                is_group(alloc, u64::from(number(id)?), kept.entries())?,
            )
        }
        ["host"] => host(alloc, kept),
        ["own"] => count(alloc, own_records(alloc, kept.entries())?.len()),
        ["sure"] => count(alloc, sure_groups(alloc, kept.entries())?.len()),
        [asked, rest @ ..] => row_of_one(alloc, kept, asked, rest),
        _ => Err(RowError::NotUnderstood),
    }
}

// A call on one of the live groups, which is told by its place among them.
fn row_of_one(alloc: Global, kept: &Kept, asked: &str, words: &[&str]) -> Result<String, RowError> {
    match (asked, words) {
        ("sure", [place]) => sure(alloc, kept, place_of(place)?),
        ("ticks", [place]) => ticks(alloc, kept, place_of(place)?),
        ("records", [place]) => records(alloc, kept, place_of(place)?),
        ("own", [place, record]) => own(alloc, kept, place_of(place)?, place_of(record)?),
        _ => Err(RowError::NotUnderstood),
    }
}

fn place_of(word: &str) -> Result<usize, RowError> {
    match word.parse::<usize>() {
        Ok(place) => Ok(place),
        Err(_) => Err(RowError::NotUnderstood),
    }
}

// How many names the live groups have.
fn names(alloc: Global, kept: &Kept) -> Result<String, RowError> {
    let live = groups(alloc, kept.entries())?;
    count(alloc, names_of(alloc, &live, kept.entries())?.len())
}

// The name of the host.
fn host(alloc: Global, kept: &Kept) -> Result<String, RowError> {
    let text = host_name(alloc, kept.entries()).write_text();
    Ok(text.as_str().to_string(alloc)?)
}

// Whether a group is sure.
fn sure(alloc: Global, kept: &Kept, place: usize) -> Result<String, RowError> {
    match groups(alloc, kept.entries())?.get(place) {
        Some(group) => yes_or_no(alloc, is_sure(alloc, group, kept.entries())?),
        None => Err(RowError::NotUnderstood),
    }
}

// The moments of the ticks since a group was set back, in ms.
fn ticks(alloc: Global, kept: &Kept, place: usize) -> Result<String, RowError> {
    let live = groups(alloc, kept.entries())?;
    let Some(group) = live.get(place) else {
        return Err(RowError::NotUnderstood);
    };
    let mut ticks = Vec::new(alloc);
    for moment in tick_moments(alloc, group, kept.entries())? {
        ticks.push(moment.ms())?;
    }
    numbers(alloc, ticks.as_slice())
}

// How many records a group has.
fn records(alloc: Global, kept: &Kept, place: usize) -> Result<String, RowError> {
    match groups(alloc, kept.entries())?.get(place) {
        Some(group) => count(alloc, group_records(alloc, group, kept.entries())?.len()),
        None => Err(RowError::NotUnderstood),
    }
}

// Whether a record of a group is the daemon's own.
fn own(alloc: Global, kept: &Kept, place: usize, record: usize) -> Result<String, RowError> {
    let live = groups(alloc, kept.entries())?;
    let Some(group) = live.get(place) else {
        return Err(RowError::NotUnderstood);
    };
    match group_records(alloc, group, kept.entries())?.get(record) {
        Some(rr) => yes_or_no(alloc, is_own(alloc, rr, kept.entries())?),
        None => Err(RowError::NotUnderstood),
    }
}
