// Rows on what a history has: `plain_history`.
use crate::row_error::RowError;
use crate::words::{count, moment_of, number, numbers, yes_or_no};
use mdns_base::Moment;
use plain_history::{
    HistoryEntry, attached_sessions, config_of, is_cut, live_records, now, operation_request,
    operations, present_txt,
};
use std::alloc::Global;

/// A call on the history.
pub fn row(alloc: Global, history: &[HistoryEntry], text: &str) -> Result<String, RowError> {
    let words: Vec<&str> = text.split(' ').collect(alloc)?;
    match words.as_slice() {
        ["now"] => Ok(now(history).ms().to_string(alloc)?),
        ["address"] => address(alloc, history),
        ["sessions"] => numbers(alloc, attached_sessions(alloc, history)?.as_slice()),
        ["cut", session] => yes_or_no(alloc, is_cut(u64::from(number(session)?), history)),
        ["operations"] => count(alloc, operations(alloc, history)?.len()),
        ["operation", session, op] => operation(alloc, history, number(session)?, number(op)?),
        ["txt", session, op] => txt(alloc, history, number(session)?, number(op)?),
        ["live", moment] => live(alloc, history, moment_of(moment)?),
        _ => Err(RowError::NotUnderstood),
    }
}

// The address with which the daemon was booted.
fn address(alloc: Global, history: &[HistoryEntry]) -> Result<String, RowError> {
    match config_of(history) {
        Some(config) => Ok(config.address.to_string(alloc)?),
        None => Ok("none".to_string(alloc)?),
    }
}

// Whether an operation has a request.
fn operation(
    alloc: Global,
    history: &[HistoryEntry],
    session: u32,
    op: u32,
) -> Result<String, RowError> {
    let request = operation_request(alloc, u64::from(session), op, history)?;
    yes_or_no(alloc, request.is_some())
}

// How many bytes of TXT data a registration has.
fn txt(alloc: Global, history: &[HistoryEntry], session: u32, op: u32) -> Result<String, RowError> {
    let txt = present_txt(alloc, u64::from(session), op, history)?;
    count(alloc, txt.len())
}

// The ends of the records that are live at a moment.
fn live(alloc: Global, history: &[HistoryEntry], moment: Moment) -> Result<String, RowError> {
    let mut ends = Vec::new(alloc);
    for held in live_records(alloc, history, moment)? {
        ends.push(held.end)?;
    }
    numbers(alloc, ends.as_slice())
}
