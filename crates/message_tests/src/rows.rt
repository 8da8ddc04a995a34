// Which function a row is for.

use crate::messages::message_row;
use crate::packing::pack_row;
use crate::records::record_row;
use row_words::{RowError, Told, is_row};
use std::alloc::Global;

/// What is printed for a line: the line, and behind it what came of it, where it is a row.
pub fn told(alloc: Global, line: &str) -> Result<Vec<u8>, RowError> {
    let mut told = Told::new(alloc);
    told.put(line)?;
    if is_row(line) {
        told.put(" = ")?;
        put_row(&mut told, line)?;
    }
    told.put("\n")?;
    Ok(told.text)
}

// Appends what came of a row.
fn put_row(told: &mut Told, line: &str) -> Result<(), RowError> {
    match line.split_once(' ') {
        Some(("record", row)) => record_row(told, row),
        Some(("message", row)) => message_row(told, row),
        Some(("pack", row)) => pack_row(told, row),
        _ => Err(RowError::NotUnderstood),
    }
}
