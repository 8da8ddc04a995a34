// The rows by their subjects.
use crate::scripts::{event_row, print_row, script_row, serve_row};
use crate::service_names;
use crate::txt_data::{self, TxtKept};
use row_words::{RowError, is_row};
use std::alloc::Global;

/// What is printed for a line: the line, and what came of it if it is a row.
pub fn printed(alloc: Global, kept: &mut TxtKept, line: &str) -> Result<String, RowError> {
    let mut out = String::from_str(alloc, line)?;
    if is_row(line) {
        out.push_str(" = ")?;
        out.push_str(row(alloc, kept, line)?.as_str())?;
    }
    Ok(out)
}

// What came of a row.
fn row(alloc: Global, kept: &mut TxtKept, line: &str) -> Result<String, RowError> {
    let Some((subject, rest)) = line.split_once(' ') else {
        return Err(RowError::NotUnderstood);
    };
    match subject {
        "script" => script_row(alloc, rest),
        "print" => print_row(alloc, rest),
        "event" => event_row(alloc, rest),
        "serve" => serve_row(alloc, rest),
        "txt" => txt_data::row(alloc, kept, words_of(alloc, rest)?.as_slice()),
        "service" => service_names::row(alloc, words_of(alloc, rest)?.as_slice()),
        _ => Err(RowError::NotUnderstood),
    }
}

fn words_of(alloc: Global, rest: &str) -> Result<Vec<&str>, RowError> {
    Ok(rest.split(' ').collect(alloc)?)
}
