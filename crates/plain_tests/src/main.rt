//! Rows of calls that compute a daemon's history plainly from its whole list of entries, and what each answers. An empty line or one that
//! begins with `#` is printed as it stands, any other with ` = ` and the answer behind it.
#![tactic(auto)]

mod asking;
mod entry;
mod group;
mod heard;
mod history;
mod kept;
mod order;
mod row_error;
mod words;

use crate::kept::Kept;
use crate::row_error::RowError;
use std::alloc::Global;

fn main(rt: HostRuntime) -> Result<(), RowError> {
    let mut kept = Kept::new(rt.alloc());
    print_all(rt, &mut kept)
}

fn print_all(rt: HostRuntime, kept: &mut Kept) -> Result<(), RowError> {
    for line in rt.lines(rt.alloc()) {
        print(rt, kept, line?.as_str())?;
    }
    Ok(())
}

// Prints a line and what came of it. Of a row that gives nothing it is said on standard error why.
fn print(rt: HostRuntime, kept: &mut Kept, line: &str) -> Result<(), RowError> {
    if line.is_empty() || line.starts_with('#') {
        return Ok(println!(rt; "{line}")?);
    }
    match answer(rt.alloc(), kept, line) {
        Ok(told) => Ok(println!(rt; "{line} = {told}")?),
        Err(error) => {
            let _ = eprintln!(rt; "{line}: {error}");
            Err(error)
        }
    }
}

// What a row answers, by its subject.
fn answer(alloc: Global, kept: &mut Kept, line: &str) -> Result<String, RowError> {
    match line.split_once(' ') {
        Some(("entry", rest)) => entry::row(alloc, kept, rest),
        Some(("history", rest)) => history::row(alloc, kept.entries(), rest),
        Some(("group", rest)) => group::row(alloc, kept, rest),
        Some(("asking", rest)) => asking::row(alloc, kept, rest),
        Some(("heard", rest)) => heard::row(alloc, kept.entries(), rest),
        Some(("order", rest)) => order::row(alloc, rest),
        _ => Err(RowError::NotUnderstood),
    }
}
