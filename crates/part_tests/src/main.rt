//! Worked rows of what a daemon claims and answers, and of the small parts of which it is made: each row is printed with what came of it.
#![tactic(auto)]

mod answers;
mod askers;
mod conflicts;
mod draws;
mod kept;
mod last_multicasts;
mod packets;
mod services;
mod values;

use crate::kept::Kept;
use row_words::RowError;
use std::io;
use std::io::Write;

fn main(rt: HostRuntime) -> Result<(), RowError> {
    let mut kept = Kept::new(rt.alloc())?;
    for line in rt.lines(rt.alloc()) {
        print(rt, &mut kept, line?.as_str())?;
    }
    Ok(())
}

// Prints a row and what came of it. Of a row that gives nothing it is said on standard error why.
fn print(rt: HostRuntime, kept: &mut Kept, line: &str) -> Result<(), RowError> {
    match kept.told(rt.alloc(), line) {
        Ok(told) => Ok(io::writer(&rt).write_all(&told)?),
        Err(error) => {
            let _ = eprintln!(rt; "{error}: {line}");
            Err(error)
        }
    }
}
