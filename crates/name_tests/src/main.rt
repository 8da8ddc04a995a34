//! Worked rows of names, labels, numbers, and what is in memory: each row is printed with what came of it.
#![tactic(auto)]

mod kept;
mod labels;
mod memory;
mod names;
mod numbers;

use crate::kept::Kept;
use row_words::RowError;
use std::io;
use std::io::Write;

fn main(rt: HostRuntime) -> Result<(), RowError> {
    let mut kept = Kept::new(rt.alloc());
    let mut output = io::writer(&rt);
    for line in rt.lines(rt.alloc()) {
        let line = line?;
        match kept.told(rt.alloc(), line.as_str()) {
            Ok(told) => output.write_all(told.as_slice())?,
            Err(error) => {
                eprintln!(rt; "{error}: {line}")?;
                return Err(error);
            }
        }
    }
    Ok(())
}
