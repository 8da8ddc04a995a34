//! Worked rows of records, messages and packing: each row is printed with what came of it.
#![tactic(auto)]

mod messages;
mod packets;
mod packing;
mod records;
mod rows;

use crate::rows::told;
use row_words::RowError;
use std::io;
use std::io::Write;

fn main(rt: HostRuntime) -> Result<(), RowError> {
    let mut output = io::writer(&rt);
    for line in rt.lines(rt.alloc()) {
        let line = line?;
        match told(rt.alloc(), line.as_str()) {
            Ok(text) => output.write_all(text.as_slice())?,
            Err(error) => {
                eprintln!(rt; "{error}: {line}")?;
                return Err(error);
            }
        }
    }
    Ok(())
}
