//! Worked rows of calls, queues, frames, clients and the outside: each row is printed with what came of it.
#![tactic(auto)]

mod clients;
mod fakes;
mod frames;
mod plugs;
mod queues;
mod replays;
mod rows;

use crate::rows::{Kept, printed};
use row_words::RowError;

fn main(rt: HostRuntime) -> Result<(), RowError> {
    let mut kept = Kept::new(rt.alloc());
    print_all(rt, &mut kept)
}

fn print_all(rt: HostRuntime, kept: &mut Kept) -> Result<(), RowError> {
    for line in rt.lines(rt.alloc()) {
        print(rt, kept, line?.as_str())?;
    }
    Ok(())
}

// Prints what came of a row. Of a row that gives nothing it is said on standard error why.
fn print(rt: HostRuntime, kept: &mut Kept, line: &str) -> Result<(), RowError> {
    match printed(rt.alloc(), kept, line) {
        Ok(text) => Ok(println!(rt; "{text}")?),
        Err(error) => {
            let _ = eprintln!(rt; "{error}: {line}");
            Err(error)
        }
    }
}
