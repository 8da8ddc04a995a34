//! Worked rows of the records that a daemon holds and of the questions that it asks: each row is printed with what came of it.
#![tactic(auto)]

ghost use Rattle.std.specs.Prelude.{◌≡◌, ◌<◌};

mod asking;
mod caches;
mod causes;
mod held_records;
mod kept;
mod known_answers;
mod numbered;
mod questions;
mod read;

use crate::kept::Kept;
use mdns_cache::Steps;
use row_words::RowError;
use std::io;
use std::io::Write;
use std::marker::Brand;
use std::sync::ledger::{Blank, Ledger};

fn main(rt: HostRuntime) -> Result<(), RowError> {
    tell_all::<Brand>(rt, Blank::new(1))
}

fn tell_all<L: Ledger>(rt: HostRuntime, blank: Blank) -> Result<(), RowError>
    requires name { blank.name ≡ L.name }
    requires parts { blank.parts ≡ L.parts }
    requires some { 0 < L.parts }
{
    let mut steps: Steps<L> = Steps::new(blank);
    let mut kept = Kept::new(rt.alloc())?;
    tell_lines(rt, &mut kept, &mut steps)
}

fn tell_lines<L: Ledger>(
    rt: HostRuntime,
    kept: &mut Kept,
    steps: &mut Steps<L>,
) -> Result<(), RowError> {
    for line in rt.lines(rt.alloc()) {
        print(rt, kept, steps, line?.as_str())?;
    }
    Ok(())
}

// Prints a row and what came of it. Of a row that gives nothing it is said on standard error why.
fn print<L: Ledger>(
    rt: HostRuntime,
    kept: &mut Kept,
    steps: &mut Steps<L>,
    line: &str,
) -> Result<(), RowError> {
    match kept.told(rt.alloc(), steps, line) {
        Ok(told) => Ok(io::writer(&rt).write_all(&told)?),
        Err(error) => {
            let _ = eprintln!(rt; "{error}: {line}");
            Err(error)
        }
    }
}
