//! Transcripts that are read and checked, and texts that are none: tests of the reader and of the checker. Standard input has sections. A line `== NAME`
//! begins one, and the lines behind it are a text. For each the name is printed with how many rows the text has and the first row with which a daemon's
//! history isn't legal, if there is one, or with the line at which the text is refused.
#![tactic(auto)]

mod test_error;

use crate::test_error::TestError;
use mdns_transcript::{Transcript, TranscriptError, read_transcript};
use plain_check::check;
use std::alloc::{AllocError, Global};

/// The most rows that are checked.
const MOST_ROWS: usize = 1_000_000;

fn main(rt: HostRuntime) -> Result<(), TestError> {
    let alloc = rt.alloc();
    let mut name = String::new(alloc);
    let mut text = Vec::new(alloc);
    for line in rt.lines(alloc) {
        let line = line?;
        if let Some(next) = line.strip_prefix("== ") {
            tell(&rt, alloc, &name, &text)?;
            name = String::from_str(alloc, next)?;
            text = Vec::new(alloc);
        } else {
            text.extend_from_slice(line.as_bytes())?;
            text.extend_from_slice(b"\n")?;
        }
    }
    tell(&rt, alloc, &name, &text)
}

// Prints what a section's text is; what stands before the first section is a comment.
fn tell(rt: &impl Print, alloc: Global, name: &str, text: &[u8]) -> Result<(), TestError> {
    if name.is_empty() {
        return Ok(());
    }
    match read_transcript(alloc, text) {
        Ok(transcript) => tell_checked(rt, alloc, name, transcript)?,
        Err(TranscriptError::BadText { line }) => println!(rt; "{name}: refused at line {line}")?,
        Err(TranscriptError::NoMemory) => return Err(TestError::Memory(AllocError)),
    }
    Ok(())
}

// Prints how many rows a transcript has, and which is the first illegal one.
fn tell_checked(
    rt: &impl Print,
    alloc: Global,
    name: &str,
    transcript: Transcript,
) -> Result<(), TestError> {
    let count = transcript.as_slice().len();
    if count > MOST_ROWS {
        return Err(TestError::TooLong);
    }
    match check(alloc, transcript)? {
        Some(row) => println!(rt; "{name}: {count} rows, illegal at row {row}")?,
        None => println!(rt; "{name}: {count} rows, legal")?,
    }
    Ok(())
}
