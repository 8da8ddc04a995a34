// What is said of a text.
ghost use Rattle.std.specs.Prelude.{◌≡◌, ◌≤◌, ◌++◌, ◌∷◌, [], decimal, length, OnOk, IfOk};
ghost use Rattle.mdns_check.specs.Verdicts.{IsVerdict, status_of, line_of, numbered};

use crate::stop::{BAD_LINE, ILLEGAL, LEGAL};
use mdns_transcript::{TranscriptError, read_transcript};
use number_text::put_decimal;
use plain_check::check;
use std::alloc::{AllocError, Global};

/// What is said of a text.
#[derive(Clone, Copy, Debug, PartialEq, Eq)]
pub enum Verdict {
    /// It is the print of so many rows, and every daemon's history is legal.
    Legal { rows: u64 },
    /// This row is the first with which its daemon's history isn't legal.
    Illegal { row: u64 },
    /// It is the print of no rows, which is seen at this line.
    BadLine { line: u64 },
}

impl Verdict {
    /// The status of the program.
    pub fn status(self) -> u8
        ensures { result ≡ status_of self }
    {
        match self {
            Verdict::Legal { .. } => LEGAL,
            Verdict::Illegal { .. } => ILLEGAL,
            Verdict::BadLine { .. } => BAD_LINE,
        }
    }

    /// The line that says it. Refused only for want of memory.
    pub fn line(self, alloc: Global) -> Result<Vec<u8>, AllocError>
        ensures { IfOk result (λ line. line.items ≡ line_of self) }
    {
        match self {
            Verdict::Legal { rows } => numbered(alloc, b"legal ", rows),
            Verdict::Illegal { row } => numbered(alloc, b"illegal ", row),
            Verdict::BadLine { line } => numbered(alloc, b"bad line ", line),
        }
    }
}

// A word and a number on a line.
fn numbered(alloc: Global, word: &[u8], number: u64) -> Result<Vec<u8>, AllocError>
    ensures { IfOk result (λ line. line.items ≡ numbered word.now number) }
{
    let mut out = Vec::new(alloc);
    out.extend_from_slice(word)?;
    put_decimal(&mut out, number)?;
    out.push(b'\n')?;
    Ok(out)
}

/// What is right to say of a text. Refused only for want of memory.
pub fn judge(alloc: Global, text: &[u8]) -> Result<Verdict, AllocError>
    requires { length text.now ≤ 1048576 }
    ensures { IfOk result (λ verdict. IsVerdict text.now verdict) }
{
    let transcript = match read_transcript(alloc, text) {
        Ok(transcript) => transcript,
        Err(TranscriptError::BadText { line }) => return Ok(Verdict::BadLine { line }),
        Err(TranscriptError::NoMemory) => return Err(AllocError),
    };
    let rows = transcript.as_slice().len() as u64;
    match check(alloc, transcript)? {
        Some(row) => Ok(Verdict::Illegal { row }),
        None => Ok(Verdict::Legal { rows }),
    }
}
