ghost use Rattle.std.specs.Prelude.{◌≡◌, IfOk};
ghost use Rattle.mdns_transcript.specs.declared.read.TranscriptError.TheVariants as transcript_error;
ghost use Rattle.mdns_transcript.specs.Rows.{IsPrintOf};
ghost use Rattle.mdns_transcript.specs.Leading.{IfBadText, IsBadAt};

use crate::Transcript;
use crate::reading::Reading;
use number_text::cut_at;
use std::alloc::{AllocError, Global};

/// Why a text isn't read as a transcript.
#[derive(Clone, Copy, Debug, PartialEq, Eq)]
pub enum TranscriptError {
    /// The text is no transcript's: this line, counted from 1, can't follow the lines before it, or is wanting at the end.
    BadText { line: u64 },
    /// Memory was refused.
    NoMemory,
}

impl From<AllocError> for TranscriptError {
    ghost from_gives = { λ _ e. e ≡ transcript_error.NoMemory };

    fn from(_e: AllocError) -> TranscriptError {
        TranscriptError::NoMemory
    }
}

/// The rows that a text is the print of, of daemons 1 to 16. `BadText` comes exactly where it is the print of none, with the first line that isn't one of the
/// lines with which the print of any rows begins.
pub fn read_transcript(alloc: Global, text: &[u8]) -> Result<Transcript, TranscriptError>
    ensures rows { IfOk result (λ rows. IsPrintOf rows text.now) }
    ensures bad { IfBadText result (λ line. IsBadAt text.now line) }
{
    let mut reading = Reading::new(alloc);
    let mut rest = text;
    let mut line = 0;
    'lines: while let Some((front, after)) = cut_at(rest, b'\n') {
        line += 1;
        if !reading.take_line(alloc, front)? {
            return Err(TranscriptError::BadText { line });
        }
        rest = after;
    }
    if !rest.is_empty() {
        return Err(TranscriptError::BadText { line: line + 1 });
    }
    match reading.finish()? {
        Some(rows) => Ok(rows),
        None => Err(TranscriptError::BadText { line: line + 1 }),
    }
}
