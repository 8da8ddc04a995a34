ghost use Rattle.std.specs.Prelude.{◌≡◌, ◌++◌, IfOk, OnOk};
ghost use Rattle.mdns_transcript.specs.Rows.{rows_text};

use crate::{Row, Transcript};
use mdns_history::print_entry;
use std::alloc::{AllocError, Global};

/// The text of a transcript. Refused only for want of memory.
pub fn print_transcript(alloc: Global, transcript: &Transcript) -> Result<Vec<u8>, AllocError>
    ensures { IfOk result (λ text. text.items ≡ rows_text transcript.now) }
{
    let mut out = Vec::new(alloc);
    put_rows(alloc, &mut out, transcript.as_slice())?;
    Ok(out)
}

fn put_rows(alloc: Global, out: &mut Vec<u8>, rows: &[Row]) -> Result<(), AllocError>
    ensures { OnOk result (out.new.items ≡ out.old.items ++ rows_text rows.now) }
{
    for row in rows {
        let text = print_entry(alloc, row.daemon, &row.entry)?;
        out.extend_from_slice(text.as_slice())?;
    }
    Ok(())
}
