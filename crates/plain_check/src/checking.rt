ghost use Rattle.std.specs.Prelude.{◌≡◌, ◌+◌, ◌<◌, ◌^◌, length, IfOk};
ghost use Rattle.plain_check.specs.Checked.{IsChecked};

use crate::histories::put;
use mdns_transcript::Transcript;
use std::alloc::{AllocError, Global};

/// The first row of a transcript, counted from 1, with which its daemon's history isn't legal; `None` exactly where every daemon's is. It goes through the
/// history anew for each row, so it is slow. Refused only for want of memory.
pub fn check(alloc: Global, transcript: Transcript) -> Result<Option<u64>, AllocError>
    requires { length transcript + 1 < 2 ^ 30 }
    ensures { IfOk result (λ first. IsChecked transcript first) }
{
    let mut histories = Vec::new(alloc);
    let mut number = 0;
    for row in transcript.into_vec() {
        number += 1;
        if !put(alloc, &mut histories, row)? {
            return Ok(Some(number));
        }
    }
    Ok(None)
}
