// The summary of a generated script.
ghost use Rattle.std.specs.Prelude.{◌≡◌, ◌≤◌, ◌++◌, IfOk, OnOk};
ghost use Rattle.mdns_generator.specs.Summaries.{line_text, summary_text, IsSummary};

use crate::commands::commands;
use crate::play::play;
use mdns_hub::Tally;
use number_text::put_decimal;
use std::alloc::{AllocError, Global};

/// Plays the script of a number, from 1 to 200, and gives its summary: the lines `gen N`, `named A`, `found F` and `lost L`, which say how
/// many names the registrations of daemon 1 got, and how many services daemon 2 found and lost. Refused only for want of memory.
pub fn summarize(alloc: Global, number: u32) -> Result<Vec<u8>, AllocError>
    requires { number ≤ 200 }
    ensures { IfOk result (λ text. IsSummary number text.items) }
{
    let hub = play(alloc, commands(alloc, number)?)?;
    summary_text(alloc, number, hub.tally(1), hub.tally(2))
}

fn summary_text(alloc: Global, number: u32, one: Tally, two: Tally) -> Result<Vec<u8>, AllocError>
    ensures { IfOk result (λ text. text.items ≡ summary_text number one two) }
{
    let mut out = Vec::new(alloc);
    put_line(&mut out, b"gen", u64::from(number))?;
    put_line(&mut out, b"named", one.named)?;
    put_line(&mut out, b"found", two.found)?;
    put_line(&mut out, b"lost", two.lost)?;
    Ok(out)
}

// Puts a line of a word and a number.
fn put_line(out: &mut Vec<u8>, word: &[u8], number: u64) -> Result<(), AllocError>
    ensures { OnOk result (out.new.items ≡ out.old.items ++ line_text word.now number) }
{
    out.extend_from_slice(word)?;
    out.push(b' ')?;
    put_decimal(out, number)?;
    out.push(b'\n')?;
    Ok(())
}
