// Marks as text.
ghost use Rattle.std.specs.Prelude.{◌≡◌, ◌++◌, decimal, OnOk};
ghost use Rattle.mdns_history.specs.EntryText.{mark_text, cause_text};

use dns_record::{Key, put_kind, put_name};
use mdns_history::{Cause, Mark};
use number_text::put_decimal;
use std::alloc::AllocError;

/// Puts the text of a mark. Refused only for want of memory.
pub(crate) fn put_mark(out: &mut Vec<u8>, mark: &Mark) -> Result<(), AllocError>
    ensures { OnOk result (out.new.items ≡ out.old.items ++ mark_text mark.now) }
{
    match mark {
        Mark::Bad { number } => put_numbered(out, b"bad ", u64::from(*number)),
        Mark::Full => put_word(out, b"full"),
        Mark::Renamed { group, number } => put_renamed(out, *group, *number),
        Mark::Contested { group } => put_numbered(out, b"contested ", *group),
        Mark::TieLost { group } => put_numbered(out, b"tielost ", *group),
        Mark::Failed { group } => put_numbered(out, b"failed ", *group),
        Mark::Asked { question, cause } => put_asked(out, question, *cause),
        Mark::Announced { group } => put_numbered(out, b"announced ", *group),
        Mark::Cut { session } => put_numbered(out, b"cut ", *session),
    }
}

fn put_renamed(out: &mut Vec<u8>, group: u64, number: u32) -> Result<(), AllocError>
    ensures { OnOk result (out.new.items ≡ out.old.items ++ mark_text (Mark.Renamed group number)) }
{
    put_numbered(out, b"renamed ", group)?;
    put_numbered(out, b" ", u64::from(number))
}

// The mark of a question that was asked.
fn put_asked(out: &mut Vec<u8>, question: &Key, cause: Cause) -> Result<(), AllocError>
    ensures { OnOk result (out.new.items ≡ out.old.items ++ mark_text (Mark.Asked question.now cause)) }
{
    out.extend_from_slice(b"asked ")?;
    put_name(out, &question.name)?;
    out.push(b' ')?;
    put_kind(out, question.kind)?;
    out.push(b' ')?;
    put_cause(out, cause)
}

fn put_cause(out: &mut Vec<u8>, cause: Cause) -> Result<(), AllocError>
    ensures { OnOk result (out.new.items ≡ out.old.items ++ cause_text cause) }
{
    match cause {
        Cause::Series => put_word(out, b"series"),
        Cause::Refresh => put_word(out, b"refresh"),
        Cause::Heard => put_word(out, b"heard"),
    }
}

/// Puts a word. Refused only for want of memory.
pub(crate) fn put_word(out: &mut Vec<u8>, word: &[u8]) -> Result<(), AllocError>
    ensures { OnOk result (out.new.items ≡ out.old.items ++ word.now) }
{
    out.extend_from_slice(word)?;
    Ok(())
}

/// Puts a word and a number behind it. Refused only for want of memory.
pub(crate) fn put_numbered(out: &mut Vec<u8>, word: &[u8], number: u64) -> Result<(), AllocError>
    ensures { OnOk result (out.new.items ≡ out.old.items ++ (word.now ++ decimal number)) }
{
    out.extend_from_slice(word)?;
    put_decimal(out, number)?;
    Ok(())
}
