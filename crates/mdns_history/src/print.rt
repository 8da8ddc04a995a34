// Entries as text.
ghost use Rattle.std.specs.Prelude.{◌≡◌, ◌++◌, codes, decimal, length, IfOk, OnOk};
ghost use Rattle.std.specs.List.{flat_map};
ghost use Rattle.mdns_history.specs.EntryText.{entry_text, head_line, mark_line, mark_text, cause_text, given_line, item_lines, outcome_lines, outcome_line};

use crate::print_event::put_event;
use crate::print_sent::put_sends;
use crate::{Cause, Entry, Given, Mark, Outcome};
use bytes::Bytes;
use dns_record::{Key, put_kind, put_name};
use number_text::put_decimal;
use sd_call::{Item, put_code, put_item};
use std::alloc::{AllocError, Global};

/// The text of an entry of a daemon: a line for the event, and below it a line for each mark, the lines of each message
/// sent, a line for each item given, and the outcome where there is something to tell. Refused only for want of memory.
pub fn print_entry(alloc: Global, daemon: u32, entry: &Entry) -> Result<Bytes, AllocError>
    ensures { IfOk result (λ text. text ≡ entry_text daemon entry.now) }
{
    let mut out = Vec::new(alloc);
    put_head(&mut out, daemon, entry)?;
    put_marks(&mut out, entry.marks.as_slice())?;
    put_sends(&mut out, entry.sent.as_slice())?;
    put_gifts(&mut out, entry.given.as_slice())?;
    put_outcome(&mut out, &entry.outcome)?;
    Ok(Bytes::from_vec(out)?)
}

fn put_head(out: &mut Vec<u8>, daemon: u32, entry: &Entry) -> Result<(), AllocError>
    ensures { OnOk result (out.new.items ≡ out.old.items ++ head_line daemon entry.now) }
{
    out.push(b'@')?;
    put_decimal(out, entry.moment)?;
    out.extend_from_slice(b" d")?;
    put_decimal(out, u64::from(daemon))?;
    out.extend_from_slice(b" w")?;
    put_decimal(out, u64::from(entry.word))?;
    out.push(b' ')?;
    put_event(out, &entry.event)?;
    out.push(b'\n')?;
    Ok(())
}

fn put_marks(out: &mut Vec<u8>, marks: &[Mark]) -> Result<(), AllocError>
    ensures { OnOk result (out.new.items ≡ out.old.items ++ flat_map mark_line marks.now) }
{
    for mark in marks {
        out.extend_from_slice(b" ! ")?;
        put_mark(out, mark)?;
        out.push(b'\n')?;
    }
    Ok(())
}

fn put_mark(out: &mut Vec<u8>, mark: &Mark) -> Result<(), AllocError>
    ensures { OnOk result (out.new.items ≡ out.old.items ++ mark_text mark.now) }
{
    match mark {
        Mark::Bad { number } => {
            put_numbered(out, b"bad ", u64::from(*number))?;
            Ok(())
        }
        Mark::Full => {
            out.extend_from_slice(b"full")?;
            Ok(())
        }
        Mark::Renamed { group, number } => {
            put_numbered(out, b"renamed ", *group)?;
            put_numbered(out, b" ", u64::from(*number))?;
            Ok(())
        }
        Mark::Contested { group } => {
            put_numbered(out, b"contested ", *group)?;
            Ok(())
        }
        Mark::TieLost { group } => {
            put_numbered(out, b"tielost ", *group)?;
            Ok(())
        }
        Mark::Failed { group } => {
            put_numbered(out, b"failed ", *group)?;
            Ok(())
        }
        Mark::Asked { question, cause } => {
            put_asked(out, question, *cause)?;
            Ok(())
        }
        Mark::Announced { group } => {
            put_numbered(out, b"announced ", *group)?;
            Ok(())
        }
        Mark::Cut { session } => {
            put_numbered(out, b"cut ", *session)?;
            Ok(())
        }
    }
}

// The mark of a question that was asked.
fn put_asked(out: &mut Vec<u8>, question: &Key, cause: Cause) -> Result<(), AllocError>
    ensures { OnOk result (out.new.items ≡ out.old.items ++ mark_text (Mark.Asked question.now cause)) }
{
    out.extend_from_slice(b"asked ")?;
    put_name(out, &question.name)?;
    out.push(b' ')?;
    put_kind(out, question.kind)?;
    out.push(b' ')?;
    put_cause(out, cause)?;
    Ok(())
}

// A word and a number behind it.
fn put_numbered(out: &mut Vec<u8>, word: &[u8], number: u64) -> Result<(), AllocError>
    ensures { OnOk result (out.new.items ≡ out.old.items ++ (word.now ++ decimal number)) }
{
    out.extend_from_slice(word)?;
    put_decimal(out, number)?;
    Ok(())
}

fn put_cause(out: &mut Vec<u8>, cause: Cause) -> Result<(), AllocError>
    ensures { OnOk result (out.new.items ≡ out.old.items ++ cause_text cause) }
{
    match cause {
        Cause::Series => {
            out.extend_from_slice(b"series")?;
            Ok(())
        }
        Cause::Refresh => {
            out.extend_from_slice(b"refresh")?;
            Ok(())
        }
        Cause::Heard => {
            out.extend_from_slice(b"heard")?;
            Ok(())
        }
    }
}

fn put_gifts(out: &mut Vec<u8>, gifts: &[Given]) -> Result<(), AllocError>
    ensures { OnOk result (out.new.items ≡ out.old.items ++ flat_map given_line gifts.now) }
{
    for gift in gifts {
        put_numbered(out, b" < ", gift.session)?;
        out.push(b' ')?;
        put_item(out, &gift.item)?;
        out.push(b'\n')?;
    }
    Ok(())
}

fn put_outcome(out: &mut Vec<u8>, outcome: &Outcome) -> Result<(), AllocError>
    ensures { OnOk result (out.new.items ≡ out.old.items ++ outcome_lines outcome.now) }
{
    match outcome {
        Outcome::Done => Ok(()),
        Outcome::Opened { session } => {
            put_numbered(out, b" = opened ", *session)?;
            out.push(b'\n')?;
            Ok(())
        }
        Outcome::Full => {
            out.extend_from_slice(b" = full\n")?;
            Ok(())
        }
        Outcome::Ended => {
            out.extend_from_slice(b" = ended\n")?;
            Ok(())
        }
        Outcome::Closed => {
            out.extend_from_slice(b" = closed\n")?;
            Ok(())
        }
        Outcome::Cut => {
            out.extend_from_slice(b" = cut\n")?;
            Ok(())
        }
        Outcome::Code { code } => {
            out.extend_from_slice(b" = code ")?;
            put_code(out, *code)?;
            out.push(b'\n')?;
            Ok(())
        }
        Outcome::Items { items } => {
            put_taken(out, items.as_slice())?;
            Ok(())
        }
        Outcome::Empty => {
            out.extend_from_slice(b" = empty\n")?;
            Ok(())
        }
    }
}

fn put_taken(out: &mut Vec<u8>, items: &[Item]) -> Result<(), AllocError>
    ensures { OnOk result (out.new.items ≡ out.old.items ++ (outcome_line (codes "items " ++ decimal (length items.now)) ++ item_lines items.now)) }
{
    put_numbered(out, b" = items ", items.len() as u64)?;
    out.push(b'\n')?;
    for item in items {
        out.extend_from_slice(b"  ")?;
        put_item(out, item)?;
        out.push(b'\n')?;
    }
    Ok(())
}
