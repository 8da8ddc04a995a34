ghost use Rattle.std.specs.Prelude.{◌≡◌, ◌++◌, ◌∷◌, [], IfOk};
ghost use Rattle.std.specs.Str.{bytes_eq};
ghost use Rattle.mdns_print.specs.LineText.{line_text};
ghost use Rattle.mdns_lines.specs.ReadLines.{line_read, line_in, inner_line, record_in};

use crate::answers::record;
use crate::events::head;
use crate::items::{given, item, outcome};
use crate::marks::mark;
use crate::sent::{question, sent};
use crate::tokens::after;
use mdns_print::{Line, Section, print_line};
use number_text::is_same;
use std::alloc::{AllocError, Global};

/// The line whose print a text is, which stands without its line feed; `None` where it is the print of none. The text is read, and what was
/// read is printed again and has to be the same text. Refused only for want of memory.
pub fn read_line(alloc: Global, text: &[u8]) -> Result<Option<Line>, AllocError>
    ensures { IfOk result (λ found. found ≡ line_read text.now) }
{
    let Some(line) = line_in(alloc, text)? else {
        return Ok(None);
    };
    if is_print_of(alloc, &line, text)? {
        Ok(Some(line))
    } else {
        Ok(None)
    }
}

// Whether a text is the print of a line, but for its line feed.
fn is_print_of(alloc: Global, line: &Line, text: &[u8]) -> Result<bool, AllocError>
    ensures { IfOk result (λ same. same ≡ bytes_eq (line_text line.now) (text.now ++ 10 ∷ [])) }
{
    let mut whole = Vec::new(alloc);
    whole.extend_from_slice(text)?;
    whole.push(b'\n')?;
    let print = print_line(alloc, line)?;
    Ok(is_same(print.as_slice(), whole.as_slice()))
}

// The line that a text spells, by the signs with which it begins.
fn line_in(alloc: Global, text: &[u8]) -> Result<Option<Line>, AllocError>
    ensures { IfOk result (λ found. found ≡ line_in text.now) }
{
    if let Some(rest) = after(text, b"@") {
        return Ok(head(alloc, rest)?);
    }
    if let Some(rest) = after(text, b" ! ") {
        return Ok(mark(rest).map(|mark| Line::Mark { mark }));
    }
    if let Some(rest) = after(text, b" > ") {
        return Ok(sent(rest));
    }
    if let Some(rest) = after(text, b" < ") {
        return Ok(given(alloc, rest)?.map(|given| Line::Given { given }));
    }
    if let Some(rest) = after(text, b" = ") {
        return Ok(outcome(rest));
    }
    if let Some(rest) = after(text, b"  ") {
        return Ok(inner_line(alloc, rest)?);
    }
    Ok(None)
}

// A line that begins with two spaces.
fn inner_line(alloc: Global, text: &[u8]) -> Result<Option<Line>, AllocError>
    ensures { IfOk result (λ found. found ≡ inner_line text.now) }
{
    if let Some(rest) = after(text, b"? ") {
        return Ok(question(rest).map(|question| Line::Question { question }));
    }
    if let Some(rest) = after(text, b"a ") {
        return Ok(record_in(alloc, Section::Answers, rest)?);
    }
    if let Some(rest) = after(text, b"n ") {
        return Ok(record_in(alloc, Section::Authority, rest)?);
    }
    if let Some(rest) = after(text, b"x ") {
        return Ok(record_in(alloc, Section::Additional, rest)?);
    }
    Ok(item(alloc, text)?.map(|item| Line::Item { item }))
}

// A record of a section.
fn record_in(alloc: Global, section: Section, text: &[u8]) -> Result<Option<Line>, AllocError>
    ensures { IfOk result (λ found. found ≡ record_in section text.now) }
{
    match record(alloc, text)? {
        Some(rr) => Ok(Some(Line::Record { section, rr })),
        None => Ok(None),
    }
}
