// Lines as text.
ghost use Rattle.std.specs.Prelude.{◌≡◌, ◌++◌, OnOk, IfOk};
ghost use Rattle.mdns_history.specs.EntryText.{dest_text, way_text, question_line, given_line, outcome_lines};
ghost use Rattle.mdns_print.specs.LineText.{line_text, letter, outcome_of};

use crate::event::{put_event, put_from};
use crate::line::{Ending, Line, Section};
use crate::mark::{put_mark, put_numbered, put_word};
use dns_record::{Question, Rr, put_kind, put_name, put_record};
use mdns_base::Dest;
use mdns_history::{Event, Given, Mark};
use number_text::put_decimal;
use sd_call::{Item, put_code, put_item};
use std::alloc::{AllocError, Global};

/// The text of a line, with its line feed. Refused only for want of memory.
pub fn print_line(alloc: Global, line: &Line) -> Result<Vec<u8>, AllocError>
    ensures { IfOk result (λ text. text.items ≡ line_text line.now) }
{
    let mut out = Vec::new(alloc);
    put_line(&mut out, line)?;
    Ok(out)
}

fn put_line(out: &mut Vec<u8>, line: &Line) -> Result<(), AllocError>
    ensures { OnOk result (out.new.items ≡ out.old.items ++ line_text line.now) }
{
    match line {
        Line::Head {
            daemon,
            moment,
            word,
            event,
        } => put_head(out, *daemon, *moment, *word, event),
        Line::Mark { mark } => put_mark_line(out, mark),
        Line::Sent {
            to,
            response,
            id,
            truncated,
        } => put_sent(out, *to, *response, *id, *truncated),
        Line::Question { question } => put_question(out, question),
        Line::Record { section, rr } => put_section_line(out, *section, rr),
        Line::Given { given } => put_given(out, given),
        Line::Ending { ending } => put_ending(out, *ending),
        Line::Count { count } => put_count(out, *count),
        Line::Item { item } => put_taken(out, item),
    }
}

fn put_head(
    out: &mut Vec<u8>,
    daemon: u32,
    moment: u64,
    word: u32,
    event: &Event,
) -> Result<(), AllocError>
    ensures { OnOk result (out.new.items ≡ out.old.items ++ line_text (Line.Head daemon moment word event.now)) }
{
    put_numbered(out, b"@", moment)?;
    put_numbered(out, b" d", u64::from(daemon))?;
    put_numbered(out, b" w", u64::from(word))?;
    out.push(b' ')?;
    put_event(out, event)?;
    out.push(b'\n')?;
    Ok(())
}

fn put_mark_line(out: &mut Vec<u8>, mark: &Mark) -> Result<(), AllocError>
    ensures { OnOk result (out.new.items ≡ out.old.items ++ line_text (Line.Mark mark.now)) }
{
    out.extend_from_slice(b" ! ")?;
    put_mark(out, mark)?;
    out.push(b'\n')?;
    Ok(())
}

fn put_sent(
    out: &mut Vec<u8>,
    to: Dest,
    response: bool,
    id: u16,
    truncated: bool,
) -> Result<(), AllocError>
    ensures { OnOk result (out.new.items ≡ out.old.items ++ line_text (Line.Sent to response id truncated)) }
{
    out.extend_from_slice(b" > ")?;
    put_dest(out, to)?;
    put_way(out, response)?;
    put_decimal(out, u64::from(id))?;
    if truncated {
        out.extend_from_slice(b" tc")?;
    }
    out.push(b'\n')?;
    Ok(())
}

fn put_dest(out: &mut Vec<u8>, to: Dest) -> Result<(), AllocError>
    ensures { OnOk result (out.new.items ≡ out.old.items ++ dest_text to) }
{
    match to {
        Dest::All => put_word(out, b"all"),
        Dest::One(host) => put_from(out, host),
    }
}

fn put_way(out: &mut Vec<u8>, response: bool) -> Result<(), AllocError>
    ensures { OnOk result (out.new.items ≡ out.old.items ++ way_text response) }
{
    if response {
        put_word(out, b" reply ")
    } else {
        put_word(out, b" query ")
    }
}

fn put_question(out: &mut Vec<u8>, question: &Question) -> Result<(), AllocError>
    ensures { OnOk result (out.new.items ≡ out.old.items ++ question_line question.now) }
{
    out.extend_from_slice(b"  ? ")?;
    put_name(out, &question.name)?;
    out.push(b' ')?;
    put_kind(out, question.kind)?;
    if question.unicast {
        out.extend_from_slice(b" qu")?;
    }
    out.push(b'\n')?;
    Ok(())
}

fn put_section_line(out: &mut Vec<u8>, section: Section, rr: &Rr) -> Result<(), AllocError>
    ensures { OnOk result (out.new.items ≡ out.old.items ++ line_text (Line.Record section rr.now)) }
{
    out.extend_from_slice(b"  ")?;
    put_letter(out, section)?;
    out.push(b' ')?;
    put_record(out, rr)?;
    out.push(b'\n')?;
    Ok(())
}

fn put_letter(out: &mut Vec<u8>, section: Section) -> Result<(), AllocError>
    ensures { OnOk result (out.new.items ≡ out.old.items ++ letter section) }
{
    match section {
        Section::Answers => put_word(out, b"a"),
        Section::Authority => put_word(out, b"n"),
        Section::Additional => put_word(out, b"x"),
    }
}

fn put_given(out: &mut Vec<u8>, given: &Given) -> Result<(), AllocError>
    ensures { OnOk result (out.new.items ≡ out.old.items ++ given_line given.now) }
{
    put_numbered(out, b" < ", given.session)?;
    out.push(b' ')?;
    put_item(out, &given.item)?;
    out.push(b'\n')?;
    Ok(())
}

fn put_ending(out: &mut Vec<u8>, ending: Ending) -> Result<(), AllocError>
    ensures { OnOk result (out.new.items ≡ out.old.items ++ outcome_lines (outcome_of ending)) }
{
    match ending {
        Ending::Opened { session } => put_numbered(out, b" = opened ", session)?,
        Ending::Full => put_word(out, b" = full")?,
        Ending::Ended => put_word(out, b" = ended")?,
        Ending::Closed => put_word(out, b" = closed")?,
        Ending::Cut => put_word(out, b" = cut")?,
        Ending::Code { code } => {
            put_word(out, b" = code ")?;
            put_code(out, code)?;
        }
        Ending::Empty => put_word(out, b" = empty")?,
    }
    out.push(b'\n')?;
    Ok(())
}

fn put_count(out: &mut Vec<u8>, count: u64) -> Result<(), AllocError>
    ensures { OnOk result (out.new.items ≡ out.old.items ++ line_text (Line.Count count)) }
{
    put_numbered(out, b" = items ", count)?;
    out.push(b'\n')?;
    Ok(())
}

fn put_taken(out: &mut Vec<u8>, item: &Item) -> Result<(), AllocError>
    ensures { OnOk result (out.new.items ≡ out.old.items ++ line_text (Line.Item item.now)) }
{
    out.extend_from_slice(b"  ")?;
    put_item(out, item)?;
    out.push(b'\n')?;
    Ok(())
}
