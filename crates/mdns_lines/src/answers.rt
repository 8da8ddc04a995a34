// Answers read from text.
ghost use Rattle.std.specs.Prelude.{◌≡◌, ◌++◌, codes, IfOk};
ghost use Rattle.std.specs.Option.{option_map};
ghost use Rattle.mdns_lines.specs.Words.{if_word};
ghost use Rattle.mdns_lines.specs.ReadItems.{rr_in, datum_in, resolved_words, resolved_in, answer_of_words, answer_in};

use crate::tokens::{characters, name};
use bytes::Bytes;
use dns_name::Name;
use dns_record::{RecordError, Rr};
use number_text::{cut_at, is_same, read_decimal_u16, read_hex};
use sd_call::Answer;
use std::alloc::{AllocError, Global};

/// The record that a text spells. Refused only for want of memory.
pub(crate) fn record(alloc: Global, text: &[u8]) -> Result<Option<Rr>, AllocError>
    ensures { IfOk result (λ found. found ≡ rr_in text.now) }
{
    let Some(text) = characters(text) else {
        return Ok(None);
    };
    match Rr::parse_text(alloc, text) {
        Ok(rr) => Ok(Some(rr)),
        Err(RecordError::BadText) => Ok(None),
        Err(RecordError::NoMemory) => Err(AllocError),
    }
}

/// The answer that a text spells. Refused only for want of memory.
pub(crate) fn answer(alloc: Global, text: &[u8]) -> Result<Option<Answer>, AllocError>
    ensures { IfOk result (λ found. found ≡ answer_in text.now) }
{
    match cut_at(text, b' ') {
        Some((word, rest)) => Ok(answer_of_words(alloc, text, word, rest)?),
        None => Ok(conflict(text)),
    }
}

// An answer of one word.
fn conflict(text: &[u8]) -> Option<Answer>
    ensures { result ≡ if_word (codes "conflict") text.now Answer.Conflict }
{
    if is_same(text, b"conflict") {
        Some(Answer::Conflict)
    } else {
        None
    }
}

fn answer_of_words(
    alloc: Global,
    text: &[u8],
    word: &[u8],
    rest: &[u8],
) -> Result<Option<Answer>, AllocError>
    ensures { IfOk result (λ found. found ≡ answer_of_words text.now word.now rest.now) }
{
    if is_same(word, b"found") {
        return Ok(name(rest).map(|instance| Answer::Found { instance }));
    }
    if is_same(word, b"resolved") {
        return Ok(resolved(alloc, rest)?);
    }
    if is_same(word, b"named") {
        return Ok(name(rest).map(|full| Answer::Named { full }));
    }
    Ok(datum(alloc, text)?)
}

// Data that stand behind their type: those of a record of the root.
fn datum(alloc: Global, text: &[u8]) -> Result<Option<Answer>, AllocError>
    ensures { IfOk result (λ found. found ≡ datum_in text.now) }
{
    let mut spelled = Vec::new(alloc);
    spelled.extend_from_slice(b". 0 - ")?;
    spelled.extend_from_slice(text)?;
    match record(alloc, spelled.as_slice())? {
        Some(rr) => Ok(Some(Answer::Datum { rdata: rr.rdata })),
        None => Ok(None),
    }
}

#[tactic(auto, unfolding(crate::specs::ReadItems::resolved_in))]
fn resolved(alloc: Global, text: &[u8]) -> Result<Option<Answer>, AllocError>
    ensures { IfOk result (λ found. found ≡ resolved_in text.now) }
{
    let Some((priority, weight, port, target, hex)) = resolved_words(text) else {
        return Ok(None);
    };
    match read_hex(alloc, hex)? {
        Some(txt) => Ok(Some(Answer::Resolved {
            priority,
            weight,
            port,
            target,
            txt: Bytes::from_vec(txt)?,
        })),
        None => Ok(None),
    }
}

// Priority, weight, port and target, and the text of the TXT data.
#[tactic(auto, unfolding(crate::specs::ReadItems::resolved_words))]
fn resolved_words(text: &[u8]) -> Option<(u16, u16, u16, Name, &[u8])>
    ensures { option_map (λ words. (words.0, words.1, words.2, words.3, words.4.now)) result ≡ resolved_words text.now }
{
    let (priority, rest) = cut_at(text, b' ')?;
    let (weight, rest) = cut_at(rest, b' ')?;
    let (port, rest) = cut_at(rest, b' ')?;
    let (target, hex) = cut_at(rest, b' ')?;
    let priority = read_decimal_u16(priority)?;
    let weight = read_decimal_u16(weight)?;
    let port = read_decimal_u16(port)?;
    let target = name(target)?;
    Some((priority, weight, port, target, hex))
}
