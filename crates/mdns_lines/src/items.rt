// Items and outcomes read from text.
ghost use Rattle.std.specs.Prelude.{◌≡◌, IfOk};
ghost use Rattle.std.specs.Option.{option_map};
ghost use Rattle.mdns_lines.specs.ReadItems.{verb_in, reply_in, change_in, item_of_words, item_in, given_in, plain_ending, outcome_of_words, outcome_in};

use crate::answers::answer;
use crate::tokens::signed;
use mdns_history::Given;
use mdns_print::{Ending, Line};
use number_text::{cut_at, is_same, read_decimal, read_decimal_u32};
use sd_call::{Answer, Item, Verb};
use std::alloc::{AllocError, Global};

/// The session and the item that a text spells. Refused only for want of memory.
pub(crate) fn given(alloc: Global, text: &[u8]) -> Result<Option<Given>, AllocError>
    ensures { IfOk result (λ found. found ≡ given_in text.now) }
{
    let Some((session, rest)) = cut_at(text, b' ') else {
        return Ok(None);
    };
    let Some(session) = read_decimal(session) else {
        return Ok(None);
    };
    match item(alloc, rest)? {
        Some(item) => Ok(Some(Given { session, item })),
        None => Ok(None),
    }
}

/// The item that a text spells. Refused only for want of memory.
pub(crate) fn item(alloc: Global, text: &[u8]) -> Result<Option<Item>, AllocError>
    ensures { IfOk result (λ found. found ≡ item_in text.now) }
{
    match cut_at(text, b' ') {
        Some((word, rest)) => Ok(item_of_words(alloc, word, rest)?),
        None => Ok(None),
    }
}

fn item_of_words(alloc: Global, word: &[u8], rest: &[u8]) -> Result<Option<Item>, AllocError>
    ensures { IfOk result (λ found. found ≡ item_of_words word.now rest.now) }
{
    if is_same(word, b"reply") {
        return Ok(reply(rest));
    }
    if is_same(word, b"add") {
        return Ok(change(alloc, rest)?.map(|(op, answer)| Item::Add { op, answer }));
    }
    if is_same(word, b"rem") {
        return Ok(change(alloc, rest)?.map(|(op, answer)| Item::Remove { op, answer }));
    }
    Ok(None)
}

#[tactic(auto, unfolding(crate::specs::ReadItems::reply_in))]
fn reply(text: &[u8]) -> Option<Item>
    ensures { result ≡ reply_in text.now }
{
    let (op, rest) = cut_at(text, b' ')?;
    let (word, code) = cut_at(rest, b' ')?;
    let op = read_decimal_u32(op)?;
    let verb = verb(word)?;
    let code = signed(code)?;
    Some(Item::Reply { op, verb, code })
}

// What a reply answers.
fn verb(word: &[u8]) -> Option<Verb>
    ensures { result ≡ verb_in word.now }
{
    if is_same(word, b"start") {
        Some(Verb::Start)
    } else if is_same(word, b"update") {
        Some(Verb::Update)
    } else if is_same(word, b"stop") {
        Some(Verb::Stop)
    } else {
        None
    }
}

// The operation and the answer of an item.
fn change(alloc: Global, text: &[u8]) -> Result<Option<(u32, Answer)>, AllocError>
    ensures { IfOk result (λ found. found ≡ change_in text.now) }
{
    let Some((op, rest)) = cut_at(text, b' ') else {
        return Ok(None);
    };
    let Some(op) = read_decimal_u32(op) else {
        return Ok(None);
    };
    match answer(alloc, rest)? {
        Some(answer) => Ok(Some((op, answer))),
        None => Ok(None),
    }
}

/// The outcome that a text spells.
pub(crate) fn outcome(text: &[u8]) -> Option<Line>
    ensures { result ≡ outcome_in text.now }
{
    match cut_at(text, b' ') {
        Some((word, rest)) => outcome_of_words(word, rest),
        None => Some(Line::Ending {
            ending: plain_ending(text)?,
        }),
    }
}

// An outcome of one word.
fn plain_ending(text: &[u8]) -> Option<Ending>
    ensures { result ≡ plain_ending text.now }
{
    if is_same(text, b"full") {
        Some(Ending::Full)
    } else if is_same(text, b"ended") {
        Some(Ending::Ended)
    } else if is_same(text, b"closed") {
        Some(Ending::Closed)
    } else if is_same(text, b"cut") {
        Some(Ending::Cut)
    } else if is_same(text, b"empty") {
        Some(Ending::Empty)
    } else {
        None
    }
}

// An outcome by its first word.
fn outcome_of_words(word: &[u8], rest: &[u8]) -> Option<Line>
    ensures { result ≡ outcome_of_words word.now rest.now }
{
    if is_same(word, b"opened") {
        let session = read_decimal(rest)?;
        Some(Line::Ending {
            ending: Ending::Opened { session },
        })
    } else if is_same(word, b"code") {
        let code = signed(rest)?;
        Some(Line::Ending {
            ending: Ending::Code { code },
        })
    } else if is_same(word, b"items") {
        let count = read_decimal(rest)?;
        Some(Line::Count { count })
    } else {
        None
    }
}
