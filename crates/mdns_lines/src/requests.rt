// Requests read from the text in which transcripts print them.
ghost use Rattle.std.specs.Prelude.{◌≡◌, ◌++◌, codes, IfOk, OnOk};
ghost use Rattle.std.specs.Option.{option_map};
ghost use Rattle.mdns_script.specs.Lines.{line_of};
ghost use Rattle.mdns_script.specs.Requests.{norename_of, families_of};
ghost use Rattle.mdns_lines.specs.ReadCalls.{called, scripted, query_in, families_in, address_in, instance_of, instance_in, register_words, register_in, request_of_words, request_in};
ghost use Rattle.number_text.specs.Digits.{hex_of};
ghost use Rattle.mdns_lines.specs.Words.{if_word};

use crate::tokens::name;
use bytes::Bytes;
use dns_record::read_kind;
use mdns_history::Event;
use mdns_script::{Command, Line, read_line};
use number_text::{cut_at, is_same, read_decimal_u8, read_decimal_u16, read_hex};
use sd_call::{Request, Text};
use std::alloc::{AllocError, Global};

/// The request that a text spells. Refused only for want of memory.
pub(crate) fn request(alloc: Global, text: &[u8]) -> Result<Option<Request>, AllocError>
    ensures { IfOk result (λ found. found ≡ request_in text.now) }
{
    match cut_at(text, b' ') {
        Some((word, rest)) => Ok(request_of_words(alloc, text, word, rest)?),
        None => Ok(stop(text)),
    }
}

// A text of one word.
fn stop(text: &[u8]) -> Option<Request>
    ensures { result ≡ if_word (codes "stop") text.now Request.Stop }
{
    if is_same(text, b"stop") {
        Some(Request::Stop)
    } else {
        None
    }
}

fn request_of_words(
    alloc: Global,
    text: &[u8],
    word: &[u8],
    rest: &[u8],
) -> Result<Option<Request>, AllocError>
    ensures { IfOk result (λ found. found ≡ request_of_words text.now word.now rest.now) }
{
    if is_same(word, b"query") {
        return Ok(query(rest));
    }
    if is_same(word, b"address") {
        return Ok(address(rest));
    }
    if is_same(word, b"register") {
        return Ok(register(alloc, rest)?);
    }
    if is_same(word, b"update") {
        return Ok(update(alloc, rest)?);
    }
    Ok(scripted(alloc, text)?)
}

// The request that scripts write as this text, where it has no TXT data.
#[tactic(auto, unfolding(crate::specs::ReadCalls::scripted))]
fn scripted(alloc: Global, text: &[u8]) -> Result<Option<Request>, AllocError>
    ensures { IfOk result (λ found. found ≡ scripted text.now) }
{
    let line = script_line(alloc, text)?;
    Ok(called(line))
}

// What the line of a script that asks for it is read as.
fn script_line(alloc: Global, text: &[u8]) -> Result<Line, AllocError>
    ensures { IfOk result (λ line. line ≡ line_of (codes "call 1 1 1 " ++ text.now)) }
{
    let line = spelled(alloc, text)?;
    Ok(read_line(alloc, line.as_slice())?)
}

// The line of a script that asks for it.
fn spelled(alloc: Global, text: &[u8]) -> Result<Vec<u8>, AllocError>
    ensures { IfOk result (λ line. line.items ≡ codes "call 1 1 1 " ++ text.now) }
{
    let mut line = Vec::new(alloc);
    put_call(&mut line, text)?;
    Ok(line)
}

// Puts the words of a call, and the request behind them.
fn put_call(out: &mut Vec<u8>, text: &[u8]) -> Result<(), AllocError>
    ensures { OnOk result (out.new.items ≡ out.old.items ++ (codes "call 1 1 1 " ++ text.now)) }
{
    out.extend_from_slice(b"call 1 1 1 ")?;
    out.extend_from_slice(text)?;
    Ok(())
}

// The request of a `call` line of a script.
#[tactic(auto, unfolding(crate::specs::ReadCalls::called))]
fn called(line: Line) -> Option<Request>
    ensures { result ≡ called line }
{
    match line {
        Line::Command(
            Command::Event {
                event: Event::Call { request, .. },
                ..
            },
        ) => Some(request),
        _ => None,
    }
}

#[tactic(auto, unfolding(crate::specs::ReadCalls::query_in))]
fn query(text: &[u8]) -> Option<Request>
    ensures { result ≡ query_in text.now }
{
    let (kind, token) = cut_at(text, b' ')?;
    let kind = read_kind(kind)?;
    let name = name(token)?;
    Some(Request::Query { kind, name })
}

#[tactic(auto, unfolding(crate::specs::ReadCalls::address_in))]
fn address(text: &[u8]) -> Option<Request>
    ensures { result ≡ address_in text.now }
{
    let (word, token) = cut_at(text, b' ')?;
    let families = families(word)?;
    let name = name(token)?;
    Some(Request::Address { families, name })
}

// The families of addresses by a word, or by their number.
fn families(word: &[u8]) -> Option<u8>
    ensures { result ≡ families_in word.now }
{
    match named_families(word) {
        Some(families) => Some(families),
        None => read_decimal_u8(word),
    }
}

fn named_families(word: &[u8]) -> Option<u8>
    ensures { result ≡ families_of word.now }
{
    if is_same(word, b"v4") {
        Some(1)
    } else if is_same(word, b"v6") {
        Some(2)
    } else if is_same(word, b"both") {
        Some(3)
    } else {
        None
    }
}

#[tactic(auto, unfolding(crate::specs::ReadCalls::register_in))]
fn register(alloc: Global, text: &[u8]) -> Result<Option<Request>, AllocError>
    ensures { IfOk result (λ found. found ≡ register_in text.now) }
{
    let Some((label, regtype, port, norename, hex)) = register_words(text) else {
        return Ok(None);
    };
    let Some((label, regtype)) = instance(alloc, label, regtype)? else {
        return Ok(None);
    };
    let Some(txt) = read_hex(alloc, hex)? else {
        return Ok(None);
    };
    Ok(Some(Request::Register {
        label,
        regtype,
        port,
        norename,
        txt: Bytes::from_vec(txt)?,
    }))
}

// The label, the service type, the port, whether the name is kept, and the text of the TXT data.
#[tactic(auto, unfolding(crate::specs::ReadCalls::register_words))]
fn register_words(text: &[u8]) -> Option<(&[u8], &[u8], u16, bool, &[u8])>
    ensures { option_map (λ words. (words.0.now, words.1.now, words.2, words.3, words.4.now)) result ≡ register_words text.now }
{
    let (label, rest) = cut_at(text, b' ')?;
    let (regtype, rest) = cut_at(rest, b' ')?;
    let (port, rest) = cut_at(rest, b' ')?;
    let (rename, txt) = cut_at(rest, b' ')?;
    let port = read_decimal_u16(port)?;
    let norename = norename(rename)?;
    Some((label, regtype, port, norename, txt))
}

fn norename(word: &[u8]) -> Option<bool>
    ensures { result ≡ norename_of word.now }
{
    if is_same(word, b"norename") {
        Some(true)
    } else if is_same(word, b"auto") {
        Some(false)
    } else {
        None
    }
}

// A label and a service type, as scripts write them.
fn instance(alloc: Global, label: &[u8], regtype: &[u8]) -> Result<Option<(Text, Text)>, AllocError>
    ensures { IfOk result (λ found. found ≡ instance_in label.now regtype.now) }
{
    let mut text = Vec::new(alloc);
    text.extend_from_slice(b"resolve ")?;
    text.extend_from_slice(label)?;
    text.push(b' ')?;
    text.extend_from_slice(regtype)?;
    match scripted(alloc, text.as_slice())? {
        Some(request) => Ok(instance_of(request)),
        None => Ok(None),
    }
}

#[tactic(auto, unfolding(crate::specs::ReadCalls::instance_of))]
fn instance_of(request: Request) -> Option<(Text, Text)>
    ensures { result ≡ instance_of request }
{
    match request {
        Request::Resolve { label, regtype } => Some((label, regtype)),
        _ => None,
    }
}

fn update(alloc: Global, text: &[u8]) -> Result<Option<Request>, AllocError>
    ensures { IfOk result (λ found. found ≡ option_map (λ txt. Request.Update txt) (hex_of text.now)) }
{
    match read_hex(alloc, text)? {
        Some(txt) => Ok(Some(Request::Update {
            txt: Bytes::from_vec(txt)?,
        })),
        None => Ok(None),
    }
}
