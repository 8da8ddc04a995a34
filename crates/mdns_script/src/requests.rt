// The requests of `call` lines.
ghost use Rattle.std.specs.Prelude.{◌≡◌, ◌^◌, IfOk};
ghost use Rattle.std.specs.Option.{option_map};
ghost use Rattle.mdns_script.specs.Tokens.{type_of, txt_of};
ghost use Rattle.mdns_script.specs.Requests.{query_of, resolve_of, families_of, address_of, norename_of, register_words, register_of, request_of_words, request_of};

use crate::tokens::{label, name, regtype, txt};
use dns_record::read_kind;
use number_text::{cut_at, is_same, read_decimal_u16};
use sd_call::Request;
use std::alloc::{AllocError, Global};

/// The request that a text spells. Refused only for want of memory.
pub(crate) fn request(alloc: Global, text: &[u8]) -> Result<Option<Request>, AllocError>
    ensures { IfOk result (λ found. found ≡ request_of text.now) }
{
    if is_same(text, b"stop") {
        return Ok(Some(Request::Stop));
    }
    match cut_at(text, b' ') {
        Some((word, rest)) => Ok(request_of_words(alloc, word, rest)?),
        None => Ok(None),
    }
}

fn request_of_words(alloc: Global, word: &[u8], rest: &[u8]) -> Result<Option<Request>, AllocError>
    ensures { IfOk result (λ found. found ≡ request_of_words word.now rest.now) }
{
    if is_same(word, b"query") {
        return Ok(query(rest));
    }
    if is_same(word, b"browse") {
        return Ok(browse(alloc, rest)?);
    }
    if is_same(word, b"resolve") {
        return Ok(resolve(alloc, rest)?);
    }
    if is_same(word, b"address") {
        return Ok(address(rest));
    }
    if is_same(word, b"register") {
        return Ok(register(alloc, rest)?);
    }
    if is_same(word, b"update") {
        return Ok(update(alloc, rest)?);
    }
    Ok(None)
}

#[tactic(auto, unfolding(crate::specs::Requests::query_of))]
fn query(text: &[u8]) -> Option<Request>
    ensures { result ≡ query_of text.now }
{
    let (kind, token) = cut_at(text, b' ')?;
    let kind = read_kind(kind)?;
    let name = name(token)?;
    Some(Request::Query { kind, name })
}

fn browse(alloc: Global, text: &[u8]) -> Result<Option<Request>, AllocError>
    ensures { IfOk result (λ found. found ≡ option_map (λ regtype. Request.Browse regtype) (type_of text.now)) }
{
    match regtype(alloc, text)? {
        Some(regtype) => Ok(Some(Request::Browse { regtype })),
        None => Ok(None),
    }
}

#[tactic(auto, unfolding(crate::specs::Requests::resolve_of))]
fn resolve(alloc: Global, text: &[u8]) -> Result<Option<Request>, AllocError>
    ensures { IfOk result (λ found. found ≡ resolve_of text.now) }
{
    let Some((token, rest)) = cut_at(text, b' ') else {
        return Ok(None);
    };
    let Some(label) = label(alloc, token)? else {
        return Ok(None);
    };
    let Some(regtype) = regtype(alloc, rest)? else {
        return Ok(None);
    };
    Ok(Some(Request::Resolve { label, regtype }))
}

#[tactic(auto, unfolding(crate::specs::Requests::address_of))]
fn address(text: &[u8]) -> Option<Request>
    ensures { result ≡ address_of text.now }
{
    let (word, token) = cut_at(text, b' ')?;
    let families = families(word)?;
    let name = name(token)?;
    Some(Request::Address { families, name })
}

// The families of addresses: bit 0 for IPv4, bit 1 for IPv6.
fn families(word: &[u8]) -> Option<u8>
    ensures { result ≡ families_of word.now }
{
    if is_same(word, b"v4") {
        Some(1)
    } else if is_same(word, b"v6") {
        Some(2)
    } else if is_same(word, b"both") {
        Some(3)
    } else {
        None
    }
}

#[tactic(auto, unfolding(crate::specs::Requests::register_of))]
fn register(alloc: Global, text: &[u8]) -> Result<Option<Request>, AllocError>
    ensures { IfOk result (λ found. found ≡ register_of text.now) }
{
    let Some((first, second, port, norename, rest)) = register_words(text) else {
        return Ok(None);
    };
    let Some(label) = label(alloc, first)? else {
        return Ok(None);
    };
    let Some(regtype) = regtype(alloc, second)? else {
        return Ok(None);
    };
    let Some(txt) = txt(alloc, rest)? else {
        return Ok(None);
    };
    Ok(Some(Request::Register {
        label,
        regtype,
        port,
        norename,
        txt,
    }))
}

// The label, the service type, the port, whether the name is kept, and the text of the TXT data.
#[tactic(auto, unfolding(crate::specs::Requests::register_words))]
fn register_words(text: &[u8]) -> Option<(&[u8], &[u8], u16, bool, &[u8])>
    ensures { option_map (λ words. (words.0.now, words.1.now, words.2, words.3, words.4.now)) result ≡ register_words text.now }
{
    let (label, rest) = cut_at(text, b' ')?;
    let (regtype, rest) = cut_at(rest, b' ')?;
    let (port, rest) = cut_at(rest, b' ')?;
    let (rename, txt) = cut_at(rest, b' ')?;
    let port = read_decimal_u16(port)?;
    let norename = norename(rename)?;
    Some((label, regtype, port, norename, txt))
}

fn norename(word: &[u8]) -> Option<bool>
    ensures { result ≡ norename_of word.now }
{
    if is_same(word, b"norename") {
        Some(true)
    } else if is_same(word, b"auto") {
        Some(false)
    } else {
        None
    }
}

fn update(alloc: Global, text: &[u8]) -> Result<Option<Request>, AllocError>
    ensures { IfOk result (λ found. found ≡ option_map (λ txt. Request.Update txt) (txt_of text.now)) }
{
    match txt(alloc, text)? {
        Some(txt) => Ok(Some(Request::Update { txt })),
        None => Ok(None),
    }
}
