// The request of a command.
ghost use Rattle.std.specs.Prelude.{◌≡◌, ◌↔◌, ◌++◌, ◌∷◌, ◌≤◌, length, IsTrue, IfOk, OnOk};
ghost use Rattle.std.specs.Option.{option_map};
ghost use Rattle.txt_record.specs.Strings.{txt_data};
ghost use Rattle.sd_ipc.specs.Frames.{is_short};
ghost use Rattle.sd_client.specs.Requests.{IsMade};
ghost use Rattle.sd_command.specs.Commands.{texts, is_domain, is_domain_end, browse_words, resolve_words, are_strings, service_words, register_words, kind_words, query_words, families_word, address_words, request_words};

use crate::words::next_word;
use bytes::Bytes;
use dns_record::read_kind;
use number_text::read_decimal_u16;
use sd_call::Request;
use sd_client::{
    ClientError, address_request, browse_request, query_request, register_request, resolve_request,
};
use std::alloc::{AllocError, Global};

/// The type A, which is asked for where none is given.
const KIND_A: u16 = 1;

/// The most bytes of a string of TXT data. (RFC 6763 6.1)
const MOST_STRING: usize = 255;

/// The request of a command. `BadParam` exactly where the words are none; the other error is `NoMemory`.
#[tactic(auto, unfolding(crate::specs::Commands::request_words))]
pub fn request(alloc: Global, words: &[String]) -> Result<Request, ClientError>
    ensures made { IsMade result (request_words (texts words.now)) }
    ensures short { IfOk result (λ request. IsTrue (is_short request)) }
{
    let Some((word, rest)) = next_word(words) else {
        return Err(ClientError::BadParam);
    };
    if word == "-B" {
        return browse(alloc, rest);
    }
    if word == "-L" {
        return resolve(alloc, rest);
    }
    if word == "-R" {
        return register(alloc, rest);
    }
    if word == "-Q" {
        return query(rest);
    }
    if word == "-G" {
        return address(rest);
    }
    Err(ClientError::BadParam)
}

#[tactic(auto, unfolding(crate::specs::Commands::browse_words))]
fn browse(alloc: Global, words: &[String]) -> Result<Request, ClientError>
    ensures made { IsMade result (browse_words (texts words.now)) }
    ensures short { IfOk result (λ request. IsTrue (is_short request)) }
{
    match next_word(words) {
        Some((regtype, rest)) if is_domain_end(rest) => browse_request(alloc, regtype),
        _ => Err(ClientError::BadParam),
    }
}

#[tactic(auto, unfolding(crate::specs::Commands::resolve_words))]
fn resolve(alloc: Global, words: &[String]) -> Result<Request, ClientError>
    ensures made { IsMade result (resolve_words (texts words.now)) }
    ensures short { IfOk result (λ request. IsTrue (is_short request)) }
{
    let Some((label, rest)) = next_word(words) else {
        return Err(ClientError::BadParam);
    };
    match next_word(rest) {
        Some((regtype, rest)) if is_domain_end(rest) => resolve_request(alloc, label, regtype),
        _ => Err(ClientError::BadParam),
    }
}

#[tactic(auto, unfolding(crate::specs::Commands::register_words))]
fn register(alloc: Global, words: &[String]) -> Result<Request, ClientError>
    ensures made { IsMade result (register_words (texts words.now)) }
    ensures short { IfOk result (λ request. IsTrue (is_short request)) }
{
    let Some((label, rest)) = next_word(words) else {
        return Err(ClientError::BadParam);
    };
    match next_word(rest) {
        Some((regtype, rest)) => service(alloc, label, regtype, rest),
        None => Err(ClientError::BadParam),
    }
}

// A registration; the words are those behind its label and service type.
#[tactic(auto, unfolding(crate::specs::Commands::service_words))]
fn service(
    alloc: Global,
    label: &str,
    regtype: &str,
    words: &[String],
) -> Result<Request, ClientError>
    ensures made { IsMade result (service_words label.now regtype.now (texts words.now)) }
    ensures short { IfOk result (λ request. IsTrue (is_short request)) }
{
    let Some((domain, rest)) = next_word(words) else {
        return Err(ClientError::BadParam);
    };
    let Some((port, strings)) = next_word(rest) else {
        return Err(ClientError::BadParam);
    };
    let Some(port) = read_decimal_u16(port.as_bytes()) else {
        return Err(ClientError::BadParam);
    };
    if !is_domain(domain) || !are_strings(strings) {
        return Err(ClientError::BadParam);
    }
    let txt = txt_data(alloc, strings)?;
    register_request(alloc, 0, (label, regtype), port, &txt)
}

#[tactic(auto, unfolding(crate::specs::Commands::query_words))]
fn query(words: &[String]) -> Result<Request, ClientError>
    ensures made { IsMade result (query_words (texts words.now)) }
    ensures short { IfOk result (λ request. IsTrue (is_short request)) }
{
    let Some((name, rest)) = next_word(words) else {
        return Err(ClientError::BadParam);
    };
    match kind(rest) {
        Some(kind) => query_request(name, kind),
        None => Err(ClientError::BadParam),
    }
}

#[tactic(auto, unfolding(crate::specs::Commands::address_words))]
fn address(words: &[String]) -> Result<Request, ClientError>
    ensures made { IsMade result (address_words (texts words.now)) }
    ensures short { IfOk result (λ request. IsTrue (is_short request)) }
{
    let Some((families, rest)) = next_word(words) else {
        return Err(ClientError::BadParam);
    };
    let Some((name, rest)) = next_word(rest) else {
        return Err(ClientError::BadParam);
    };
    match families_word(families) {
        Some(families) if next_word(rest).is_none() => address_request(families, name),
        _ => Err(ClientError::BadParam),
    }
}

// Whether a domain may be left out here, or is the one that there is.
fn is_domain_end(words: &[String]) -> bool
    ensures { result ≡ is_domain_end (texts words.now) }
{
    match next_word(words) {
        Some((domain, rest)) => is_domain(domain) && next_word(rest).is_none(),
        None => true,
    }
}

/// Whether a word is the domain that is served: `local`, with or without its dot, or the default.
pub fn is_domain(word: &str) -> bool
    ensures { result ≡ is_domain word.now }
{
    word == "local" || word == "local." || word == "." || word == ""
}

// The type of records: `RRTYPE IN`, of which either may be left out from the end.
fn kind(words: &[String]) -> Option<u16>
    ensures { result ≡ kind_words (texts words.now) }
{
    let Some((word, rest)) = next_word(words) else {
        return Some(KIND_A);
    };
    match next_word(rest) {
        Some((class, rest)) if class != "IN" || next_word(rest).is_some() => None,
        _ => read_kind(word.as_bytes()),
    }
}

/// The families of addresses that a word names.
pub fn families_word(word: &str) -> Option<u8>
    ensures { result ≡ families_word word.now }
{
    if word == "v4" {
        return Some(1);
    }
    if word == "v6" {
        return Some(2);
    }
    if word == "v4v6" {
        return Some(3);
    }
    None
}

// Whether each word is short enough for a string of TXT data.
fn are_strings(words: &[String]) -> bool
    ensures { result ≡ are_strings (texts words.now) }
{
    let mut rest = words;
    'words: while let Some((word, after)) = next_word(rest) {
        if !is_string(word) {
            return false;
        }
        rest = after;
    }
    true
}

/// Whether a word is short enough for a string of TXT data.
pub fn is_string(word: &str) -> bool
    ensures { IsTrue result ↔ (length word.now ≤ 255) }
{
    word.len() <= MOST_STRING
}

// TXT data of these strings.
fn txt_data(alloc: Global, strings: &[String]) -> Result<Bytes, AllocError>
    requires { IsTrue (are_strings (texts strings.now)) }
    ensures { IfOk result (λ txt. txt ≡ txt_data (texts strings.now)) }
{
    let mut txt = Vec::new(alloc);
    let mut rest = strings;
    'strings: while let Some((string, after)) = next_word(rest) {
        put_string(&mut txt, string)?;
        rest = after;
    }
    Ok(Bytes::from_vec(txt)?)
}

// Appends a string behind its length.
fn put_string(txt: &mut Vec<u8>, string: &str) -> Result<(), AllocError>
    requires { length string.now ≤ 255 }
    ensures { OnOk result (txt.new.items ≡ txt.old.items ++ length string.now ∷ string.now) }
{
    txt.push(string.len() as u8)?;
    txt.extend_from_slice(string.as_bytes())?;
    Ok(())
}
