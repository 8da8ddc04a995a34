// The first lines of sent messages, and questions, read from text.
ghost use Rattle.std.specs.Prelude.{◌≡◌};
ghost use Rattle.mdns_lines.specs.ReadLines.{id_in, way_in, way_words, to_host, sent_in, kind_in, question_in};

use crate::tokens::{host, name};
use dns_record::{Question, read_kind};
use mdns_base::Dest;
use mdns_print::Line;
use number_text::{cut_at, is_same, read_decimal_u16};

/// The first line of a sent message, behind its sign.
pub(crate) fn sent(text: &[u8]) -> Option<Line>
    ensures { result ≡ sent_in text.now }
{
    let (to, rest) = cut_at(text, b' ')?;
    if is_same(to, b"all") {
        way_words(Dest::All, rest)
    } else {
        to_host(to, rest)
    }
}

// A message to one host, of which the address was read.
#[tactic(auto, unfolding(crate::specs::ReadLines::to_host))]
fn to_host(ip: &[u8], rest: &[u8]) -> Option<Line>
    ensures { result ≡ to_host ip.now rest.now }
{
    let (port, rest) = cut_at(rest, b' ')?;
    let to = host(ip, port)?;
    way_words(Dest::One(to), rest)
}

// Behind where a message goes: `reply` or `query`, its ID, and `tc` where known answers follow.
#[tactic(auto, unfolding(crate::specs::ReadLines::way_words))]
fn way_words(to: Dest, text: &[u8]) -> Option<Line>
    ensures { result ≡ way_words to text.now }
{
    let (word, rest) = cut_at(text, b' ')?;
    let response = way(word)?;
    let (id, truncated) = id(rest)?;
    Some(Line::Sent {
        to,
        response,
        id,
        truncated,
    })
}

// Whether a message is a reply or a query.
fn way(word: &[u8]) -> Option<bool>
    ensures { result ≡ way_in word.now }
{
    if is_same(word, b"reply") {
        Some(true)
    } else if is_same(word, b"query") {
        Some(false)
    } else {
        None
    }
}

// `ID` or `ID tc`.
fn id(text: &[u8]) -> Option<(u16, bool)>
    ensures { result ≡ id_in text.now }
{
    match cut_at(text, b' ') {
        Some((id, word)) => {
            let id = read_decimal_u16(id)?;
            if is_same(word, b"tc") {
                Some((id, true))
            } else {
                None
            }
        }
        None => Some((read_decimal_u16(text)?, false)),
    }
}

/// The question that a text spells.
#[tactic(auto, unfolding(crate::specs::ReadLines::question_in))]
pub(crate) fn question(text: &[u8]) -> Option<Question>
    ensures { result ≡ question_in text.now }
{
    let (token, rest) = cut_at(text, b' ')?;
    let name = name(token)?;
    let (kind, unicast) = kind(rest)?;
    Some(Question {
        name,
        kind,
        unicast,
    })
}

// `KIND` or `KIND qu`.
fn kind(text: &[u8]) -> Option<(u16, bool)>
    ensures { result ≡ kind_in text.now }
{
    match cut_at(text, b' ') {
        Some((kind, word)) => {
            let kind = read_kind(kind)?;
            if is_same(word, b"qu") {
                Some((kind, true))
            } else {
                None
            }
        }
        None => Some((read_kind(text)?, false)),
    }
}
