// Marks read from text.
ghost use Rattle.std.specs.Prelude.{◌≡◌, ◌^◌};
ghost use Rattle.std.specs.Option.{option_map};
ghost use Rattle.number_text.specs.Digits.{decimal_below};
ghost use Rattle.mdns_lines.specs.ReadItems.{cause_in, asked_in, renamed_in, mark_of_words, mark_of_group, mark_in};

use crate::tokens::name;
use dns_record::{Key, read_kind};
use mdns_history::{Cause, Mark};
use number_text::{cut_at, is_same, read_decimal, read_decimal_u8, read_decimal_u32};

/// The mark that a text spells.
pub(crate) fn mark(text: &[u8]) -> Option<Mark>
    ensures { result ≡ mark_in text.now }
{
    match cut_at(text, b' ') {
        Some((word, rest)) => mark_of_words(word, rest),
        None => {
            if is_same(text, b"full") {
                Some(Mark::Full)
            } else {
                None
            }
        }
    }
}

fn mark_of_words(word: &[u8], rest: &[u8]) -> Option<Mark>
    ensures { result ≡ mark_of_words word.now rest.now }
{
    if is_same(word, b"asked") {
        asked(rest)
    } else if is_same(word, b"renamed") {
        renamed(rest)
    } else if is_same(word, b"bad") {
        bad(rest)
    } else {
        mark_of_group(word, read_decimal(rest)?)
    }
}

// A mark that has the number of a group or of a session.
fn mark_of_group(word: &[u8], number: u64) -> Option<Mark>
    ensures { result ≡ mark_of_group word.now number }
{
    if is_same(word, b"announced") {
        Some(Mark::Announced { group: number })
    } else if is_same(word, b"contested") {
        Some(Mark::Contested { group: number })
    } else if is_same(word, b"tielost") {
        Some(Mark::TieLost { group: number })
    } else if is_same(word, b"failed") {
        Some(Mark::Failed { group: number })
    } else if is_same(word, b"cut") {
        Some(Mark::Cut { session: number })
    } else {
        None
    }
}

fn bad(text: &[u8]) -> Option<Mark>
    ensures { result ≡ option_map (λ n. Mark.Bad n) (decimal_below (2 ^ 8) text.now) }
{
    let number = read_decimal_u8(text)?;
    Some(Mark::Bad { number })
}

#[tactic(auto, unfolding(crate::specs::ReadItems::renamed_in))]
fn renamed(text: &[u8]) -> Option<Mark>
    ensures { result ≡ renamed_in text.now }
{
    let (group, number) = cut_at(text, b' ')?;
    let group = read_decimal(group)?;
    let number = read_decimal_u32(number)?;
    Some(Mark::Renamed { group, number })
}

#[tactic(auto, unfolding(crate::specs::ReadItems::asked_in))]
fn asked(text: &[u8]) -> Option<Mark>
    ensures { result ≡ asked_in text.now }
{
    let (token, rest) = cut_at(text, b' ')?;
    let (kind, why) = cut_at(rest, b' ')?;
    let name = name(token)?;
    let kind = read_kind(kind)?;
    let cause = cause(why)?;
    Some(Mark::Asked {
        question: Key { name, kind },
        cause,
    })
}

// Why a question counts as asked.
fn cause(word: &[u8]) -> Option<Cause>
    ensures { result ≡ cause_in word.now }
{
    if is_same(word, b"series") {
        Some(Cause::Series)
    } else if is_same(word, b"refresh") {
        Some(Cause::Refresh)
    } else if is_same(word, b"heard") {
        Some(Cause::Heard)
    } else {
        None
    }
}
