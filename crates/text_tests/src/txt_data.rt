// Rows of TXT data.
use row_words::{RowError, bytes_of, number, shown, text_of, word, yes_or_no};
use std::alloc::{AllocError, Global};
use std::mem;
use txt_record::*;

/// The TXT data that rows work on, and the pairs of which they are made.
#[derive(Drop)]
pub struct TxtKept {
    txt: Txt,
    pairs: Vec<Pair>,
}

impl TxtKept {
    /// No strings, and no pairs.
    pub fn new(alloc: Global) -> Self {
        TxtKept {
            txt: Txt::new(alloc),
            pairs: Vec::new(alloc),
        }
    }
}

/// `txt set a 1` and others: a call on the TXT data.
pub fn row(alloc: Global, kept: &mut TxtKept, words: &[&str]) -> Result<String, RowError> {
    match words {
        ["new"] => {
            *kept = TxtKept::new(alloc);
            word(alloc, "done")
        }
        ["make"] => make_row(alloc, kept),
        ["pair" | "pairs", ..] => pair_row(alloc, &mut kept.pairs, words),
        ["set" | "push" | "remove" | "read", ..] => change_row(alloc, &mut kept.txt, words),
        ["is" | "octets" | "codes", ..] => bytes_row(alloc, words),
        _ => look_row(alloc, &mut kept.txt, words),
    }
}

// Bytes alone, and the numbers of the errors.
fn bytes_row(alloc: Global, words: &[&str]) -> Result<String, RowError> {
    match words {
        ["is", bytes] => is_row(alloc, bytes),
        ["octets", bytes] => octets_row(alloc, bytes),
        ["codes"] => codes_row(alloc),
        _ => Err(RowError::NotUnderstood),
    }
}

fn is_row(alloc: Global, bytes: &str) -> Result<String, RowError> {
    let bytes = bytes_of(alloc, bytes)?;
    yes_or_no(alloc, is_txt(&bytes))
}

fn pair_row(alloc: Global, pairs: &mut Vec<Pair>, words: &[&str]) -> Result<String, RowError> {
    match words {
        ["pair", key] => pairs.push(pair(alloc, key, None)?)?,
        ["pair", key, value] => pairs.push(pair(alloc, key, Some(*value))?)?,
        ["pairs", times, key, value] => push_pairs(alloc, pairs, number(times)?, (key, value))?,
        _ => return Err(RowError::NotUnderstood),
    }
    word(alloc, "done")
}

fn push_pairs(
    alloc: Global,
    pairs: &mut Vec<Pair>,
    times: u8,
    (key, value): (&str, &str),
) -> Result<(), RowError> {
    for _ in 0..times {
        pairs.push(pair(alloc, key, Some(value))?)?;
    }
    Ok(())
}

fn pair(alloc: Global, key: &str, value: Option<&str>) -> Result<Pair, RowError> {
    let value = match value {
        Some(value) => Some(Octets::from_vec(bytes_of(alloc, value)?)),
        None => None,
    };
    let key = Octets::from_vec(bytes_of(alloc, key)?);
    Ok(Pair { key, value })
}

fn make_row(alloc: Global, kept: &mut TxtKept) -> Result<String, RowError> {
    match Txt::from_pairs(alloc, kept.pairs.as_slice()) {
        Ok(txt) => {
            kept.txt = txt;
            word(alloc, "done")
        }
        Err(refusal) => word(alloc, refusal_word(refusal)?),
    }
}

fn change_row(alloc: Global, txt: &mut Txt, words: &[&str]) -> Result<String, RowError> {
    match words {
        ["set", key] => set_row(alloc, txt, key, None),
        ["set", key, value] => set_row(alloc, txt, key, Some(&bytes_of(alloc, value)?)),
        ["push", string] => push_row(alloc, txt, string, 1),
        ["push", string, times] => push_row(alloc, txt, string, number(times)?),
        ["remove", key] => remove_row(alloc, txt, key),
        ["read", bytes] => read_row(alloc, txt, bytes),
        _ => Err(RowError::NotUnderstood),
    }
}

fn set_row(
    alloc: Global,
    txt: &mut Txt,
    key: &str,
    value: Option<&[u8]>,
) -> Result<String, RowError> {
    let key = text_of(alloc, key)?;
    done_text(alloc, txt.set(key.as_str(), value))
}

fn push_row(alloc: Global, txt: &mut Txt, string: &str, times: u8) -> Result<String, RowError> {
    let string = bytes_of(alloc, string)?;
    done_text(alloc, push_times(txt, &string, times))
}

fn remove_row(alloc: Global, txt: &mut Txt, key: &str) -> Result<String, RowError> {
    let key = text_of(alloc, key)?;
    let was_there = txt.remove(key.as_str());
    word(alloc, if was_there { "removed" } else { "none" })
}

// That it is done, or why not.
fn done_text(alloc: Global, done: Result<(), TxtError>) -> Result<String, RowError> {
    match done {
        Ok(()) => word(alloc, "done"),
        Err(refusal) => word(alloc, refusal_word(refusal)?),
    }
}

fn push_times(txt: &mut Txt, string: &[u8], times: u8) -> Result<(), TxtError> {
    for _ in 0..times {
        txt.push(string)?;
    }
    Ok(())
}

fn look_row(alloc: Global, txt: &mut Txt, words: &[&str]) -> Result<String, RowError> {
    match words {
        ["get", key] => get_row(alloc, txt, key),
        ["show"] => shown(alloc, txt.as_slice()),
        ["size"] => Ok(txt.as_slice().len().to_string(alloc)?),
        ["strings"] => Ok(txt.strings().count().to_string(alloc)?),
        ["vec"] => vec_row(alloc, txt),
        _ => Err(RowError::NotUnderstood),
    }
}

// The data as a vector, which they are given up for.
fn vec_row(alloc: Global, txt: &mut Txt) -> Result<String, RowError> {
    let bytes = mem::replace(txt, Txt::new(alloc)).into_vec();
    shown(alloc, &bytes)
}

fn get_row(alloc: Global, txt: &Txt, key: &str) -> Result<String, RowError> {
    let key = text_of(alloc, key)?;
    found_text(alloc, txt.get(key.as_str()))
}

fn found_text(alloc: Global, found: Option<Found>) -> Result<String, RowError> {
    match found {
        None => word(alloc, "none"),
        Some(Found::Bare) => word(alloc, "bare"),
        Some(Found::Value(bytes)) => {
            let mut out = String::from_str(alloc, "value ")?;
            out.push_str(shown(alloc, bytes)?.as_str())?;
            Ok(out)
        }
    }
}

fn read_row(alloc: Global, txt: &mut Txt, bytes: &str) -> Result<String, RowError> {
    match Txt::from_bytes(alloc, &bytes_of(alloc, bytes)?)? {
        Some(read) => {
            *txt = read;
            word(alloc, "read")
        }
        None => word(alloc, "none"),
    }
}

// Bytes that are put to a list one after the other, and that list made again of its vector.
fn octets_row(alloc: Global, bytes: &str) -> Result<String, RowError> {
    let octets = pushed(alloc, &bytes_of(alloc, bytes)?)?;
    let mut out = shown(alloc, octets.as_slice())?;
    let again = Octets::from_vec(octets.into_vec());
    out.push(' ')?;
    out.push_str(shown(alloc, again.as_slice())?.as_str())?;
    Ok(out)
}

fn pushed(alloc: Global, bytes: &[u8]) -> Result<Octets, AllocError> {
    let mut octets = Octets::new(alloc);
    for byte in bytes {
        octets.push(*byte)?;
    }
    Ok(octets)
}

// Why data are not made or changed. Want of memory is passed on.
fn refusal_word(refusal: TxtError) -> Result<&'static str, RowError> {
    match refusal {
        TxtError::BadKey => Ok("bad key"),
        TxtError::LongEntry => Ok("long entry"),
        TxtError::LongTxt => Ok("long data"),
        TxtError::NoMemory => Err(RowError::NoMemory(AllocError)),
    }
}

fn codes_row(alloc: Global) -> Result<String, RowError> {
    let key = TxtError::BadKey as u8;
    let entry = TxtError::LongEntry as u8;
    let txt = TxtError::LongTxt as u8;
    let memory = TxtError::NoMemory as u8;
    Ok(format!(in alloc; "{key} {entry} {txt} {memory}")?)
}
