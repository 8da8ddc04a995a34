// How rows spell bytes, and how bytes are shown.
use crate::error::RowError;
use crate::values::{hex_of, number};
use dns_name::Label;
use number_text::put_hex;
use std::alloc::{AllocError, Global};

/// The bytes that a word spells: `<6162>` stands for the bytes of these digits, `<>` for none, `{x*3}` for a text so many times, and all else for
/// itself.
pub fn bytes_of(alloc: Global, word: &str) -> Result<Vec<u8>, RowError> {
    let text = repeated(alloc, word)?;
    let mut out = Vec::new(alloc);
    for piece in text.split('<') {
        match piece.split_once('>') {
            Some((digits, rest)) => {
                out.extend_from_slice(&digits_of(alloc, digits)?)?;
                out.extend_from_slice(rest.as_bytes())?;
            }
            None => out.extend_from_slice(piece.as_bytes())?,
        }
    }
    Ok(out)
}

/// The text that a word spells.
pub fn text_of(alloc: Global, word: &str) -> Result<String, RowError> {
    text_from(bytes_of(alloc, word)?)
}

/// The label that a word spells.
pub fn label_of(alloc: Global, word: &str) -> Result<Label, RowError> {
    let bytes = bytes_of(alloc, word)?;
    Label::new(&bytes).ok_or(RowError::NotUnderstood)
}

// A word with each `{x*3}` written out.
fn repeated(alloc: Global, word: &str) -> Result<String, RowError> {
    let mut out = String::new(alloc);
    for piece in word.split('{') {
        match piece.split_once('}') {
            Some((inside, rest)) => {
                push_times(&mut out, inside)?;
                out.push_str(rest)?;
            }
            None => out.push_str(piece)?,
        }
    }
    Ok(out)
}

// Puts a text so many times as `x*3` says.
fn push_times(out: &mut String, inside: &str) -> Result<(), RowError> {
    let Some((text, times)) = inside.rsplit_once('*') else {
        return Err(RowError::NotUnderstood);
    };
    for _ in 0..number::<u32>(times)? {
        out.push_str(text)?;
    }
    Ok(())
}

fn digits_of(alloc: Global, digits: &str) -> Result<Vec<u8>, RowError> {
    if digits.is_empty() {
        return Ok(Vec::new(alloc));
    }
    hex_of(alloc, digits)
}

/// Bytes as rows spell them: visible ASCII characters and spaces as they are, others by their digits.
pub fn shown(alloc: Global, bytes: &[u8]) -> Result<String, RowError> {
    let mut out = Vec::new(alloc);
    if bytes.is_empty() {
        out.extend_from_slice(b"<>")?;
    }
    for run in bytes.chunk_by(|left, right| is_plain(*left) == is_plain(*right)) {
        push_run(&mut out, run)?;
    }
    text_from(out)
}

// Puts bytes that are all plain or all not.
fn push_run(out: &mut Vec<u8>, run: &[u8]) -> Result<(), AllocError> {
    if run.iter().all(|byte| is_plain(*byte)) {
        return out.extend_from_slice(run);
    }
    out.push(b'<')?;
    put_hex(out, run)?;
    out.push(b'>')?;
    Ok(())
}

fn is_plain(byte: u8) -> bool {
    matches!(byte, b' '..=b'~') && !matches!(byte, b'<' | b'>' | b'{' | b'}')
}

/// These bytes as text.
pub fn text_from(bytes: Vec<u8>) -> Result<String, RowError> {
    match String::from_utf8(bytes) {
        Ok(text) => Ok(text),
        Err(_) => Err(RowError::NotUnderstood),
    }
}

/// A word that came of a row.
pub fn word(alloc: Global, word: &str) -> Result<String, RowError> {
    Ok(word.to_string(alloc)?)
}

/// `yes` or `no`.
pub fn yes_or_no(alloc: Global, is: bool) -> Result<String, RowError> {
    word(alloc, if is { "yes" } else { "no" })
}
