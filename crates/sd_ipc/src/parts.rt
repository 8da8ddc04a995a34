// The parts with which bytes begin, each with what follows it. Numbers have their byte of the greatest worth first.
ghost use Rattle.std.specs.Prelude.{◌≡◌, ◌⊎◌, ◌≤◌, length, Ok, Err, MatchResult};
ghost use Rattle.sd_ipc.specs.Parts.{byte_part, u16_part, u32_part, bytes_part, counted_part, text_part, txt_part, name_part, ended};

use crate::FrameError;
use bytes::Bytes;
use dns_name::Name;
use sd_call::Text;
use std::alloc::Global;
use std::str;

/// A first byte.
pub(crate) fn byte_part(bytes: &[u8]) -> Result<(u8, &[u8]), FrameError>
    ensures { MatchResult result (λ p. byte_part bytes.now ≡ Ok (p.0, p.1.now)) (λ e. byte_part bytes.now ≡ Err e) }
{
    let (byte, rest) = bytes.split_first().ok_or(FrameError::BadBody)?;
    Ok((*byte, rest))
}

/// A number of two bytes.
#[tactic(auto, unfolding(crate::specs::Parts::u16_part))]
pub(crate) fn u16_part(bytes: &[u8]) -> Result<(u16, &[u8]), FrameError>
    ensures { MatchResult result (λ p. u16_part bytes.now ≡ Ok (p.0, p.1.now)) (λ e. u16_part bytes.now ≡ Err e) }
{
    match bytes.split_first_chunk::<2>() {
        Some((number, rest)) => Ok((u16::from_be_bytes(*number), rest)),
        None => Err(FrameError::BadBody),
    }
}

/// A number of four bytes.
#[tactic(auto, unfolding(crate::specs::Parts::u32_part))]
pub(crate) fn u32_part(bytes: &[u8]) -> Result<(u32, &[u8]), FrameError>
    ensures { MatchResult result (λ p. u32_part bytes.now ≡ Ok (p.0, p.1.now)) (λ e. u32_part bytes.now ≡ Err e) }
{
    match bytes.split_first_chunk::<4>() {
        Some((number, rest)) => Ok((u32::from_be_bytes(*number), rest)),
        None => Err(FrameError::BadBody),
    }
}

// So many bytes, at most so many.
#[tactic(auto, unfolding(crate::specs::Parts::bytes_part))]
fn bytes_part(most: usize, size: usize, bytes: &[u8]) -> Result<(&[u8], &[u8]), FrameError>
    ensures { MatchResult result (λ p. bytes_part most size bytes.now ≡ Ok (p.0.now, p.1.now)) (λ e. bytes_part most size bytes.now ≡ Err e) }
{
    if size > most || size > bytes.len() {
        return Err(FrameError::BadBody);
    }
    Ok((&bytes[..size], &bytes[size..]))
}

// The count of bytes, at most so many, and these.
#[tactic(auto, unfolding(crate::specs::Parts::counted_part))]
fn counted_part(most: usize, bytes: &[u8]) -> Result<(&[u8], &[u8]), FrameError>
    ensures { MatchResult result (λ p. counted_part most bytes.now ≡ Ok (p.0.now, p.1.now)) (λ e. counted_part most bytes.now ≡ Err e) }
{
    let (size, rest) = u16_part(bytes)?;
    bytes_part(most, usize::from(size), rest)
}

/// A text: at most 1024 bytes of UTF-8.
#[tactic(auto, unfolding(crate::specs::Parts::text_part))]
pub(crate) fn text_part(alloc: Global, bytes: &[u8]) -> Result<(Text, &[u8]), FrameError>
    ensures { MatchResult result (λ p. text_part bytes.now ≡ Ok (p.0, p.1.now)) (λ e. (e ≡ FrameError.NoMemory) ⊎ (text_part bytes.now ≡ Err e)) }
{
    let (text, rest) = counted_part(1024, bytes)?;
    let Ok(text) = str::from_utf8(text) else {
        return Err(FrameError::BadBody);
    };
    match Text::new(alloc, text)? {
        Some(text) => Ok((text, rest)),
        None => Err(FrameError::BadBody),
    }
}

/// TXT data: at most 8192 bytes.
#[tactic(auto, unfolding(crate::specs::Parts::txt_part))]
pub(crate) fn txt_part(alloc: Global, bytes: &[u8]) -> Result<(Bytes, &[u8]), FrameError>
    ensures { MatchResult result (λ p. txt_part bytes.now ≡ Ok (p.0, p.1.now)) (λ e. (e ≡ FrameError.NoMemory) ⊎ (txt_part bytes.now ≡ Err e)) }
{
    let (txt, rest) = counted_part(8192, bytes)?;
    Ok((Bytes::copy_from_slice(alloc, txt)?, rest))
}

/// A name in wire form, without pointers.
#[tactic(auto, unfolding(crate::specs::Parts::name_part))]
pub(crate) fn name_part(bytes: &[u8]) -> Result<(Name, &[u8]), FrameError>
    ensures { MatchResult result (λ p. name_part bytes.now ≡ Ok (p.0, p.1.now)) (λ e. name_part bytes.now ≡ Err e) }
{
    let mut name = Name::root();
    let mut rest = bytes;
    while let Some((size, after)) = rest.split_first() {
        let size = usize::from(*size);
        if size == 0 {
            return Ok((name, after));
        }
        if size > 63 || size > after.len() || name.wire_len() + size > 254 {
            return Err(FrameError::BadBody);
        }
        let (label, behind) = after.split_at(size);
        name.push_bytes(label);
        rest = behind;
    }
    Err(FrameError::BadBody)
}

/// Nothing follows.
pub(crate) fn ended(rest: &[u8]) -> Result<(), FrameError>
    ensures { result ≡ ended rest.now }
{
    if rest.is_empty() {
        Ok(())
    } else {
        Err(FrameError::BadBody)
    }
}
