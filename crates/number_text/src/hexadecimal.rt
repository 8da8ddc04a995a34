// Bytes as hexadecimal digits: two for each byte, in lower case as they are written, `-` for no bytes.
ghost use Rattle.std.specs.Prelude.{◌≡◌, ◌≤◌, ◌++◌, [], ◌∷◌, length, IfOk, OnOk, Some};
ghost use Rattle.std.specs.Option.{option_map};
ghost use Rattle.hex.specs.Hex.{encode_lower};
ghost use Rattle.number_text.specs.Digits.{hex_text, hex_of, digits_of, IsHexOf};

use crate::is_same;
use std::alloc::{AllocError, Global};

// How many bytes become digits at once.
const FEW: usize = 32;

/// The bytes that the text spells: `-` spells none, and digits may have either case. `None` exactly where it spells no
/// bytes: it is empty, has an odd number of digits or another character than digits. `Err` only for want of memory.
#[tactic(auto, using(crate::proofs::HexText::hex_exact))]
pub fn read_hex(alloc: Global, text: &[u8]) -> Result<Option<Vec<u8>>, AllocError>
    ensures value { IfOk result (λ found. option_map (λ v. v.items) found ≡ hex_of text.now) }
    ensures exact { IfOk result (λ found. IsHexOf text.now (option_map (λ v. v.items) found)) }
{
    spelled(alloc, text)
}

#[tactic(auto, unfolding(crate::specs::Digits::hex_of))]
fn spelled(alloc: Global, text: &[u8]) -> Result<Option<Vec<u8>>, AllocError>
    ensures { IfOk result (λ found. option_map (λ v. v.items) found ≡ hex_of text.now) }
{
    if text.is_empty() {
        return Ok(None);
    }
    if is_same(text, b"-") {
        return Ok(Some(Vec::new(alloc)));
    }
    Ok(decoded(alloc, text)?)
}

fn decoded(alloc: Global, text: &[u8]) -> Result<Option<Vec<u8>>, AllocError>
    ensures { IfOk result (λ found. option_map (λ v. v.items) found ≡ digits_of text.now) }
{
    match hex::decode(alloc, text) {
        Ok(bytes) => Ok(Some(bytes)),
        Err(hex::FromHexError::OutOfMemory) => Err(AllocError),
        Err(_) => Ok(None),
    }
}

/// Appends the bytes as text, which is read as those bytes. Refused only for want of memory.
#[tactic(auto, using(crate::proofs::HexText::hex_written))]
pub fn put_hex(out: &mut Vec<u8>, bytes: &[u8]) -> Result<(), AllocError>
    ensures text { OnOk result (out.new.items ≡ out.old.items ++ hex_text bytes.now) }
    ensures read { hex_of (hex_text bytes.now) ≡ Some bytes.now }
{
    put_spelled(out, bytes)?;
    Ok(())
}

#[tactic(auto, unfolding(crate::specs::Digits::hex_text))]
fn put_spelled(out: &mut Vec<u8>, bytes: &[u8]) -> Result<(), AllocError>
    ensures { OnOk result (out.new.items ≡ out.old.items ++ hex_text bytes.now) }
{
    if bytes.is_empty() {
        out.push(b'-')?;
        return Ok(());
    }
    out.reserve(bytes.len().saturating_mul(2))?;
    put_digits(out, bytes)?;
    Ok(())
}

fn put_digits(out: &mut Vec<u8>, bytes: &[u8]) -> Result<(), AllocError>
    ensures { OnOk result (out.new.items ≡ out.old.items ++ encode_lower bytes.now) }
{
    let mut rest = bytes;
    while !rest.is_empty() {
        let (few, more) = rest.split_at(rest.len().min(FEW));
        put_few(out, few)?;
        rest = more;
    }
    Ok(())
}

// Appends the digits of a few bytes at once.
fn put_few(out: &mut Vec<u8>, few: &[u8]) -> Result<(), AllocError>
    requires { length few.now ≤ 32 }
    ensures { OnOk result (out.new.items ≡ out.old.items ++ encode_lower few.now) }
{
    let mut digits = [0; 2 * FEW];
    let digits = &mut digits[..2 * few.len()];
    let _ = hex::encode_to_slice(few, digits);
    out.extend_from_slice(digits)
}
