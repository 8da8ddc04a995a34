// Addresses of IPv4 as four decimal numbers with dots.
ghost use Rattle.std.specs.Prelude.{◌≡◌, ◌++◌, ◌^◌, OnOk, Some};
ghost use Rattle.number_text.specs.Digits.{ipv4_of, ipv4_text, IsReadFrom};

use crate::{cut_at, put_decimal, read_decimal_u8};
use std::alloc::AllocError;

/// The address that the text prints; `None` exactly where it prints none. The first number is the highest byte.
#[tactic(auto, using(crate::proofs::Ipv4Text::ipv4_exact))]
pub fn read_ipv4(text: &[u8]) -> Option<u32>
    ensures value { result ≡ ipv4_of text.now }
    ensures exact { IsReadFrom ipv4_text (2 ^ 32) text.now result }
{
    four_bytes(text)
}

#[tactic(auto, unfolding(crate::specs::Digits::ipv4_of, crate::specs::Digits::four_of))]
fn four_bytes(text: &[u8]) -> Option<u32>
    ensures { result ≡ ipv4_of text.now }
{
    let (first, rest) = cut_at(text, b'.')?;
    let (second, rest) = cut_at(rest, b'.')?;
    let (third, fourth) = cut_at(rest, b'.')?;
    let a = read_decimal_u8(first)?;
    let b = read_decimal_u8(second)?;
    let c = read_decimal_u8(third)?;
    let d = read_decimal_u8(fourth)?;
    Some(u32::from_be_bytes([a, b, c, d]))
}

/// Appends the address as text, which is read as that address. Refused only for want of memory.
#[tactic(auto, using(crate::proofs::Ipv4Text::ipv4_written))]
pub fn put_ipv4(out: &mut Vec<u8>, address: u32) -> Result<(), AllocError>
    ensures text { OnOk result (out.new.items ≡ out.old.items ++ ipv4_text address) }
    ensures read { ipv4_of (ipv4_text address) ≡ Some address }
{
    put_four_bytes(out, address)?;
    Ok(())
}

#[tactic(auto, unfolding(crate::specs::Digits::ipv4_text, crate::specs::Digits::four_text))]
fn put_four_bytes(out: &mut Vec<u8>, address: u32) -> Result<(), AllocError>
    ensures { OnOk result (out.new.items ≡ out.old.items ++ ipv4_text address) }
{
    put_decimal(out, u64::from(address / 16777216))?;
    out.push(b'.')?;
    put_decimal(out, u64::from(address / 65536 % 256))?;
    out.push(b'.')?;
    put_decimal(out, u64::from(address / 256 % 256))?;
    out.push(b'.')?;
    put_decimal(out, u64::from(address % 256))?;
    Ok(())
}
