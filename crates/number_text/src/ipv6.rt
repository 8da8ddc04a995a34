// Addresses of IPv6 as eight groups of four hexadecimal digits with colons.
ghost use Rattle.std.specs.Prelude.{◌≡◌, ◌++◌, ◌^◌, OnOk, Some};
ghost use Rattle.std.specs.Option.{option_map};
ghost use Rattle.std.specs.Str.{str_to_ascii_lowercase};
ghost use Rattle.number_text.specs.Digits.{ipv6_of, ipv6_text, ipv6_half_of, ipv6_half_text, ipv6_parts, group_of, group_text, IsReadFrom};

use crate::cut_at;
use hex::FromHex;
use std::alloc::AllocError;

/// The address that the text spells, digits in either case; `None` exactly where it spells none. The first group is the
/// highest two bytes.
#[tactic(auto, using(crate::proofs::Ipv6Text::ipv6_exact))]
pub fn read_ipv6(text: &[u8]) -> Option<u128>
    ensures value { result ≡ ipv6_of text.now }
    ensures exact { IsReadFrom ipv6_text (2 ^ 128) (str_to_ascii_lowercase text.now) result }
{
    two_halves(text)
}

#[tactic(auto, unfolding(crate::specs::Digits::ipv6_of))]
fn two_halves(text: &[u8]) -> Option<u128>
    ensures { result ≡ ipv6_of text.now }
{
    let (first, second) = parts(text)?;
    let first = read_half(first)?;
    let second = read_half(second)?;
    Some(u128::from(first) * 18446744073709551616 + u128::from(second))
}

// The two times four groups, of which each has 19 characters.
fn parts(text: &[u8]) -> Option<(&[u8], &[u8])>
    ensures { option_map (λ parts. (parts.0.now, parts.1.now)) result ≡ ipv6_parts text.now }
{
    if text.len() == 39 && text[19] == b':' {
        Some((&text[..19], &text[20..]))
    } else {
        None
    }
}

// Four groups.
#[tactic(auto, unfolding(crate::specs::Digits::ipv6_half_of, crate::specs::Digits::four_of))]
fn read_half(text: &[u8]) -> Option<u64>
    ensures { result ≡ ipv6_half_of text.now }
{
    let (first, rest) = cut_at(text, b':')?;
    let (second, rest) = cut_at(rest, b':')?;
    let (third, fourth) = cut_at(rest, b':')?;
    let a = u64::from(read_group(first)?);
    let b = u64::from(read_group(second)?);
    let c = u64::from(read_group(third)?);
    let d = u64::from(read_group(fourth)?);
    Some(((a * 65536 + b) * 65536 + c) * 65536 + d)
}

fn read_group(text: &[u8]) -> Option<u16>
    ensures { result ≡ group_of text.now }
{
    let bytes = <[u8; 2] as FromHex>::from_hex(text).ok()?;
    Some(u16::from_be_bytes(bytes))
}

/// Appends the address as text, which is read as that address. Refused only for want of memory.
#[tactic(auto, using(crate::proofs::Ipv6Text::ipv6_written))]
pub fn put_ipv6(out: &mut Vec<u8>, address: u128) -> Result<(), AllocError>
    ensures text { OnOk result (out.new.items ≡ out.old.items ++ ipv6_text address) }
    ensures read { ipv6_of (ipv6_text address) ≡ Some address }
{
    put_two_halves(out, address)?;
    Ok(())
}

#[tactic(auto, unfolding(crate::specs::Digits::ipv6_text))]
fn put_two_halves(out: &mut Vec<u8>, address: u128) -> Result<(), AllocError>
    ensures { OnOk result (out.new.items ≡ out.old.items ++ ipv6_text address) }
{
    put_half(out, (address / 18446744073709551616) as u64)?;
    out.extend_from_slice(b":")?;
    put_half(out, (address % 18446744073709551616) as u64)?;
    Ok(())
}

#[tactic(auto, unfolding(crate::specs::Digits::ipv6_half_text, crate::specs::Digits::four_text))]
fn put_half(out: &mut Vec<u8>, half: u64) -> Result<(), AllocError>
    ensures { OnOk result (out.new.items ≡ out.old.items ++ ipv6_half_text half) }
{
    put_group(out, (half / 281474976710656) as u16)?;
    out.extend_from_slice(b":")?;
    put_group(out, (half / 4294967296 % 65536) as u16)?;
    out.extend_from_slice(b":")?;
    put_group(out, (half / 65536 % 65536) as u16)?;
    out.extend_from_slice(b":")?;
    put_group(out, (half % 65536) as u16)?;
    Ok(())
}

fn put_group(out: &mut Vec<u8>, group: u16) -> Result<(), AllocError>
    ensures { OnOk result (out.new.items ≡ out.old.items ++ group_text group) }
{
    let mut digits = [0; 4];
    let _ = hex::encode_to_slice(group.to_be_bytes(), &mut digits);
    out.extend_from_slice(&digits)?;
    Ok(())
}
