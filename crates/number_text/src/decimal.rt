// Numbers as decimal digits without a sign or a leading zero.
ghost use Rattle.std.specs.Prelude.{◌≡◌, ◌≢◌, ◌++◌, ◌<◌, ◌^◌, decimal, MatchOption, OnOk, Some};
ghost use Rattle.number_text.specs.Digits.{decimal_of, decimal_below, IsReadFrom};

use crate::is_same;
use itoa::Buffer;
use std::alloc::AllocError;

/// The number that the text prints; `None` exactly where it prints no number of 64 bits. A sign, a leading zero (but
/// for `0` itself) and an empty text are refused.
#[tactic(auto, using(crate::proofs::Decimals::decimal_exact))]
pub fn read_decimal(text: &[u8]) -> Option<u64>
    ensures value { result ≡ decimal_of text.now }
    ensures exact { IsReadFrom decimal (2 ^ 64) text.now result }
{
    number(text)
}

fn number(text: &[u8]) -> Option<u64>
    ensures { result ≡ decimal_of text.now }
{
    match str::from_utf8(text) {
        Ok(text) => number_of_str(text),
        Err(_) => None,
    }
}

fn number_of_str(text: &str) -> Option<u64>
    ensures { result ≡ decimal_of text.now }
{
    match text.parse::<u64>() {
        Ok(number) => printed(number, text.as_bytes()),
        Err(_) => None,
    }
}

// The number, where the text is its print.
fn printed(number: u64, text: &[u8]) -> Option<u64>
    ensures { MatchOption result (text.now ≢ decimal number) (λ n. (n ≡ number) × (n < 2 ^ 64) × (text.now ≡ decimal number)) }
{
    let mut buffer = Buffer::new();
    if is_same(buffer.format(number).as_bytes(), text) {
        Some(number)
    } else {
        None
    }
}

/// The number that the text prints; `None` exactly where it prints no number of 32 bits.
#[tactic(auto, using(crate::proofs::Decimals::decimal_below_exact))]
pub fn read_decimal_u32(text: &[u8]) -> Option<u32>
    ensures value { result ≡ decimal_below (2 ^ 32) text.now }
    ensures exact { IsReadFrom decimal (2 ^ 32) text.now result }
{
    u32::try_from(read_decimal(text)?).ok()
}

/// The number that the text prints; `None` exactly where it prints no number of 16 bits.
#[tactic(auto, using(crate::proofs::Decimals::decimal_below_exact))]
pub fn read_decimal_u16(text: &[u8]) -> Option<u16>
    ensures value { result ≡ decimal_below (2 ^ 16) text.now }
    ensures exact { IsReadFrom decimal (2 ^ 16) text.now result }
{
    u16::try_from(read_decimal(text)?).ok()
}

/// The number that the text prints; `None` exactly where it prints no number of 8 bits.
#[tactic(auto, using(crate::proofs::Decimals::decimal_below_exact))]
pub fn read_decimal_u8(text: &[u8]) -> Option<u8>
    ensures value { result ≡ decimal_below (2 ^ 8) text.now }
    ensures exact { IsReadFrom decimal (2 ^ 8) text.now result }
{
    u8::try_from(read_decimal(text)?).ok()
}

/// Appends the digits of the number, which are read as that number. Refused only for want of memory.
#[tactic(auto, using(crate::proofs::Decimals::decimal_written))]
pub fn put_decimal(out: &mut Vec<u8>, number: u64) -> Result<(), AllocError>
    ensures text { OnOk result (out.new.items ≡ out.old.items ++ decimal number) }
    ensures read { decimal_of (decimal number) ≡ Some number }
{
    let mut buffer = Buffer::new();
    out.extend_from_slice(buffer.format(number).as_bytes())?;
    Ok(())
}
