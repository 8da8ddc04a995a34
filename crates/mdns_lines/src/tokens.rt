// The words of lines.
ghost use Rattle.std.specs.Prelude.{◌≡◌};
ghost use Rattle.std.specs.Option.{option_map};
ghost use Rattle.mdns_script.specs.Tokens.{text_of};
ghost use Rattle.mdns_lines.specs.Words.{after, name_in, label_in, host_in, signed_in, signed_below};

use arrayvec::ArrayVec;
use dns_name::{Label, Name, read_label};
use mdns_base::Host;
use number_text::{is_same, read_decimal_u16, read_decimal_u32, read_ipv4};

/// What follows a word at the front of a text.
pub(crate) fn after<'a>(text: &'a [u8], word: &[u8]) -> Option<&'a [u8]>
    ensures { option_map (λ rest. rest.now) result ≡ after word.now text.now }
{
    let (front, rest) = text.split_at_checked(word.len())?;
    if is_same(front, word) {
        Some(rest)
    } else {
        None
    }
}

/// The characters that bytes are.
pub(crate) fn characters(bytes: &[u8]) -> Option<&str>
    ensures { option_map (λ text. text.now) result ≡ text_of bytes.now }
{
    match str::from_utf8(bytes) {
        Ok(text) => Some(text),
        Err(_) => None,
    }
}

/// The name that bytes spell.
pub(crate) fn name(bytes: &[u8]) -> Option<Name>
    ensures { result ≡ name_in bytes.now }
{
    let text = characters(bytes)?;
    Name::parse_text(text).ok()
}

/// The label that bytes spell.
pub(crate) fn label(bytes: &[u8]) -> Option<Label>
    ensures { result ≡ label_in bytes.now }
{
    let label: ArrayVec<u8, 63> = read_label(bytes)?;
    Label::new(label.as_slice())
}

/// An address and a port, of two words.
#[tactic(auto, unfolding(crate::specs::Words::host_in))]
pub(crate) fn host(ip: &[u8], port: &[u8]) -> Option<Host>
    ensures { result ≡ host_in ip.now port.now }
{
    let ip = read_ipv4(ip)?;
    let port = read_decimal_u16(port)?;
    Some(Host { ip, port })
}

/// A signed number of 32 bits.
pub(crate) fn signed(text: &[u8]) -> Option<i32>
    ensures { result ≡ signed_in text.now }
{
    match after(text, b"-") {
        Some(amount) => signed_below(amount),
        None => i32::try_from(read_decimal_u32(text)?).ok(),
    }
}

// A number below zero, of which the amount is read.
fn signed_below(amount: &[u8]) -> Option<i32>
    ensures { result ≡ signed_below amount.now }
{
    let more = read_decimal_u32(amount)?.checked_sub(1)?;
    let more = i32::try_from(more).ok()?;
    Some(-1 - more)
}
