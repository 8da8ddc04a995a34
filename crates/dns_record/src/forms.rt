// The form of data of the types that are kept as bytes.
ghost use Rattle.std.specs.Prelude.{◌≡◌};
ghost use Rattle.std.specs.Option.{option_map, option_and_then};
ghost use Rattle.dns_record.specs.Records.{after_name, leaves, has_raw_form, is_typed, is_rdata};

use crate::Rdata;

impl Rdata {
    /// Whether these are the data of a record: a `Raw` isn't of OPT or of a type that has a variant of its own, and NS,
    /// MX and SOA have their form. All other variants are. (RFC 1035 3.3.9, 3.3.11, 3.3.13)
    #[tactic(auto, unfolding(crate::specs::Records::is_rdata))]
    pub fn is_valid(&self) -> bool
        ensures { result ≡ is_rdata self.now }
    {
        match self {
            Rdata::Raw { kind, bytes } => !is_typed(*kind) && has_raw_form(*kind, bytes.as_slice()),
            _ => true,
        }
    }
}

// Whether a type has a variant of its own, or is OPT.
fn is_typed(kind: u16) -> bool
    ensures { result ≡ is_typed kind }
{
    matches!(kind, 1 | 5 | 12 | 16 | 28 | 33 | 41 | 47)
}

fn has_raw_form(kind: u16, bytes: &[u8]) -> bool
    ensures { result ≡ has_raw_form kind bytes.now }
{
    match kind {
        2 => leaves(after_name(bytes), 0),
        15 => bytes.len() >= 2 && leaves(after_name(&bytes[2..]), 0),
        6 => leaves(after_two_names(bytes), 20),
        _ => true,
    }
}

// Whether so many bytes are left.
fn leaves(rest: Option<&[u8]>, count: usize) -> bool
    ensures { result ≡ leaves count (option_map (λ rest. rest.now) rest.entry) }
{
    match rest {
        Some(rest) => rest.len() == count,
        None => false,
    }
}

fn after_two_names(bytes: &[u8]) -> Option<&[u8]>
    ensures { option_map (λ rest. rest.now) result ≡ option_and_then after_name (after_name bytes.now) }
{
    after_name(after_name(bytes)?)
}

// What follows the name with which the bytes begin in wire form, if they begin with one.
fn after_name(bytes: &[u8]) -> Option<&[u8]>
    ensures { option_map (λ rest. rest.now) result ≡ after_name bytes.now }
{
    let mut rest = bytes;
    while let Some((size, after)) = rest.split_first() {
        let size = usize::from(*size);
        if size == 0 {
            return Some(after);
        }
        if size > 63 || size > after.len() || bytes.len() - after.len() + size > 254 {
            return None;
        }
        rest = &after[size..];
    }
    None
}
