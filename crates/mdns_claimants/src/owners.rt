// Bits of names, by which records are told that surely don't have one.
ghost use Rattle.std.specs.Prelude.{List, true, ◌++◌, ◌<◌, ◌≡◌};
ghost use Rattle.dns_record.specs.declared.record.Rr.{Rr};
ghost use Rattle.mdns_claimants.specs.Bits.{bit_of, have_bits, place_from, place_of};

use dns_name::Name;
use dns_record::Rr;

/// The bit of a name, one of 64, told by its first label, case aside.
pub fn bit_of(name: &Name) -> u64
    ensures { result ≡ bit_of name.now }
{
    1 << place_of(name)
}

fn place_of(name: &Name) -> u32
    ensures place { result ≡ place_of name.now }
    ensures small { result < 64 }
{
    match name.label(0) {
        Some(label) => place_in(label),
        None => 0,
    }
}

fn place_in(label: &[u8]) -> u32
    ensures place { result ≡ place_from 0 label.now }
    ensures small { result < 64 }
{
    let mut place = 0;
    for byte in label {
        // The two cases of a letter are 32 apart.
        place = (place * 5 + u32::from(*byte % 32)) % 64;
    }
    place
}

/// Bits, and those of the owners of records.
pub(crate) fn with_bits(bits: u64, rrs: &[Rr]) -> u64
    ensures { (some : List Rr) → have_bits bits some ≡ true → have_bits result (some ++ rrs.now) ≡ true }
{
    let mut all = bits;
    for rr in rrs {
        all |= bit_of(&rr.owner);
    }
    all
}
