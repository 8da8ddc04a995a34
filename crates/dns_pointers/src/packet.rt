// A message that is read: names and numbers, at offsets of its bytes.
ghost use Rattle.std.specs.Prelude.{◌≡◌, ◌+◌, ◌<◌, ◌≤◌, length, IfOk};
ghost use Rattle.dns_pointers.specs.Reading.{name_at, u16_in, u32_in, u128_in};

use crate::NameFault;
use crate::chains::Chains;
use crate::labels::{byte_in, push_label, target};
use dns_name::Name;
use std::alloc::{AllocError, Global};
use std::marker::Model;

/// The bytes of a message, of which there are at most 8972, and where the chains of pointers in them end.
#[derive(Drop)]
pub struct Packet<'a> {
    bytes: &'a [u8],
    chains: Chains,
}

impl<'a> Model for Packet<'a> {
    ghost use Rattle.std.specs.Prelude.{List, ℕ, ◌≤◌, length};
    ghost use Rattle.dns_pointers.specs.Chains.{AreEnds};

    ghost Value = { List ℕ };

    ghost view = { λ p. p.bytes.now };

    ghost invariant = { λ p. (length p.bytes.now ≤ 8972) × AreEnds p.bytes.now p.chains };
}

impl<'a> Packet<'a> {
    /// A message of these bytes. The error is want of memory.
    pub fn of(alloc: Global, bytes: &'a [u8]) -> Result<Self, AllocError>
        requires { length bytes.now ≤ 8972 }
        ensures { IfOk result (λ packet. packet ≡ bytes.now) }
    {
        let chains = Chains::of(alloc, bytes)?;
        Ok(Packet { bytes, chains })
    }

    /// The bytes.
    pub fn bytes(&self) -> &'a [u8]
        ensures bytes { result.now ≡ self.now }
        ensures short { length self.now ≤ 8972 }
    {
        self.bytes
    }

    /// The number of two bytes at an offset. The byte of the greatest worth stands first. (RFC 1035 2.3.2)
    #[tactic(auto, using(crate::proofs::Chunks::range_chunk))]
    pub fn u16_at(&self, at: usize) -> u16
        requires { at + 2 ≤ length self.now }
        ensures { result ≡ u16_in self.now at }
    {
        let (number, _) = self.bytes[at..].split_first_chunk::<2>().unwrap();
        u16::from_be_bytes(*number)
    }

    /// The number of four bytes at an offset.
    #[tactic(auto, using(crate::proofs::Chunks::range_chunk))]
    pub fn u32_at(&self, at: usize) -> u32
        requires { at + 4 ≤ length self.now }
        ensures { result ≡ u32_in self.now at }
    {
        let (number, _) = self.bytes[at..].split_first_chunk::<4>().unwrap();
        u32::from_be_bytes(*number)
    }

    /// The number of 16 bytes at an offset.
    pub fn u128_at(&self, at: usize) -> u128
        requires { at + 16 ≤ length self.now }
        ensures { result ≡ u128_in self.now at }
    {
        let (number, _) = self.bytes[at..].split_first_chunk::<16>().unwrap();
        u128::from_be_bytes(*number)
    }

    /// The name at an offset, and the offset behind it; of a chain of pointers only the end is looked at, where it is
    /// kept. It takes no memory.
    pub fn name_at(&self, at: usize) -> Result<(Name, usize), NameFault>
        ensures name { result ≡ name_at self.now at }
        ensures within { IfOk result (λ found. found.1 ≤ length self.now) }
    {
        let mut name = Name::root();
        let mut end = None;
        let mut start = at;
        let mut place = at;
        // Each turn takes a label, of which a name has at most 127, or goes to a lesser start.
        'turns: for turn in 0..self.bytes.len() + 129 {
            let first = byte_in(self.bytes, place)?;
            if first == 0 {
                return Ok((name, end.unwrap_or(place + 1)));
            }
            if first < 64 {
                push_label(&mut name, self.bytes, place + 1, usize::from(first))?;
                place += 1 + usize::from(first);
            } else {
                start = self.chains.end(target(self.bytes, start, place, first)?);
                end = end.or(Some(place + 2));
                place = start;
            }
        }
        Err(NameFault::Truncated)
    }
}
