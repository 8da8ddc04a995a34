// Names in a message that is written: where the rest of a name was written before, a pointer to there stands for it.
// (RFC 1035 4.1.4, RFC 6762 18.14)
ghost use Rattle.std.specs.Prelude.{◌≡◌, ◌+◌, ◌<◌, ◌≤◌, ◌++◌, length, IfOk, OnOk};
ghost use Rattle.dns_name.specs.Names.{IsNameInWire};
ghost use Rattle.dns_pointers.specs.Writing.{written_name};
ghost use Rattle.dns_pointers.specs.Compressing.{IsCut};

use crate::written_names::WrittenNames;
use dns_name::Name;
use std::alloc::AllocError;
use std::marker::Model;

/// A name as it is written: labels, and the zero byte or a pointer behind them.
#[derive(Drop)]
pub struct Compressed<'a> {
    labels: &'a [u8],
    pointer: Option<u16>,
}

impl<'a> Model for Compressed<'a> {
    ghost use Rattle.std.specs.Prelude.{List, ℕ, ◌++◌, ◌<◌, ◌≤◌, ◌+◌, length, IfSome};
    ghost use Rattle.dns_pointers.specs.Compressing.{pointer_bytes};

    ghost Value = { List ℕ };

    ghost view = { λ c. c.labels.now ++ pointer_bytes c.pointer };

    ghost invariant = { λ c. IfSome c.pointer (λ offset. offset < 16384) × (length (c.labels.now ++ pointer_bytes c.pointer) ≤ 255) };
}

impl<'a> Compressed<'a> {
    /// How many bytes it takes.
    pub fn len(&self) -> usize
        ensures value { result ≡ length self.now }
        ensures most { result ≤ 255 }
    {
        match self.pointer {
            Some(_) => self.labels.len() + 2,
            None => self.labels.len(),
        }
    }

    /// Appends it to a message.
    pub fn put(&self, out: &mut Vec<u8>) -> Result<(), AllocError>
        ensures { OnOk result (out.new.items ≡ out.old.items ++ self.now) }
    {
        out.extend_from_slice(self.labels)?;
        if let Some(offset) = self.pointer {
            out.extend_from_slice(&(0xc000 + offset).to_be_bytes())?;
        }
        Ok(())
    }
}

/// A name as it is written at an offset behind these names, to which its own are added, each with the offset of its
/// first label.
pub fn compress<'a>(
    names: &mut WrittenNames<'a>,
    at: usize,
    name: &'a Name,
) -> Result<Compressed<'a>, AllocError>
    requires { at + 255 ≤ 16384 }
    ensures bytes { IfOk result (λ written. written ≡ (written_name names.old at name.now).bytes) }
    ensures names { OnOk result (names.new ≡ (written_name names.old at name.now).names) }
{
    let wire = name.as_wire();
    let mut rest = wire;
    'labels: while rest.len() > 1 {
        let place = wire.len() - rest.len();
        if let Some(offset) = names.find_or_push(rest, (at + place) as u16)? {
            return Ok(Compressed {
                labels: &wire[..place],
                pointer: Some(offset),
            });
        }
        rest = behind_label(rest);
    }
    Ok(Compressed {
        labels: wire,
        pointer: None,
    })
}

// The name behind the first label of a name in wire form.
fn behind_label(wire: &[u8]) -> &[u8]
    requires name { IsNameInWire wire.now }
    requires some { 1 < length wire.now }
    ensures { IsCut wire.now result.now }
{
    let (_, rest) = wire.split_at(1 + usize::from(wire[0]));
    rest
}
