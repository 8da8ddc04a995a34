// The parts of a name, at offsets of a message: labels, and pointers behind them. (RFC 1035 4.1.4)
ghost use Rattle.std.specs.Prelude.{◌≡◌, ◌+◌, ◌-◌, ◌<◌, ◌≤◌, ◌++◌, ℕ, List, [], ◌∷◌, Ok, Err, length, slice_range, nat_lt, if◌then◌else◌, IfOk, MatchResult};
ghost use Rattle.dns_name.specs.Names.{wire_of};
ghost use Rattle.dns_pointers.specs.Reading.{byte_at, label_at, target_at};

use crate::NameFault;
use dns_name::Name;

/// The byte at an offset, Truncated past the end.
pub(crate) fn byte_in(bytes: &[u8], at: usize) -> Result<u8, NameFault>
    ensures value { result ≡ byte_at bytes.now at }
    ensures within { IfOk result (λ _. at < length bytes.now) }
{
    match bytes.get(at) {
        Some(byte) => Ok(*byte),
        None => Err(NameFault::Truncated),
    }
}

/// Puts the label of so many bytes at an offset at the end of a name.
#[tactic(auto, unfolding(crate::specs::Reading::label_at))]
pub(crate) fn push_label(
    name: &mut Name,
    bytes: &[u8],
    at: usize,
    size: usize,
) -> Result<(), NameFault>
    requires some { 1 ≤ size }
    requires most { size < 64 }
    requires within { at ≤ length bytes.now }
    ensures { MatchResult result
        (λ _. (label_at bytes.now at size (length (wire_of name.old) - 1) ≡ Ok (slice_range bytes.now at (at + size)))
        × (name.new ≡ name.old ++ slice_range bytes.now at (at + size) ∷ []) × (at + size ≤ length bytes.now))
        (λ e. label_at bytes.now at size (length (wire_of name.old) - 1) ≡ Err e) }
{
    if size > bytes.len() - at {
        return Err(NameFault::Truncated);
    }
    if name.wire_len() + size + 1 > 255 {
        return Err(NameFault::LongName);
    }
    name.push_bytes(&bytes[at..at + size]);
    Ok(())
}

/// Where the pointer at an offset aims, which is below the start of the run of labels that it ends. A first byte of the
/// reserved forms begins no pointer.
#[tactic(auto, unfolding(crate::specs::Reading::target_at))]
pub(crate) fn target(bytes: &[u8], start: usize, at: usize, first: u8) -> Result<usize, NameFault>
    requires first { byte_at bytes.now at ≡ Ok first }
    requires long { 64 ≤ first }
    ensures target { result ≡ (if nat_lt first 192 then Err NameFault.BadLabel else target_at bytes.now start at) }
    ensures below { IfOk result (λ target. target < start) }
    ensures within { IfOk result (λ _. at + 2 ≤ length bytes.now) }
{
    if first < 192 {
        return Err(NameFault::BadLabel);
    }
    let low = byte_in(bytes, at + 1)?;
    let target = usize::from(first - 192) * 256 + usize::from(low);
    if target < start {
        Ok(target)
    } else {
        Err(NameFault::BadPointer)
    }
}
