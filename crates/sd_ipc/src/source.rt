// Frames from a source, which may give its bytes in any pieces.
ghost use Rattle.std.specs.Prelude.{◌≡◌, ◌≢◌, ◌⊎◌, ◌≤◌, take, drop, length, Some, Err, IfOk, IfSome, OnErr};
ghost use Rattle.mdns_base.specs.Outside.{Rose};
ghost use Rattle.sd_ipc.specs.Reading.{word_at, whole_frame, frame_of, frame_size};
ghost use Rattle.sd_ipc.specs.Taking.{Told, IsRefused, IsOf, TakesUpTo, TakesWhole};

use crate::FrameError;
use bytes::Bytes;
use mdns_base::Source;
use std::alloc::{AllocError, Global};

/// The bytes behind the length word of the next frame; None where the source ends before a first byte.
pub(crate) fn next_frame<S: Source>(
    alloc: Global,
    input: &mut S,
) -> Result<Option<Bytes>, FrameError>
    ensures value { Told (S.left input.old) (λ bytes. IsOf result (frame_of bytes)) }
    ensures whole { Told (S.left input.old) (λ bytes. TakesWhole result (frame_size bytes) bytes (S.left input.new)) }
    ensures within { Told (S.left input.old) (λ bytes. TakesUpTo (frame_size bytes) bytes (S.left input.new)) }
    ensures fault { result ≡ Err FrameError.ReadFault → Rose (S.faults input.old) (S.faults input.new) }
    ensures quiet { result ≢ Err FrameError.ReadFault → S.faults input.new ≡ S.faults input.old }
    ensures later { S.faults input.old ≤ S.faults input.new }
{
    let word = take_up_to(alloc, input, 4)?;
    let Some(size) = word_at(&word)? else {
        return Ok(None);
    };
    let frame = take_up_to(alloc, input, size)?;
    whole_frame(size, frame)
}

// The length word that these bytes spell, at most four; None where there are none.
#[tactic(auto, unfolding(crate::specs::Reading::word_at))]
fn word_at(word: &[u8]) -> Result<Option<usize>, FrameError>
    ensures value { result ≡ word_at word.now }
    ensures most { IfOk result (λ found. IfSome found (λ size. size ≤ 65536)) }
    ensures read { result ≢ Err FrameError.ReadFault }
{
    if word.is_empty() {
        return Ok(None);
    }
    let Some(word) = word.first_chunk::<4>() else {
        return Err(FrameError::Truncated);
    };
    let size = u32::from_be_bytes(*word) as usize;
    if size < 5 || size > 65536 {
        return Err(FrameError::BadLength);
    }
    Ok(Some(size))
}

// So many bytes, Truncated where they are fewer.
fn whole_frame(size: usize, frame: Vec<u8>) -> Result<Option<Bytes>, FrameError>
    ensures of { IsOf result (whole_frame size frame.items) }
    ensures read { result ≢ Err FrameError.ReadFault }
{
    if frame.len() < size {
        return Err(FrameError::Truncated);
    }
    Ok(Some(shared(frame)?))
}

// The bytes of a vector, to be shared.
fn shared(bytes: Vec<u8>) -> Result<Bytes, AllocError>
    ensures { IfOk result (λ shared. shared ≡ bytes.items) }
{
    Ok(Bytes::from_vec(bytes)?)
}

// The next bytes, so many, and fewer only where the source ends.
fn take_up_to<S: Source>(alloc: Global, input: &mut S, wanted: usize) -> Result<Vec<u8>, FrameError>
    requires { wanted ≤ 65536 }
    ensures taken { Told (S.left input.old) (λ bytes. IfOk result (λ taken.
        (taken.items ≡ take wanted bytes) × (S.left input.new ≡ Some (drop wanted bytes)))) }
    ensures within { Told (S.left input.old) (λ bytes. TakesUpTo wanted bytes (S.left input.new)) }
    ensures most { IfOk result (λ taken. length taken.items ≤ wanted) }
    ensures refused { OnErr result (IsRefused result) }
    ensures fault { result ≡ Err FrameError.ReadFault → Rose (S.faults input.old) (S.faults input.new) }
    ensures quiet { result ≢ Err FrameError.ReadFault → S.faults input.new ≡ S.faults input.old }
    ensures later { S.faults input.old ≤ S.faults input.new }
{
    let mut taken = Vec::new(alloc);
    let mut buffer = [0u8; 4096];
    'pieces: while taken.len() < wanted {
        let room = (wanted - taken.len()).min(buffer.len());
        let piece = &mut buffer[..room];
        let count = input.read(piece)?;
        if count == 0 {
            return Ok(taken);
        }
        taken.extend_from_slice(&piece[..count])?;
    }
    Ok(taken)
}
