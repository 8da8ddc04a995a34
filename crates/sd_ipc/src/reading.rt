// Requests and items from a source.
ghost use Rattle.std.specs.Prelude.{◌≡◌, ◌≢◌, ◌≤◌, Err};
ghost use Rattle.mdns_base.specs.Outside.{Rose};
ghost use Rattle.sd_ipc.specs.Parts.{IsReadAs};
ghost use Rattle.sd_ipc.specs.Reading.{frame_size, framed_request, framed_item, request_in, item_in};
ghost use Rattle.sd_ipc.specs.Taking.{Told, IsOf, TakesUpTo, TakesWhole};

use crate::FrameError;
use crate::items::item_of;
use crate::parts::{byte_part, u32_part};
use crate::requests::request_of;
use crate::source::next_frame;
use mdns_base::Source;
use sd_call::{Item, Request};
use std::alloc::Global;

/// The next request, with the number of its operation; None exactly where the source ends before a first byte. The
/// source may give its bytes in any pieces. At most 65,540 bytes are taken, and none of the next frame.
///
/// The errors have the order of the tests: `Truncated` where the source ends within the length word, `BadLength`,
/// `Truncated` where it ends within the bytes behind, `BadKind`, `BadBody`. `ReadFault` exactly where the source failed
/// in this call. `NoMemory` may come at any bytes; what was taken stays taken.
#[tactic(auto, using(crate::proofs::Sources::frame_most))]
pub fn read_request<S: Source>(
    alloc: Global,
    input: &mut S,
) -> Result<Option<(u32, Request)>, FrameError>
    ensures value { Told (S.left input.old) (λ bytes. IsOf result (request_in bytes)) }
    ensures whole { Told (S.left input.old) (λ bytes. TakesWhole result (frame_size bytes) bytes (S.left input.new)) }
    ensures within { Told (S.left input.old) (λ bytes. TakesUpTo (frame_size bytes) bytes (S.left input.new)) }
    ensures most { Told (S.left input.old) (λ bytes. frame_size bytes ≤ 65540) }
    ensures fault { result ≡ Err FrameError.ReadFault → Rose (S.faults input.old) (S.faults input.new) }
    ensures quiet { result ≢ Err FrameError.ReadFault → S.faults input.new ≡ S.faults input.old }
    ensures later { S.faults input.old ≤ S.faults input.new }
{
    let Some(frame) = next_frame(alloc, input)? else {
        return Ok(None);
    };
    let found = framed_request(alloc, frame.as_slice())?;
    Ok(Some(found))
}

/// The next item; None exactly where the source ends before a first byte. All else as in `read_request`.
#[tactic(auto, using(crate::proofs::Sources::frame_most))]
pub fn read_item<S: Source>(alloc: Global, input: &mut S) -> Result<Option<Item>, FrameError>
    ensures value { Told (S.left input.old) (λ bytes. IsOf result (item_in bytes)) }
    ensures whole { Told (S.left input.old) (λ bytes. TakesWhole result (frame_size bytes) bytes (S.left input.new)) }
    ensures within { Told (S.left input.old) (λ bytes. TakesUpTo (frame_size bytes) bytes (S.left input.new)) }
    ensures most { Told (S.left input.old) (λ bytes. frame_size bytes ≤ 65540) }
    ensures fault { result ≡ Err FrameError.ReadFault → Rose (S.faults input.old) (S.faults input.new) }
    ensures quiet { result ≢ Err FrameError.ReadFault → S.faults input.new ≡ S.faults input.old }
    ensures later { S.faults input.old ≤ S.faults input.new }
{
    let Some(frame) = next_frame(alloc, input)? else {
        return Ok(None);
    };
    let found = framed_item(alloc, frame.as_slice())?;
    Ok(Some(found))
}

// The operation and the request of a frame.
#[tactic(auto, unfolding(crate::specs::Reading::framed_request))]
fn framed_request(alloc: Global, frame: &[u8]) -> Result<(u32, Request), FrameError>
    ensures { IsReadAs result (framed_request frame.now) }
{
    let (kind, rest) = byte_part(frame)?;
    let (op, body) = u32_part(rest)?;
    Ok((op, request_of(alloc, kind, body)?))
}

// The item of a frame.
#[tactic(auto, unfolding(crate::specs::Reading::framed_item))]
fn framed_item(alloc: Global, frame: &[u8]) -> Result<Item, FrameError>
    ensures { IsReadAs result (framed_item frame.now) }
{
    let (kind, rest) = byte_part(frame)?;
    let (op, body) = u32_part(rest)?;
    item_of(alloc, kind, op, body)
}
