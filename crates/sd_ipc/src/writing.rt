// Requests and items written as frames.
ghost use Rattle.std.specs.Prelude.{◌≡◌, ◌+◌, ◌≤◌, ℕ, List, ◌++◌, length, Ok, Some, IsTrue, IfOk};
ghost use Rattle.sd_call.specs.Answers.{frame_len};
ghost use Rattle.sd_ipc.specs.Frames.{frame_bytes, request_frame, item_frame, is_short};
ghost use Rattle.sd_ipc.specs.Again.{has_item_data};
ghost use Rattle.sd_ipc.specs.Reading.{frame_size, request_in, item_in};

use crate::bodies::{request_body, request_kind};
use crate::item_bodies::{item_body, item_kind, item_op};
use bytes::Bytes;
use sd_call::{Item, Request};
use std::alloc::{AllocError, Global};

/// The frame of a request for an operation. Refused only for want of memory. Its TXT data are at most 8192 bytes; its
/// texts are at most 1024 bytes of UTF-8 as all texts are.
pub fn write_request(alloc: Global, op: u32, request: &Request) -> Result<Bytes, AllocError>
    requires { IsTrue (is_short request.now) }
    ensures frame { IfOk result (λ frame. frame ≡ request_frame op request.now) }
    ensures again { IfOk result (λ frame. (more : List ℕ) → request_in (frame ++ more) ≡ Ok (Some (op, request.now))) }
    ensures size { IfOk result (λ frame. (more : List ℕ) → frame_size (frame ++ more) ≡ length frame) }
{
    let body = request_body(alloc, request)?;
    framed(alloc, request_kind(request), op, body.as_slice())
}

/// The frame of an item. Refused only for want of memory. What is written is read again, whatever follows, where it has
/// at most 65,536 bytes behind its length word and its datum, if it has one, is the data of a record.
pub fn write_item(alloc: Global, item: &Item) -> Result<Bytes, AllocError>
    ensures frame { IfOk result (λ frame. frame ≡ item_frame item.now) }
    ensures length { IfOk result (λ frame. length frame ≡ frame_len item.now) }
    ensures again { IfOk result (λ frame. frame_len item.now ≤ 65540 → IsTrue (has_item_data item.now)
        → (more : List ℕ) → item_in (frame ++ more) ≡ Ok (Some item.now)) }
    ensures size { IfOk result (λ frame. frame_len item.now ≤ 65540 → (more : List ℕ) → frame_size (frame ++ more) ≡ length frame) }
{
    let body = item_body(alloc, item)?;
    framed(alloc, item_kind(item), item_op(item), body.as_slice())
}

// A frame with its length word. A length that no word can have is written as the greatest.
fn framed(alloc: Global, kind: u8, op: u32, body: &[u8]) -> Result<Bytes, AllocError>
    ensures { IfOk result (λ frame. frame ≡ frame_bytes kind op body.now) }
{
    let size = body.len().saturating_add(5).min(0xffff_ffff) as u32;
    let mut out = Vec::new(alloc);
    out.extend_from_slice(&size.to_be_bytes())?;
    out.push(kind)?;
    out.extend_from_slice(&op.to_be_bytes())?;
    out.extend_from_slice(body)?;
    Ok(Bytes::from_vec(out)?)
}
