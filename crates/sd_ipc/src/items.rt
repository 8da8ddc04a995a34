// The bodies of items.
ghost use Rattle.std.specs.Prelude.{◌≡◌};
ghost use Rattle.sd_ipc.specs.Parts.{IsReadAs};
ghost use Rattle.sd_ipc.specs.Reading.{verb_of, reply_of, item_of};

use crate::FrameError;
use crate::answers::answer_of;
use crate::parts::{byte_part, ended, u32_part};
use sd_call::{Item, Verb};
use std::alloc::Global;

/// The item of a kind and an operation that a body spells.
#[tactic(auto, unfolding(crate::specs::Reading::item_of))]
pub(crate) fn item_of(alloc: Global, kind: u8, op: u32, body: &[u8]) -> Result<Item, FrameError>
    ensures { IsReadAs result (item_of kind op body.now) }
{
    match kind {
        64 => reply_of(op, body),
        65 => Ok(Item::Add {
            op,
            answer: answer_of(alloc, body)?,
        }),
        66 => Ok(Item::Remove {
            op,
            answer: answer_of(alloc, body)?,
        }),
        _ => Err(FrameError::BadKind),
    }
}

// A verb, and a code in two's complement.
#[tactic(auto, unfolding(crate::specs::Reading::reply_of))]
fn reply_of(op: u32, body: &[u8]) -> Result<Item, FrameError>
    ensures { result ≡ reply_of op body.now }
{
    let (number, rest) = byte_part(body)?;
    let verb = verb_of(number)?;
    let (code, rest) = u32_part(rest)?;
    ended(rest)?;
    Ok(Item::Reply {
        op,
        verb,
        code: code.cast_signed(),
    })
}

fn verb_of(number: u8) -> Result<Verb, FrameError>
    ensures { result ≡ verb_of number }
{
    match number {
        1 => Ok(Verb::Start),
        2 => Ok(Verb::Update),
        3 => Ok(Verb::Stop),
        _ => Err(FrameError::BadBody),
    }
}
