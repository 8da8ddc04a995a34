// Answers in the bodies of items.
ghost use Rattle.std.specs.Prelude.{◌≡◌};
ghost use Rattle.sd_ipc.specs.Parts.{IsReadAs};
ghost use Rattle.sd_ipc.specs.Reading.{datum_of, resolved_of, tagged_of, answer_of};

use crate::FrameError;
use crate::data::{last_name_of, rdata_of};
use crate::parts::{byte_part, ended, name_part, u16_part};
use bytes::Bytes;
use sd_call::Answer;
use std::alloc::Global;

/// The answer that a body spells: a tag, and its parts.
#[tactic(auto, unfolding(crate::specs::Reading::answer_of))]
pub(crate) fn answer_of(alloc: Global, body: &[u8]) -> Result<Answer, FrameError>
    ensures { IsReadAs result (answer_of body.now) }
{
    let (tag, rest) = byte_part(body)?;
    tagged_of(alloc, tag, rest)
}

#[tactic(auto, unfolding(crate::specs::Reading::tagged_of))]
fn tagged_of(alloc: Global, tag: u8, bytes: &[u8]) -> Result<Answer, FrameError>
    ensures { IsReadAs result (tagged_of tag bytes.now) }
{
    match tag {
        1 => datum_of(alloc, bytes),
        2 => Ok(Answer::Found {
            instance: last_name_of(bytes)?,
        }),
        3 => resolved_of(alloc, bytes),
        4 => Ok(Answer::Named {
            full: last_name_of(bytes)?,
        }),
        5 => {
            ended(bytes)?;
            Ok(Answer::Conflict)
        }
        _ => Err(FrameError::BadBody),
    }
}

#[tactic(auto, unfolding(crate::specs::Reading::datum_of))]
fn datum_of(alloc: Global, bytes: &[u8]) -> Result<Answer, FrameError>
    ensures { IsReadAs result (datum_of bytes.now) }
{
    let (kind, rest) = u16_part(bytes)?;
    let rdata = rdata_of(alloc, kind, rest)?;
    Ok(Answer::Datum { rdata })
}

#[tactic(auto, unfolding(crate::specs::Reading::resolved_of))]
fn resolved_of(alloc: Global, bytes: &[u8]) -> Result<Answer, FrameError>
    ensures { IsReadAs result (resolved_of bytes.now) }
{
    let (priority, rest) = u16_part(bytes)?;
    let (weight, rest) = u16_part(rest)?;
    let (port, rest) = u16_part(rest)?;
    let (target, rest) = name_part(rest)?;
    Ok(Answer::Resolved {
        priority,
        weight,
        port,
        target,
        txt: Bytes::copy_from_slice(alloc, rest)?,
    })
}
