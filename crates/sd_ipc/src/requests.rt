// The bodies of requests.
ghost use Rattle.std.specs.Prelude.{◌≡◌};
ghost use Rattle.sd_ipc.specs.Parts.{IsReadAs};
ghost use Rattle.sd_ipc.specs.Reading.{query_of, browse_of, resolve_of, address_of, norename_of, register_of, update_of, request_of};

use crate::FrameError;
use crate::parts::{byte_part, ended, name_part, text_part, txt_part, u16_part};
use sd_call::Request;
use std::alloc::Global;

/// The request of a kind that a body spells.
#[tactic(auto, unfolding(crate::specs::Reading::request_of))]
pub(crate) fn request_of(alloc: Global, kind: u8, body: &[u8]) -> Result<Request, FrameError>
    ensures { IsReadAs result (request_of kind body.now) }
{
    match kind {
        1 => query_of(body),
        2 => browse_of(alloc, body),
        3 => resolve_of(alloc, body),
        4 => address_of(body),
        5 => register_of(alloc, body),
        6 => update_of(alloc, body),
        7 => {
            ended(body)?;
            Ok(Request::Stop)
        }
        _ => Err(FrameError::BadKind),
    }
}

#[tactic(auto, unfolding(crate::specs::Reading::query_of))]
fn query_of(body: &[u8]) -> Result<Request, FrameError>
    ensures { result ≡ query_of body.now }
{
    let (kind, rest) = u16_part(body)?;
    let (name, rest) = name_part(rest)?;
    ended(rest)?;
    Ok(Request::Query { kind, name })
}

#[tactic(auto, unfolding(crate::specs::Reading::browse_of))]
fn browse_of(alloc: Global, body: &[u8]) -> Result<Request, FrameError>
    ensures { IsReadAs result (browse_of body.now) }
{
    let (regtype, rest) = text_part(alloc, body)?;
    ended(rest)?;
    Ok(Request::Browse { regtype })
}

#[tactic(auto, unfolding(crate::specs::Reading::resolve_of))]
fn resolve_of(alloc: Global, body: &[u8]) -> Result<Request, FrameError>
    ensures { IsReadAs result (resolve_of body.now) }
{
    let (label, rest) = text_part(alloc, body)?;
    let (regtype, rest) = text_part(alloc, rest)?;
    ended(rest)?;
    Ok(Request::Resolve { label, regtype })
}

#[tactic(auto, unfolding(crate::specs::Reading::address_of))]
fn address_of(body: &[u8]) -> Result<Request, FrameError>
    ensures { result ≡ address_of body.now }
{
    let (families, rest) = byte_part(body)?;
    let (name, rest) = name_part(rest)?;
    ended(rest)?;
    Ok(Request::Address { families, name })
}

// The flags are 0 or 8.
fn norename_of(flags: u8) -> Result<bool, FrameError>
    ensures { result ≡ norename_of flags }
{
    match flags {
        0 => Ok(false),
        8 => Ok(true),
        _ => Err(FrameError::BadBody),
    }
}

#[tactic(auto, unfolding(crate::specs::Reading::register_of))]
fn register_of(alloc: Global, body: &[u8]) -> Result<Request, FrameError>
    ensures { IsReadAs result (register_of body.now) }
{
    let (flags, rest) = byte_part(body)?;
    let norename = norename_of(flags)?;
    let (port, rest) = u16_part(rest)?;
    let (label, rest) = text_part(alloc, rest)?;
    let (regtype, rest) = text_part(alloc, rest)?;
    let (txt, rest) = txt_part(alloc, rest)?;
    ended(rest)?;
    Ok(Request::Register {
        label,
        regtype,
        port,
        norename,
        txt,
    })
}

#[tactic(auto, unfolding(crate::specs::Reading::update_of))]
fn update_of(alloc: Global, body: &[u8]) -> Result<Request, FrameError>
    ensures { IsReadAs result (update_of body.now) }
{
    let (txt, rest) = txt_part(alloc, body)?;
    ended(rest)?;
    Ok(Request::Update { txt })
}
