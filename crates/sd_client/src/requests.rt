// The requests that the arguments of calls make. `BadParam` is where they make none, and `NoMemory` may come.
ghost use Rattle.std.specs.Prelude.{IsTrue, IfOk};
ghost use Rattle.sd_ipc.specs.Frames.{is_short};
ghost use Rattle.sd_client.specs.Requests.{text_of, txt_of, name_of, norename_of, browse_request, resolve_request, query_request, address_request, register_request, update_request, IsMade};

use crate::ClientError;
use bytes::Bytes;
use dns_name::Name;
use sd_call::{Request, Text};
use std::alloc::Global;

/// The most bytes that TXT data have.
const MOST_TXT: usize = 8192;

/// A request to browse; `BadParam` where the service type passes 1024 bytes.
#[tactic(auto, unfolding(crate::specs::Requests::browse_request))]
pub fn browse_request(alloc: Global, regtype: &str) -> Result<Request, ClientError>
    ensures made { IsMade result (browse_request regtype.now) }
    ensures short { IfOk result (λ request. IsTrue (is_short request)) }
{
    let regtype = text_of(alloc, regtype)?;
    Ok(Request::Browse { regtype })
}

/// A request to resolve; `BadParam` where a text passes 1024 bytes.
#[tactic(auto, unfolding(crate::specs::Requests::resolve_request))]
pub fn resolve_request(alloc: Global, label: &str, regtype: &str) -> Result<Request, ClientError>
    ensures made { IsMade result (resolve_request label.now regtype.now) }
    ensures short { IfOk result (λ request. IsTrue (is_short request)) }
{
    let label = text_of(alloc, label)?;
    let regtype = text_of(alloc, regtype)?;
    Ok(Request::Resolve { label, regtype })
}

/// A request for the records of a name and a type; `BadParam` where the text spells no name.
#[tactic(auto, unfolding(crate::specs::Requests::query_request))]
pub fn query_request(name: &str, kind: u16) -> Result<Request, ClientError>
    ensures made { IsMade result (query_request name.now kind) }
    ensures short { IfOk result (λ request. IsTrue (is_short request)) }
{
    let name = name_of(name)?;
    Ok(Request::Query { kind, name })
}

/// A request for the addresses of a name; `BadParam` where the text spells no name.
#[tactic(auto, unfolding(crate::specs::Requests::address_request))]
pub fn address_request(families: u8, name: &str) -> Result<Request, ClientError>
    ensures made { IsMade result (address_request families name.now) }
    ensures short { IfOk result (λ request. IsTrue (is_short request)) }
{
    let name = name_of(name)?;
    Ok(Request::Address { families, name })
}

/// A registration of a label and a service type. `BadParam` where the flags are neither 0 nor 8, a text passes 1024 bytes,
/// or the TXT data pass 8192.
#[tactic(auto, unfolding(crate::specs::Requests::register_request))]
pub fn register_request(
    alloc: Global,
    flags: u32,
    service: (&str, &str),
    port: u16,
    txt: &Bytes,
) -> Result<Request, ClientError>
    ensures made { IsMade result (register_request flags service.entry.0.now service.entry.1.now port txt.now) }
    ensures short { IfOk result (λ request. IsTrue (is_short request)) }
{
    let norename = norename_of(flags)?;
    let label = text_of(alloc, service.0)?;
    let regtype = text_of(alloc, service.1)?;
    let txt = txt_of(txt)?;
    Ok(Request::Register {
        label,
        regtype,
        port,
        norename,
        txt,
    })
}

/// An update; `BadParam` where the TXT data pass 8192 bytes.
#[tactic(auto, unfolding(crate::specs::Requests::update_request))]
pub fn update_request(txt: &Bytes) -> Result<Request, ClientError>
    ensures made { IsMade result (update_request txt.now) }
    ensures short { IfOk result (λ request. IsTrue (is_short request)) }
{
    let txt = txt_of(txt)?;
    Ok(Request::Update { txt })
}

fn text_of(alloc: Global, text: &str) -> Result<Text, ClientError>
    ensures { IsMade result (text_of text.now) }
{
    match Text::new(alloc, text)? {
        Some(text) => Ok(text),
        None => Err(ClientError::BadParam),
    }
}

fn name_of(text: &str) -> Result<Name, ClientError>
    ensures { IsMade result (name_of text.now) }
{
    match Name::parse_text(text) {
        Ok(name) => Ok(name),
        Err(_) => Err(ClientError::BadParam),
    }
}

fn txt_of(txt: &Bytes) -> Result<Bytes, ClientError>
    ensures made { IsMade result (txt_of txt.now) }
{
    if txt.as_slice().len() > MOST_TXT {
        return Err(ClientError::BadParam);
    }
    Ok(txt.clone()?)
}

fn norename_of(flags: u32) -> Result<bool, ClientError>
    ensures { IsMade result (norename_of flags) }
{
    match flags {
        0 => Ok(false),
        8 => Ok(true),
        _ => Err(ClientError::BadParam),
    }
}
