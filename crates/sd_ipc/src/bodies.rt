// The bodies of requests, written.
ghost use Rattle.std.specs.Prelude.{◌≡◌, ◌≤◌, length, IsTrue, IfOk};
ghost use Rattle.sd_ipc.specs.Frames.{request_kind, is_short};
ghost use Rattle.sd_ipc.specs.Again.{IsBody};

use crate::fields::{put_name, put_text, put_txt, put_u16};
use bytes::Bytes;
use dns_name::Name;
use sd_call::{Request, Text};
use std::alloc::{AllocError, Global};

/// The kind of a request's frame.
pub(crate) fn request_kind(request: &Request) -> u8
    ensures { result ≡ request_kind request.now }
{
    match request {
        Request::Query { .. } => 1,
        Request::Browse { .. } => 2,
        Request::Resolve { .. } => 3,
        Request::Address { .. } => 4,
        Request::Register { .. } => 5,
        Request::Update { .. } => 6,
        Request::Stop => 7,
    }
}

/// The body of a request's frame.
#[tactic(auto, using(crate::proofs::RequestsAgain::stop_body))]
pub(crate) fn request_body(alloc: Global, request: &Request) -> Result<Vec<u8>, AllocError>
    requires { IsTrue (is_short request.now) }
    ensures { IfOk result (λ body. IsBody request.now body.items) }
{
    match request {
        Request::Query { kind, name } => query_body(alloc, *kind, name),
        Request::Browse { regtype } => browse_body(alloc, regtype),
        Request::Resolve { label, regtype } => resolve_body(alloc, label, regtype),
        Request::Address { families, name } => address_body(alloc, *families, name),
        Request::Register {
            label,
            regtype,
            port,
            norename,
            txt,
        } => {
            let said = Registration {
                label,
                regtype,
                port: *port,
                norename: *norename,
                txt,
            };
            register_body(alloc, said)
        }
        Request::Update { txt } => update_body(alloc, txt),
        Request::Stop => Ok(Vec::new(alloc)),
    }
}

fn query_body(alloc: Global, kind: u16, name: &Name) -> Result<Vec<u8>, AllocError>
    ensures { IfOk result (λ body. IsBody (Request.Query kind name.now) body.items) }
{
    let mut out = Vec::new(alloc);
    put_u16(&mut out, kind)?;
    put_name(&mut out, name)?;
    Ok(out)
}

fn browse_body(alloc: Global, regtype: &Text) -> Result<Vec<u8>, AllocError>
    ensures { IfOk result (λ body. IsBody (Request.Browse regtype.now) body.items) }
{
    let mut out = Vec::new(alloc);
    put_text(&mut out, regtype)?;
    Ok(out)
}

fn resolve_body(alloc: Global, label: &Text, regtype: &Text) -> Result<Vec<u8>, AllocError>
    ensures { IfOk result (λ body. IsBody (Request.Resolve label.now regtype.now) body.items) }
{
    let mut out = Vec::new(alloc);
    put_text(&mut out, label)?;
    put_text(&mut out, regtype)?;
    Ok(out)
}

fn address_body(alloc: Global, families: u8, name: &Name) -> Result<Vec<u8>, AllocError>
    ensures { IfOk result (λ body. IsBody (Request.Address families name.now) body.items) }
{
    let mut out = Vec::new(alloc);
    out.push(families)?;
    put_name(&mut out, name)?;
    Ok(out)
}

// What a registration says.
#[derive(Clone, Copy)]
struct Registration<'a> {
    label: &'a Text,
    regtype: &'a Text,
    port: u16,
    norename: bool,
    txt: &'a Bytes,
}

fn register_body(alloc: Global, said: Registration<'_>) -> Result<Vec<u8>, AllocError>
    requires { length said.txt.now ≤ 8192 }
    ensures { IfOk result (λ body. IsBody (Request.Register said.entry.label.now said.entry.regtype.now said.entry.port said.entry.norename said.entry.txt.now) body.items) }
{
    let flags = if said.norename { 8 } else { 0 };
    let mut out = Vec::new(alloc);
    out.push(flags)?;
    put_u16(&mut out, said.port)?;
    put_text(&mut out, said.label)?;
    put_text(&mut out, said.regtype)?;
    put_txt(&mut out, said.txt)?;
    Ok(out)
}

fn update_body(alloc: Global, txt: &Bytes) -> Result<Vec<u8>, AllocError>
    requires { length txt.now ≤ 8192 }
    ensures { IfOk result (λ body. IsBody (Request.Update txt.now) body.items) }
{
    let mut out = Vec::new(alloc);
    put_txt(&mut out, txt)?;
    Ok(out)
}
