// The bodies of items, written.
ghost use Rattle.std.specs.Prelude.{◌≡◌, IfOk};
ghost use Rattle.sd_ipc.specs.Frames.{item_kind, item_op, verb_number};
ghost use Rattle.sd_ipc.specs.Again.{IsAnswer, IsItemBody};

use crate::data_bytes::data_bytes;
use crate::fields::{put_name, put_u16};
use bytes::Bytes;
use dns_name::Name;
use dns_record::Rdata;
use sd_call::{Answer, Item, Verb};
use std::alloc::{AllocError, Global};

/// The kind of an item's frame.
pub(crate) fn item_kind(item: &Item) -> u8
    ensures { result ≡ item_kind item.now }
{
    match item {
        Item::Reply { .. } => 64,
        Item::Add { .. } => 65,
        Item::Remove { .. } => 66,
    }
}

/// The operation of an item.
pub(crate) fn item_op(item: &Item) -> u32
    ensures { result ≡ item_op item.now }
{
    match item {
        Item::Reply { op, .. } | Item::Add { op, .. } | Item::Remove { op, .. } => *op,
    }
}

/// The body of an item's frame.
#[tactic(auto, using(crate::proofs::ItemsAgain::add_body, crate::proofs::ItemsAgain::remove_body))]
pub(crate) fn item_body(alloc: Global, item: &Item) -> Result<Vec<u8>, AllocError>
    ensures { IfOk result (λ body. IsItemBody item.now body.items) }
{
    match item {
        Item::Reply { op, verb, code } => reply_body(alloc, *op, *verb, *code),
        Item::Add { answer, .. } => answer_body(alloc, answer),
        Item::Remove { answer, .. } => answer_body(alloc, answer),
    }
}

fn reply_body(alloc: Global, op: u32, verb: Verb, code: i32) -> Result<Vec<u8>, AllocError>
    ensures { IfOk result (λ body. IsItemBody (Item.Reply op verb code) body.items) }
{
    let mut out = Vec::new(alloc);
    out.push(verb_number(verb))?;
    out.extend_from_slice(&code.to_be_bytes())?;
    Ok(out)
}

fn verb_number(verb: Verb) -> u8
    ensures { result ≡ verb_number verb }
{
    match verb {
        Verb::Start => 1,
        Verb::Update => 2,
        Verb::Stop => 3,
    }
}

// An answer: its tag, and its parts.
fn answer_body(alloc: Global, answer: &Answer) -> Result<Vec<u8>, AllocError>
    ensures { IfOk result (λ body. IsAnswer answer.now body.items) }
{
    match answer {
        Answer::Datum { rdata } => datum_body(alloc, rdata),
        Answer::Found { instance } => found_body(alloc, instance),
        Answer::Resolved {
            priority,
            weight,
            port,
            target,
            txt,
        } => {
            let place = Place {
                priority: *priority,
                weight: *weight,
                port: *port,
                target,
            };
            resolved_body(alloc, place, txt)
        }
        Answer::Named { full } => named_body(alloc, full),
        Answer::Conflict => conflict_body(alloc),
    }
}

fn datum_body(alloc: Global, rdata: &Rdata) -> Result<Vec<u8>, AllocError>
    ensures { IfOk result (λ body. IsAnswer (Answer.Datum rdata.now) body.items) }
{
    let data = data_bytes(alloc, rdata)?;
    let mut out = Vec::new(alloc);
    out.push(1)?;
    put_u16(&mut out, rdata.kind())?;
    out.extend_from_slice(&data)?;
    Ok(out)
}

fn found_body(alloc: Global, instance: &Name) -> Result<Vec<u8>, AllocError>
    ensures { IfOk result (λ body. IsAnswer (Answer.Found instance.now) body.items) }
{
    let mut out = Vec::new(alloc);
    out.push(2)?;
    put_name(&mut out, instance)?;
    Ok(out)
}

// Where a service is reached.
#[derive(Clone, Copy)]
struct Place<'a> {
    priority: u16,
    weight: u16,
    port: u16,
    target: &'a Name,
}

fn resolved_body(alloc: Global, place: Place<'_>, txt: &Bytes) -> Result<Vec<u8>, AllocError>
    ensures { IfOk result (λ body. IsAnswer (Answer.Resolved place.entry.priority place.entry.weight place.entry.port place.entry.target.now txt.now) body.items) }
{
    let mut out = Vec::new(alloc);
    out.push(3)?;
    put_u16(&mut out, place.priority)?;
    put_u16(&mut out, place.weight)?;
    put_u16(&mut out, place.port)?;
    put_name(&mut out, place.target)?;
    out.extend_from_slice(txt.as_slice())?;
    Ok(out)
}

fn named_body(alloc: Global, full: &Name) -> Result<Vec<u8>, AllocError>
    ensures { IfOk result (λ body. IsAnswer (Answer.Named full.now) body.items) }
{
    let mut out = Vec::new(alloc);
    out.push(4)?;
    put_name(&mut out, full)?;
    Ok(out)
}

fn conflict_body(alloc: Global) -> Result<Vec<u8>, AllocError>
    ensures { IfOk result (λ body. IsAnswer Answer.Conflict body.items) }
{
    let mut out = Vec::new(alloc);
    out.push(5)?;
    Ok(out)
}
