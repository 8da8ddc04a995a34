// Requests, answers and items as text.
ghost use Rattle.std.specs.Prelude.{◌≡◌, ◌++◌, OnOk};
ghost use Rattle.std.specs.Fmt.{signed_decimal};
ghost use Rattle.sd_call.specs.declared.request.Request.{Request};
ghost use Rattle.sd_call.specs.CallText.{request_text, families_text, norename_text, answer_text, verb_text, item_text};

use crate::{Answer, Item, Request, Text, Verb, put_label, put_type};
use dns_name::Name;
use dns_record::{put_kind, put_name, put_rdata, put_srv};
use itoa::Buffer;
use number_text::{put_decimal, put_hex};
use std::alloc::AllocError;

/// Appends the text of a request, with TXT data in hexadecimal. Refused only for want of memory.
pub fn put_request(out: &mut Vec<u8>, request: &Request) -> Result<(), AllocError>
    ensures { OnOk result (out.new.items ≡ out.old.items ++ request_text request.now) }
{
    match request {
        Request::Query { kind, name } => put_query(out, *kind, name),
        Request::Browse { regtype } => put_browse(out, regtype),
        Request::Resolve { label, regtype } => put_resolve(out, label, regtype),
        Request::Address { families, name } => put_address(out, *families, name),
        Request::Register {
            label,
            regtype,
            port,
            norename,
            txt,
        } => {
            out.extend_from_slice(b"register ")?;
            put_label(out, label.as_str().as_bytes())?;
            out.push(b' ')?;
            put_type(out, regtype.as_str().as_bytes())?;
            out.push(b' ')?;
            put_decimal(out, u64::from(*port))?;
            out.push(b' ')?;
            put_norename(out, *norename)?;
            out.push(b' ')?;
            put_hex(out, txt.as_slice())?;
            Ok(())
        }
        Request::Update { txt } => {
            out.extend_from_slice(b"update ")?;
            put_hex(out, txt.as_slice())?;
            Ok(())
        }
        Request::Stop => {
            out.extend_from_slice(b"stop")?;
            Ok(())
        }
    }
}

fn put_query(out: &mut Vec<u8>, kind: u16, name: &Name) -> Result<(), AllocError>
    ensures { OnOk result (out.new.items ≡ out.old.items ++ request_text (Request.Query kind name.now)) }
{
    out.extend_from_slice(b"query ")?;
    put_kind(out, kind)?;
    out.push(b' ')?;
    put_name(out, name)?;
    Ok(())
}

fn put_browse(out: &mut Vec<u8>, regtype: &Text) -> Result<(), AllocError>
    ensures { OnOk result (out.new.items ≡ out.old.items ++ request_text (Request.Browse regtype.now)) }
{
    out.extend_from_slice(b"browse ")?;
    put_type(out, regtype.as_str().as_bytes())?;
    Ok(())
}

fn put_resolve(out: &mut Vec<u8>, label: &Text, regtype: &Text) -> Result<(), AllocError>
    ensures { OnOk result (out.new.items ≡ out.old.items ++ request_text (Request.Resolve label.now regtype.now)) }
{
    out.extend_from_slice(b"resolve ")?;
    put_label(out, label.as_str().as_bytes())?;
    out.push(b' ')?;
    put_type(out, regtype.as_str().as_bytes())?;
    Ok(())
}

fn put_address(out: &mut Vec<u8>, families: u8, name: &Name) -> Result<(), AllocError>
    ensures { OnOk result (out.new.items ≡ out.old.items ++ request_text (Request.Address families name.now)) }
{
    out.extend_from_slice(b"address ")?;
    put_families(out, families)?;
    out.push(b' ')?;
    put_name(out, name)?;
    Ok(())
}

fn put_families(out: &mut Vec<u8>, families: u8) -> Result<(), AllocError>
    ensures { OnOk result (out.new.items ≡ out.old.items ++ families_text families) }
{
    match families {
        1 => {
            out.extend_from_slice(b"v4")?;
            Ok(())
        }
        2 => {
            out.extend_from_slice(b"v6")?;
            Ok(())
        }
        3 => {
            out.extend_from_slice(b"both")?;
            Ok(())
        }
        _ => {
            put_decimal(out, u64::from(families))?;
            Ok(())
        }
    }
}

fn put_norename(out: &mut Vec<u8>, norename: bool) -> Result<(), AllocError>
    ensures { OnOk result (out.new.items ≡ out.old.items ++ norename_text norename) }
{
    if norename {
        out.extend_from_slice(b"norename")?;
        Ok(())
    } else {
        out.extend_from_slice(b"auto")?;
        Ok(())
    }
}

/// Appends the text of an answer. Refused only for want of memory.
pub fn put_answer(out: &mut Vec<u8>, answer: &Answer) -> Result<(), AllocError>
    ensures { OnOk result (out.new.items ≡ out.old.items ++ answer_text answer.now) }
{
    match answer {
        Answer::Datum { rdata } => {
            put_kind(out, rdata.kind())?;
            out.push(b' ')?;
            put_rdata(out, rdata)?;
            Ok(())
        }
        Answer::Found { instance } => {
            out.extend_from_slice(b"found ")?;
            put_name(out, instance)?;
            Ok(())
        }
        Answer::Resolved {
            priority,
            weight,
            port,
            target,
            txt,
        } => {
            out.extend_from_slice(b"resolved ")?;
            put_srv(out, *priority, *weight, *port, target)?;
            out.push(b' ')?;
            put_hex(out, txt.as_slice())?;
            Ok(())
        }
        Answer::Named { full } => {
            out.extend_from_slice(b"named ")?;
            put_name(out, full)?;
            Ok(())
        }
        Answer::Conflict => {
            out.extend_from_slice(b"conflict")?;
            Ok(())
        }
    }
}

/// Appends the text of an item. Refused only for want of memory.
pub fn put_item(out: &mut Vec<u8>, item: &Item) -> Result<(), AllocError>
    ensures { OnOk result (out.new.items ≡ out.old.items ++ item_text item.now) }
{
    match item {
        Item::Reply { op, verb, code } => {
            out.extend_from_slice(b"reply ")?;
            put_decimal(out, u64::from(*op))?;
            out.push(b' ')?;
            put_verb(out, *verb)?;
            out.push(b' ')?;
            put_code(out, *code)?;
            Ok(())
        }
        Item::Add { op, answer } => {
            out.extend_from_slice(b"add ")?;
            put_decimal(out, u64::from(*op))?;
            out.push(b' ')?;
            put_answer(out, answer)?;
            Ok(())
        }
        Item::Remove { op, answer } => {
            out.extend_from_slice(b"rem ")?;
            put_decimal(out, u64::from(*op))?;
            out.push(b' ')?;
            put_answer(out, answer)?;
            Ok(())
        }
    }
}

fn put_verb(out: &mut Vec<u8>, verb: Verb) -> Result<(), AllocError>
    ensures { OnOk result (out.new.items ≡ out.old.items ++ verb_text verb) }
{
    match verb {
        Verb::Start => {
            out.extend_from_slice(b"start")?;
            Ok(())
        }
        Verb::Update => {
            out.extend_from_slice(b"update")?;
            Ok(())
        }
        Verb::Stop => {
            out.extend_from_slice(b"stop")?;
            Ok(())
        }
    }
}

/// Appends a code. Refused only for want of memory.
pub fn put_code(out: &mut Vec<u8>, code: i32) -> Result<(), AllocError>
    ensures { OnOk result (out.new.items ≡ out.old.items ++ signed_decimal code) }
{
    let mut buffer = Buffer::new();
    out.extend_from_slice(buffer.format(code).as_bytes())?;
    Ok(())
}
