// Rows of frames on a socket.
ghost use Rattle.std.specs.Prelude.{◌≡◌};
ghost use Rattle.sd_ipc.specs.Frames.{is_short};

use bytes::Bytes;
use dns_record::Rdata;
use mdns_base::{Failed, MemSource, Source};
use row_words::{RowError, bytes_of, number, shown, text_from, word};
use sd_call::{Answer, Item, Request, Text, put_item, put_request};
use sd_ipc::*;
use std::alloc::{AllocError, Global};

// A source that gives one byte at a time.
#[derive(Drop)]
struct Slow(MemSource);

impl Source for Slow {
    ghost use Rattle.std.specs.Prelude.{Some};
    ghost use Rattle.mdns_base.specs.Memory.{source_left, source_faults};

    ghost left = { λ s. Some (source_left s.0) };

    ghost faults = { λ s. source_faults s.0 };

    fn read(&mut self, into: &mut [u8]) -> Result<usize, Failed> {
        let count = into.len().min(1);
        self.0.read(&mut into[..count])
    }
}

/// `frame request BYTES` and others: what is read of bytes, and what is written of that.
pub fn row(alloc: Global, kept: &mut MemSource, words: &[&str]) -> Result<String, RowError> {
    match words {
        ["request" | "item", ..] => read_row(alloc, words),
        ["again" | "slow", ..] => again_row(alloc, words),
        ["source", ..] | ["next", _] => source_row(alloc, kept, words),
        _ => write_row(alloc, words),
    }
}

// A request or an item of bytes, or of a kind and the body of a frame for operation 1.
fn read_row(alloc: Global, words: &[&str]) -> Result<String, RowError> {
    match words {
        [side, bytes] => next(alloc, &mut source(alloc, bytes_of(alloc, bytes)?), side),
        [side, kind, body] => next(alloc, &mut source(alloc, frame(alloc, kind, body)?), side),
        _ => Err(RowError::NotUnderstood),
    }
}

// A source of bytes that is kept, of whose reads one fails, and the next request or item of it.
fn source_row(alloc: Global, kept: &mut MemSource, words: &[&str]) -> Result<String, RowError> {
    match words {
        ["source", call, bytes] => {
            *kept = failing_source(alloc, call, bytes)?;
            word(alloc, "done")
        }
        ["next", side] => next(alloc, kept, side),
        _ => Err(RowError::NotUnderstood),
    }
}

fn failing_source(alloc: Global, call: &str, bytes: &str) -> Result<MemSource, RowError> {
    let failing = Vec::from_slice(alloc, &[number(call)?])?;
    Ok(MemSource::new(bytes_of(alloc, bytes)?, failing))
}

// What is read, and whether the same is written again: of bytes, or of a kind and a body, whose frame comes a byte at a time.
fn again_row(alloc: Global, words: &[&str]) -> Result<String, RowError> {
    match words {
        ["again", side, bytes] => at_once(alloc, side, &bytes_of(alloc, bytes)?),
        ["slow", side, kind, body] => slowly(alloc, side, &frame(alloc, kind, body)?),
        _ => Err(RowError::NotUnderstood),
    }
}

fn at_once(alloc: Global, side: &str, bytes: &[u8]) -> Result<String, RowError> {
    again(alloc, &mut source_of(alloc, bytes)?, side, bytes)
}

fn slowly(alloc: Global, side: &str, bytes: &[u8]) -> Result<String, RowError> {
    again(alloc, &mut Slow(source_of(alloc, bytes)?), side, bytes)
}

fn source_of(alloc: Global, bytes: &[u8]) -> Result<MemSource, RowError> {
    Ok(source(alloc, Vec::from_slice(alloc, bytes)?))
}

fn source(alloc: Global, bytes: Vec<u8>) -> MemSource {
    MemSource::new(bytes, Vec::new(alloc))
}

// A frame for operation 1.
fn frame(alloc: Global, kind: &str, body: &str) -> Result<Vec<u8>, RowError> {
    let body = bytes_of(alloc, body)?;
    let size = u32::try_from(body.len()).unwrap_or(100_000);
    let mut out = Vec::from_slice(alloc, &size.saturating_add(5).to_be_bytes())?;
    out.push(number(kind)?)?;
    out.extend_from_slice(&[0, 0, 0, 1])?;
    out.extend_from_slice(&body)?;
    Ok(out)
}

// Whether a request or an item is read.
fn next<S: Source>(alloc: Global, input: &mut S, side: &str) -> Result<String, RowError> {
    let is_read = match side {
        "request" => read_request(alloc, input).map(|found| found.is_some()),
        "item" => read_item(alloc, input).map(|found| found.is_some()),
        _ => return Err(RowError::NotUnderstood),
    };
    match is_read {
        Ok(true) => word(alloc, "read"),
        Ok(false) => word(alloc, "nothing"),
        Err(fault) => word(alloc, fault_word(fault)?),
    }
}

// Why no frame was read. Want of memory is passed on.
fn fault_word(fault: FrameError) -> Result<&'static str, RowError> {
    match fault {
        FrameError::BadLength => Ok("bad length"),
        FrameError::BadKind => Ok("bad kind"),
        FrameError::BadBody => Ok("bad body"),
        FrameError::Truncated => Ok("truncated"),
        FrameError::ReadFault => Ok("read fault"),
        FrameError::NoMemory => Err(RowError::NoMemory(AllocError)),
    }
}

// The text of what is read, and whether the frame that is written of it has these bytes.
fn again<S: Source>(
    alloc: Global,
    input: &mut S,
    side: &str,
    bytes: &[u8],
) -> Result<String, RowError> {
    let mut out = Vec::new(alloc);
    let written = match side {
        "request" => request_again(alloc, input, &mut out)?,
        "item" => item_again(alloc, input, &mut out)?,
        _ => return Err(RowError::NotUnderstood),
    };
    if written.as_slice() == bytes {
        out.extend_from_slice(b", written again")?;
    }
    text_from(out)
}

fn request_again<S: Source>(
    alloc: Global,
    input: &mut S,
    out: &mut Vec<u8>,
) -> Result<Bytes, RowError> {
    match read_request(alloc, input) {
        Ok(Some((op, request))) => request_written(alloc, op, &request, out),
        _ => Err(RowError::NotUnderstood),
    }
}

fn request_written(
    alloc: Global,
    op: u32,
    request: &Request,
    out: &mut Vec<u8>,
) -> Result<Bytes, RowError> {
    put_request(out, request)?;
    if !is_short(request) {
        return Err(RowError::NotUnderstood);
    }
    Ok(write_request(alloc, op, request)?)
}

// Whether a frame can hold the request's TXT data.
fn is_short(request: &Request) -> bool
    ensures { result ≡ is_short request.now }
{
    match request {
        Request::Register { txt, .. } | Request::Update { txt } => txt.as_slice().len() <= 8192,
        _ => true,
    }
}

fn item_again<S: Source>(
    alloc: Global,
    input: &mut S,
    out: &mut Vec<u8>,
) -> Result<Bytes, RowError> {
    match read_item(alloc, input) {
        Ok(Some(item)) => item_written(alloc, &item, out),
        _ => Err(RowError::NotUnderstood),
    }
}

fn item_written(alloc: Global, item: &Item, out: &mut Vec<u8>) -> Result<Bytes, RowError> {
    put_item(out, item)?;
    Ok(write_item(alloc, item)?)
}

fn write_row(alloc: Global, words: &[&str]) -> Result<String, RowError> {
    match words {
        ["browse", regtype] => browse_row(alloc, regtype),
        ["datum", len] => datum_row(alloc, number(len)?),
        ["codes"] => codes_row(alloc),
        _ => Err(RowError::NotUnderstood),
    }
}

// The frame that asks for instances of a type, for operation 1.
fn browse_row(alloc: Global, regtype: &str) -> Result<String, RowError> {
    let Some(regtype) = Text::new(alloc, regtype)? else {
        return Err(RowError::NotUnderstood);
    };
    shown(alloc, browse_frame(alloc, regtype)?.as_slice())
}

fn browse_frame(alloc: Global, regtype: Text) -> Result<Bytes, AllocError> {
    write_request(alloc, 1, &Request::Browse { regtype })
}

// How long the frame of an item with a datum of so many bytes is, and whether it is read.
fn datum_row(alloc: Global, len: usize) -> Result<String, RowError> {
    let frame = datum_frame(alloc, len)?;
    datum_read(alloc, frame.as_slice())
}

fn datum_read(alloc: Global, frame: &[u8]) -> Result<String, RowError> {
    let read = next(alloc, &mut source_of(alloc, frame)?, "item")?;
    let len = frame.len();
    Ok(format!(in alloc; "{len} bytes, {read}")?)
}

fn datum_frame(alloc: Global, len: usize) -> Result<Bytes, AllocError> {
    let mut bytes = Vec::new(alloc);
    bytes.resize(len, b'x')?;
    let rdata = Rdata::Txt(Bytes::from_vec(bytes)?);
    let answer = Answer::Datum { rdata };
    write_item(alloc, &Item::Add { op: 1, answer })
}

fn codes_row(alloc: Global) -> Result<String, RowError> {
    let (length, kind) = (FrameError::BadLength as u8, FrameError::BadKind as u8);
    let (body, end) = (FrameError::BadBody as u8, FrameError::Truncated as u8);
    let (read, memory) = (FrameError::ReadFault as u8, FrameError::NoMemory as u8);
    Ok(format!(in alloc; "{length} {kind} {body} {end} {read} {memory}")?)
}
