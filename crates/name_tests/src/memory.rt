// Rows of a source and a sink in memory, of whose calls one fails.

use mdns_base::{MemSink, MemSource, Sink, Source};
use row_words::{RowError, Told, first_word, two_parts};
use std::alloc::Global;

/// `source ..`: a source that is made and read from, two bytes at a time.
pub fn source_row(told: &mut Told, source: &mut MemSource, row: &str) -> Result<(), RowError> {
    match first_word(row) {
        ("new", rest) => {
            *source = source_of(told.alloc, rest)?;
            told.put("done")
        }
        ("read", _) => put_read(told, source),
        _ => Err(RowError::NotUnderstood),
    }
}

/// `sink ..`: a sink that is made, written to and looked at.
pub fn sink_row(told: &mut Told, sink: &mut MemSink, row: &str) -> Result<(), RowError> {
    match first_word(row) {
        ("new", call) => *sink = MemSink::new(told.alloc, failing(told.alloc, call)?),
        ("put", text) => return told.put(put_word(sink, text)),
        ("finish", _) => sink.finish(),
        ("show", _) => return told.put_hex(sink.bytes()),
        _ => return Err(RowError::NotUnderstood),
    }
    told.put("done")
}

// `new TEXT CALL`: a source of these bytes whose call with this number fails.
fn source_of(alloc: Global, rest: &str) -> Result<MemSource, RowError> {
    let (text, call) = two_parts(rest)?;
    let bytes = Vec::from_slice(alloc, text.as_bytes())?;
    Ok(MemSource::new(bytes, failing(alloc, call)?))
}

// The list of one call that fails.
fn failing(alloc: Global, call: &str) -> Result<Vec<u64>, RowError> {
    Ok(Vec::from_slice(alloc, &[call.parse::<u64>()?])?)
}

// `read`: how many bytes came, and which.
fn put_read(told: &mut Told, source: &mut MemSource) -> Result<(), RowError> {
    let mut buffer = [0; 2];
    let Ok(count) = source.read(&mut buffer) else {
        return told.put("failed");
    };
    told.put_decimal(count as u64)?;
    told.put(", ")?;
    told.put_hex(buffer.get(..count).unwrap_or(&[]))
}

// `put TEXT`
fn put_word(sink: &mut MemSink, text: &str) -> &'static str {
    match sink.put(text.as_bytes()) {
        Ok(()) => "done",
        Err(_) => "failed",
    }
}
