// The messages that count as heard. (RFC 6762 6 and 18)
ghost use Rattle.std.specs.Prelude.{◌≡◌, ◌≢◌, None, Some, Ok, Err, ◌++◌, [], IfOk, if◌then◌else◌};
ghost use Rattle.std.specs.Option.{option_map};
ghost use Rattle.dns_message.specs.Reading.{spelled};
ghost use Rattle.mdns_history.specs.Hearings.{is_ignored, is_refusal, counted, brought, heard_in, counted_records, query_of};
ghost use Rattle.mdns_history.specs.History.{has_mark};

use dns_message::{Message, MessageError, Rrs, read};
use mdns_base::{Host, MDNS_PORT};
use mdns_history::{Entry, Event, Mark};
use std::alloc::{AllocError, Global};
use std::marker::Model;

/// A message and who sent it.
#[derive(Drop)]
pub struct HeardMessage {
    pub from: Host,
    pub message: Message,
}

impl Model for HeardMessage {
    ghost use Rattle.mdns_history.specs.Hearings.{Heard};

    ghost Value = { Heard };

    ghost view = { λ a. record { from = a.from; message = a.message } };
}

/// Whether a message isn't for us, or a response from a host that may not answer. (RFC 6762 6 and 18)
pub fn is_ignored(from: &Host, message: &Message) -> bool
    ensures { result ≡ is_ignored from.now message.now }
{
    message.opcode != 0 || message.rcode != 0 || (message.response && from.port != MDNS_PORT)
}

/// The message that an event brings: that of a packet that spells one, unless it is ignored. Refused only for want of memory.
pub fn brought(alloc: Global, event: &Event) -> Result<Option<HeardMessage>, AllocError>
    ensures { IfOk result (λ heard. heard ≡ brought event.now) }
{
    match event {
        Event::Hear { from, bytes } => counted(alloc, *from, bytes.as_slice()),
        _ => Ok(None),
    }
}

// The message that bytes spell, unless it is ignored.
fn counted(alloc: Global, from: Host, bytes: &[u8]) -> Result<Option<HeardMessage>, AllocError>
    ensures { IfOk result (λ heard. heard ≡ counted from (spelled bytes.now)) }
{
    match read(alloc, bytes) {
        Ok(message) => Ok(unless_ignored(from, message)),
        Err(fault) => none_of(fault),
    }
}

// A message that isn't ignored.
fn unless_ignored(from: Host, message: Message) -> Option<HeardMessage>
    ensures { result ≡ counted from (Ok message) }
{
    if is_ignored(&from, &message) {
        None
    } else {
        Some(HeardMessage { from, message })
    }
}

// No message, where bytes have a fault.
fn none_of(fault: MessageError) -> Result<Option<HeardMessage>, AllocError>
    ensures fault { IfOk result (λ _. fault ≢ MessageError.NoMemory) }
    ensures none { IfOk result (λ heard. heard ≡ None) }
{
    match fault {
        MessageError::NoMemory => Err(AllocError),
        _ => Ok(None),
    }
}

/// The message that an entry heard: one that the packet brought and that wasn't refused. Refused only for want of memory.
#[tactic(auto, unfolding(mdns_history::specs::Hearings::heard_in))]
pub fn heard_in(alloc: Global, entry: &Entry) -> Result<Option<HeardMessage>, AllocError>
    ensures { IfOk result (λ heard. heard ≡ heard_in entry.now) }
{
    if is_refused(entry) {
        return Ok(None);
    }
    brought(alloc, &entry.event)
}

// Whether the packet of an entry was refused.
fn is_refused(entry: &Entry) -> bool
    ensures { result ≡ has_mark is_refusal entry.now }
{
    entry.marks.as_slice().iter().any(|mark| is_refusal(mark))
}

fn is_refusal(mark: &Mark) -> bool
    ensures { result ≡ is_refusal mark.now }
{
    matches!(mark, Mark::Bad { .. } | Mark::Full)
}

/// The records of a heard message that count: those of a response, the answer section before the additional one. Refused only
/// for want of memory.
pub fn counted_records(alloc: Global, heard: Option<HeardMessage>) -> Result<Rrs, AllocError>
    ensures { IfOk result (λ rrs. rrs ≡ counted_records heard) }
{
    match heard {
        Some(heard) => response_records(alloc, heard.message),
        None => Ok(Rrs::new(alloc)),
    }
}

// The answers and the additional records of a response.
fn response_records(alloc: Global, message: Message) -> Result<Rrs, AllocError>
    ensures { IfOk result (λ rrs. rrs ≡ (if message.response then message.answers ++ message.additional else [])) }
{
    if !message.response {
        return Ok(Rrs::new(alloc));
    }
    let mut records = message.answers;
    for rr in message.additional.into_vec() {
        records.push(rr)?;
    }
    Ok(records)
}

/// The heard message, where it is a query.
pub fn query_of(heard: Option<HeardMessage>) -> Option<HeardMessage>
    ensures { result ≡ query_of heard }
{
    match heard {
        Some(heard) if !heard.message.response => Some(heard),
        _ => None,
    }
}
