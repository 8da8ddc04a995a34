// Writing a message.
ghost use Rattle.std.specs.Prelude.{◌≡◌, ◌≢◌, ◌+◌, ◌<◌, ◌≤◌, ◌++◌, ℕ, List, [], ◌∷◌, Ok, Err, length, IfOk, OnOk, IsErrOf, MatchResult};
ghost use Rattle.std.specs.Int.{to_be_bytes, w16, w32};
ghost use Rattle.dns_record.specs.Records.{data_of, kind_of};
ghost use Rattle.dns_message.specs.declared.message.Message.{Message};
ghost use Rattle.dns_pointers.specs.Writing.{Offsets, Piece};
ghost use Rattle.dns_message.specs.Writing.{written, written_question, written_record, written_data, written_all, header, flag_bytes, count_bytes, item_count, class_word, bit_worth};

use crate::{Message, WriteError};
use bytes::Bytes;
use dns_name::Name;
use dns_pointers::{WrittenNames, compress};
use dns_record::{Question, Rdata, Rr};
use std::alloc::{AllocError, Global};

/// The bytes that the message is written as: of opcode and rcode the low four bits, and names of questions, owners, PTR
/// and CNAME compressed. `TooLong` exactly where they are more than `limit`, which is at most 8972. (RFC 1035 4.1, RFC
/// 6762 18)
#[tactic(auto, unfolding(crate::specs::Writing::written, crate::specs::Writing::written_body))]
pub fn write(alloc: Global, message: &Message, limit: usize) -> Result<Bytes, WriteError>
    requires { limit ≤ 8972 }
    ensures written { IfOk result (λ bytes. bytes ≡ written message.now) }
    ensures fits { IfOk result (λ bytes. length bytes ≤ limit) }
    ensures long { IsErrOf result WriteError.TooLong → limit < length (written message.now) }
{
    if limit < 12 {
        return Err(WriteError::TooLong);
    }
    let mut out = Vec::new(alloc);
    let mut names = WrittenNames::new(alloc);
    put_header(&mut out, message)?;
    put_questions(&mut out, &mut names, message.questions.as_slice(), limit)?;
    put_records(&mut out, &mut names, message.answers.as_slice(), limit)?;
    put_records(&mut out, &mut names, message.authority.as_slice(), limit)?;
    put_records(&mut out, &mut names, message.additional.as_slice(), limit)?;
    Ok(shared(out)?)
}

// The bytes of a vector, to be shared.
fn shared(bytes: Vec<u8>) -> Result<Bytes, AllocError>
    ensures { IfOk result (λ shared. shared ≡ bytes.items) }
{
    Ok(Bytes::from_vec(bytes)?)
}

// ID, flags and counts.
#[tactic(auto, unfolding(crate::specs::Writing::header))]
fn put_header(out: &mut Vec<u8>, message: &Message) -> Result<(), WriteError>
    ensures { MatchResult result
        (λ _. out.new.items ≡ out.old.items ++ header message.now)
        (λ e. e ≢ WriteError.NoMemory → 65535 < item_count message.now) }
{
    out.extend_from_slice(&message.id.to_be_bytes())?;
    out.extend_from_slice(&flags(message))?;
    put_counts(out, message)?;
    Ok(())
}

fn flags(message: &Message) -> [u8; 2]
    ensures { result ≡ flag_bytes message.now }
{
    let high = worth(message.response, 128)
        + message.opcode % 16 * 8
        + worth(message.authoritative, 4)
        + worth(message.truncated, 2);
    [high, message.rcode % 16]
}

fn put_counts(out: &mut Vec<u8>, message: &Message) -> Result<(), WriteError>
    ensures { MatchResult result
        (λ _. out.new.items ≡ out.old.items ++ count_bytes message.now)
        (λ e. e ≢ WriteError.NoMemory → 65535 < item_count message.now) }
{
    put_length(out, message.questions.as_slice().len())?;
    put_length(out, message.answers.as_slice().len())?;
    put_length(out, message.authority.as_slice().len())?;
    put_length(out, message.additional.as_slice().len())?;
    Ok(())
}

// What a flag adds to its byte.
fn worth(flag: bool, most: u8) -> u8
    ensures value { result ≡ bit_worth flag most }
    ensures most { result ≤ most }
{
    if flag { most } else { 0 }
}

// A length or a count of two bytes.
fn put_length(out: &mut Vec<u8>, length: usize) -> Result<(), WriteError>
    ensures { MatchResult result
        (λ _. out.new.items ≡ out.old.items ++ to_be_bytes w16 length)
        (λ e. e ≢ WriteError.NoMemory → 65535 < length) }
{
    let Ok(length) = u16::try_from(length) else {
        return Err(WriteError::TooLong);
    };
    out.extend_from_slice(&length.to_be_bytes())?;
    Ok(())
}

fn put_questions<'a>(
    out: &mut Vec<u8>,
    names: &mut WrittenNames<'a>,
    questions: &'a [Question],
    limit: usize,
) -> Result<(), WriteError>
    requires most { limit ≤ 8972 }
    requires within { length out.old.items ≤ limit }
    ensures { let piece = written_all written_question names.old (length out.old.items) questions.now in MatchResult result
        (λ _. (out.new.items ≡ out.old.items ++ piece.bytes) × (names.new ≡ piece.names) × (length out.new.items ≤ limit))
        (λ e. e ≢ WriteError.NoMemory → limit < length out.old.items + length piece.bytes) }
{
    for question in questions {
        put_question(out, names, question)?;
        if out.len() > limit {
            return Err(WriteError::TooLong);
        }
    }
    Ok(())
}

fn put_records<'a>(
    out: &mut Vec<u8>,
    names: &mut WrittenNames<'a>,
    rrs: &'a [Rr],
    limit: usize,
) -> Result<(), WriteError>
    requires most { limit ≤ 8972 }
    requires within { length out.old.items ≤ limit }
    ensures { let piece = written_all written_record names.old (length out.old.items) rrs.now in MatchResult result
        (λ _. (out.new.items ≡ out.old.items ++ piece.bytes) × (names.new ≡ piece.names) × (length out.new.items ≤ limit))
        (λ e. e ≢ WriteError.NoMemory → limit < length out.old.items + length piece.bytes) }
{
    for rr in rrs {
        put_record(out, names, rr)?;
        if out.len() > limit {
            return Err(WriteError::TooLong);
        }
    }
    Ok(())
}

/// Writes a question behind a message, its name compressed where a suffix of it was written before. Refused only for want of memory.
/// (RFC 1035 4.1.2 and 4.1.4)
#[tactic(auto, unfolding(crate::specs::Writing::written_question))]
pub(crate) fn put_question<'a>(
    out: &mut Vec<u8>,
    names: &mut WrittenNames<'a>,
    question: &'a Question,
) -> Result<(), AllocError>
    requires { length out.old.items ≤ 8972 }
    ensures bytes { OnOk result (out.new.items ≡ out.old.items ++ (written_question names.old (length out.old.items) question.now).bytes) }
    ensures names { OnOk result (names.new ≡ (written_question names.old (length out.old.items) question.now).names) }
{
    let name = compress(names, out.len(), &question.name)?;
    name.put(out)?;
    out.extend_from_slice(&question.kind.to_be_bytes())?;
    out.extend_from_slice(&class(question.unicast))?;
    Ok(())
}

// The class IN with its top bit.
fn class(top_bit: bool) -> [u8; 2]
    ensures { result ≡ class_word top_bit }
{
    if top_bit { [0x80, 1] } else { [0, 1] }
}

/// Writes a record behind a message, its names compressed likewise. Refused only for want of memory. (RFC 1035 4.1.3 and 4.1.4)
#[tactic(auto, unfolding(crate::specs::Writing::written_record))]
pub(crate) fn put_record<'a>(
    out: &mut Vec<u8>,
    names: &mut WrittenNames<'a>,
    rr: &'a Rr,
) -> Result<(), WriteError>
    requires { length out.old.items ≤ 8972 }
    ensures { let piece = written_record names.old (length out.old.items) rr.now in MatchResult result
        (λ _. (out.new.items ≡ out.old.items ++ piece.bytes) × (names.new ≡ piece.names))
        (λ e. e ≢ WriteError.NoMemory → 8972 < length piece.bytes) }
{
    let owner = compress(names, out.len(), &rr.owner)?;
    owner.put(out)?;
    out.extend_from_slice(&fixed(rr))?;
    put_data(out, names, &rr.rdata)?;
    Ok(())
}

// The fields between the owner and the data: type, class and TTL. They are put behind a message at once.
fn fixed(rr: &Rr) -> [u8; 8]
    ensures { result ≡ to_be_bytes w16 (kind_of rr.now.rdata) ++ class_word rr.now.flush ++ to_be_bytes w32 rr.now.ttl }
{
    let kind = rr.rdata.kind().to_be_bytes();
    let class = class(rr.flush);
    let ttl = rr.ttl.to_be_bytes();
    [
        kind[0], kind[1], class[0], class[1], ttl[0], ttl[1], ttl[2], ttl[3],
    ]
}

// The length of data and the data.
#[tactic(auto, unfolding(crate::specs::Writing::written_data))]
fn put_data<'a>(
    out: &mut Vec<u8>,
    names: &mut WrittenNames<'a>,
    rdata: &'a Rdata,
) -> Result<(), WriteError>
    requires { length out.old.items ≤ 9300 }
    ensures { let piece = written_data names.old (length out.old.items + 2) rdata.now in MatchResult result
        (λ _. (out.new.items ≡ out.old.items ++ to_be_bytes w16 (length piece.bytes) ++ piece.bytes) × (names.new ≡ piece.names))
        (λ e. e ≢ WriteError.NoMemory → 8972 < length piece.bytes) }
{
    match rdata {
        Rdata::A(address) => put_address(out, &address.to_be_bytes()),
        Rdata::Aaaa(address) => put_address(out, &address.to_be_bytes()),
        Rdata::Ptr(name) | Rdata::Cname(name) => {
            let name = compress(names, out.len() + 2, name)?;
            put_length(out, name.len())?;
            name.put(out)?;
            Ok(())
        }
        Rdata::Srv {
            priority,
            weight,
            port,
            target,
        } => put_srv(out, *priority, *weight, *port, target),
        Rdata::Nsec { next, bitmap } => put_joined(out, next.as_wire(), bitmap.as_slice()),
        Rdata::Txt(bytes) | Rdata::Raw { bytes, .. } => put_sized(out, bytes.as_slice()),
    }
}

// Bytes behind their length.
fn put_sized(out: &mut Vec<u8>, bytes: &[u8]) -> Result<(), WriteError>
    ensures { MatchResult result
        (λ _. out.new.items ≡ out.old.items ++ to_be_bytes w16 (length bytes.now) ++ bytes.now)
        (λ e. e ≢ WriteError.NoMemory → 8972 < length bytes.now) }
{
    put_length(out, bytes.len())?;
    out.extend_from_slice(bytes)?;
    Ok(())
}

// The bytes of an address behind their length, which is less than 256.
fn put_address(out: &mut Vec<u8>, bytes: &[u8]) -> Result<(), WriteError>
    requires { length bytes.now < 256 }
    ensures { MatchResult result
        (λ _. out.new.items ≡ out.old.items ++ to_be_bytes w16 (length bytes.now) ++ bytes.now)
        (λ e. e ≡ WriteError.NoMemory) }
{
    out.extend_from_slice(&[0, bytes.len() as u8])?;
    out.extend_from_slice(bytes)?;
    Ok(())
}

// Bytes and more bytes, behind the length of both.
fn put_joined(out: &mut Vec<u8>, front: &[u8], back: &[u8]) -> Result<(), WriteError>
    ensures { MatchResult result
        (λ _. out.new.items ≡ out.old.items ++ to_be_bytes w16 (length (front.now ++ back.now)) ++ (front.now ++ back.now))
        (λ e. e ≢ WriteError.NoMemory → 8972 < length (front.now ++ back.now)) }
{
    put_length(out, front.len().saturating_add(back.len()))?;
    out.extend_from_slice(front)?;
    out.extend_from_slice(back)?;
    Ok(())
}

fn put_srv(
    out: &mut Vec<u8>,
    priority: u16,
    weight: u16,
    port: u16,
    target: &Name,
) -> Result<(), WriteError>
    ensures { let bytes = data_of (Rdata.Srv priority weight port target.now) in MatchResult result
        (λ _. out.new.items ≡ out.old.items ++ to_be_bytes w16 (length bytes) ++ bytes)
        (λ e. e ≢ WriteError.NoMemory → 8972 < length bytes) }
{
    put_length(out, 6 + target.wire_len())?;
    out.extend_from_slice(&priority.to_be_bytes())?;
    out.extend_from_slice(&weight.to_be_bytes())?;
    out.extend_from_slice(&port.to_be_bytes())?;
    out.extend_from_slice(target.as_wire())?;
    Ok(())
}
