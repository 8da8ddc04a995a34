// Reading a message.
ghost use Rattle.std.specs.Prelude.{◌≡◌, ◌≢◌, ◌⊎◌, ◌↔◌, ◌<◌, ◌≤◌, Ok, Err, Some, All, length, IfOk, IfErr, IsErrOf};
ghost use Rattle.dns_message.specs.declared.message.Message.{Message};
ghost use Rattle.dns_message.specs.Reading.{Spells, spelled, fault, fault_number, has_bit, IsReadAs};
ghost use Rattle.dns_message.specs.Writing.{HasValidParts};

use crate::sections::{read_questions, read_records};
use crate::{LONGEST_MESSAGE, Message, MessageError};
use dns_pointers::Packet;
use std::alloc::Global;

/// The message that the bytes spell. Questions of another class than IN and ANY are left out of it, and so are records
/// of type OPT or of another class than IN, whose data are not looked at; bytes behind the last counted record are
/// passed over. A pointer may aim anywhere below the run of labels that it ends, into the header too. (RFC 1035 4.1,
/// RFC 6762 18)
///
/// The error is the first fault in reading order: `TooLong` for more than 8972 bytes, before anything is read, and
/// else `Truncated`, `BadPointer`, `BadLabel`, `LongName` or `BadRdata`. `NoMemory` alone may come at any bytes that
/// hold a header.
#[tactic(auto, unfolding(crate::specs::Reading::spelled))]
pub fn read(alloc: Global, bytes: &[u8]) -> Result<Message, MessageError>
    ensures found { IfOk result (λ message. Spells bytes.now message) }
    ensures fault { IfErr result (λ e. e ≢ MessageError.NoMemory → fault bytes.now ≡ Some (fault_number e)) }
    ensures only { (message : Message) → Spells bytes.now message → (result ≡ Ok message) ⊎ (result ≡ Err MessageError.NoMemory) }
    ensures bounded { IsErrOf result MessageError.TooLong ↔ (8972 < length bytes.now) }
    ensures valid { IfOk result (λ message. HasValidParts message) }
    ensures memory { result ≡ Err MessageError.NoMemory → 12 ≤ length bytes.now }
{
    if bytes.len() > LONGEST_MESSAGE {
        return Err(MessageError::TooLong);
    }
    read_short(alloc, bytes)
}

// The message that bytes spell that are not too long. That they are bytes is told here, where some are looked at.
#[tactic(auto, unfolding(crate::specs::Reading::spelled, crate::specs::Reading::sections_at))]
fn read_short(alloc: Global, bytes: &[u8]) -> Result<Message, MessageError>
    requires { length bytes.now ≤ 8972 }
    ensures read { IsReadAs result (spelled bytes.now) }
    ensures bytes { IfOk result (λ _. All (λ byte. byte < 256) bytes.now) }
    ensures memory { result ≡ Err MessageError.NoMemory → 12 ≤ length bytes.now }
{
    if bytes.len() < 12 {
        return Err(MessageError::Truncated);
    }
    let packet = Packet::of(alloc, bytes)?;
    let (questions, at) = read_questions(alloc, &packet, packet.u16_at(4), 12)?;
    let (answers, at) = read_records(alloc, &packet, packet.u16_at(6), at)?;
    let (authority, at) = read_records(alloc, &packet, packet.u16_at(8), at)?;
    let (additional, _) = read_records(alloc, &packet, packet.u16_at(10), at)?;
    let (high, low) = (bytes[2], bytes[3]);
    Ok(Message {
        id: packet.u16_at(0),
        response: is_set(high, 7),
        authoritative: is_set(high, 2),
        truncated: is_set(high, 1),
        opcode: high / 8 % 16,
        rcode: low % 16,
        questions,
        answers,
        authority,
        additional,
    })
}

// Whether a bit of a byte is set; bit 0 is worth 1.
fn is_set(byte: u8, bit: u32) -> bool
    requires { bit < 8 }
    ensures { result ≡ has_bit bit byte }
{
    byte >> bit & 1 == 1
}
