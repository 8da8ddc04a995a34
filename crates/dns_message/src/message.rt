// A message, and why bytes spell none.
ghost use Rattle.std.specs.Prelude.{◌≡◌};
ghost use Rattle.dns_message.specs.declared.message.MessageError.TheVariants as message_error;
ghost use Rattle.dns_message.specs.declared.message.WriteError.TheVariants as write_error;
ghost use Rattle.dns_message.specs.Reading.{message_fault};

use dns_pointers::NameFault;
use dns_record::{Question, Rr};
use lists::List;
use std::alloc::AllocError;

/// The most bytes of a message. (RFC 6762 17)
pub const LONGEST_MESSAGE: usize = 8972;

/// A list of questions.
pub type Questions = List<Question>;

/// A list of records.
pub type Rrs = List<Rr>;

/// A message, with the questions and records of class IN that it was read with. (RFC 1035 4.1)
#[derive(Drop)]
pub struct Message {
    /// The identifier, 0 in Multicast DNS but for replies to another port. (RFC 6762 18.1)
    pub id: u16,
    /// Whether it is a response.
    pub response: bool,
    /// Whether the sender is an authority, as each responder is. (RFC 6762 18.4)
    pub authoritative: bool,
    /// Whether known answers follow in another message. (RFC 6762 7.2)
    pub truncated: bool,
    /// What kind of query it is; only 0 is meant for us. (RFC 6762 18.3)
    pub opcode: u8,
    /// The response code; only 0 is meant for us. (RFC 6762 18.11)
    pub rcode: u8,
    pub questions: Questions,
    pub answers: Rrs,
    pub authority: Rrs,
    pub additional: Rrs,
}

/// Why bytes spell no message: the first fault in reading order.
#[derive(Clone, Copy, Debug, PartialEq, Eq)]
pub enum MessageError {
    /// The bytes end too early.
    Truncated = 1,
    /// A pointer of a name aims at or behind the labels that it ends. (RFC 1035 4.1.4)
    BadPointer,
    /// A label's length byte has one of the reserved forms. (RFC 1035 4.1.4)
    BadLabel,
    /// A name passes 255 bytes. (RFC 1035 3.1)
    LongName,
    /// Data don't have the form of their type, or don't end where their length says.
    BadRdata,
    /// The message is longer than 8972 bytes. (RFC 6762 17)
    TooLong,
    /// Memory was refused.
    NoMemory,
}

impl From<AllocError> for MessageError {
    ghost from_gives = { λ _ e. e ≡ message_error.NoMemory };

    fn from(_e: AllocError) -> MessageError {
        MessageError::NoMemory
    }
}

impl From<NameFault> for MessageError {
    ghost from_gives = { λ fault e. e ≡ message_fault fault };

    fn from(fault: NameFault) -> MessageError {
        match fault {
            NameFault::Truncated => MessageError::Truncated,
            NameFault::BadPointer => MessageError::BadPointer,
            NameFault::BadLabel => MessageError::BadLabel,
            NameFault::LongName => MessageError::LongName,
        }
    }
}

/// Why a message isn't written.
#[derive(Clone, Copy, Debug, PartialEq, Eq)]
pub enum WriteError {
    /// What is written passes the limit.
    TooLong = 1,
    /// Memory was refused.
    NoMemory,
}

impl From<AllocError> for WriteError {
    ghost from_gives = { λ _ e. e ≡ write_error.NoMemory };

    fn from(_e: AllocError) -> WriteError {
        WriteError::NoMemory
    }
}
