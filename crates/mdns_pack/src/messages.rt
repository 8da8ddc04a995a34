// Lists of messages, and the length of each.
use dns_message::Message;
use lists::List;

/// The length in bytes within which records are put together in a message. (RFC 6762 17)
pub(crate) const PACKET_LENGTH: usize = 1440;

/// A list of messages.
pub type Messages = List<Message>;
