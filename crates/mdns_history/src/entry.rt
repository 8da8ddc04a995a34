// An event and all that it did.
use crate::{Event, Marks};
use dns_message::Message;
use lists::List;
use mdns_base::Dest;
use sd_call::Item;

/// A message that an entry sends.
#[derive(Drop)]
pub struct Sent {
    pub to: Dest,
    pub message: Message,
}

/// Messages that an entry sends, in their order.
pub type Sends = List<Sent>;

/// An item that an entry gives to a session.
#[derive(Drop)]
pub struct Given {
    pub session: u64,
    pub item: Item,
}

/// Items that an entry gives, with their sessions.
pub type Gifts = List<Given>;

/// A list of items.
pub type Items = List<Item>;

/// How an event went.
#[derive(Drop)]
pub enum Outcome {
    /// There is nothing to tell.
    Done,
    /// A session was opened.
    Opened { session: u64 },
    /// No session can be opened now.
    Full,
    /// A session was ended.
    Ended,
    /// There is no such session.
    Closed,
    /// The session was cut.
    Cut,
    /// A call got this code: 0, or that of an error.
    Code { code: i32 },
    /// These items were taken.
    Items { items: Items },
    /// There was no item to take.
    Empty,
}

/// An event with its moment in ms, its random word, and all that it did.
#[derive(Drop)]
pub struct Entry {
    pub moment: u64,
    pub word: u32,
    pub event: Event,
    pub marks: Marks,
    pub sent: Sends,
    pub given: Gifts,
    pub outcome: Outcome,
}
