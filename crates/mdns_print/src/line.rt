// What the lines of a transcript are.
ghost use Rattle.std.specs.Prelude.{◌≡◌};
ghost use Rattle.mdns_print.specs.LineText.{outcome_of};

use dns_record::{Question, Rr};
use mdns_base::Dest;
use mdns_history::{Event, Given, Mark, Outcome};
use sd_call::Item;

/// A section of records in a message. (RFC 1035 4.1)
#[derive(Clone, Copy, Debug, PartialEq, Eq)]
pub enum Section {
    /// The answers.
    Answers,
    /// The records of authority: in a probe those that are claimed. (RFC 6762 8.2)
    Authority,
    /// The additional records.
    Additional,
}

/// An outcome that has a line, and nothing below it.
#[derive(Clone, Copy, Debug, PartialEq, Eq)]
pub enum Ending {
    /// A session was opened.
    Opened { session: u64 },
    /// No session can be opened now.
    Full,
    /// A session was ended.
    Ended,
    /// There is no such session.
    Closed,
    /// The session was cut.
    Cut,
    /// A call got this code: 0, or that of an error.
    Code { code: i32 },
    /// There was no item to take.
    Empty,
}

impl Ending {
    /// The outcome that the line tells.
    pub fn outcome(self) -> Outcome
        ensures { result ≡ outcome_of self }
    {
        match self {
            Ending::Opened { session } => Outcome::Opened { session },
            Ending::Full => Outcome::Full,
            Ending::Ended => Outcome::Ended,
            Ending::Closed => Outcome::Closed,
            Ending::Cut => Outcome::Cut,
            Ending::Code { code } => Outcome::Code { code },
            Ending::Empty => Outcome::Empty,
        }
    }
}

/// A line of a transcript.
#[derive(Drop)]
pub enum Line {
    /// The first line of an entry: the daemon, the moment in ms, the random word, and what happened.
    Head {
        daemon: u32,
        moment: u64,
        word: u32,
        event: Event,
    },
    /// A mark of the entry.
    Mark {
        mark: Mark,
    },
    /// The first line of a message that was sent.
    Sent {
        to: Dest,
        response: bool,
        id: u16,
        truncated: bool,
    },
    /// A question of the message.
    Question {
        question: Question,
    },
    /// A record of the message.
    Record {
        section: Section,
        rr: Rr,
    },
    /// An item that was given to a session.
    Given {
        given: Given,
    },
    /// How the event went, where nothing is listed below it.
    Ending {
        ending: Ending,
    },
    /// How many items were taken.
    Count {
        count: u64,
    },
    /// An item that was taken.
    Item {
        item: Item,
    },
}
