// What an event amounts to.
ghost use Rattle.std.specs.Prelude.{◌≡◌};
ghost use Rattle.mdns_history.specs.Items.{verb_of};
ghost use Rattle.mdns_history.specs.Sessions.{is_number};
ghost use Rattle.mdns_happened.specs.Told.{mark_of, outcome_of, told_by};

use dns_message::Message;
use mdns_base::Host;
use mdns_history::{Mark, Outcome};
use sd_call::{Item, Request, Verb};

/// What an event amounts to.
#[derive(Drop)]
pub enum Happened<'a> {
    /// Time has passed.
    Ticked,
    /// A host said something that isn't ignored.
    Heard(Heard<'a>),
    /// A packet was refused, and counts as not heard.
    Refused {
        why: Refusal,
    },
    /// A session was opened.
    Opened {
        session: u64,
    },
    /// A session's call was answered with a code: 0, or that of an error.
    Called {
        session: u64,
        op: u32,
        request: &'a Request,
        code: i32,
    },
    /// A session was ended.
    Detached {
        session: u64,
    },
    /// A session takes items from its queue, at most `max` of them.
    Took {
        session: u64,
        max: u32,
    },
    /// Nothing, for this reason.
    Nothing {
        why: Idle,
    },
}

/// What a host said: the message of its packet, which was read once.
#[derive(Drop)]
pub struct Heard<'a> {
    pub from: &'a Host,
    pub message: Message,
}

/// Why a packet was refused.
#[derive(Clone, Copy, Drop)]
pub enum Refusal {
    /// It spells no message; the number tells why.
    Bad { number: u8 },
    /// It would bring too many records.
    Full,
}

/// Why an event amounts to nothing.
#[derive(Clone, Copy, Drop)]
pub enum Idle {
    /// There is nothing to tell.
    Ignored,
    /// No session can be opened now.
    Full,
    /// There is no such session.
    Closed,
    /// The session was cut.
    Cut,
}

impl Happened<'_> {
    /// How the event went, but for a take, which is known last.
    pub fn outcome(&self) -> Outcome
        ensures { result ≡ (told_by self.now).outcome }
    {
        match self {
            Happened::Opened { session } => Outcome::Opened { session: *session },
            Happened::Called { code, .. } => Outcome::Code { code: *code },
            Happened::Detached { .. } => Outcome::Ended,
            Happened::Nothing { why } => why.outcome(),
            Happened::Ticked
            | Happened::Heard(_)
            | Happened::Refused { .. }
            | Happened::Took { .. } => Outcome::Done,
        }
    }

    /// The session that was opened.
    pub fn opened(&self) -> Option<u64>
        ensures { result ≡ (told_by self.now).opened }
    {
        match self {
            Happened::Opened { session } => Some(*session),
            _ => None,
        }
    }

    /// Whether the session of a number was ended.
    pub fn detaches(&self, number: u64) -> bool
        ensures { result ≡ is_number number (told_by self.now).detached }
    {
        match self {
            Happened::Detached { session } => *session == number,
            _ => false,
        }
    }

    /// The reply to the call of the session of a number.
    pub fn reply_to(&self, number: u64) -> Option<Item>
        ensures { result ≡ (told_by self.now).reply number }
    {
        match self {
            Happened::Called {
                session,
                op,
                request,
                code,
            } if *session == number => Some(Item::Reply {
                op: *op,
                verb: verb_of(request),
                code: *code,
            }),
            _ => None,
        }
    }
}

impl Refusal {
    /// The mark of the packet's entry.
    pub fn mark(self) -> Mark
        ensures { result ≡ mark_of self }
    {
        match self {
            Refusal::Bad { number } => Mark::Bad { number },
            Refusal::Full => Mark::Full,
        }
    }
}

impl Idle {
    fn outcome(self) -> Outcome
        ensures { result ≡ outcome_of self }
    {
        match self {
            Idle::Ignored => Outcome::Done,
            Idle::Full => Outcome::Full,
            Idle::Closed => Outcome::Closed,
            Idle::Cut => Outcome::Cut,
        }
    }
}

fn verb_of(request: &Request) -> Verb
    ensures { result ≡ verb_of request.now }
{
    match request {
        Request::Update { .. } => Verb::Update,
        Request::Stop => Verb::Stop,
        Request::Query { .. }
        | Request::Browse { .. }
        | Request::Resolve { .. }
        | Request::Address { .. }
        | Request::Register { .. } => Verb::Start,
    }
}
