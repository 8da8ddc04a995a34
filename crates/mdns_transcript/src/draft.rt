// An entry that grows by its lines.
ghost use Rattle.std.specs.Prelude.{◌≡◌, [], ◌∷◌, true, false, IfOk};
ghost use Rattle.mdns_transcript.specs.Messages.{begun};
ghost use Rattle.mdns_transcript.specs.Stages.{Upto};
ghost use Rattle.mdns_transcript.specs.Drafts.{draft_stage, draft_lines, is_head, is_open, is_sending, is_marking, IsDraft, IsAdded, IsFinished, IsOutcome};

use crate::Row;
use crate::message::{add_question, add_record, begun};
use dns_record::{Question, Rr};
use mdns_history::{Entry, Event, Gifts, Given, Items, Mark, Marks, Outcome, Sends, Sent};
use mdns_print::{Ending, Line, Section};
use sd_call::Item;
use std::alloc::{AllocError, Global};

/// An entry as far as its lines were read.
#[derive(Drop)]
pub(crate) struct Draft {
    daemon: u32,
    moment: u64,
    word: u32,
    event: Event,
    marks: Marks,
    sent: Sends,
    // The last message that was sent, to which lines may be added.
    message: Option<Sent>,
    given: Gifts,
    end: End,
}

// How far the outcome was read.
#[derive(Drop)]
enum End {
    // It has no line yet.
    Open,
    // All of it is read.
    Told { outcome: Outcome },
    // Some items are read, and so many are left.
    Items { items: Items, left: u64 },
}

impl Draft {
    /// An entry of which the first line was read.
    pub(crate) fn new(alloc: Global, daemon: u32, moment: u64, word: u32, event: Event) -> Self
        ensures lines { draft_lines result ≡ Line.Head daemon moment word event ∷ [] }
        ensures stage { draft_stage result ≡ Upto 0 }
        ensures is { IsDraft result }
    {
        Draft {
            daemon,
            moment,
            word,
            event,
            marks: Marks::new(alloc),
            sent: Sends::new(alloc),
            message: None,
            given: Gifts::new(alloc),
            end: End::Open,
        }
    }

    /// Adds what a line tells, where the line may follow those before it; says whether it may.
    pub(crate) fn add(&mut self, alloc: Global, line: Line) -> Result<bool, AllocError>
        requires is { IsDraft self.old }
        requires goes_on { is_head line ≡ false }
        ensures { IfOk result (λ added. IsAdded self.old line added self.new) }
    {
        match line {
            Line::Head { .. } => Ok(false),
            Line::Mark { mark } => self.add_mark(mark),
            Line::Sent {
                to,
                response,
                id,
                truncated,
            } => {
                let message = begun(alloc, id, response, truncated);
                self.add_sent(Sent { to, message })
            }
            Line::Question { question } => self.add_question(question),
            Line::Record { section, rr } => self.add_record(section, rr),
            Line::Given { given } => self.add_given(given),
            Line::Ending { ending } => Ok(self.add_ending(ending)),
            Line::Count { count } => Ok(self.add_count(alloc, count)),
            Line::Item { item } => self.add_item(item),
        }
    }

    // Marks stand before all that is sent.
    fn add_mark(&mut self, mark: Mark) -> Result<bool, AllocError>
        requires { IsDraft self.old }
        ensures { IfOk result (λ added. IsAdded self.old (Line.Mark mark) added self.new) }
    {
        if !self.is_marking() {
            return Ok(false);
        }
        self.marks.push(mark)?;
        Ok(true)
    }

    // Messages stand before what is given.
    fn add_sent(&mut self, sent: Sent) -> Result<bool, AllocError>
        requires is { IsDraft self.old }
        requires bare { sent.message ≡ begun sent.message.id sent.message.response sent.message.truncated }
        ensures { IfOk result (λ added. IsAdded self.old (Line.Sent sent.to sent.message.response sent.message.id sent.message.truncated) added self.new) }
    {
        if !self.is_sending() {
            return Ok(false);
        }
        match self.message.replace(sent) {
            Some(before) => {
                self.sent.push(before)?;
                Ok(true)
            }
            None => Ok(true),
        }
    }

    fn add_question(&mut self, question: Question) -> Result<bool, AllocError>
        requires { IsDraft self.old }
        ensures { IfOk result (λ added. IsAdded self.old (Line.Question question) added self.new) }
    {
        if !self.is_sending() {
            return Ok(false);
        }
        match &mut self.message {
            Some(sent) => add_question(&mut sent.message, question),
            None => Ok(false),
        }
    }

    fn add_record(&mut self, section: Section, rr: Rr) -> Result<bool, AllocError>
        requires { IsDraft self.old }
        ensures { IfOk result (λ added. IsAdded self.old (Line.Record section rr) added self.new) }
    {
        if !self.is_sending() {
            return Ok(false);
        }
        match &mut self.message {
            Some(sent) => add_record(&mut sent.message, section, rr),
            None => Ok(false),
        }
    }

    // What is given stands before the outcome.
    fn add_given(&mut self, given: Given) -> Result<bool, AllocError>
        requires { IsDraft self.old }
        ensures { IfOk result (λ added. IsAdded self.old (Line.Given given) added self.new) }
    {
        if !self.is_open() {
            return Ok(false);
        }
        self.given.push(given)?;
        Ok(true)
    }

    fn add_ending(&mut self, ending: Ending) -> bool
        requires { IsDraft self.old }
        ensures { IsAdded self.old (Line.Ending ending) result self.new }
    {
        if !self.is_open() {
            return false;
        }
        self.end = End::Told {
            outcome: ending.outcome(),
        };
        true
    }

    fn add_count(&mut self, alloc: Global, count: u64) -> bool
        requires { IsDraft self.old }
        ensures { IsAdded self.old (Line.Count count) result self.new }
    {
        if !self.is_open() {
            return false;
        }
        self.end = End::Items {
            items: Items::new(alloc),
            left: count,
        };
        true
    }

    fn add_item(&mut self, item: Item) -> Result<bool, AllocError>
        requires { IsDraft self.old }
        ensures { IfOk result (λ added. IsAdded self.old (Line.Item item) added self.new) }
    {
        match &mut self.end {
            End::Items { items, left } => {
                if *left == 0 {
                    return Ok(false);
                }
                items.push(item)?;
                *left -= 1;
                Ok(true)
            }
            _ => Ok(false),
        }
    }

    // Whether no message was sent yet either, so that marks may still follow.
    fn is_marking(&self) -> bool
        ensures { result ≡ is_marking self.now }
    {
        self.is_sending() && self.message.is_none()
    }

    // Whether nothing is given yet, so that messages may still follow.
    fn is_sending(&self) -> bool
        ensures { result ≡ is_sending self.now }
    {
        self.is_open() && self.given.as_slice().is_empty()
    }

    // Whether there is no outcome yet.
    fn is_open(&self) -> bool
        ensures { result ≡ is_open self.now }
    {
        matches!(&self.end, End::Open)
    }

    /// The row, where no line is wanting. Refused only for want of memory.
    pub(crate) fn finish(self) -> Result<Option<Row>, AllocError>
        requires { IsDraft self }
        ensures { IfOk result (λ row. IsFinished self row) }
    {
        let Draft {
            daemon,
            moment,
            word,
            event,
            marks,
            mut sent,
            message,
            given,
            end,
        } = self;
        let Some(outcome) = outcome(end) else {
            return Ok(None);
        };
        if let Some(message) = message {
            sent.push(message)?;
        }
        let entry = Entry {
            moment,
            word,
            event,
            marks,
            sent,
            given,
            outcome,
        };
        Ok(Some(Row { daemon, entry }))
    }
}

// The outcome, where all of it was read.
fn outcome(end: End) -> Option<Outcome>
    ensures { IsOutcome end result }
{
    match end {
        End::Open => Some(Outcome::Done),
        End::Told { outcome } => Some(outcome),
        End::Items { items, left } => {
            if left == 0 {
                Some(Outcome::Items { items })
            } else {
                None
            }
        }
    }
}
