// A message under way, that grows while it has room.
ghost use Rattle.std.specs.Prelude.{◌≡◌, ◌+◌, ◌<◌, ◌≤◌, ◌++◌, ℕ, [], ◌∷◌, length, take, min, nat_le, true, false, IsTrue, IfOk, OnOk, OnErr, if◌then◌else◌};
ghost use Rattle.dns_pointers.specs.Writing.{Offsets};
ghost use Rattle.dns_message.specs.Writing.{written_question, written_record, written_data};
ghost use Rattle.dns_message.specs.Packing.{is_within_length, bare_query, bare_reply};
ghost use Rattle.dns_message.specs.Drafting.{with_question, with_answer, with_additional, records_of};

use crate::writing::{put_question, put_record};
use crate::{LONGEST_MESSAGE, Message, Questions, Rrs};
use dns_pointers::WrittenNames;
use dns_record::{Question, Rdata, Rr};
use std::alloc::{AllocError, Global};
use std::marker::Model;

// The bytes of a message's header. (RFC 1035 4.1.1)
const HEADER: [u8; 12] = [0; 12];

/// What was written of a message: bytes, of which the first 12 wait for the header, and names.
#[derive(Drop)]
pub(crate) struct Written<'a> {
    out: Vec<u8>,
    names: WrittenNames<'a>,
}

impl<'a> Model for Written<'a> {
    ghost use Rattle.std.specs.Prelude.{ℕ, length};
    ghost use Rattle.dns_pointers.specs.Writing.{Offsets};

    ghost Value = { ℕ × Offsets };

    ghost view = { λ w. (length w.out.items, w.names) };
}

impl<'a> Written<'a> {
    // What is written of a message without questions and records.
    fn new(alloc: Global) -> Result<Self, AllocError>
        ensures { IfOk result (λ written. written ≡ (12, [])) }
    {
        let mut out = Vec::new(alloc);
        out.extend_from_slice(&HEADER)?;
        let names = WrittenNames::new(alloc);
        Ok(Written { out, names })
    }

    // Whether it is at most so long; else so many bytes and names are left.
    fn kept_within(&mut self, most: usize, len: usize, count: usize) -> bool
        ensures fits { result ≡ nat_le self.old.0 most }
        ensures left { self.new ≡ (if nat_le self.old.0 most then self.old else (min len self.old.0, take count self.old.1)) }
    {
        let fits = self.out.len() <= most;
        if !fits {
            self.out.truncate(len);
            self.names.truncate(count);
        }
        fits
    }

    // Writes a question, where the whole is then at most so long.
    fn question(&mut self, question: &'a Question, most: usize) -> Result<bool, AllocError>
        requires limit { most ≤ 8972 }
        requires within { self.old.0 ≤ 8972 }
        ensures fits { let piece = written_question self.old.1 self.old.0 question.now in IfOk result (λ fits. fits ≡ nat_le (self.old.0 + length piece.bytes) most) }
        ensures grown { let piece = written_question self.old.1 self.old.0 question.now in OnOk result (self.new ≡ (if nat_le (self.old.0 + length piece.bytes) most then (self.old.0 + length piece.bytes, piece.names) else self.old)) }
    {
        let (len, count) = (self.out.len(), self.names.len());
        put_question(&mut self.out, &mut self.names, question)?;
        Ok(self.kept_within(most, len, count))
    }

    // Writes a record whose data aren't too long, where the whole is then at most so long.
    fn record(&mut self, rr: &'a Rr, most: usize) -> Result<bool, AllocError>
        requires limit { most ≤ 8972 }
        requires within { self.old.0 ≤ 8972 }
        ensures fits { let piece = written_record self.old.1 self.old.0 rr.now in IfOk result (λ fits. fits ≡ nat_le (self.old.0 + length piece.bytes) most) }
        ensures grown { let piece = written_record self.old.1 self.old.0 rr.now in OnOk result (self.new ≡ (if nat_le (self.old.0 + length piece.bytes) most then (self.old.0 + length piece.bytes, piece.names) else self.old)) }
    {
        let (len, count) = (self.out.len(), self.names.len());
        // Data of at most 8972 bytes have a length of two bytes: what is refused is memory.
        let Ok(()) = put_record(&mut self.out, &mut self.names, rr) else {
            return Err(AllocError);
        };
        Ok(self.kept_within(most, len, count))
    }
}

/// A message under way: it grows by one question or record after another while it is at most so many bytes long. What it
/// holds is known with the length of its written form, so that none of it is written anew. A draft that was once refused
/// memory refuses what is added later, too. (RFC 6762 7.1, 7.2 and 17)
#[derive(Drop)]
pub struct Draft<'a> {
    message: Message,
    so_far: Written<'a>,
    // Whether memory was refused, so that what was written may be other than the message.
    lost: bool,
    over: bool,
}

impl<'a> Model for Draft<'a> {
    ghost use Rattle.std.specs.Prelude.{◌≡◌, ◌<◌, false, length, IsTrue};
    ghost use Rattle.dns_message.specs.declared.message.Message.{Message};
    ghost use Rattle.dns_message.specs.Writing.{written};
    ghost use Rattle.dns_message.specs.Drafting.{IsDrafted};

    ghost Value = { Message };

    ghost view = { λ d. d.message };

    // Nothing more is written of a message that is longer than any may be, nor where memory was refused.
    ghost invariant = { λ d. (d.lost ≡ false → IsDrafted d.message d.so_far.0 d.so_far.1) × (IsTrue d.over → 8972 < length (written d.message)) };
}

impl<'a> Draft<'a> {
    /// A query without questions. Refused only for want of memory.
    pub fn query(alloc: Global) -> Result<Self, AllocError>
        ensures { IfOk result (λ draft. draft ≡ bare_query [] []) }
    {
        Draft::of(alloc, false)
    }

    /// A reply without records. Refused only for want of memory. (RFC 6762 18.3 and 18.4)
    pub fn reply(alloc: Global) -> Result<Self, AllocError>
        ensures { IfOk result (λ draft. draft ≡ bare_reply []) }
    {
        Draft::of(alloc, true)
    }

    // A message without questions and records.
    fn of(alloc: Global, response: bool) -> Result<Self, AllocError>
        ensures { IfOk result (λ draft. draft ≡ (if response then bare_reply [] else bare_query [] [])) }
    {
        let so_far = Written::new(alloc)?;
        let message = Message {
            id: 0,
            response,
            authoritative: response,
            truncated: false,
            opcode: 0,
            rcode: 0,
            questions: Questions::new(alloc),
            answers: Rrs::new(alloc),
            authority: Rrs::new(alloc),
            additional: Rrs::new(alloc),
        };
        Ok(Draft {
            message,
            so_far,
            lost: false,
            over: false,
        })
    }

    /// Takes room for so many answers more. Nothing else changes. Refused only for want of memory.
    pub fn reserve(&mut self, answers: usize) -> Result<(), AllocError>
        ensures { self.new ≡ self.old }
    {
        self.message.answers.reserve(answers)?;
        Ok(())
    }

    /// Adds a question to a message without records, where the message then has at most so many bytes, and tells whether
    /// it did; else the draft stays as it was, as it does where memory is refused.
    pub fn question(&mut self, question: &'a Question, most: usize) -> Result<bool, AllocError>
        requires limit { most ≤ 8972 }
        requires first { records_of self.old ≡ [] }
        ensures fits { IfOk result (λ fits. fits ≡ is_within_length most (with_question self.old question.now)) }
        ensures grown { OnOk result (self.new ≡ (if is_within_length most (with_question self.old question.now) then with_question self.old question.now else self.old)) }
        ensures err { OnErr result (self.new ≡ self.old) }
    {
        if self.over {
            return Ok(false);
        }
        if self.lost {
            return Err(AllocError);
        }
        self.lost = true;
        if !self.so_far.question(question, most)? {
            self.lost = false;
            return Ok(false);
        }
        self.message.questions.push(copied(question))?;
        self.lost = false;
        Ok(true)
    }

    /// The same, of an answer, where the message has neither authority nor additional records.
    pub fn answer(&mut self, rr: &'a Rr, most: usize) -> Result<bool, AllocError>
        requires limit { most ≤ 8972 }
        requires authority { self.old.authority ≡ [] }
        requires additional { self.old.additional ≡ [] }
        ensures fits { IfOk result (λ fits. fits ≡ is_within_length most (with_answer self.old rr.now)) }
        ensures grown { OnOk result (self.new ≡ (if is_within_length most (with_answer self.old rr.now) then with_answer self.old rr.now else self.old)) }
        ensures err { OnErr result (self.new ≡ self.old) }
    {
        if self.over {
            return Ok(false);
        }
        if is_too_long(&rr.rdata) {
            return Ok(false);
        }
        if self.lost {
            return Err(AllocError);
        }
        self.lost = true;
        if !self.so_far.record(rr, most)? {
            self.lost = false;
            return Ok(false);
        }
        push_copy(&mut self.message.answers, rr)?;
        self.lost = false;
        Ok(true)
    }

    /// Adds an answer, however long the message is then; the draft stays as it was where memory is refused.
    pub fn answer_always(&mut self, rr: &'a Rr) -> Result<(), AllocError>
        requires authority { self.old.authority ≡ [] }
        requires additional { self.old.additional ≡ [] }
        ensures grown { OnOk result (self.new ≡ with_answer self.old rr.now) }
        ensures err { OnErr result (self.new ≡ self.old) }
    {
        if self.answer(rr, LONGEST_MESSAGE)? {
            return Ok(());
        }
        push_copy(&mut self.message.answers, rr)?;
        self.lost = true;
        self.over = true;
        Ok(())
    }

    /// Adds a question to a message without records, however long the message is then; the draft stays as it was where
    /// memory is refused.
    pub fn question_always(&mut self, question: &'a Question) -> Result<(), AllocError>
        requires first { records_of self.old ≡ [] }
        ensures grown { OnOk result (self.new ≡ with_question self.old question.now) }
        ensures err { OnErr result (self.new ≡ self.old) }
    {
        if self.question(question, LONGEST_MESSAGE)? {
            return Ok(());
        }
        self.message.questions.push(copied(question))?;
        self.lost = true;
        self.over = true;
        Ok(())
    }

    /// The message.
    pub fn into_message(self) -> Message
        ensures { result ≡ self.entry }
    {
        let Draft { message, .. } = self;
        message
    }
}

// Whether data alone are longer than the longest message.
#[tactic(auto, unfolding(crate::specs::Writing::written_data))]
fn is_too_long(rdata: &Rdata) -> bool
    ensures { IsTrue result → (names : Offsets) (at : ℕ) → 8972 < length (written_data names at rdata.now).bytes }
{
    match rdata {
        Rdata::Txt(bytes) | Rdata::Raw { bytes, .. } => bytes.as_slice().len() > LONGEST_MESSAGE,
        Rdata::Nsec { bitmap, .. } => bitmap.as_slice().len() > LONGEST_MESSAGE,
        _ => false,
    }
}

// Puts an equal record behind others; these stay as they were where memory is refused. The copy is made in its place, since
// records are long.
fn push_copy(records: &mut Rrs, rr: &Rr) -> Result<(), AllocError>
    ensures ok { OnOk result (records.new ≡ records.old ++ rr.now ∷ []) }
    ensures err { OnErr result (records.new ≡ records.old) }
{
    let rdata = rr.rdata.copy()?;
    records.push(Rr {
        owner: rr.owner.copy(),
        flush: rr.flush,
        ttl: rr.ttl,
        rdata,
    })
}

// An equal question.
fn copied(question: &Question) -> Question
    ensures { result ≡ question.now }
{
    Question {
        name: question.name.copy(),
        kind: question.kind,
        unicast: question.unicast,
    }
}
