// What a session is given.
ghost use Rattle.std.specs.Prelude.{◌≡◌, ◌+◌, ◌≤◌, length, IfOk};
ghost use Rattle.dns_record.specs.Records.{data_of};
ghost use Rattle.sd_call.specs.Answers.{answer_bytes, frame_len};

use crate::{Answer, Verb};
use dns_record::Rdata;
use std::alloc::{AllocError, Global};

/// What a session is given, in the order in which it takes it.
#[derive(Drop)]
pub enum Item {
    /// What became of a request: 0, or the code of an error.
    Reply { op: u32, verb: Verb, code: i32 },
    /// An answer that an operation has from now on.
    Add { op: u32, answer: Answer },
    /// An answer that it no longer has.
    Remove { op: u32, answer: Answer },
}

impl Item {
    /// An equal item. Refused only for want of memory.
    pub fn copy(&self) -> Result<Item, AllocError>
        ensures { IfOk result (λ copy. copy ≡ self.now) }
    {
        Ok(match self {
            Item::Reply { op, verb, code } => Item::Reply {
                op: *op,
                verb: *verb,
                code: *code,
            },
            Item::Add { op, answer } => Item::Add {
                op: *op,
                answer: answer.copy()?,
            },
            Item::Remove { op, answer } => Item::Remove {
                op: *op,
                answer: answer.copy()?,
            },
        })
    }
}

/// How many bytes the item's frame has: its length word, the kind, the operation, and the body.
pub fn item_len(item: &Item) -> usize
    ensures { result ≡ frame_len item.now }
{
    match item {
        Item::Reply { .. } => 14,
        Item::Add { answer, .. } | Item::Remove { answer, .. } => 9 + answer_len(answer),
    }
}

// How many bytes an answer has in a frame.
fn answer_len(answer: &Answer) -> usize
    ensures value { result ≡ length (answer_bytes answer.now) }
    ensures bound { result + 9 ≤ usize.MAX }
{
    match answer {
        Answer::Datum { rdata } => 3 + data_len(rdata),
        Answer::Found { instance } => 1 + instance.wire_len(),
        Answer::Resolved { target, txt, .. } => 7 + target.wire_len() + txt.as_slice().len(),
        Answer::Named { full } => 1 + full.wire_len(),
        Answer::Conflict => 1,
    }
}

// How many bytes data have in a message in which no name is compressed.
fn data_len(rdata: &Rdata) -> usize
    ensures value { result ≡ length (data_of rdata.now) }
    ensures bound { result + 12 ≤ usize.MAX }
{
    match rdata {
        Rdata::A(_) => 4,
        Rdata::Aaaa(_) => 16,
        Rdata::Ptr(name) | Rdata::Cname(name) => name.wire_len(),
        Rdata::Srv { target, .. } => 6 + target.wire_len(),
        Rdata::Txt(bytes) | Rdata::Raw { bytes, .. } => bytes.as_slice().len(),
        Rdata::Nsec { next, bitmap } => next.wire_len() + bitmap.as_slice().len(),
    }
}
