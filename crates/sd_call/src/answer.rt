// What an operation finds.
ghost use Rattle.std.specs.Prelude.{◌≡◌, IfOk};

use bytes::Bytes;
use dns_name::Name;
use dns_record::Rdata;
use std::alloc::{AllocError, Global};

/// An answer of an operation.
#[derive(Drop)]
pub enum Answer {
    /// Data that a Query or an Address asked for.
    Datum {
        rdata: Rdata,
    },
    /// An instance that a Browse found.
    Found {
        instance: Name,
    },
    /// Where an instance is reached, and its TXT data.
    Resolved {
        priority: u16,
        weight: u16,
        port: u16,
        target: Name,
        txt: Bytes,
    },
    /// The full name that a registration got.
    Named {
        full: Name,
    },
    /// A registration got no name.
    Conflict,
}

impl Answer {
    /// An equal answer. Refused only for want of memory.
    pub fn copy(&self) -> Result<Answer, AllocError>
        ensures { IfOk result (λ copy. copy ≡ self.now) }
    {
        Ok(match self {
            Answer::Datum { rdata } => Answer::Datum {
                rdata: rdata.copy()?,
            },
            Answer::Found { instance } => Answer::Found {
                instance: instance.copy(),
            },
            Answer::Resolved {
                priority,
                weight,
                port,
                target,
                txt,
            } => Answer::Resolved {
                priority: *priority,
                weight: *weight,
                port: *port,
                target: target.copy(),
                txt: txt.clone()?,
            },
            Answer::Named { full } => Answer::Named { full: full.copy() },
            Answer::Conflict => Answer::Conflict,
        })
    }
}
