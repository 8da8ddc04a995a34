// What an event makes of the questions, computed before anything is changed.
ghost use Rattle.std.specs.Prelude.{◌≡◌, ◌++◌, map, OnOk};
ghost use Rattle.mdns_question.specs.Standing.{mark_of};

use dns_record::Key;
use mdns_history::{Cause, Mark, Marks};
use std::alloc::AllocError;

/// What an event makes of the questions: which are asked, each with its cause, and which get a user and which lose one.
#[derive(Drop)]
pub struct Plan {
    pub asked: Vec<(Key, Cause)>,
    pub begun: Vec<Key>,
    pub ended: Vec<Key>,
}

impl Plan {
    /// Puts the marks of the questions that are asked behind others. Refused only for want of memory.
    pub fn put_askings(&self, marks: &mut Marks) -> Result<(), AllocError>
        ensures { OnOk result (marks.new ≡ marks.old ++ map mark_of self.now.asked.items) }
    {
        put_askings(marks, &self.asked)
    }
}

// Puts the marks of questions that are asked behind others.
fn put_askings(marks: &mut Marks, asked: &[(Key, Cause)]) -> Result<(), AllocError>
    ensures { OnOk result (marks.new ≡ marks.old ++ map mark_of asked.now) }
{
    for one in asked {
        marks.push(Mark::Asked {
            question: one.0.copy(),
            cause: one.1,
        })?;
    }
    Ok(())
}
