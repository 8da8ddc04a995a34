// What an event makes of claims, computed before anything is changed.
ghost use Rattle.std.specs.Prelude.{◌≡◌, ◌++◌, OnOk};

use crate::beginning::Beginning;
use mdns_claimants::Renewal;
use mdns_conflict::Storm;
use mdns_history::{Mark, Marks};
use std::alloc::AllocError;

/// What an event makes of claims: the marks that it gives them, and what is then kept: the
/// number of the host's name, the conflicts, and what is done to the groups.
#[derive(Drop)]
pub struct Plan {
    pub marks: Marks,
    pub number: u32,
    pub storm: Storm,
    pub deed: Deed,
}

/// What is done to the groups.
#[derive(Drop)]
pub enum Deed {
    /// Nothing.
    Nothing,
    /// Time has passed.
    Ticks,
    /// A group begins.
    Begins(Beginning),
    /// Those end whose operation does.
    Ends,
    /// Those end whose operation does, or that fail; others get other numbers and records, each in its place.
    Changes(Vec<Option<Renewal>>),
}

impl Plan {
    /// Puts the marks of claims behind others. Refused only for want of memory.
    pub fn put_marks(&self, marks: &mut Marks) -> Result<(), AllocError>
        ensures { OnOk result (marks.new ≡ marks.old ++ self.now.marks) }
    {
        put_copies(marks, self.marks.as_slice())
    }
}

fn put_copies(marks: &mut Marks, others: &[Mark]) -> Result<(), AllocError>
    ensures { OnOk result (marks.new ≡ marks.old ++ others.now) }
{
    for mark in others {
        marks.push(copy_of(mark))?;
    }
    Ok(())
}

fn copy_of(mark: &Mark) -> Mark
    ensures { result ≡ mark.now }
{
    match mark {
        Mark::Bad { number } => Mark::Bad { number: *number },
        Mark::Full => Mark::Full,
        Mark::Renamed { group, number } => Mark::Renamed {
            group: *group,
            number: *number,
        },
        Mark::Contested { group } => Mark::Contested { group: *group },
        Mark::TieLost { group } => Mark::TieLost { group: *group },
        Mark::Failed { group } => Mark::Failed { group: *group },
        Mark::Asked { question, cause } => Mark::Asked {
            question: question.copy(),
            cause: *cause,
        },
        Mark::Announced { group } => Mark::Announced { group: *group },
        Mark::Cut { session } => Mark::Cut { session: *session },
    }
}
