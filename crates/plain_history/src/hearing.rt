// The hearings of records.
ghost use Rattle.std.specs.Prelude.{◌≡◌, ◌++◌, IfOk, OnOk};
ghost use Rattle.mdns_history.specs.Hearings.{hearings_in, hearings};

use crate::{HistoryEntry, counted_records, heard_in};
use mdns_base::Moment;
use mdns_history::SharedRr;
use std::alloc::{AllocError, Global};
use std::marker::Model;

/// A record that was heard, with the moment and the word of its entry.
#[derive(Drop)]
pub struct HeardRecord {
    pub rr: SharedRr,
    pub moment: Moment,
    pub word: u32,
}

impl Model for HeardRecord {
    ghost use Rattle.mdns_history.specs.Hearings.{Hearing};

    ghost Value = { Hearing };

    ghost view = { λ a. record { rr = a.rr; moment = a.moment; word = a.word } };
}

/// All hearings of a history, whose entries stand with the last first; the hearings do so too. Refused only for want of memory.
#[tactic(auto, unfolding(mdns_history::specs::Hearings::hearings))]
pub fn hearings(alloc: Global, history: &[HistoryEntry]) -> Result<Vec<HeardRecord>, AllocError>
    ensures { IfOk result (λ found. found.items ≡ hearings history.now) }
{
    let mut found = Vec::new(alloc);
    for entry in history {
        put_hearings(alloc, &mut found, entry)?;
    }
    Ok(found)
}

// Puts the hearings of an entry behind others.
fn put_hearings(
    alloc: Global,
    found: &mut Vec<HeardRecord>,
    entry: &HistoryEntry,
) -> Result<(), AllocError>
    ensures { OnOk result (found.new.items ≡ found.old.items ++ hearings_in entry.now) }
{
    let heard = heard_in(alloc, entry.entry())?;
    let mut records = counted_records(alloc, heard)?.into_vec();
    while let Some(rr) = records.pop() {
        found.push(HeardRecord {
            rr: SharedRr::new(alloc, rr)?,
            moment: entry.moment(),
            word: entry.entry().word,
        })?;
    }
    Ok(())
}
