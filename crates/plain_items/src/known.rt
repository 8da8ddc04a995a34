// The records that are known.
ghost use Rattle.std.specs.Prelude.{◌≡◌, ◌<◌, ◌^◌, length, IfOk};
ghost use Rattle.mdns_history.specs.Answers.{known_records};

use dns_record::Rr;
use plain_groups::own_records;
use plain_history::{HistoryEntry, live_records, now};
use std::alloc::{AllocError, Global};

/// The records that are live at the last moment of a history, and then those that are own. Refused only for want of memory.
#[tactic(auto, unfolding(mdns_history::specs::Answers::known_records))]
pub fn known_records(alloc: Global, history: &[HistoryEntry]) -> Result<Vec<Rr>, AllocError>
    requires { length history.now < 2 ^ 30 }
    ensures { IfOk result (λ records. records.items ≡ known_records history.now) }
{
    let mut records = Vec::new(alloc);
    for held in live_records(alloc, history, now(history))? {
        records.push(held.rr.copy()?)?;
    }
    let mut own = own_records(alloc, history)?;
    records.append(&mut own)?;
    Ok(records)
}
