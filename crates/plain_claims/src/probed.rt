// Which groups a tick probes. (RFC 6762 8.1)
ghost use Rattle.std.specs.Prelude.{◌≡◌, ◌<◌, ◌^◌, length, IfOk};
ghost use Rattle.mdns_history.specs.Probing.{is_probed_at, probed_groups};

use crate::waiting::probe_due;
use mdns_base::Moment;
use plain_groups::{LiveGroup, groups, is_sure, probe_moments};
use plain_history::HistoryEntry;
use std::alloc::{AllocError, Global};

/// Whether a tick at a moment probes a group: one that isn't sure, that was probed less than three times since it was set
/// back, and whose next probe is due. Refused only for want of memory.
pub fn is_probed_at(
    alloc: Global,
    history: &[HistoryEntry],
    moment: Moment,
    group: &LiveGroup,
) -> Result<bool, AllocError>
    requires { length history.now < 2 ^ 30 }
    ensures { IfOk result (λ probed. probed ≡ is_probed_at history.now moment group.now) }
{
    let sure = is_sure(alloc, group, history)?;
    let moments = probe_moments(alloc, group, history)?;
    let due = probe_due(alloc, group, history)?;
    Ok(!sure && moments.len() < 3 && due <= moment.ms())
}

/// The groups that a tick at a moment probes, by number. Refused only for want of memory.
#[tactic(auto, unfolding(mdns_history::specs::Probing::probed_groups))]
pub fn probed_groups(
    alloc: Global,
    history: &[HistoryEntry],
    moment: Moment,
) -> Result<Vec<LiveGroup>, AllocError>
    requires { length history.now < 2 ^ 30 }
    ensures { IfOk result (λ probed. probed.items ≡ probed_groups history.now moment) }
{
    let mut probed = Vec::new(alloc);
    for group in groups(alloc, history)? {
        let due = is_probed_at(alloc, history, moment, &group)?;
        if due {
            probed.push(group)?;
        }
    }
    Ok(probed)
}
