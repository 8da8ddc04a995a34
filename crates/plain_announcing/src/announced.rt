// Which groups are announced. (RFC 6762 8.3)
ghost use Rattle.std.specs.Prelude.{◌≡◌, ◌<◌, ◌^◌, length, IfOk};
ghost use Rattle.mdns_history.specs.Announcing.{announced_groups, is_announced_at, next_announcement};

use crate::claim::claim_moment;
use crate::moments::announcement_moments;
use mdns_base::Moment;
use plain_groups::{LiveGroup, sure_groups};
use plain_history::HistoryEntry;
use std::alloc::{AllocError, Global};

/// The time between two announcements, in ms.
const ANNOUNCEMENT_GAP: u64 = 1000;

/// The moment, in ms, from which on a group is announced that has its records since a moment and was announced at these, of which
/// the last stands first.
pub fn next_announcement(claimed: Moment, moments: &[Moment]) -> u64
    ensures { result ≡ next_announcement claimed moments.now }
{
    match moments {
        [last, ..] => last.ms() + ANNOUNCEMENT_GAP,
        [] => claimed.ms(),
    }
}

/// Whether a tick at a moment announces a sure group; the tick is the last entry of the history. Refused only for want of
/// memory.
pub fn is_announced_at(
    alloc: Global,
    history: &[HistoryEntry],
    moment: Moment,
    group: &LiveGroup,
) -> Result<bool, AllocError>
    requires { length history.now < 2 ^ 30 }
    ensures { IfOk result (λ announced. announced ≡ is_announced_at history.now moment group.now) }
{
    let moments = announcement_moments(alloc, group, history)?;
    let claimed = claim_moment(alloc, group, history)?;
    Ok(moments.len() < 2 && next_announcement(claimed, &moments) <= moment.ms())
}

/// The groups that a tick at a moment announces, by number; the tick is the last entry of the history. Refused only for
/// want of memory.
#[tactic(auto, unfolding(mdns_history::specs::Announcing::announced_groups))]
pub fn announced_groups(
    alloc: Global,
    history: &[HistoryEntry],
    moment: Moment,
) -> Result<Vec<LiveGroup>, AllocError>
    requires { length history.now < 2 ^ 30 }
    ensures { IfOk result (λ groups. groups.items ≡ announced_groups history.now moment) }
{
    let mut announced = Vec::new(alloc);
    for group in sure_groups(alloc, history)? {
        if is_announced_at(alloc, history, moment, &group)? {
            announced.push(group)?;
        }
    }
    Ok(announced)
}
