// When groups were announced. (RFC 6762 8.3)
ghost use Rattle.std.specs.Prelude.{◌≡◌, ◌<◌, ◌^◌, length, IfOk};
ghost use Rattle.mdns_history.specs.History.{has_mark};
ghost use Rattle.mdns_history.specs.Announcing.{announcement_moments, is_announcement_of};

use crate::claim::renews_last;
use mdns_base::Moment;
use mdns_history::{Entry, Mark};
use plain_groups::{LiveGroup, put_moment_if};
use plain_history::HistoryEntry;
use std::alloc::{AllocError, Global};

fn is_announcement_of(id: u64, mark: &Mark) -> bool
    ensures { result ≡ is_announcement_of id mark.now }
{
    match mark {
        Mark::Announced { group } => *group == id,
        _ => false,
    }
}

// Whether an entry announced a group.
fn announces(id: u64, entry: &Entry) -> bool
    ensures { result ≡ has_mark (is_announcement_of id) entry.now }
{
    entry
        .marks
        .as_slice()
        .iter()
        .any(|mark| is_announcement_of(id, mark))
}

/// The moments at which a group was announced, from the last entry on with which it became sure or its records changed; the
/// last first. Refused only for want of memory.
#[tactic(auto, using(crate::proofs::Renewals::announced_never))]
pub fn announcement_moments(
    alloc: Global,
    group: &LiveGroup,
    history: &[HistoryEntry],
) -> Result<Vec<Moment>, AllocError>
    requires { length history.now < 2 ^ 30 }
    ensures { IfOk result (λ moments. moments.items ≡ announcement_moments group.now history.now) }
{
    let mut moments = Vec::new(alloc);
    let mut rest = history;
    while let Some((entry, past)) = rest.split_first() {
        let announced = announces(group.id, entry.entry());
        put_moment_if(&mut moments, announced, entry)?;
        let renews = renews_last(alloc, group, rest)?;
        if renews {
            return Ok(moments);
        }
        rest = past;
    }
    Ok(moments)
}
