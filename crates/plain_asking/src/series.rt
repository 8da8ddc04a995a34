// The series in which a question is asked. (RFC 6762 5.2)
ghost use Rattle.std.specs.Prelude.{◌≡◌, ◌≤◌, suc, IfOk};
ghost use Rattle.mdns_history.specs.Asking.{next_in_series, series_due, series_gap};

use crate::moments::series_moments;
use crate::question::ActiveQuestion;
use mdns_base::Moment;
use plain_history::HistoryEntry;
use std::alloc::{AllocError, Global};

/// The longest gap between two askings of the series, in ms: an hour.
const HOUR: u64 = 3_600_000;

// The gap, in ms, behind an asking of the series with so many earlier ones: a second, twice as long each time, an hour at most.
#[tactic(auto, using(crate::proofs::Gaps::gap_first, crate::proofs::Gaps::gap_next, crate::proofs::Gaps::gap_bound))]
fn gap_behind(earlier: usize) -> u64
    ensures value { result ≡ series_gap (suc earlier) }
    ensures bound { result ≤ 3600000 }
{
    let mut gap = 1000;
    for _asking in 0..earlier {
        gap = HOUR.min(2 * gap);
    }
    gap
}

// The moment, in ms, of the next asking behind those at these moments.
fn next_in_series(active: &ActiveQuestion, moments: &[Moment]) -> u64
    ensures { result ≡ next_in_series active.now moments.now }
{
    match moments.split_first() {
        Some((last, earlier)) => last.ms() + gap_behind(earlier.len()),
        None => active.start.ms() + 20 + u64::from(active.word % 101),
    }
}

/// The moment, in ms, from which on a question is due in its series: 20 to 120 ms after its start, and then a gap after the last
/// asking. Refused only for want of memory.
#[tactic(auto, unfolding(mdns_history::specs::Asking::series_due))]
pub fn series_due(
    alloc: Global,
    active: &ActiveQuestion,
    history: &[HistoryEntry],
) -> Result<u64, AllocError>
    ensures { IfOk result (λ due. due ≡ series_due active.now history.now) }
{
    let moments = series_moments(alloc, &active.key, history)?;
    Ok(next_in_series(active, &moments))
}
