// When records that answer a question are to be refreshed. (RFC 6762 5.2)
ghost use Rattle.std.specs.Prelude.{◌≡◌, ◌&&◌, IfOk};
ghost use Rattle.std.specs.List.{list_any};
ghost use Rattle.dns_record.specs.Records.{matches};
ghost use Rattle.mdns_history.specs.Lifetimes.{is_uncut};
ghost use Rattle.mdns_history.specs.Asking.{calls_at, is_behind, is_refresh_due, refresh_points};

use crate::moments::asking_moments;
use crate::question::ActiveQuestion;
use dns_record::matches;
use mdns_base::Moment;
use mdns_history::Held;
use plain_history::{HistoryEntry, live_records};
use std::alloc::{AllocError, Global};

/// The refresh points, in ms, of a record: at 80, 85, 90 and 95 percent of its TTL, and up to two percent later.
#[tactic(auto, using(crate::proofs::Refreshes::jitter_within))]
pub fn refresh_points(held: &Held) -> [u64; 4]
    ensures { result ≡ refresh_points held.now }
{
    let heard = held.heard.ms();
    let ttl = u64::from(held.rr.ttl);
    let jitter = u64::from(held.word) % (20 * ttl + 1);
    [
        heard + ttl * 800 + jitter,
        heard + ttl * 850 + jitter,
        heard + ttl * 900 + jitter,
        heard + ttl * 950 + jitter,
    ]
}

// Whether a point, in ms, is later than the last of some moments.
fn is_behind(point: u64, moments: &[Moment]) -> bool
    ensures { result ≡ is_behind point moments.now }
{
    match moments.first() {
        Some(last) => last.ms() < point,
        None => true,
    }
}

// Whether a refresh point, in ms, calls for an asking at a moment, behind the askings at these moments.
fn calls_at(active: &ActiveQuestion, askings: &[Moment], moment: Moment, point: u64) -> bool
    ensures { result ≡ calls_at active.now askings.now moment point }
{
    point <= moment.ms() && active.start.ms() < point && is_behind(point, askings)
}

// Whether one of the refresh points of a record calls for an asking.
fn is_one_due(active: &ActiveQuestion, askings: &[Moment], moment: Moment, held: &Held) -> bool
    ensures { result ≡ list_any (calls_at active.now askings.now moment) (refresh_points held.now) }
{
    let points = refresh_points(held);
    points
        .iter()
        .any(|point| calls_at(active, askings, moment, *point))
}

// Whether a record answers a question, is uncut, and is to be refreshed.
fn is_wanted(active: &ActiveQuestion, askings: &[Moment], moment: Moment, held: &Held) -> bool
    ensures { result ≡ ((matches active.now.key held.now.rr && is_uncut held.now) && list_any (calls_at active.now askings.now moment) (refresh_points held.now)) }
{
    matches(&active.key, &held.rr) && held.is_uncut() && is_one_due(active, askings, moment, held)
}

/// Whether a live record that answers a question is to be refreshed at a moment: one of its refresh points has come, and is later
/// than the start of the question and than its last asking. Refused only for want of memory.
#[tactic(auto, using(crate::proofs::Refreshes::refresh_told))]
pub fn is_refresh_due(
    alloc: Global,
    active: &ActiveQuestion,
    history: &[HistoryEntry],
    moment: Moment,
) -> Result<bool, AllocError>
    ensures { IfOk result (λ due. due ≡ is_refresh_due active.now history.now moment) }
{
    let askings = asking_moments(alloc, &active.key, history)?;
    let live = live_records(alloc, history, moment)?;
    Ok(is_one_wanted(active, &askings, moment, &live))
}

// Whether one of the records is to be refreshed.
fn is_one_wanted(active: &ActiveQuestion, askings: &[Moment], moment: Moment, live: &[Held]) -> bool
    ensures { result ≡ list_any (λ held. (matches active.now.key held.rr && is_uncut held) && list_any (calls_at active.now askings.now moment) (refresh_points held)) live.now }
{
    live.iter()
        .any(|held| is_wanted(active, askings, moment, held))
}
