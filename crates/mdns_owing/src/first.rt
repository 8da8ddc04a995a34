// The first moment from which on some of what queries are owed may be sent.
ghost use Rattle.std.specs.Prelude.{◌≡◌, ◌<◌, ◌≤◌, length, slice_index_or, IfNone, IfSome};
ghost use Rattle.mdns_debts.specs.Following.{next_reply};
ghost use Rattle.mdns_owing.specs.Owing.{last_in, moments_of, AreNoSooner};

use crate::query::Query;
use mdns_reply::Lasts;
use mdns_timer::{Deadlines, earlier};

/// The first moment, in ms, from which on some of what these queries are owed may be sent. What is due later than one that was found isn't
/// looked at: nothing of it may be sent before it is due. (RFC 6762 6)
pub fn first_due(queries: &[Query], deadlines: &Deadlines, lasts: &Lasts) -> Option<u64>
    requires { deadlines.now.moments ≡ moments_of queries.now }
    ensures { result ≡ next_reply (last_in lasts.now.lasts) queries.now }
{
    let mut first = None;
    let mut from = 0;
    while let Some(place) = next_sooner(deadlines, first, from) {
        first = earlier(first, queries[place].next_due(lasts));
        from = place + 1;
    }
    first
}

// The first place from one on that is due before a moment, if there is one.
fn next_sooner(deadlines: &Deadlines, first: Option<u64>, from: usize) -> Option<usize>
    ensures none { IfNone result (AreNoSooner deadlines.now.moments first from (length deadlines.now.moments)) }
    ensures behind { IfSome result (λ place. from ≤ place) }
    ensures within { IfSome result (λ place. place < length deadlines.now.moments) }
    ensures some { IfSome result (AreNoSooner deadlines.now.moments first from) }
{
    match first {
        Some(first) => deadlines.next_due(from, first.saturating_sub(1)),
        None if from < deadlines.len() => Some(from),
        None => None,
    }
}
