// The first refresh point of a record. (RFC 6762 5.2)
ghost use Rattle.std.specs.Prelude.{◌≡◌, filter, min, IsTrue, if◌then◌else◌};
ghost use Rattle.lists.specs.Lists.{least_of};
ghost use Rattle.mdns_history.specs.Asking.{refresh_points};
ghost use Rattle.mdns_history.specs.Lifetimes.{is_uncut};
ghost use Rattle.mdns_question.specs.Next.{is_open, open_in};

use crate::Tracked;
use crate::points::{is_open, refresh_points};
use dns_record::matches;
use mdns_history::Held;

/// The least of a moment and of the refresh points of a record that call for an asking.
pub fn next_with(one: &Tracked, told: &Held, earliest: u64) -> u64
    ensures { result ≡ least_of earliest (open_in one.now told.now) }
{
    if !told.is_uncut() {
        return earliest;
    }
    // Names take longest to compare, so they are compared only where there is an earlier point.
    let next = next_among(one, told, earliest);
    if earliest <= next {
        return earliest;
    }
    if matches(&one.key, &told.rr) {
        next
    } else {
        earliest
    }
}

// The same, whether or not the record answers the question.
fn next_among(one: &Tracked, told: &Held, earliest: u64) -> u64
    requires { IsTrue (is_uncut told.now) }
    ensures { result ≡ least_of earliest (filter (is_open one.now told.now) (refresh_points told.now)) }
{
    let mut next = earliest;
    let points = refresh_points(told);
    for point in &points {
        next = next_at(one, told, *point, next);
    }
    next
}

fn next_at(one: &Tracked, told: &Held, point: u64, earliest: u64) -> u64
    ensures { result ≡ (if is_open one.now told.now point then min earliest point else earliest) }
{
    if is_open(one, told, point) {
        earliest.min(point)
    } else {
        earliest
    }
}
