// The refresh points of a record, and which of them call for an asking. (RFC 6762 5.2)
ghost use Rattle.std.specs.Prelude.{◌≡◌, ◌+◌, ◌*◌, IsTrue};
ghost use Rattle.std.specs.Option.{option_to_list};
ghost use Rattle.mdns_history.specs.Lifetimes.{is_uncut};
ghost use Rattle.mdns_history.specs.Asking.{refresh_points, is_behind};
ghost use Rattle.mdns_question.specs.Next.{is_open};

use crate::Tracked;
use mdns_base::Moment;
use mdns_history::Held;

/// The refresh points of a record whose end is that of its TTL: at 80, 85, 90 and 95 percent of the TTL, and up to two
/// percent later. (RFC 6762 5.2)
#[tactic(auto, using(crate::proofs::Ends::jitter_within, crate::proofs::Ends::uncut_end))]
pub fn refresh_points(told: &Held) -> [u64; 4]
    requires { IsTrue (is_uncut told.now) }
    ensures { result ≡ refresh_points told.now }
{
    let heard = told.heard.ms();
    let ttl = u64::from(told.rr.ttl);
    let jitter = u64::from(told.word) % (20 * ttl + 1);
    [
        heard + ttl * 800 + jitter,
        heard + ttl * 850 + jitter,
        heard + ttl * 900 + jitter,
        heard + ttl * 950 + jitter,
    ]
}

/// Whether a refresh point lies in the record's life, and is later than the start and the last asking.
pub fn is_open(one: &Tracked, told: &Held, point: u64) -> bool
    ensures { result ≡ is_open one.now told.now point }
{
    point < told.end && one.start.ms() < point && is_behind(point, one.last)
}

fn is_behind(point: u64, last: Option<Moment>) -> bool
    ensures { result ≡ is_behind point (option_to_list last) }
{
    match last {
        Some(last) => last.ms() < point,
        None => true,
    }
}
