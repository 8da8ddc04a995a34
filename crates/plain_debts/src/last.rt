// When records were last multicast. (RFC 6762 5.4, 6 and 10.1)
ghost use Rattle.std.specs.Prelude.{◌≡◌, ◌≤◌, ◌*◌, ◌^◌, ◌&&◌, IfSome};
ghost use Rattle.std.specs.List.{list_any};
ghost use Rattle.mdns_base.specs.declared.host.Dest.TheVariants.{All};
ghost use Rattle.mdns_base.specs.Hosts.{dest_eq};
ghost use Rattle.mdns_history.specs.Debts.{is_goodbye, is_long_ago, is_multicast, is_recent, last_multicast, multicast_change, multicasts_in, sections};
ghost use Rattle.plain_debts.specs.Multicasts.{multicasts_by};

use dns_message::Message;
use dns_record::Rr;
use mdns_base::{Dest, Moment};
use mdns_history::{Entry, Sent};
use plain_history::HistoryEntry;

/// Whether a record is among others with a TTL above 0.
pub fn is_multicast(rr: &Rr, rrs: &[Rr]) -> bool
    ensures { result ≡ is_multicast rr.now rrs.now }
{
    rrs.iter().any(|other| rr.same(other) && 0 < other.ttl)
}

// Whether a record is among others with TTL 0.
fn is_goodbye(rr: &Rr, rrs: &[Rr]) -> bool
    ensures { result ≡ is_goodbye rr.now rrs.now }
{
    rrs.iter().any(|other| rr.same(other) && other.ttl == 0)
}

// Whether a message has a record with a TTL above 0, in any section.
#[tactic(auto, using(crate::proofs::Sections::multicast_sections))]
fn has_live(rr: &Rr, message: &Message) -> bool
    ensures { result ≡ is_multicast rr.now (sections message.now) }
{
    is_multicast(rr, message.answers.as_slice())
        || is_multicast(rr, message.authority.as_slice())
        || is_multicast(rr, message.additional.as_slice())
}

// Whether a message has a record with TTL 0, in any section.
#[tactic(auto, using(crate::proofs::Sections::goodbye_sections))]
fn has_gone(rr: &Rr, message: &Message) -> bool
    ensures { result ≡ is_goodbye rr.now (sections message.now) }
{
    is_goodbye(rr, message.answers.as_slice())
        || is_goodbye(rr, message.authority.as_slice())
        || is_goodbye(rr, message.additional.as_slice())
}

// Whether a message is a response to all.
fn is_multicast_response(sent: &Sent) -> bool
    ensures { result ≡ (sent.now.message.response && dest_eq sent.now.to All) }
{
    sent.message.response && matches!(sent.to, Dest::All)
}

// Whether a message multicasts a record with a TTL above 0.
fn multicasts(rr: &Rr, sent: &Sent) -> bool
    ensures { result ≡ is_multicast rr.now (multicasts_by sent.now) }
{
    is_multicast_response(sent) && has_live(rr, &sent.message)
}

// Whether a message multicasts a record with TTL 0.
fn takes_back(rr: &Rr, sent: &Sent) -> bool
    ensures { result ≡ is_goodbye rr.now (multicasts_by sent.now) }
{
    is_multicast_response(sent) && has_gone(rr, &sent.message)
}

fn is_one_multicast(rr: &Rr, sent: &[Sent]) -> bool
    ensures { result ≡ list_any (λ one. is_multicast rr.now (multicasts_by one)) sent.now }
{
    sent.iter().any(|one| multicasts(rr, one))
}

fn is_one_goodbye(rr: &Rr, sent: &[Sent]) -> bool
    ensures { result ≡ list_any (λ one. is_goodbye rr.now (multicasts_by one)) sent.now }
{
    sent.iter().any(|one| takes_back(rr, one))
}

/// Whether an entry multicasts a record with a TTL above 0.
#[tactic(auto, using(crate::proofs::Sections::multicast_told))]
pub fn is_multicast_in(rr: &Rr, entry: &Entry) -> bool
    ensures { result ≡ is_multicast rr.now (multicasts_in entry.now) }
{
    is_one_multicast(rr, entry.sent.as_slice())
}

// Whether an entry takes back a record with TTL 0.
#[tactic(auto, using(crate::proofs::Sections::goodbye_told))]
fn is_goodbye_in(rr: &Rr, entry: &Entry) -> bool
    ensures { result ≡ is_goodbye rr.now (multicasts_in entry.now) }
{
    is_one_goodbye(rr, entry.sent.as_slice())
}

// What an entry says of a record's last multicast: its moment, that it was taken back, or nothing.
fn multicast_change(rr: &Rr, entry: &HistoryEntry) -> Option<Option<Moment>>
    ensures { result ≡ multicast_change rr.now entry.now }
{
    if is_multicast_in(rr, entry.entry()) {
        return Some(Some(entry.moment()));
    }
    if is_goodbye_in(rr, entry.entry()) {
        return Some(None);
    }
    None
}

/// The moment of the last multicast of a record since it was last taken back.
#[tactic(auto, unfolding(mdns_history::specs::Debts::last_multicast))]
pub fn last_multicast(rr: &Rr, history: &[HistoryEntry]) -> Option<Moment>
    ensures { result ≡ last_multicast rr.now history.now }
{
    for entry in history {
        if let Some(last) = multicast_change(rr, entry) {
            return last;
        }
    }
    None
}

/// Whether so much time, in ms, has passed since a moment, if there is one.
pub fn is_long_ago(gap: u64, moment: Moment, last: Option<Moment>) -> bool
    ensures { result ≡ is_long_ago gap moment last }
{
    match last {
        Some(last) => last.ms() <= moment.ms() && gap <= moment.ms() - last.ms(),
        None => true,
    }
}

/// Whether less than a quarter of a record's TTL has passed since its last multicast. (RFC 6762 5.4)
pub fn is_recent(rr: &Rr, moment: Moment, last: Option<Moment>) -> bool
    ensures { result ≡ is_recent rr.now moment last }
{
    match last {
        Some(last) => 4 * moment.ms().saturating_sub(last.ms()) < rr.ttl_ms(),
        None => false,
    }
}
