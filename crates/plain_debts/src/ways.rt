// Where what is owed goes, and when. (RFC 6762 5.4, 6, 6.7 and 7.2)
ghost use Rattle.std.specs.Prelude.{◌≡◌, ◌≤◌};
ghost use Rattle.mdns_base.specs.Hosts.{dest_eq, host_eq};
ghost use Rattle.mdns_history.specs.Debts.{debt_wait, way_of};

use crate::last::{is_recent, last_multicast};
use dns_record::{Question, Rr};
use mdns_base::{Dest, Host, MDNS_PORT};
use plain_history::{HeardMessage, HistoryEntry};

/// Whether two hosts are one.
pub fn host_eq(left: &Host, right: &Host) -> bool
    ensures { result ≡ host_eq left.now right.now }
{
    left.ip == right.ip && left.port == right.port
}

/// Whether two ways of a packet are one.
pub fn dest_eq(left: &Dest, right: &Dest) -> bool
    ensures { result ≡ dest_eq left.now right.now }
{
    match (left, right) {
        (Dest::All, Dest::All) => true,
        (Dest::One(left), Dest::One(right)) => host_eq(left, right),
        _ => false,
    }
}

/// Where a record goes that a question is owed which an entry heard behind a history: to all, but to the asker where the question
/// asks for that and the record was multicast lately, and to another port than 5353. (RFC 6762 5.4 and 6.7)
pub fn way_of(
    heard: &HeardMessage,
    entry: &HistoryEntry,
    past: &[HistoryEntry],
    question: &Question,
    rr: &Rr,
) -> Dest
    ensures { result ≡ way_of heard.now entry.now.moment past.now question.now rr.now }
{
    let recent = is_recent(rr, entry.moment(), last_multicast(rr, past));
    if heard.from.port != MDNS_PORT || (question.unicast && recent) {
        Dest::One(heard.from)
    } else {
        Dest::All
    }
}

/// How long what a query is owed waits, in ms: 400 to 500 where it says that more follows, not at all where all records are unique,
/// and else 20 to 120. (RFC 6762 6 and 7.2)
pub fn debt_wait(heard: &HeardMessage, word: u32, all_unique: bool) -> u64
    ensures value { result ≡ debt_wait heard.now word all_unique }
    ensures bound { result ≤ 500 }
{
    if heard.message.truncated && heard.from.port == MDNS_PORT {
        400 + u64::from(word % 101)
    } else if all_unique {
        0
    } else {
        20 + u64::from(word % 101)
    }
}
