// A question that is asked for.
ghost use Rattle.std.specs.Prelude.{◌≡◌, ◌≤◌, ◌^◌};
ghost use Rattle.mdns_history.specs.Asking.{is_counted};
ghost use Rattle.mdns_question.specs.Tracking.{begun, asked_at};

use dns_record::Key;
use mdns_base::Moment;
use mdns_history::Cause;

/// The longest gap between two askings of the series: an hour, in ms. (RFC 6762 5.2)
const HOUR: u64 = 3_600_000;

/// A question that has users, and when it was asked and is next due in its series. Moments are in ms. (RFC 6762 5.2)
#[derive(Drop)]
pub struct Tracked {
    /// The question, as its first user spelled it.
    pub key: Key,
    /// The moment at which its first user came.
    pub start: Moment,
    /// The random word of that moment's entry.
    pub word: u32,
    /// How many users it has. A count of 2^64 - 1 stays where one more comes.
    pub users: u64,
    /// The moment from which on it is due in the series.
    pub next: u64,
    /// How long after the next asking that counts in the series the one behind it is due, in ms: an hour where this is more.
    pub gap: u64,
    /// The moment at which it was last asked, for any cause.
    pub last: Option<Moment>,
    /// The first refresh point of the records that answer it which calls for an asking, as it was told last.
    pub refresh: Option<u64>,
}

impl Tracked {
    /// An equal question. It takes no memory.
    pub fn copy(&self) -> Tracked
        ensures { result ≡ self.now }
    {
        Tracked {
            key: self.key.copy(),
            start: self.start,
            word: self.word,
            users: self.users,
            next: self.next,
            gap: self.gap,
            last: self.last,
            refresh: self.refresh,
        }
    }
}

/// A question that gets its first user: it is first due 20 to 120 ms later. (RFC 6762 5.2)
pub fn begun(now: Moment, word: u32, question: &Key) -> Tracked
    ensures { result ≡ begun now word question.now }
{
    Tracked {
        key: question.copy(),
        start: now,
        word,
        users: 1,
        next: now.ms() + 20 + u64::from(word % 101),
        gap: 1000,
        last: None,
        refresh: None,
    }
}

/// Notes that the question was asked. An asking that counts in the series puts the next one a gap later, and doubles the
/// gap. (RFC 6762 5.2)
pub fn note_asking(one: &mut Tracked, now: Moment, cause: Cause)
    ensures { one.new ≡ asked_at now cause one.old }
{
    one.last = Some(now);
    if is_counted(cause) {
        let gap = one.gap.min(HOUR);
        one.next = now.ms() + gap;
        one.gap = 2 * gap;
    }
}

// Whether an asking of this cause counts in the series.
fn is_counted(cause: Cause) -> bool
    ensures { result ≡ is_counted cause }
{
    match cause {
        Cause::Series | Cause::Heard => true,
        Cause::Refresh => false,
    }
}
