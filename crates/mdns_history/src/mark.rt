// What an entry notes beside what it sends and gives.
use dns_record::Key;
use lists::List;

/// Why a question counts as asked.
#[derive(Clone, Copy, Debug, PartialEq, Eq)]
pub enum Cause {
    /// Its turn came in the series of askings. (RFC 6762 5.2)
    Series,
    /// A record of its answers is about to end. (RFC 6762 5.2)
    Refresh,
    /// Another host asked it. (RFC 6762 7.3)
    Heard,
}

/// What an entry notes beside what it sends and gives.
#[derive(Drop)]
pub enum Mark {
    /// The packet spells no message; the number tells why.
    Bad { number: u8 },
    /// The packet would bring too many records, and isn't heard.
    Full,
    /// A group takes another name, of this number. (RFC 6762 9)
    Renamed { group: u64, number: u32 },
    /// An established group has to claim its name again. (RFC 6762 9)
    Contested { group: u64 },
    /// A group that probes lost a tie with another prober. (RFC 6762 8.2)
    TieLost { group: u64 },
    /// A group that may not be renamed lost its name.
    Failed { group: u64 },
    /// A question counts as asked.
    Asked { question: Key, cause: Cause },
    /// A group's records are announced. (RFC 6762 8.3)
    Announced { group: u64 },
    /// A session's queue passed its limit: it is given nothing more.
    Cut { session: u64 },
}

/// The marks of an entry, in their order.
pub type Marks = List<Mark>;
