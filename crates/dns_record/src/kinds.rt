//! The numbers of the types of records, as messages have them.

/// An address of IPv4. (RFC 1035 3.4.1)
pub const A: u16 = 1;

/// An alias. (RFC 1035 3.3.1)
pub const CNAME: u16 = 5;

/// A pointer to another name. (RFC 1035 3.3.12)
pub const PTR: u16 = 12;

/// Text strings. (RFC 1035 3.3.14)
pub const TXT: u16 = 16;

/// An address of IPv6. (RFC 3596 2.1)
pub const AAAA: u16 = 28;

/// Where a service is reached. (RFC 2782)
pub const SRV: u16 = 33;

/// What a message says of itself, which is no record. (RFC 6891 6.1)
pub const OPT: u16 = 41;

/// The types that a name has. (RFC 4034 4, RFC 6762 6.1)
pub const NSEC: u16 = 47;

/// In a question: records of any type. (RFC 1035 3.2.3)
pub const ANY: u16 = 255;
