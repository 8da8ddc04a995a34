// Why no name stands at an offset.

/// Why no name stands at an offset of a message: the first fault in reading order.
#[derive(Clone, Copy, Debug, PartialEq, Eq)]
pub enum NameFault {
    /// The bytes end too early.
    Truncated,
    /// A pointer aims at or behind the labels that it ends. (RFC 1035 4.1.4)
    BadPointer,
    /// A label's length byte has one of the reserved forms. (RFC 1035 4.1.4)
    BadLabel,
    /// The name passes 255 bytes. (RFC 1035 3.1)
    LongName,
}
