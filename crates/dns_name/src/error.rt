/// Why a text is no name, or a name has no room: the first fault from the left.
#[derive(Clone, Copy, Debug, PartialEq, Eq)]
pub enum NameError {
    /// A label without a byte: a dot with no label before it, or an empty text.
    EmptyLabel = 1,
    /// A label with a 64th byte. (RFC 1035 3.1)
    LongLabel = 2,
    /// A wire form with a 256th byte. (RFC 1035 3.1)
    LongName = 3,
    /// A backslash with neither a dot, a backslash nor three decimal digits up to 255 behind it. (RFC 1035 5.1)
    BadEscape = 4,
}
