// The statuses of the program.

/// Every daemon's history is legal.
pub const LEGAL: u8 = 0;

/// A row is the first with which its daemon's history isn't legal.
pub const ILLEGAL: u8 = 1;

/// There are words.
pub const USAGE: u8 = 2;

/// The text is no transcript's.
pub const BAD_LINE: u8 = 3;

/// The source failed.
pub const READ_FAULT: u8 = 4;

/// The sink failed.
pub const WRITE_FAULT: u8 = 5;

/// Memory was refused.
pub const NO_MEMORY: u8 = 6;

/// The input has more than 1,048,576 bytes.
pub const TOO_LARGE: u8 = 8;
