// Why the program said nothing of a text, in words for a person. No clause speaks of it.
use crate::stop::{NO_MEMORY, READ_FAULT, TOO_LARGE, USAGE, WRITE_FAULT};

/// What is said of a status with which no line was printed whole.
pub fn why(status: u8) -> &'static str {
    match status {
        USAGE => "usage: mdns-check < TRANSCRIPT (mdns-check --help says more)",
        READ_FAULT => "standard input can't be read",
        WRITE_FAULT => "standard output can't be written",
        NO_MEMORY => "out of memory",
        TOO_LARGE => "the transcript has more than 1048576 bytes",
        _ => "failed",
    }
}
