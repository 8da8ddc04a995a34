// Why the program ends before its input does.
use std::alloc::AllocError;
use std::io;
use thiserror::Error;

/// Why the program ends before its input does.
#[derive(Debug, Drop, Error)]
pub enum TestError {
    /// Standard input or output failed.
    #[error("standard input or output failed")]
    Io(#[from] io::Error),
    /// Memory was refused.
    #[error("memory was refused")]
    Memory(#[from] AllocError),
    /// A transcript has more rows than are checked.
    #[error("a transcript has too many rows")]
    TooLong,
}
