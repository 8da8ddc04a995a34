// Why the program ends before its input does.
use mdns_hub::HubError;
use std::alloc::AllocError;
use std::io;
use thiserror::Error;

/// Why the program ends before its input does.
#[derive(Debug, Drop, Error)]
pub enum ScriptError {
    /// Standard input or output failed.
    #[error("standard input or output failed")]
    Io(#[from] io::Error),
    /// A command couldn't be done.
    #[error("a command couldn't be done")]
    Hub(#[from] HubError),
    /// Memory was refused.
    #[error("memory was refused")]
    Memory(#[from] AllocError),
    /// A transcript is no text.
    #[error("a transcript is no text")]
    NoText,
}
