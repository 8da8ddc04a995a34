// Why a row has no answer.
use dns_record::RecordError;
use std::alloc::{AllocError, AllocFailed};
use std::io;
use thiserror::Error;

/// Why a row has no answer.
#[derive(Debug, Drop, Error)]
pub enum RowError {
    /// Standard input or output failed.
    #[error("standard input or output failed")]
    Io(#[from] io::Error),
    /// Memory was refused.
    #[error("memory was refused")]
    Memory(#[from] AllocError),
    /// The row has none of the forms, or can't be asked of this history.
    #[error("the row isn't understood")]
    NotUnderstood,
}

impl From<RecordError> for RowError {
    fn from(error: RecordError) -> Self {
        match error {
            RecordError::BadText => RowError::NotUnderstood,
            RecordError::NoMemory => RowError::Memory(AllocError),
        }
    }
}

impl<T: Drop> From<AllocFailed<T>> for RowError {
    fn from(_: AllocFailed<T>) -> Self {
        RowError::Memory(AllocError)
    }
}
