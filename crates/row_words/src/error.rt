// Why nothing comes of a row.

use dns_name::NameError;
use dns_record::RecordError;
use std::alloc::AllocError;
use std::io;
use std::num::ParseIntError;
use thiserror::Error;

/// Why a row gives nothing.
#[derive(Debug, Drop, Error)]
pub enum RowError {
    /// It isn't written as a row is, or asks for what can't be asked.
    #[error("not understood")]
    NotUnderstood,
    /// A word in it is no number.
    #[error("no number")]
    NoNumber(#[from] ParseIntError),
    /// A text in it is no name.
    #[error("no name")]
    NoName(#[from] NameError),
    /// A text in it is no record.
    #[error("no record")]
    NoRecord(#[from] RecordError),
    /// Memory was refused.
    #[error("no memory")]
    NoMemory(#[from(alloc)] AllocError),
    /// The rows can't be read or what came of them can't be written.
    #[error("input or output failed")]
    Io(#[from] io::Error),
}
