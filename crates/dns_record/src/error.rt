ghost use Rattle.std.specs.Prelude.{◌≡◌};
ghost use Rattle.dns_record.specs.declared.error.RecordError.TheVariants.{NoMemory};

use std::alloc::AllocError;

/// Why a text isn't read as a record.
#[derive(Clone, Copy, Debug, PartialEq, Eq)]
pub enum RecordError {
    /// The text is no record's.
    BadText,
    /// Memory is wanting.
    NoMemory,
}

impl From<AllocError> for RecordError {
    ghost from_gives = { λ _ e. e ≡ NoMemory };

    fn from(_error: AllocError) -> RecordError {
        RecordError::NoMemory
    }
}
