use std::alloc::AllocError;

/// Why a TXT record is not made or changed.
#[derive(Clone, Copy, Debug, PartialEq, Eq)]
pub enum TxtError {
    /// A key is empty, or has a byte that is `=` or no visible ASCII character or space.
    BadKey = 1,
    /// A key with its value takes more than 255 bytes.
    LongEntry = 2,
    /// The whole record would take more than 8192 bytes.
    LongTxt = 3,
    /// Memory ran out.
    NoMemory = 4,
}

impl From<AllocError> for TxtError {
    ghost use Rattle.std.specs.Prelude.{◌≡◌};
    ghost use Rattle.txt_record.specs.declared.error.TxtError.TheVariants.{NoMemory};

    ghost from_gives = { λ _ e. e ≡ NoMemory };

    fn from(_error: AllocError) -> TxtError {
        TxtError::NoMemory
    }
}
