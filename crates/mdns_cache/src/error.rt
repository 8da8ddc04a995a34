ghost use Rattle.std.specs.Prelude.{◌≡◌};
ghost use Rattle.mdns_cache.specs.declared.error.HearError.TheVariants.{NoMemory};

use std::alloc::AllocError;

/// Why records aren't heard.
#[derive(Clone, Copy, Debug, PartialEq, Eq)]
pub enum HearError {
    /// More records would be live than the cache may hold.
    Full = 1,
    /// Memory is wanting.
    NoMemory = 2,
}

impl From<AllocError> for HearError {
    ghost from_gives = { λ _ e. e ≡ NoMemory };

    fn from(_error: AllocError) -> HearError {
        HearError::NoMemory
    }
}
