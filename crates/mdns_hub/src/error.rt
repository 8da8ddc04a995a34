// Why a command could not be done.
use std::alloc::AllocError;
use thiserror::Error;

/// Why a command could not be done.
#[derive(Clone, Copy, Debug, PartialEq, Eq, Error)]
pub enum HubError {
    /// The command is bad at this place of the script. Nothing was done.
    #[error("the command is bad at its place")]
    BadCommand = 1,
    /// The sink failed.
    #[error("the sink failed")]
    WriteFault = 2,
    /// Memory was refused.
    #[error("memory was refused")]
    NoMemory = 3,
}

impl From<AllocError> for HubError {
    ghost use Rattle.std.specs.Prelude.{◌≡◌};
    ghost use Rattle.mdns_hub.specs.declared.error.HubError.TheVariants.{NoMemory};

    ghost from_gives = { λ _ e. e ≡ NoMemory };

    fn from(_: AllocError) -> Self {
        HubError::NoMemory
    }
}
