use mdns_base::Failed;
use std::alloc::AllocError;

/// Why no frame was read.
#[derive(Clone, Copy, Debug, PartialEq, Eq)]
pub enum FrameError {
    /// The length word is below 5 or above 65,536.
    BadLength = 1,
    /// The kind is none that this side reads.
    BadKind = 2,
    /// The body isn't one of the kind.
    BadBody = 3,
    /// The source ended within the frame.
    Truncated = 4,
    /// The source failed.
    ReadFault = 5,
    /// Memory was refused.
    NoMemory = 6,
}

impl From<AllocError> for FrameError {
    ghost use Rattle.std.specs.Prelude.{◌≡◌};
    ghost use Rattle.sd_ipc.specs.declared.error.FrameError.TheVariants.{NoMemory};

    ghost from_gives = { λ _ e. e ≡ NoMemory };

    fn from(_error: AllocError) -> FrameError {
        FrameError::NoMemory
    }
}

impl From<Failed> for FrameError {
    ghost use Rattle.std.specs.Prelude.{◌≡◌};
    ghost use Rattle.sd_ipc.specs.declared.error.FrameError.TheVariants.{ReadFault};

    ghost from_gives = { λ _ e. e ≡ ReadFault };

    fn from(_error: Failed) -> FrameError {
        FrameError::ReadFault
    }
}
