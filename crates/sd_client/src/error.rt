// Why a call of a client failed.
use sd_ipc::FrameError;
use std::alloc::AllocError;
use thiserror::Error;

/// Why a call of a client failed.
#[derive(Clone, Copy, Debug, PartialEq, Eq, Error)]
pub enum ClientError {
    /// A text is longer than 1024 bytes or no name where a name is wanted, TXT data are longer than 8192 bytes, or the
    /// flags are neither 0 nor 8. Nothing was sent.
    #[error("a faulty argument")]
    BadParam = 1,
    /// The connection failed.
    #[error("the connection failed")]
    PeerFault = 2,
    /// The connection is over.
    #[error("the connection is over")]
    Ended = 3,
    /// What came is no item.
    #[error("what came is no item")]
    BadFrame = 4,
    /// Memory was refused.
    #[error("memory was refused")]
    NoMemory = 5,
}

impl From<AllocError> for ClientError {
    ghost use Rattle.std.specs.Prelude.{◌≡◌};
    ghost use Rattle.sd_client.specs.declared.error.ClientError.TheVariants.{NoMemory};

    ghost from_gives = { λ _ e. e ≡ NoMemory };

    fn from(_error: AllocError) -> ClientError {
        ClientError::NoMemory
    }
}

impl From<FrameError> for ClientError {
    ghost use Rattle.std.specs.Prelude.{◌≡◌};
    ghost use Rattle.sd_client.specs.Errors.{error_of};

    ghost from_gives = { λ fault e. e ≡ error_of fault };

    fn from(fault: FrameError) -> ClientError {
        match fault {
            FrameError::ReadFault => ClientError::PeerFault,
            FrameError::NoMemory => ClientError::NoMemory,
            FrameError::BadLength
            | FrameError::BadKind
            | FrameError::BadBody
            | FrameError::Truncated => ClientError::BadFrame,
        }
    }
}
