// How a run ends.
use sd_client::ClientError;
use std::alloc::AllocError;

/// How a run ends. The number is the status of the program.
#[derive(Clone, Copy, Debug, PartialEq, Eq)]
pub enum Ending {
    /// As many lines as were asked for were printed.
    Done = 0,
    /// The words are no command.
    Usage = 1,
    /// There is no daemon, or the connection failed.
    PeerFault = 2,
    /// The daemon refused the request.
    Refused = 3,
    /// The daemon ended the connection.
    Ended = 4,
    /// The output failed.
    WriteFault = 5,
    /// Memory was refused.
    NoMemory = 6,
    /// What the daemon sent is no item.
    BadFrame = 7,
    /// 4,294,967,295 items came, and the count of lines wasn't reached.
    TooMany = 8,
}

impl From<ClientError> for Ending {
    ghost use Rattle.std.specs.Prelude.{◌≡◌};
    ghost use Rattle.sd_command.specs.Endings.{ending_of};

    ghost from_gives = { λ error e. e ≡ ending_of error };

    fn from(error: ClientError) -> Ending {
        match error {
            ClientError::BadParam => Ending::Usage,
            ClientError::PeerFault => Ending::PeerFault,
            ClientError::Ended => Ending::Ended,
            ClientError::BadFrame => Ending::BadFrame,
            ClientError::NoMemory => Ending::NoMemory,
        }
    }
}

impl From<AllocError> for Ending {
    ghost use Rattle.std.specs.Prelude.{◌≡◌};
    ghost use Rattle.sd_command.specs.declared.ending.Ending.TheVariants.{NoMemory};

    ghost from_gives = { λ _ e. e ≡ NoMemory };

    fn from(_error: AllocError) -> Ending {
        Ending::NoMemory
    }
}
