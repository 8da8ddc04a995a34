// How the run of a script ends: its statuses, and why it stops before the end.
ghost use Rattle.std.specs.Prelude.{◌≡◌};
ghost use Rattle.mdns_play.specs.Stops.{status_of, stop_of};

use mdns_hub::HubError;
use std::alloc::AllocError;

/// Everything was done.
pub const DONE: u8 = 0;

/// A line is bad, or bad at its place.
pub const BAD_LINE: u8 = 3;

/// The source failed.
pub const READ_FAULT: u8 = 4;

/// The sink failed.
pub const WRITE_FAULT: u8 = 5;

/// Memory was refused.
pub const NO_MEMORY: u8 = 6;

/// The script has more than 67,108,864 bytes.
pub const TOO_LARGE: u8 = 8;

/// Why a script stopped before its end.
#[derive(Clone, Copy, Debug, PartialEq, Eq)]
pub enum Stop {
    /// A line is bad, or bad at its place.
    BadLine,
    /// The sink failed.
    WriteFault,
    /// Memory was refused.
    NoMemory,
}

/// The status of a run.
pub(crate) fn status_of(ran: Result<(), Stop>) -> u8
    ensures { result ≡ status_of ran }
{
    match ran {
        Ok(()) => DONE,
        Err(Stop::BadLine) => BAD_LINE,
        Err(Stop::WriteFault) => WRITE_FAULT,
        Err(Stop::NoMemory) => NO_MEMORY,
    }
}

impl From<AllocError> for Stop {
    ghost use Rattle.mdns_play.specs.declared.stop.Stop.TheVariants.{NoMemory};

    ghost from_gives = { λ _ e. e ≡ NoMemory };

    fn from(_: AllocError) -> Self {
        Stop::NoMemory
    }
}

impl From<HubError> for Stop {
    ghost from_gives = { λ e stop. stop ≡ stop_of e };

    fn from(error: HubError) -> Self {
        match error {
            HubError::BadCommand => Stop::BadLine,
            HubError::WriteFault => Stop::WriteFault,
            HubError::NoMemory => Stop::NoMemory,
        }
    }
}
