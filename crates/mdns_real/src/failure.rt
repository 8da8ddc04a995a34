// What becomes of a call of the system that failed.
ghost use Rattle.std.specs.Prelude.{◌≡◌};
ghost use Rattle.std.specs.IoError.{raw_os_error};
ghost use Rattle.mdns_real.specs.Lacks.{IsLack};

use crate::clock::nap;
use std::io::ErrorKind;
use std::{io, time};

/// Naps where the call that failed is to be tried again later. The error comes back where it is a fault.
pub(crate) fn pass_over<R: time::Clock>(rt: &R, error: io::Error) -> io::Result<()> {
    match failure_of(&error) {
        Failure::Passing => Ok(()),
        Failure::Lacking => {
            nap(rt);
            Ok(())
        }
        Failure::Fault => Err(error),
    }
}

// What comes of a call that failed.
#[derive(Clone, Copy, Debug, PartialEq, Eq)]
enum Failure {
    // The call is tried again at once.
    Passing,
    // The call is tried again after a nap.
    Lacking,
    // It is a fault.
    Fault,
}

// What an error comes to.
//
// - `Lacking`: there is no room for a connection or a packet yet, and there is once something was given back: this process
//   (EMFILE, 24) or the machine (ENFILE, 23) has no file descriptor left, or the machine has no memory left
//   (ENOMEM, 12, and ENOBUFS, 105). Clients that stay connected can bring that about, so it mustn't end the server.
// - `Passing`: the call was interrupted, or the client or the peer went away again.
// - `Fault`: any other.
fn failure_of(error: &io::Error) -> Failure
    ensures waits { IsLack (raw_os_error error.now) → result ≡ Failure.Lacking }
    ensures only { result ≡ Failure.Lacking → IsLack (raw_os_error error.now) }
{
    match error.raw_os_error() {
        Some(12 | 23 | 24 | 105) => Failure::Lacking,
        _ if is_passing(error.kind()) => Failure::Passing,
        _ => Failure::Fault,
    }
}

// Whether a failed call is to be tried again at once.
fn is_passing(kind: ErrorKind) -> bool {
    matches!(
        kind,
        ErrorKind::ConnectionAborted | ErrorKind::ConnectionRefused | ErrorKind::Interrupted
    )
}
