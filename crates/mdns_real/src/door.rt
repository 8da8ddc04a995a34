// Connections at a Unix socket. They tell nothing of what is said.
ghost use Rattle.std.specs.Prelude.{◌≡◌, None, false};

use crate::failure::pass_over;
use mdns_base::Failed;
use mdns_outside::Door;
use mdns_streams::{StreamSink, StreamSource};
use std::io::ErrorKind;
use std::os::unix::net::{UnixListener, UnixStream};
use std::{io, time};

/// The clients that connect to a socket. While the machine has no file descriptor or no memory for the next one, it waits.
#[derive(Drop)]
pub struct UnixDoor<R: time::Clock + Drop> {
    rt: R,
    listener: UnixListener,
    faults: u64,
    // Why it failed last.
    why: Option<io::Error>,
}

impl<R: time::Clock + Drop> UnixDoor<R> {
    ghost use Rattle.mdns_real.specs.Doors.{door_faults};

    /// The door of a socket, without a fault.
    pub fn new(rt: R, listener: UnixListener) -> Self
        ensures { door_faults result ≡ 0 }
    {
        UnixDoor {
            rt,
            listener,
            faults: 0,
            why: None,
        }
    }

    /// How often it failed. The count stays at 2^64 - 1 once there.
    pub fn faults(&self) -> u64
        ensures { result ≡ door_faults self.now }
    {
        self.faults
    }

    /// Why it failed last; `None` where it didn't.
    pub(crate) fn into_why(self) -> Option<io::Error> {
        self.why
    }

    // Both ends of the next client's connection.
    fn accept(&self) -> io::Result<(StreamSource, StreamSink)> {
        let stream = self.connection()?;
        let other = self.second_end(&stream)?;
        Ok((StreamSource::new(stream), StreamSink::new(other)))
    }

    // The next connection. One that went away again is passed over.
    fn connection(&self) -> io::Result<UnixStream> {
        for _ in 0..u64::MAX {
            match self.listener.accept() {
                Ok((stream, _)) => return Ok(stream),
                Err(error) => pass_over(&self.rt, error)?,
            }
        }
        Err(io::Error::from(ErrorKind::Other))
    }

    // A second descriptor of a connection.
    fn second_end(&self, stream: &UnixStream) -> io::Result<UnixStream> {
        for _ in 0..u64::MAX {
            match stream.try_clone() {
                Ok(other) => return Ok(other),
                Err(error) => pass_over(&self.rt, error)?,
            }
        }
        Err(io::Error::from(ErrorKind::Other))
    }
}

impl<R: time::Clock + Drop> Door for UnixDoor<R> {
    ghost use Rattle.mdns_real.specs.Doors.{door_faults};

    type In = StreamSource;

    type Out = StreamSink;

    ghost over = { λ s. false };

    ghost given = { λ s. None };

    ghost faults = { λ s. door_faults s };

    fn next(&mut self) -> Result<Option<(StreamSource, StreamSink)>, Failed> {
        match self.accept() {
            Ok(ends) => Ok(Some(ends)),
            Err(error) => {
                self.faults = self.faults.saturating_add(1);
                self.why = Some(error);
                Err(Failed)
            }
        }
    }
}
