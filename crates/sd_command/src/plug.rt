// The daemon's Unix socket. It counts its faults, and tells nothing of what is said.
ghost use Rattle.std.specs.Prelude.{◌≡◌, None, IfOk};
ghost use Rattle.mdns_streams.specs.Adapters.{input_faults, stream_faults};

use mdns_base::Failed;
use mdns_outside::Plug;
use mdns_streams::{StreamSink, StreamSource};
use std::io;
use std::io::Eprint;
use std::net::Net;
use std::os::unix::net::UnixStream;

/// Connects to Unix sockets. It says on standard error, as `dns-sd`, where there is no daemon at a path, and where a connection failed.
#[derive(Drop)]
pub struct UnixPlug<R: Net + Eprint + Drop> {
    // What opens sockets, and prints.
    rt: R,
    // How often it failed; it stays at its greatest value.
    faults: u64,
}

impl<R: Net + Eprint + Drop> UnixPlug<R> {
    /// A plug without a fault.
    pub fn new(rt: R) -> Self
        ensures { result.faults ≡ 0 }
    {
        UnixPlug { rt, faults: 0 }
    }

    /// How often it failed. The count stays at 2^64 - 1 once there.
    pub fn faults(&self) -> u64
        ensures { result ≡ self.now.faults }
    {
        self.faults
    }

    // Both ends of a new connection.
    fn open(&self, path: &str) -> io::Result<(StreamSource, StreamSink)>
        ensures { IfOk result (λ ends. (input_faults ends.0 ≡ 0) × (stream_faults ends.1 ≡ 0)) }
    {
        let stream = UnixStream::connect(&self.rt, path)?;
        let other = stream.try_clone()?;
        Ok((StreamSource::new(stream), StreamSink::new(other)))
    }
}

impl<R: Net + Eprint + Drop> Plug for UnixPlug<R> {
    type In = StreamSource;

    type Out = StreamSink;

    ghost asked = { λ s. None };

    ghost coming = { λ s. None };

    ghost said = { λ s. None };

    ghost faults = { λ s. s.faults };

    fn connect(&mut self, path: &str) -> Result<(StreamSource, StreamSink), Failed> {
        match self.open(path) {
            Ok(ends) => Ok(ends),
            Err(error) => {
                let why = match error.kind() {
                    io::ErrorKind::NotFound | io::ErrorKind::ConnectionRefused => "no daemon at",
                    _ => "can't connect to",
                };
                let _ = eprintln!(self.rt; "dns-sd: {why} {path}: {error}");
                self.faults = self.faults.saturating_add(1);
                Err(Failed)
            }
        }
    }

    fn back(&mut self, input: StreamSource, output: StreamSink) {
        if input.faults() > 0 || output.faults() > 0 {
            let _ = eprintln!(self.rt; "dns-sd: the connection failed");
            self.faults = self.faults.saturating_add(1);
        }
    }
}
