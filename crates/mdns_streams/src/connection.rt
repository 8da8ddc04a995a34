// Both ends of a connection over a Unix stream.
ghost use Rattle.std.specs.Prelude.{◌≡◌, None};

use crate::adapters::{Input, Output};
use mdns_base::{Failed, Sink};
use std::net::Shutdown;
use std::os::unix::net::UnixStream;

/// What the other side of a connection says.
pub type StreamSource = Input<UnixStream>;

/// What is said to the other side of a connection. It tells nothing of that.
#[derive(Drop)]
pub struct StreamSink {
    // The writer of the connection, and its count.
    output: Output<UnixStream>,
}

impl StreamSink {
    ghost use Rattle.mdns_streams.specs.Adapters.{stream_faults};

    /// A sink over a connection, without a fault so far.
    pub fn new(stream: UnixStream) -> StreamSink
        ensures { stream_faults result ≡ 0 }
    {
        StreamSink {
            output: Output::new(stream),
        }
    }

    /// How often a write failed. The count stays at 2^64 - 1 once there.
    pub fn faults(&self) -> u64
        ensures { result ≡ stream_faults self.now }
    {
        self.output.faults()
    }
}

impl Sink for StreamSink {
    ghost use Rattle.mdns_streams.specs.Adapters.{stream_faults};

    ghost held = { λ s. None };

    ghost faults = { λ s. stream_faults s };

    fn put(&mut self, piece: &[u8]) -> Result<(), Failed> {
        self.output.put(piece)
    }

    // Ends the connection both ways, so that a read that waits for the other side ends, too.
    fn finish(&mut self) {
        let _ = self.output.inner.shutdown(Shutdown::Both);
    }
}
