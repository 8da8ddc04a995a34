// A reader and a writer, each with its count of faults.
ghost use Rattle.std.specs.Prelude.{◌≡◌, ◌<◌, ◌≤◌, IfOk, length};
ghost use Rattle.std.specs.Io.KnownBytes.{WriteAppends};
ghost use Rattle.mdns_base.specs.Outside.{HasCause};

use mdns_base::{Failed, Sink, Source};
use std::io::{ErrorKind, Read, Write};

/// A reader as a source. It tells what the reader has left, where that tells.
#[derive(Drop)]
pub struct Input<R: Read> {
    /// The reader.
    inner: R,
    /// How often a read failed; it stays at its greatest value.
    faults: u64,
}

impl<R: Read> Input<R> {
    ghost use Rattle.mdns_streams.specs.Adapters.{input_faults, input_over};

    /// A source over a reader, without a fault so far.
    pub fn new(inner: R) -> Self
        ensures over { input_over result ≡ inner }
        ensures faults { input_faults result ≡ 0 }
    {
        Input { inner, faults: 0 }
    }

    /// How often a read failed. The count stays at 2^64 - 1 once there.
    pub fn faults(&self) -> u64
        ensures { result ≡ input_faults self.now }
    {
        self.faults
    }
}

impl<R: Read> Source for Input<R> {
    ghost use Rattle.mdns_streams.specs.Adapters.{input_faults, input_over};

    ghost left = { λ s. R.remaining (input_over s) };

    ghost faults = { λ s. input_faults s };

    /// One read, tried again where a signal interrupted it.
    fn read(&mut self, into: &mut [u8]) -> Result<usize, Failed> {
        for _ in 0..u64::MAX {
            match self.inner.read(into) {
                Ok(count) => return Ok(count),
                Err(error) => {
                    if !matches!(error.kind(), ErrorKind::Interrupted) {
                        break;
                    }
                }
            }
        }
        self.faults = self.faults.saturating_add(1);
        Err(Failed)
    }
}

/// A writer as a sink. It tells what the writer holds, where that tells.
#[derive(Drop)]
pub struct Output<W: Write> {
    /// The writer.
    pub(crate) inner: W,
    /// How often a write failed; it stays at its greatest value.
    faults: u64,
}

impl<W: Write> Output<W> {
    ghost use Rattle.mdns_streams.specs.Adapters.{output_faults, output_over};

    /// A sink over a writer, without a fault so far.
    pub fn new(inner: W) -> Self
        ensures over { output_over result ≡ inner }
        ensures faults { output_faults result ≡ 0 }
    {
        Output { inner, faults: 0 }
    }

    /// How often a write failed. The count stays at 2^64 - 1 once there.
    pub fn faults(&self) -> u64
        ensures { result ≡ output_faults self.now }
    {
        self.faults
    }

    /// How often a write failed, and the writer.
    pub fn into_parts(self) -> (u64, W)
        ensures { result ≡ (output_faults self, output_over self) }
    {
        (self.faults, self.inner)
    }

    // One write of at least one byte, tried again where a signal interrupted it.
    fn write_some(&mut self, piece: &[u8]) -> Result<usize, Failed>
        ensures bound { IfOk result (λ count. (0 < count) × (count ≤ length piece.now)) }
        ensures bytes { WriteAppends (W.contents self.old.inner) (W.contents self.new.inner) result piece.now }
        ensures cause { HasCause self.old.faults self.new.faults result }
    {
        for _ in 0..u64::MAX {
            match self.inner.write(piece) {
                Ok(0) => break,
                Ok(count) => return Ok(count),
                Err(error) => {
                    if !matches!(error.kind(), ErrorKind::Interrupted) {
                        break;
                    }
                }
            }
        }
        self.faults = self.faults.saturating_add(1);
        Err(Failed)
    }
}

impl<W: Write> Sink for Output<W> {
    ghost use Rattle.mdns_streams.specs.Adapters.{output_faults, output_over};

    ghost held = { λ s. W.contents (output_over s) };

    ghost faults = { λ s. output_faults s };

    /// Writes until the whole piece is taken.
    fn put(&mut self, piece: &[u8]) -> Result<(), Failed> {
        let mut rest = piece;
        'writes: while !rest.is_empty() {
            let count = self.write_some(rest)?;
            rest = &rest[count..];
        }
        Ok(())
    }

    // There is no connection to end.
    fn finish(&mut self) {}
}
