// A source or a sink with a count of faults that can be read.
ghost use Rattle.std.specs.Prelude.{◌≡◌};
ghost use Rattle.mdns_outside.specs.Fakes.{inner_of, counted_faults};

use mdns_base::{Failed, Sink, Source};

/// A source or a sink that counts how often the one within it failed since it was put here.
#[derive(Drop)]
pub struct Counted<S> {
    inner: S,
    faults: u64,
}

impl<S> Counted<S> {
    /// This source or sink, without faults.
    pub fn new(inner: S) -> Self
        ensures inner { inner_of result ≡ inner }
        ensures faults { counted_faults result ≡ 0 }
    {
        Counted { inner, faults: 0 }
    }

    /// What is counted.
    pub fn inner(&self) -> &S
        ensures { result.now ≡ inner_of self.now }
    {
        &self.inner
    }

    /// How often it failed. The count stays at 2^64 - 1 once there.
    pub fn faults(&self) -> u64
        ensures { result ≡ counted_faults self.now }
    {
        self.faults
    }
}

impl<S: Source> Source for Counted<S> {
    ghost left = { λ s. S.left s.inner };

    ghost faults = { λ s. s.faults };

    fn read(&mut self, into: &mut [u8]) -> Result<usize, Failed> {
        match self.inner.read(into) {
            Ok(count) => Ok(count),
            Err(failed) => {
                self.faults = self.faults.saturating_add(1);
                Err(failed)
            }
        }
    }
}

impl<K: Sink> Sink for Counted<K> {
    ghost held = { λ s. K.held s.inner };

    ghost faults = { λ s. s.faults };

    fn put(&mut self, piece: &[u8]) -> Result<(), Failed> {
        match self.inner.put(piece) {
            Ok(()) => Ok(()),
            Err(failed) => {
                self.faults = self.faults.saturating_add(1);
                Err(failed)
            }
        }
    }

    fn finish(&mut self) {
        self.inner.finish();
    }
}
