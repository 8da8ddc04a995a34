// What is kept of the input and the output for a note on a bad line.
use mdns_base::{Failed, Sink, Source};
use number_text::{cut_at, read_decimal};
use std::alloc::Global;

/// How many bytes of the input are kept for a note on a bad line.
const MOST_KEPT: usize = 1_048_576;

/// A source of which the first bytes are kept.
#[derive(Drop)]
pub struct Keeping<S: Source> {
    inner: S,
    // The first bytes that were read.
    kept: Vec<u8>,
    // Whether all that was read is kept.
    is_whole: bool,
}

impl<S: Source> Keeping<S> {
    /// A source of which nothing was read.
    pub fn new(alloc: Global, inner: S) -> Self {
        Keeping {
            inner,
            kept: Vec::new(alloc),
            is_whole: true,
        }
    }

    /// The first bytes that were read, some 1,048,576 at most.
    pub fn kept(&self) -> &[u8] {
        &self.kept
    }
}

// Keeps what was read, while there is room for it.
fn keep(kept: &mut Vec<u8>, is_whole: &mut bool, piece: &[u8]) {
    *is_whole = *is_whole && kept.len() < MOST_KEPT && kept.extend_from_slice(piece).is_ok();
}

impl<S: Source> Source for Keeping<S> {
    ghost left = { λ s. S.left s.inner };

    ghost faults = { λ s. S.faults s.inner };

    fn read(&mut self, into: &mut [u8]) -> Result<usize, Failed> {
        let count = self.inner.read(into)?;
        keep(&mut self.kept, &mut self.is_whole, &into[..count]);
        Ok(count)
    }
}

/// A sink of which is known which line the last piece names.
#[derive(Drop)]
pub struct Naming<K: Sink> {
    inner: K,
    // The line that the last piece names, where it is no entry.
    stopped_at: Option<u64>,
}

// The number at the end of `bad line N`. A line with an entry begins with `@`.
fn line_named(piece: &[u8]) -> Option<u64> {
    let mut rest = piece.strip_suffix(b"\n")?;
    if rest.first() == Some(&b'@') {
        return None;
    }
    'words: while let Some((_, after)) = cut_at(rest, b' ') {
        rest = after;
    }
    read_decimal(rest)
}

impl<K: Sink> Naming<K> {
    /// A sink into which nothing was put.
    pub fn new(inner: K) -> Self {
        Naming {
            inner,
            stopped_at: None,
        }
    }

    /// The line that stopped the script, where the last piece names it.
    pub fn stopped_at(&self) -> Option<u64> {
        self.stopped_at
    }
}

impl<K: Sink> Sink for Naming<K> {
    ghost held = { λ s. K.held s.inner };

    ghost faults = { λ s. K.faults s.inner };

    fn put(&mut self, piece: &[u8]) -> Result<(), Failed> {
        self.stopped_at = line_named(piece);
        self.inner.put(piece)
    }

    fn finish(&mut self) {
        self.inner.finish();
    }
}
