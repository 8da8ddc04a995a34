// A source and a sink in memory, with lists of the calls that are to fail.
ghost use Rattle.std.specs.Prelude.{◌≡◌, ◌≤◌, [], Some, drop, length};

use crate::{Failed, Sink, Source};
use std::alloc::Global;

/// A source over bytes in memory. It tells what is left, and fails at the calls of a list.
#[derive(Drop)]
pub struct MemSource {
    bytes: Vec<u8>,
    taken: usize,
    failing: Vec<u64>,
    calls: u64,
    faults: u64,
    ghost within: { taken ≤ length bytes.items },
}

impl MemSource {
    ghost use Rattle.mdns_base.specs.Memory.{source_left, source_failing, source_faults, source_calls};

    /// A source that has these bytes left. Its calls of `read` with the numbers in `failing` fail, the first being 1.
    pub fn new(bytes: Vec<u8>, failing: Vec<u64>) -> Self
        ensures left { source_left result ≡ bytes.items }
        ensures failing { source_failing result ≡ failing.items }
        ensures calls { source_calls result ≡ 0 }
        ensures faults { source_faults result ≡ 0 }
    {
        MemSource {
            bytes,
            taken: 0,
            failing,
            calls: 0,
            faults: 0,
        }
    }
}

impl Source for MemSource {
    ghost use Rattle.std.specs.Prelude.{IsErr, OnErr, Contains, ◌↔◌};
    ghost use Rattle.std.specs.Io.{ReadsAtMost};
    ghost use Rattle.std.specs.Io.KnownBytes.{ReadConsumes};
    ghost use Rattle.mdns_base.specs.Outside.{HasCause};
    ghost use Rattle.mdns_base.specs.Memory.{source_left, source_failing, source_faults, source_calls, next_call};

    ghost left = { λ s. Some (drop s.taken s.bytes.items) };

    ghost faults = { λ s. s.faults };

    /// Fails exactly at the listed calls.
    fn read(&mut self, into: &mut [u8]) -> Result<usize, Failed>
        ensures bound { ReadsAtMost result into.new }
        ensures bytes { ReadConsumes (Some (source_left self.old)) (Some (source_left self.new)) result into.new }
        ensures cause { HasCause (source_faults self.old) (source_faults self.new) result }
        ensures calls { source_calls self.new ≡ next_call (source_calls self.old) }
        ensures counted { OnErr result (source_faults self.new ≡ next_call (source_faults self.old)) }
        ensures listed { IsErr result ↔ Contains (source_failing self.old) (source_calls self.new) }
        ensures failing { source_failing self.new ≡ source_failing self.old }
    {
        self.calls = self.calls.saturating_add(1);
        if self.failing.contains(&self.calls) {
            self.faults = self.faults.saturating_add(1);
            return Err(Failed);
        }
        let rest = &self.bytes[self.taken..];
        let count = rest.len().min(into.len());
        into[..count].copy_from_slice(&rest[..count]);
        self.taken += count;
        Ok(count)
    }
}

/// A sink that keeps in memory what it was given. It tells what it holds, and fails at the calls of a list, where it
/// keeps nothing of the piece; a growth that is refused counts as a fault, too.
#[derive(Drop)]
pub struct MemSink {
    bytes: Vec<u8>,
    failing: Vec<u64>,
    calls: u64,
    faults: u64,
}

impl MemSink {
    ghost use Rattle.mdns_base.specs.Memory.{sink_held, sink_failing, sink_faults, sink_calls};

    /// An empty sink. Its calls of `put` with the numbers in `failing` fail, the first being 1.
    pub fn new(alloc: Global, failing: Vec<u64>) -> Self
        ensures held { sink_held result ≡ [] }
        ensures failing { sink_failing result ≡ failing.items }
        ensures calls { sink_calls result ≡ 0 }
        ensures faults { sink_faults result ≡ 0 }
    {
        MemSink {
            bytes: Vec::new(alloc),
            failing,
            calls: 0,
            faults: 0,
        }
    }

    /// What was put so far, in order.
    pub fn bytes(&self) -> &[u8]
        ensures { result.now ≡ sink_held self.now }
    {
        &self.bytes
    }
}

impl Sink for MemSink {
    ghost use Rattle.std.specs.Prelude.{IsErr, OnErr, Contains};
    ghost use Rattle.mdns_base.specs.Outside.{HasCause, PutAppends};
    ghost use Rattle.mdns_base.specs.Memory.{sink_held, sink_failing, sink_faults, sink_calls, next_call};

    ghost held = { λ s. Some s.bytes.items };

    ghost faults = { λ s. s.faults };

    /// Fails at the listed calls, and for want of memory.
    fn put(&mut self, piece: &[u8]) -> Result<(), Failed>
        ensures bytes { PutAppends (Some (sink_held self.old)) (Some (sink_held self.new)) result piece.now }
        ensures cause { HasCause (sink_faults self.old) (sink_faults self.new) result }
        ensures calls { sink_calls self.new ≡ next_call (sink_calls self.old) }
        ensures kept { OnErr result (sink_held self.new ≡ sink_held self.old) }
        ensures counted { OnErr result (sink_faults self.new ≡ next_call (sink_faults self.old)) }
        ensures listed { Contains (sink_failing self.old) (sink_calls self.new) → IsErr result }
        ensures failing { sink_failing self.new ≡ sink_failing self.old }
    {
        self.calls = self.calls.saturating_add(1);
        if self.failing.contains(&self.calls) || self.bytes.extend_from_slice(piece).is_err() {
            self.faults = self.faults.saturating_add(1);
            return Err(Failed);
        }
        Ok(())
    }

    fn finish(&mut self) {}
}
