// A sink and an air in memory that note what they are given where a test can read it while threads have them.
ghost use Rattle.std.specs.Prelude.{Some};

use crate::{Air, MemAir, Notes, Packet};
use bytes::Bytes;
use mdns_base::{Dest, Failed, MemSink, Sink};
use std::alloc::{AllocError, Global};
use std::sync::{Arc, Wait};

/// A sink in memory that notes what was put.
#[derive(Drop)]
pub struct NotedSink<R> {
    rt: R,
    inner: MemSink,
    notes: Arc<Notes<u8>>,
}

impl<R> NotedSink<R> {
    /// A sink that notes here what is put into the one within.
    pub fn new(rt: R, inner: MemSink, notes: Arc<Notes<u8>>) -> Self {
        NotedSink { rt, inner, notes }
    }
}

impl<R: Wait> Sink for NotedSink<R> {
    ghost use Rattle.mdns_outside.specs.Noting.{noted_held, noted_sink_faults};

    ghost held = { λ s. Some (noted_held s) };

    ghost faults = { λ s. noted_sink_faults s };

    fn put(&mut self, piece: &[u8]) -> Result<(), Failed> {
        self.inner.put(piece)?;
        self.notes.add_bytes(&self.rt, piece);
        Ok(())
    }

    fn finish(&mut self) {
        self.inner.finish();
    }
}

/// An air in memory that notes each packet that it was handed.
#[derive(Drop)]
pub struct NotedAir<R> {
    rt: R,
    alloc: Global,
    inner: MemAir,
    notes: Arc<Notes<Packet>>,
}

impl<R> NotedAir<R> {
    /// An air that notes here what it is handed.
    pub fn new(rt: R, alloc: Global, notes: Arc<Notes<Packet>>) -> Self {
        let inner = MemAir::new(alloc, Vec::new(alloc));
        NotedAir {
            rt,
            alloc,
            inner,
            notes,
        }
    }
}

impl<R: Wait> Air for NotedAir<R> {
    ghost use Rattle.mdns_outside.specs.Noting.{noted_handed, noted_air_faults};

    ghost handed = { λ s. noted_handed s };

    ghost faults = { λ s. noted_air_faults s };

    fn send(&mut self, bytes: &[u8], to: Dest) -> Result<(), Failed> {
        if let Ok(packet) = packet_of(self.alloc, bytes, to) {
            self.notes.add(&self.rt, packet);
        }
        self.inner.send(bytes, to)
    }
}

// A packet with a copy of these bytes.
fn packet_of(alloc: Global, bytes: &[u8], to: Dest) -> Result<Packet, AllocError> {
    let bytes = Bytes::from_vec(Vec::from_slice(alloc, bytes)?)?;
    Ok(Packet { bytes, to })
}
