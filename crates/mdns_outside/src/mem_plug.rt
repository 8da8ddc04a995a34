// A plug in memory, with a list of the calls that are to fail.
ghost use Rattle.std.specs.Prelude.{◌≡◌, ◌++◌, ◌∷◌, [], Some, OnOk, map, take, drop};
ghost use Rattle.std.specs.List.{concat};
ghost use Rattle.std.specs.String.{string_bytes};
ghost use Rattle.mdns_outside.specs.Fakes.{peer_bytes};

use crate::{Counted, Plug};
use mdns_base::{Failed, MemSink, MemSource};
use std::alloc::{AllocError, Global};

/// A daemon that is to be connected to.
#[derive(Drop)]
pub struct Peer {
    /// What it says.
    pub bytes: Vec<u8>,
    /// The numbers of the reads of it that fail, the first being 1.
    pub failing_reads: Vec<u64>,
    /// The numbers of the puts to it that fail, the first being 1.
    pub failing_puts: Vec<u64>,
}

/// A plug to peers in memory. It fails at the calls of a list. A growth that is refused counts as a fault, too, and from
/// then on it doesn't tell its lists.
#[derive(Drop)]
pub struct MemPlug {
    alloc: Global,
    asked: Vec<String>,
    coming: Vec<Peer>,
    said: Vec<Counted<MemSink>>,
    lent: usize,
    whole: bool,
    failing: Vec<u64>,
    calls: u64,
    faults: u64,
}

impl MemPlug {
    ghost use Rattle.mdns_outside.specs.Plugged.{plug_asked, plug_coming, plug_said, plug_faults};

    /// A plug to these peers, one for each connection, and then to peers that say nothing. Its calls of `connect` with the
    /// numbers in `failing` fail, the first being 1.
    pub fn new(alloc: Global, coming: Vec<Peer>, failing: Vec<u64>) -> Self
        ensures asked { plug_asked result ≡ Some [] }
        ensures coming { plug_coming result ≡ Some (map peer_bytes coming.items) }
        ensures said { plug_said result ≡ Some [] }
        ensures faults { plug_faults result ≡ 0 }
    {
        MemPlug {
            alloc,
            asked: Vec::new(alloc),
            coming,
            said: Vec::new(alloc),
            lent: 0,
            whole: true,
            failing,
            calls: 0,
            faults: 0,
        }
    }

    /// The paths that were asked for, where no growth was refused.
    pub fn asked(&self) -> Option<&[String]> {
        if self.whole {
            Some(self.asked.as_slice())
        } else {
            None
        }
    }

    /// What was said on each connection that was given back, where no growth was refused.
    pub fn said(&self) -> Option<&[Counted<MemSink>]> {
        if self.whole {
            Some(self.said.as_slice())
        } else {
            None
        }
    }

    // Keeps a path, and makes room for the connection's return.
    fn keep(&mut self, path: &str) -> Result<(), AllocError>
        ensures asked { OnOk result (map string_bytes self.new.asked.items ≡ map string_bytes self.old.asked.items ++ path.now ∷ []) }
        ensures said { self.new.said.items ≡ self.old.said.items }
        ensures same { self.new ≡ record self.old { asked = self.new.asked; said = self.new.said } }
    {
        self.said.reserve(self.lent.saturating_add(1))?;
        let path = String::from_str(self.alloc, path)?;
        self.asked.push(path)?;
        Ok(())
    }

    // The next peer: the first to come, or one that says nothing.
    fn peer(&mut self) -> Peer
        ensures bytes { result.bytes.items ≡ concat (take 1 (map peer_bytes self.old.coming.items)) }
        ensures rest { map peer_bytes self.new.coming.items ≡ drop 1 (map peer_bytes self.old.coming.items) }
        ensures same { self.new ≡ record self.old { coming = self.new.coming } }
    {
        if self.coming.is_empty() {
            Peer {
                bytes: Vec::new(self.alloc),
                failing_reads: Vec::new(self.alloc),
                failing_puts: Vec::new(self.alloc),
            }
        } else {
            self.coming.remove(0)
        }
    }
}

impl Plug for MemPlug {
    ghost use Rattle.mdns_outside.specs.Plugged.{plug_asked, plug_coming, plug_said, plug_faults};

    type In = Counted<MemSource>;

    type Out = Counted<MemSink>;

    ghost asked = { λ s. plug_asked s };

    ghost coming = { λ s. plug_coming s };

    ghost said = { λ s. plug_said s };

    ghost faults = { λ s. plug_faults s };

    fn connect(&mut self, path: &str) -> Result<(Counted<MemSource>, Counted<MemSink>), Failed> {
        self.calls = self.calls.saturating_add(1);
        if self.keep(path).is_err() {
            self.whole = false;
            self.faults = self.faults.saturating_add(1);
            return Err(Failed);
        }
        if self.failing.contains(&self.calls) {
            self.faults = self.faults.saturating_add(1);
            return Err(Failed);
        }
        let peer = self.peer();
        self.lent = self.lent.saturating_add(1);
        let input = MemSource::new(peer.bytes, peer.failing_reads);
        let output = MemSink::new(self.alloc, peer.failing_puts);
        Ok((Counted::new(input), Counted::new(output)))
    }

    fn back(&mut self, input: Counted<MemSource>, output: Counted<MemSink>) {
        if input.faults() > 0 || output.faults() > 0 {
            self.faults = self.faults.saturating_add(1);
        }
        self.lent = self.lent.saturating_sub(1);
        if self.said.push(output).is_err() {
            self.whole = false;
        }
    }
}
