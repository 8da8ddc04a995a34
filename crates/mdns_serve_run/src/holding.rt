// A gate that holds what passes until something else was seen.
use mdns_base::Dest;
use mdns_outside::{Gate, Notes, Packet, Point};
use std::sync::atomic::{AtomicU64, Ordering};
use std::sync::{Arc, Wait};
use std::time::Duration;

/// The naps of a millisecond after which a gate lets go.
const PATIENCE: u64 = 15_000;

/// A probe for the host `h.local.` with the address 10.0.0.1, by RFC 1035 4.1 and RFC 6762 8.1, 8.2, 18 and 10 (its TTL):
/// - the header: the number 0, a query, one question, and one record in the authority section;
/// - the question: `h.local.`, any type (255), of the class IN (1), with the bit that asks for a reply to the asker alone;
/// - the record: the name by a pointer to the question's, type A (1), class IN without the bit of a cache flush, 120 s, and
///   the four bytes of the address.
const PROBE: &[u8] = b"\x00\x00\x00\x00\x00\x01\x00\x00\x00\x01\x00\x00\
    \x01h\x05local\x00\x00\xff\x80\x01\
    \xc0\x0c\x00\x01\x00\x01\x00\x00\x00\x78\x00\x04\x0a\x00\x00\x01";

/// Holds the second request of session 1 until a frame was written to session 2, and the end of each session until its last
/// reply was written (there are two for session 1, and one for each other) and the probe was sent. After 15 seconds it lets go.
#[derive(Drop)]
pub struct Holding<R> {
    rt: R,
    sent: Arc<Notes<Packet>>,
    probes: AtomicU64,
    written_1: AtomicU64,
    written_2: AtomicU64,
    let_go: AtomicU64,
    /// On this one naps; nobody wakes who does.
    napping: AtomicU64,
}

impl<R: Wait> Holding<R> {
    /// A gate that nothing has passed, beside airs that note here what they are handed.
    pub fn new(rt: R, sent: Arc<Notes<Packet>>) -> Self {
        Holding {
            rt,
            sent,
            probes: AtomicU64::new(0),
            written_1: AtomicU64::new(0),
            written_2: AtomicU64::new(0),
            let_go: AtomicU64::new(0),
            napping: AtomicU64::new(0),
        }
    }

    /// How often it let go.
    pub fn let_go(&self) -> u64 {
        self.let_go.load(Ordering::SeqCst)
    }

    // Waits until a count is so high.
    fn hold_until(&self, count: &AtomicU64, wanted: u64) {
        for _ in 0..PATIENCE {
            if count.load(Ordering::SeqCst) >= wanted {
                return;
            }
            self.nap();
        }
        self.let_go.fetch_add(1, Ordering::SeqCst);
    }

    // Waits until the probe was sent. The packets that were sent are taken out of the notes.
    fn hold_until_probed(&self) {
        for _ in 0..PATIENCE {
            if self.sent.take(&self.rt).iter().any(is_probe) {
                self.probes.fetch_add(1, Ordering::SeqCst);
            }
            if self.probes.load(Ordering::SeqCst) > 0 {
                return;
            }
            self.nap();
        }
        self.let_go.fetch_add(1, Ordering::SeqCst);
    }

    // Waits a millisecond.
    fn nap(&self) {
        self.napping
            .park_timeout(&self.rt, 0, Duration::from_millis(1));
    }
}

// Whether a packet is the probe, to all.
fn is_probe(packet: &Packet) -> bool {
    packet.to == Dest::All && packet.bytes.as_slice() == PROBE
}

impl<R: Wait> Gate for Holding<R> {
    fn pass(&self, point: Point) {
        match point {
            Point::Request {
                session: 1,
                number: 2,
            } => self.hold_until(&self.written_2, 1),
            Point::Request { .. } => {}
            Point::Written { session: 1, .. } => {
                self.written_1.fetch_add(1, Ordering::SeqCst);
            }
            Point::Written { .. } => {
                self.written_2.fetch_add(1, Ordering::SeqCst);
            }
            Point::Ending { session } => {
                if session == 1 {
                    self.hold_until(&self.written_1, 2);
                } else {
                    self.hold_until(&self.written_2, 1);
                }
                self.hold_until_probed();
            }
        }
    }
}
