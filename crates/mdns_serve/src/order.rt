// The order in which packets leave.
use std::sync::Wait;
use std::sync::atomic::{AtomicU64, Ordering};

/// Lets the packets of turns leave in the order of the turns, though each thread sends its own behind its turn. It carries no claim.
///
/// A turn that sends draws a number while it lasts, and its thread waits until those who drew before have sent. Nobody waits for a turn then,
/// and who drew always sends, so nobody waits for ever.
#[derive(Drop)]
pub struct SendOrder {
    // How many numbers were drawn.
    drawn: AtomicU64,
    // How many have sent.
    sent: AtomicU64,
}

/// The number that a thread drew in its turn, where that turn sends.
#[derive(Drop)]
pub struct SendPlace {
    number: AtomicU64,
}

impl SendPlace {
    /// No number yet.
    pub fn new() -> SendPlace {
        SendPlace {
            number: AtomicU64::new(0),
        }
    }
}

impl SendOrder {
    /// No number was drawn.
    pub fn new() -> SendOrder {
        SendOrder {
            drawn: AtomicU64::new(0),
            sent: AtomicU64::new(0),
        }
    }

    /// Draws the next number for a place; it is called while the daemon's turn lasts.
    pub fn draw(&self, place: &SendPlace) {
        let number = self.drawn.fetch_add(1, Ordering::SeqCst);
        place.number.store(number, Ordering::SeqCst);
    }

    /// Waits until all who drew before this place have sent.
    pub fn wait<R: Wait>(&self, rt: &R, place: &SendPlace) {
        let number = place.number.load(Ordering::SeqCst);
        for _ in rt.forever() {
            let sent = self.sent.load(Ordering::SeqCst);
            if sent == number {
                return;
            }
            self.sent.park(rt, (sent & 0xffff_ffff) as u32);
        }
        unreachable!()
    }

    /// Lets the next one send.
    pub fn pass(&self) {
        self.sent.fetch_add(1, Ordering::SeqCst);
        self.sent.wake_all();
    }
}
