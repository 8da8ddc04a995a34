// What wakes those that wait for a turn of another.
use crate::order::SendOrder;
use std::alloc::{AllocError, Global};
use std::sync::Wait;
use std::sync::atomic::{AtomicU64, Ordering};
use std::time::Duration;

/// How many places there are to wait at.
const PLACES: usize = 64;

/// The longest sleep of the ticker, in milliseconds: an hour.
const LONGEST_SLEEP: u64 = 3_600_000;

/// Wakes writers whose sessions were given something, and the ticker where something is due earlier than before. It carries
/// no claim.
///
/// Nobody misses a ring: who waits first notes how often the bell rang, then looks whether there is something to do, and
/// sleeps only while the bell has rung that often.
#[derive(Drop)]
pub struct Bell {
    rings: Vec<AtomicU64>,
    due: AtomicU64,
    // How often the ticker was called.
    calls: AtomicU64,
    closed: AtomicU64,
    order: SendOrder,
}

impl Bell {
    /// A bell that hasn't rung, with something due at once. Refused only for want of memory.
    pub fn new(alloc: Global) -> Result<Bell, AllocError> {
        let mut rings = Vec::new(alloc);
        for _ in 0..PLACES {
            rings.push(AtomicU64::new(0))?;
        }
        Ok(Bell {
            rings,
            due: AtomicU64::new(0),
            calls: AtomicU64::new(0),
            closed: AtomicU64::new(0),
            order: SendOrder::new(),
        })
    }

    /// The order in which packets leave.
    pub(crate) fn order(&self) -> &SendOrder {
        &self.order
    }

    /// How often the bell rang for a session.
    pub(crate) fn rung(&self, session: u64) -> u64 {
        match self.rings.get((session % PLACES as u64) as usize) {
            Some(rings) => rings.load(Ordering::SeqCst),
            None => 0,
        }
    }

    /// Wakes who waits for a session.
    pub(crate) fn ring(&self, session: u64) {
        if let Some(rings) = self.rings.get((session % PLACES as u64) as usize) {
            rings.fetch_add(1, Ordering::SeqCst);
            rings.wake_all();
        }
    }

    /// Waits until the bell rings for a session, which it had done so often. It may return for no reason.
    pub(crate) fn wait<R: Wait>(&self, rt: &R, session: u64, rung: u64) {
        if let Some(rings) = self.rings.get((session % PLACES as u64) as usize) {
            rings.park(rt, low_half(rung));
        }
    }

    /// Tells when something is due next, in milliseconds; it is called while the daemon's turn lasts. The ticker is called
    /// where that is earlier than what was told last.
    pub(crate) fn tell_due(&self, due: Option<u64>) {
        let due = due.unwrap_or(u64::MAX);
        if due < self.due.swap(due, Ordering::SeqCst) {
            self.call();
        }
    }

    /// When something is due next, in milliseconds; the greatest number where nothing is.
    pub(crate) fn due(&self) -> u64 {
        self.due.load(Ordering::SeqCst)
    }

    /// How often the ticker was called.
    pub(crate) fn called(&self) -> u64 {
        self.calls.load(Ordering::SeqCst)
    }

    // Calls the ticker.
    fn call(&self) {
        self.calls.fetch_add(1, Ordering::SeqCst);
        self.calls.wake_all();
    }

    /// Sleeps so many milliseconds, an hour at most, or until the ticker is called, which was done so often. It may return
    /// for no reason.
    pub(crate) fn sleep<R: Wait>(&self, rt: &R, called: u64, milliseconds: u64) {
        let most = Duration::from_millis(milliseconds.min(LONGEST_SLEEP));
        self.calls.park_timeout(rt, low_half(called), most);
    }

    /// Says that the server has closed: the ticker ends then.
    pub fn close(&self) {
        self.closed.store(1, Ordering::SeqCst);
        self.call();
    }

    /// Whether the server has closed.
    pub(crate) fn is_closed(&self) -> bool {
        self.closed.load(Ordering::SeqCst) != 0
    }
}

// The low half of a count, on which one can park.
fn low_half(count: u64) -> u32 {
    (count & 0xffff_ffff) as u32
}
