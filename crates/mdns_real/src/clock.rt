// The clock of the machine.
use mdns_outside::Clock;
use std::time::{Duration, Instant};
use std::{thread, time};

/// How long a nap is, in milliseconds. The finest delay of the protocol is 20.
const NAP: u64 = 10;

/// The milliseconds since a start, by the clock that never goes back.
#[derive(Drop)]
pub struct RealClock<R: time::Clock + Drop> {
    rt: R,
    start: Instant,
    // What it told last.
    last: u64,
}

impl<R: time::Clock + Drop> RealClock<R> {
    /// The clock that tells the milliseconds since this start.
    pub fn new(rt: R, start: Instant) -> Self {
        RealClock { rt, start, last: 0 }
    }
}

impl<R: time::Clock + Drop> Clock for RealClock<R> {
    // Where the clock can't be read, it tells what it told before.
    fn now(&mut self) -> u64 {
        if let Ok(since) = self.start.elapsed(&self.rt) {
            self.last = u64::try_from(since.as_millis()).unwrap_or(u64::MAX);
        }
        self.last
    }

    fn nap(&mut self) {
        nap(&self.rt);
    }
}

/// Waits for ten milliseconds.
pub(crate) fn nap<R: time::Clock>(rt: &R) {
    thread::sleep(rt, Duration::from_millis(NAP));
}
