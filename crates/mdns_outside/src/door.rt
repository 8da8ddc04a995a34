// A door in memory, with a list of the calls that are to fail.
ghost use Rattle.std.specs.Prelude.{◌≡◌, ◌≤◌, false, length};

use crate::Door;
use mdns_base::{Failed, Sink, Source};

/// A door at which a list of connections comes, one after the other. It tells how many it gave, and fails at the calls of
/// a list.
#[derive(Drop)]
pub struct MemDoor<I: Drop, O: Drop> {
    callers: Vec<(I, O)>,
    total: usize,
    over: bool,
    failing: Vec<u64>,
    calls: u64,
    faults: u64,
    ghost within: { length callers.items ≤ total },
}

impl<I: Drop, O: Drop> MemDoor<I, O> {
    ghost use Rattle.mdns_outside.specs.Fakes.{door_given, door_over, door_faults};

    /// A door at which these come. Its calls with the numbers in `failing` fail, the first being 1; then nobody is let in.
    pub fn new(callers: Vec<(I, O)>, failing: Vec<u64>) -> Self
        ensures given { door_given result ≡ 0 }
        ensures over { door_over result ≡ false }
        ensures faults { door_faults result ≡ 0 }
    {
        let total = callers.len();
        MemDoor {
            callers,
            total,
            over: false,
            failing,
            calls: 0,
            faults: 0,
        }
    }

    /// How many connections it gave.
    pub fn given(&self) -> usize
        ensures { result ≡ door_given self.now }
    {
        self.total - self.callers.len()
    }

    /// Whether it has answered that no more come.
    pub fn is_over(&self) -> bool
        ensures { result ≡ door_over self.now }
    {
        self.over
    }

    /// How often it failed. The count stays at 2^64 - 1 once there.
    pub fn faults(&self) -> u64
        ensures { result ≡ door_faults self.now }
    {
        self.faults
    }
}

impl<I: Source + Send + Drop + 'static, O: Sink + Send + Drop + 'static> Door for MemDoor<I, O> {
    ghost use Rattle.std.specs.Prelude.{Some};
    ghost use Rattle.mdns_outside.specs.Fakes.{door_given, door_over, door_faults};

    type In = I;

    type Out = O;

    ghost over = { λ s. door_over s };

    ghost given = { λ s. Some (door_given s) };

    ghost faults = { λ s. door_faults s };

    fn next(&mut self) -> Result<Option<(I, O)>, Failed> {
        self.calls = self.calls.saturating_add(1);
        if self.failing.contains(&self.calls) {
            self.faults = self.faults.saturating_add(1);
            return Err(Failed);
        }
        if self.callers.is_empty() {
            self.over = true;
            return Ok(None);
        }
        Ok(Some(self.callers.remove(0)))
    }
}
