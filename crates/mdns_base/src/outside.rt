// What the daemon asks of the outside. Each object counts its faults, and a count never falls.
ghost use Rattle.std.specs.Prelude.{◌≡◌, List, Option, ℕ};
ghost use Rattle.std.specs.Io.{ReadsAtMost};
ghost use Rattle.std.specs.Io.KnownBytes.{Keeps, ReadConsumes};
ghost use Rattle.mdns_base.specs.Outside.{HasCause, PutAppends};

/// A call of the outside that failed. Which object failed is told by its count of faults.
#[derive(Clone, Copy, Debug, PartialEq, Eq)]
pub struct Failed;

/// Where bytes come from. What a source has left may stay untold, as for a file or a socket.
pub trait Source {
    /// The bytes that are left, where the source tells them.
    ghost left: { Self → Option (List ℕ) };

    /// How often it has failed. The count never falls and stays at 2^64 - 1 once there.
    ghost faults: { Self → ℕ };

    /// Moves the next bytes to the front of `into` and says how many they are. 0 for a buffer that isn't empty is the
    /// end. `Failed` only where the count of faults rose in this call; then no byte was moved. Else the count stays.
    fn read(&mut self, into: &mut [u8]) -> Result<usize, Failed>
        ensures bound { ReadsAtMost result into.new }
        ensures bytes { ReadConsumes (left self.old) (left self.new) result into.new }
        ensures cause { HasCause (faults self.old) (faults self.new) result };
}

/// Where bytes go. What a sink holds may stay untold, as for a file or a socket.
pub trait Sink {
    /// The bytes that were put, where the sink tells them.
    ghost held: { Self → Option (List ℕ) };

    /// How often it has failed. The count never falls and stays at 2^64 - 1 once there.
    ghost faults: { Self → ℕ };

    /// Appends the piece. `Failed` only where the count of faults rose in this call; then a front of the piece was
    /// appended, which may be empty. Else the count stays.
    fn put(&mut self, piece: &[u8]) -> Result<(), Failed>
        ensures bytes { PutAppends (held self.old) (held self.new) result piece.now }
        ensures cause { HasCause (faults self.old) (faults self.new) result };

    /// Ends the connection. What the sink holds and its faults stay as they are.
    fn finish(&mut self)
        ensures bytes { Keeps (held self.old) (held self.new) }
        ensures faults { faults self.new ≡ faults self.old };
}
