// How a client reaches a daemon.
ghost use Rattle.std.specs.Prelude.{◌≡◌, List, Option, Some, ℕ, [], IfOk, MatchResult};
ghost use Rattle.mdns_base.specs.Outside.{HasCause};
ghost use Rattle.mdns_outside.specs.Plugs.{AddsOne, StaysTold, Tells, TakesComing, CountsBack};

use mdns_base::{Failed, Sink, Source};

/// Connects a client to a daemon. The paths that were asked, what the peers are yet to say and what was said to them may
/// stay untold, as for sockets; what isn't told stays so.
pub trait Plug {
    /// What the daemon says.
    type In: Source + Drop;

    /// What is said to the daemon.
    type Out: Sink + Drop;

    /// The paths that were asked for, in order.
    ghost asked: { Self → Option (List (List ℕ)) };

    /// What the peers of the connections to come say, a list of bytes for each.
    ghost coming: { Self → Option (List (List ℕ)) };

    /// What was said on the connections that were given back, in that order.
    ghost said: { Self → Option (List (List ℕ)) };

    /// How often it has failed. The count never falls and stays at 2^64 - 1 once there.
    ghost faults: { Self → ℕ };

    /// Connects to a path. The source has what the first peer to come says, or nothing where none is to come, the sink
    /// holds nothing, and neither has faults. `Failed` only where the count of faults rose in this call; then no peer came.
    fn connect(&mut self, path: &str) -> Result<(Self::In, Self::Out), Failed>
        ensures asked { AddsOne (asked self.old) (asked self.new) path.now }
        ensures coming { MatchResult result
            (λ parts. TakesComing (coming self.old) (coming self.new) (Self.In.left parts.0))
            (λ _. StaysTold (coming self.old) (coming self.new)) }
        ensures empty { IfOk result (λ parts. Tells (said self.new) → Self.Out.held parts.1 ≡ Some []) }
        ensures fresh { IfOk result (λ parts. (Self.In.faults parts.0 ≡ 0) × (Self.Out.faults parts.1 ≡ 0)) }
        ensures said { StaysTold (said self.old) (said self.new) }
        ensures cause { HasCause (faults self.old) (faults self.new) result };

    /// Takes a connection back, with what was said on it. The count of faults rises exactly where its source or its sink
    /// has faults. It never fails.
    fn back(&mut self, input: Self::In, output: Self::Out)
        ensures said { (after : List (List ℕ)) → said self.new ≡ Some after →
            (piece : List ℕ) × (Self.Out.held output ≡ Some piece) × AddsOne (said self.old) (said self.new) piece }
        ensures asked { StaysTold (asked self.old) (asked self.new) }
        ensures coming { StaysTold (coming self.old) (coming self.new) }
        ensures counts { CountsBack (Self.In.faults input) (Self.Out.faults output) (faults self.old) (faults self.new) };
}
