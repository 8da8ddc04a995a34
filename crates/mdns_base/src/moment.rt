// A moment of a daemon's clock.
ghost use Rattle.std.specs.Prelude.{◌≡◌, ◌≤◌, ◌^◌, Some, None, min, if◌then◌else◌, nat_le};

use std::marker::Model;

/// The last moment that there is: 2^53 milliseconds.
const LAST: u64 = 1 << 53;

/// A moment of a daemon's clock, in milliseconds: 2^53 at most, so that sums of it and of what passes stay numbers of 64 bits. A
/// contract sees the number.
#[derive(Clone, Copy, Drop)]
pub struct Moment {
    ms: u64,
}

impl Model for Moment {
    ghost use Rattle.std.specs.Prelude.{ℕ, ◌≤◌, ◌^◌};

    ghost Value = { ℕ };

    ghost view = { λ m. m.ms };

    ghost inverse = { λ n. record { ms = n } };

    ghost invariant = { λ m. m.ms ≤ 2 ^ 53 };
}

// The first moment.
impl Default for Moment {
    fn default() -> Moment
        ensures { result ≡ 0 }
    {
        Moment { ms: 0 }
    }
}

impl Moment {
    /// The moment of so many milliseconds, which are at most 2^53.
    pub fn new(ms: u64) -> Moment
        requires { ms ≤ 2 ^ 53 }
        ensures { result ≡ ms }
    {
        Moment { ms }
    }

    /// The moment of so many milliseconds. `None` exactly where they are more than 2^53.
    pub fn try_new(ms: u64) -> Option<Moment>
        ensures { result ≡ (if nat_le ms (2 ^ 53) then Some ms else None) }
    {
        if ms <= LAST {
            Some(Moment { ms })
        } else {
            None
        }
    }

    /// The moment of so many milliseconds, or the last one where they are more.
    pub fn at_most_last(ms: u64) -> Moment
        ensures { result ≡ min ms (2 ^ 53) }
    {
        Moment { ms: ms.min(LAST) }
    }

    /// Its milliseconds.
    pub fn ms(self) -> u64
        ensures value { result ≡ self }
        ensures bound { result ≤ 2 ^ 53 }
    {
        self.ms
    }
}
