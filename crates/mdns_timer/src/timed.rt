// What is due at a moment.
ghost use Rattle.std.specs.Prelude.{◌≡◌, ℕ};

/// What is due at a moment.
pub trait Timed {
    ghost moment: { Self → ℕ };

    /// The moment, in ms, at which it is due.
    fn due_at(&self) -> u64
        ensures { result ≡ moment self.now };
}
