// Who asks for a name.
ghost use Rattle.std.specs.Prelude.{◌≡◌};
ghost use Rattle.sd_index.specs.Asked.{asker_eq};

/// Who asks for a name: an operation, by its session and by its number there.
#[derive(Clone, Copy, Drop)]
pub struct Asker {
    pub session: u64,
    pub op: u32,
}

impl Asker {
    /// Whether this is the same operation as another.
    pub fn is(&self, other: &Asker) -> bool
        ensures { result ≡ asker_eq self.now other.now }
    {
        self.session == other.session && self.op == other.op
    }
}
