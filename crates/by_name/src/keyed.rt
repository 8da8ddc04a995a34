// A hasher that who chooses the names doesn't know.
use std::hash::{BuildHasher, DefaultHasher, Hasher};

/// Makes hashers that a key was written to first: SipHash 1-3, so that names can't be chosen to collide by who doesn't know
/// the key.
#[derive(Clone, Copy)]
pub struct KeyedState {
    start: DefaultHasher,
}

impl KeyedState {
    /// The hashers of a key.
    pub fn new(key: u64) -> KeyedState {
        let mut start = DefaultHasher::new();
        start.write_u64(key);
        KeyedState { start }
    }
}

impl BuildHasher for KeyedState {
    type Hasher = DefaultHasher;

    ghost build_hasher = { λ s. s.start };

    fn build_hasher(&self) -> DefaultHasher {
        self.start
    }
}
