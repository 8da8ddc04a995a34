// Values that can be told apart.
ghost use Rattle.std.specs.Prelude.{◌≡◌, ◌↔◌, ◌<◌, ℕ, length, get_or, IsTrue};

/// Values that can be told apart.
pub trait Same {
    /// Whether the values are the same in everything. It takes no memory.
    fn same_as(&self, other: &Self) -> bool
        ensures { IsTrue result ↔ (self.now ≡ other.now) };
}

/// Whether two lists have the same values in the same order. It takes no memory.
pub fn all_same<T: Same>(left: &[T], right: &[T]) -> bool
    ensures { IsTrue result ↔ (left.now ≡ right.now) }
{
    if left.len() != right.len() {
        return false;
    }
    for i in 0..left.len() {
        if !left[i].same_as(&right[i]) {
            return false;
        }
    }
    true
}
