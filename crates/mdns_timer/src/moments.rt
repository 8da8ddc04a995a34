// Moments that may be there.
ghost use Rattle.std.specs.Prelude.{◌≡◌, ◌++◌, ℕ, List};
ghost use Rattle.lists.specs.Lists.{least};

/// The earlier of two moments that may be there.
pub fn earlier(one: Option<u64>, other: Option<u64>) -> Option<u64>
    ensures { (ones others : List ℕ) → one ≡ least ones → other ≡ least others → result ≡ least (ones ++ others) }
{
    match (one, other) {
        (Some(one), Some(other)) => Some(one.min(other)),
        (Some(one), None) => Some(one),
        (None, other) => other,
    }
}
