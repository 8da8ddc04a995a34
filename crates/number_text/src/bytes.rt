ghost use Rattle.std.specs.Prelude.{◌≡◌, ◌==◌, ◌<◌, [], ◌∷◌, length, MatchOption};
ghost use Rattle.std.specs.List.{slice_split};
ghost use Rattle.std.specs.Option.{option_map};
ghost use Rattle.std.specs.Str.{bytes_eq};
ghost use Rattle.number_text.specs.Cut.{cut_of};

use memchr::memchr;

/// The parts before and after the first `byte`, without it; `None` exactly where there is none. The second part is
/// what std's `split` by that byte goes on with.
pub fn cut_at(bytes: &[u8], byte: u8) -> Option<(&[u8], &[u8])>
    ensures cut { option_map (λ parts. (parts.0.now, parts.1.now)) result ≡ cut_of byte bytes.now }
    ensures split { MatchOption result
        (slice_split (λ b. b == byte) bytes.now ≡ bytes.now ∷ [])
        (λ parts. (slice_split (λ b. b == byte) bytes.now ≡ parts.0.now ∷ slice_split (λ b. b == byte) parts.1.now)
        × (length parts.1.now < length bytes.now)) }
{
    let place = memchr(byte, bytes)?;
    Some((&bytes[..place], &bytes[place + 1..]))
}

/// Whether two byte strings are equal.
pub fn is_same(left: &[u8], right: &[u8]) -> bool
    ensures { result ≡ bytes_eq left.now right.now }
{
    left == right
}
