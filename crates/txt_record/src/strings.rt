ghost use Rattle.std.specs.Prelude.{◌≡◌, true};
ghost use Rattle.std.specs.Iterator.{YieldsFirstBy, item_count};
ghost use Rattle.txt_record.specs.Strings.{is_txt, ends_whole, strings_of};

use std::marker::Model;

/// How many bytes TXT data may have.
pub(crate) const MAX_LEN: usize = 8192;

/// The strings of TXT data that are still to come.
#[derive(Drop)]
pub struct Strings<'a> {
    rest: &'a [u8],
}

impl<'a> Model for Strings<'a> {
    ghost use Rattle.std.specs.Prelude.{◌≡◌, true, List, ℕ};
    ghost use Rattle.txt_record.specs.Strings.{ends_whole, strings_of};

    ghost Value = { List (List ℕ) };

    ghost view = { λ s. strings_of s.rest.now };

    ghost invariant = { λ s. ends_whole 0 s.rest.now ≡ true };
}

impl<'a> Strings<'a> {
    /// The strings of a whole run.
    pub(crate) fn new(bytes: &'a [u8]) -> Strings<'a>
        requires { ends_whole 0 bytes.now ≡ true }
        ensures { result ≡ strings_of bytes.now }
    {
        Strings { rest: bytes }
    }
}

impl<'a> Iterator for Strings<'a> {
    type Item = &'a [u8];

    ghost next_gives = { YieldsFirstBy (λ string. string.now) (λ strings. strings) };

    ghost remaining = { item_count (λ strings. strings) };

    fn next(&mut self) -> Option<&'a [u8]> {
        let (size, rest) = self.rest.split_first()?;
        let (string, rest) = rest.split_at(usize::from(*size));
        self.rest = rest;
        Some(string)
    }
}

/// Whether these bytes are TXT data of a registration: at most 8192, none or a whole run of strings behind their lengths.
/// (RFC 6763 section 6.1)
pub fn is_txt(bytes: &[u8]) -> bool
    ensures { result ≡ is_txt bytes.now }
{
    bytes.len() <= MAX_LEN && is_whole(bytes)
}

fn is_whole(bytes: &[u8]) -> bool
    ensures { result ≡ ends_whole 0 bytes.now }
{
    let mut rest = bytes;
    'strings: while let Some((size, after)) = rest.split_first() {
        let size = usize::from(*size);
        if after.len() < size {
            return false;
        }
        rest = &after[size..];
    }
    true
}
