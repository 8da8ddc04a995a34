ghost use Rattle.std.specs.Prelude.{◌≡◌, nat_le, ◌≤◌, ◌++◌, ◌∷◌, length, position, option_copied, OnOk};
ghost use Rattle.std.specs.List.{list_all};
ghost use Rattle.txt_record.specs.Strings.{txt_data};
ghost use Rattle.txt_record.specs.Pairs.{is_equals, is_key, is_key_byte, key_of, value_of, has_key, entry_of, is_entry, entries_of, pairs_refusal};

use crate::TxtError;
use crate::strings::MAX_LEN;
use lists::List;
use std::alloc::AllocError;

/// A list of bytes.
pub type Octets = List<u8>;

/// A key, and the value that stands behind its `=`, if it has one. (RFC 6763 section 6.4)
#[derive(Drop)]
pub struct Pair {
    pub key: Octets,
    pub value: Option<Octets>,
}

/// What a TXT record has under a key. (RFC 6763 section 6.4)
#[derive(Clone, Copy, Debug, PartialEq, Eq)]
pub enum Found<'a> {
    /// The key alone, without a `=`.
    Bare,
    /// The bytes behind the `=`, perhaps none.
    Value(&'a [u8]),
}

impl Pair {
    // How many bytes its entry has.
    fn entry_len(&self) -> usize
        ensures { result ≡ length (entry_of self.now.key self.now.value) }
    {
        entry_len(self.key.as_slice(), self.value())
    }

    /// The bytes of its value, if it has one.
    pub(crate) fn value(&self) -> Option<&[u8]>
        ensures { option_copied result ≡ self.now.value }
    {
        match &self.value {
            Some(value) => Some(value.as_slice()),
            None => None,
        }
    }
}

const EQUALS: u8 = b'=';

// How many bytes an entry may have.
pub(crate) const MAX_ENTRY: usize = 255;

/// Whether these bytes are a key: at least one, each a visible ASCII character or a space, none of them `=`.
pub(crate) fn is_key(key: &[u8]) -> bool
    ensures { result ≡ is_key key.now }
{
    !key.is_empty() && has_key_bytes(key)
}

fn has_key_bytes(key: &[u8]) -> bool
    ensures { result ≡ list_all is_key_byte key.now }
{
    key.iter().all(|b| is_key_byte(*b))
}

fn is_key_byte(byte: u8) -> bool
    ensures { result ≡ is_key_byte byte }
{
    (32..=126).contains(&byte) && byte != EQUALS
}

/// The key of a string, and its value where it has a `=`.
pub(crate) fn split_entry(string: &[u8]) -> (&[u8], Option<&[u8]>)
    ensures key { result.0.now ≡ key_of string.now }
    ensures value { option_copied result.1 ≡ value_of string.now }
{
    match equals_place(string) {
        Some(place) => (&string[..place], Some(&string[place + 1..])),
        None => (string, None),
    }
}

fn equals_place(string: &[u8]) -> Option<usize>
    ensures { result ≡ position is_equals string.now }
{
    string.iter().position(|b| *b == EQUALS)
}

/// Whether the string has this key, case aside.
pub(crate) fn has_key(string: &[u8], key: &[u8]) -> bool
    ensures { result ≡ has_key key.now string.now }
{
    let (found, _) = split_entry(string);
    !key.is_empty() && key.eq_ignore_ascii_case(found)
}

/// How many bytes the entry of a key and its value has.
pub(crate) fn entry_len(key: &[u8], value: Option<&[u8]>) -> usize
    ensures { result ≡ length (entry_of key.now (option_copied value.entry)) }
{
    match value {
        Some(value) => key.len() + 1 + value.len(),
        None => key.len(),
    }
}

/// Puts the entry of a key and its value behind its length.
pub(crate) fn write_entry(
    bytes: &mut Vec<u8>,
    key: &[u8],
    value: Option<&[u8]>,
) -> Result<(), AllocError>
    requires { length (entry_of key.now (option_copied value)) ≤ 255 }
    ensures { let entry = entry_of key.now (option_copied value.entry) in
        OnOk result (bytes.new.items ≡ bytes.old.items ++ length entry ∷ entry) }
{
    bytes.push(entry_len(key, value) as u8)?;
    bytes.extend_from_slice(key)?;
    if let Some(value) = value {
        bytes.push(EQUALS)?;
        bytes.extend_from_slice(value)?;
    }
    Ok(())
}

/// What speaks against a record of these pairs.
#[tactic(auto, using(crate::proofs::Places::mapped_tests))]
pub(crate) fn refusal_of(pairs: &[Pair]) -> Option<TxtError>
    ensures { result ≡ pairs_refusal pairs.now }
{
    if !have_keys(pairs) {
        Some(TxtError::BadKey)
    } else if !have_entries(pairs) {
        Some(TxtError::LongEntry)
    } else if !fit(pairs) {
        Some(TxtError::LongTxt)
    } else {
        None
    }
}

fn have_keys(pairs: &[Pair]) -> bool
    ensures { result ≡ list_all (λ pair. is_key pair.key) pairs.now }
{
    pairs.iter().all(|pair| is_key(pair.key.as_slice()))
}

fn have_entries(pairs: &[Pair]) -> bool
    ensures { result ≡ list_all (λ pair. is_entry (entry_of pair.key pair.value)) pairs.now }
{
    pairs.iter().all(|pair| pair.entry_len() <= MAX_ENTRY)
}

// Whether the strings of the pairs fit a record.
fn fit(pairs: &[Pair]) -> bool
    ensures { result ≡ nat_le (length (txt_data (entries_of pairs.now))) 8192 }
{
    let mut left = MAX_LEN;
    for pair in pairs {
        let len = pair.entry_len();
        if len >= left {
            return false;
        }
        left -= len + 1;
    }
    true
}
