ghost use Rattle.std.specs.Prelude.{List, ℕ, ◌≡◌, ◌≢◌, ◌+◌, ◌≤◌, ◌↔◌, ◌++◌, [], ◌∷◌, ◌⊎◌, false, length, nat_le, option_map, option_copied, IsTrue, IfSome, MatchOption, IfOk, IfErr, OnOk, OnErr, is_some};
ghost use Rattle.std.specs.List.{list_any, find};
ghost use Rattle.std.specs.Str.{str_eq_ignore_ascii_case};
ghost use Rattle.txt_record.specs.Strings.{is_txt, strings_of, txt_data};
ghost use Rattle.txt_record.specs.Places.{IsPlaceOf};
ghost use Rattle.txt_record.specs.Pairs.{value_found, has_key, lookup, put, without_key, entry_of, entries_of, pairs_refusal, put_refusal, push_refusal};

use crate::pair::{MAX_ENTRY, entry_len, has_key, is_key, refusal_of, split_entry, write_entry};
use crate::strings::MAX_LEN;
use crate::{Found, Pair, Strings, TxtError, is_txt};
use std::alloc::{AllocError, Global};
use std::marker::Model;
use std::ops::Range;

/// A TXT record, seen as its list of strings: at most 8192 bytes with the length byte of each. (RFC 6763 section 6)
#[derive(Drop)]
pub struct Txt {
    bytes: Vec<u8>,
}

impl Model for Txt {
    ghost use Rattle.std.specs.Prelude.{◌≡◌, true, List, ℕ};
    ghost use Rattle.txt_record.specs.Strings.{is_txt, strings_of};

    ghost Value = { List (List ℕ) };

    ghost view = { λ t. strings_of t.bytes.items };

    ghost invariant = { λ t. is_txt t.bytes.items ≡ true };
}

impl Txt {
    /// The record without strings.
    pub fn new(alloc: Global) -> Txt
        ensures { result ≡ [] }
    {
        Txt {
            bytes: Vec::new(alloc),
        }
    }

    /// The record of these bytes, or None exactly where they are no run of strings or more than 8192.
    /// The only error is want of memory.
    pub fn from_bytes(alloc: Global, bytes: &[u8]) -> Result<Option<Txt>, AllocError>
        ensures some { IfOk result (λ txt. is_some txt ≡ is_txt bytes.now) }
        ensures strings { IfOk result (λ txt. IfSome txt (λ strings. strings ≡ strings_of bytes.now)) }
        ensures bytes { IfOk result (λ txt. IfSome txt (λ strings. txt_data strings ≡ bytes.now)) }
    {
        if !is_txt(bytes) {
            return Ok(None);
        }
        Ok(Some(Txt {
            bytes: Vec::from_slice(alloc, bytes)?,
        }))
    }

    /// Its bytes: each string behind its length.
    pub fn as_slice(&self) -> &[u8]
        ensures bytes { result.now ≡ txt_data self.now }
        ensures txt { IsTrue (is_txt result.now) }
    {
        self.bytes.as_slice()
    }

    /// Its bytes, given up without a copy.
    pub fn into_vec(self) -> Vec<u8>
        ensures { result.items ≡ txt_data self }
    {
        self.bytes
    }

    /// Its strings, from the first on.
    pub fn strings(&self) -> Strings<'_>
        ensures strings { result ≡ self.now }
        ensures few { length result ≤ 8192 }
        ensures short { length (txt_data self.now) ≤ 8192 }
    {
        Strings::new(self.bytes.as_slice())
    }

    /// The record with a string for each pair, in their order: `key=value`, or the key alone where the pair has no value.
    /// The refusals are tested in the order of their numbers. (RFC 6763 section 6.3)
    pub fn from_pairs(alloc: Global, pairs: &[Pair]) -> Result<Txt, TxtError>
        ensures bad_key { (result ≡ Err TxtError.BadKey) ↔ (pairs_refusal pairs.now ≡ Some TxtError.BadKey) }
        ensures long_entry { (result ≡ Err TxtError.LongEntry) ↔ (pairs_refusal pairs.now ≡ Some TxtError.LongEntry) }
        ensures long_txt { (result ≡ Err TxtError.LongTxt) ↔ (pairs_refusal pairs.now ≡ Some TxtError.LongTxt) }
        ensures ok { IfOk result (λ txt. txt ≡ entries_of pairs.now) }
    {
        if let Some(refusal) = refusal_of(pairs) {
            return Err(refusal);
        }
        let mut bytes = Vec::new(alloc);
        for pair in pairs {
            write_entry(&mut bytes, pair.key.as_slice(), pair.value())?;
        }
        Ok(Txt { bytes })
    }

    /// What stands under a key, by the first string that has it; ASCII letters compare without case. None exactly where no
    /// string has it. A string that is empty or begins with `=` has no key. (RFC 6763 section 6.4)
    pub fn get(&self, key: &str) -> Option<Found<'_>>
        ensures { option_map value_found result ≡ lookup key.now self.now }
    {
        let (_, value) = split_entry(self.string_of(key.as_bytes())?);
        match value {
            Some(value) => Some(Found::Value(value)),
            None => Some(Found::Bare),
        }
    }

    // The first string that has this key.
    fn string_of(&self, key: &[u8]) -> Option<&[u8]>
        ensures { option_copied result ≡ find (has_key key.now) self.now }
    {
        self.strings().find(|string| has_key(string, key))
    }

    /// Puts a key with a value, or without one, in the place of the first string that has the key, or at the end.
    /// The refusals are tested in the order of their numbers. (RFC 6763 section 6.4)
    pub fn set(&mut self, key: &str, value: Option<&[u8]>) -> Result<(), TxtError>
        ensures bad_key { (result ≡ Err TxtError.BadKey)
            ↔ (put_refusal key.now (option_copied value.entry) self.old ≡ Some TxtError.BadKey) }
        ensures long_entry { (result ≡ Err TxtError.LongEntry)
            ↔ (put_refusal key.now (option_copied value.entry) self.old ≡ Some TxtError.LongEntry) }
        ensures long_txt { (result ≡ Err TxtError.LongTxt)
            ↔ (put_refusal key.now (option_copied value.entry) self.old ≡ Some TxtError.LongTxt) }
        ensures ok { OnOk result (self.new ≡ put key.now (entry_of key.now (option_copied value.entry)) self.old) }
        ensures found { OnOk result (lookup key.now self.new ≡ Some (option_copied value.entry)) }
        ensures others { OnOk result ((other : List ℕ) → str_eq_ignore_ascii_case other key.now ≡ false →
            lookup other self.new ≡ lookup other self.old) }
        ensures err { OnErr result (self.new ≡ self.old) }
    {
        let key = key.as_bytes();
        if !is_key(key) {
            return Err(TxtError::BadKey);
        }
        if entry_len(key, value) > MAX_ENTRY {
            return Err(TxtError::LongEntry);
        }
        let (front, back) = self.around(key);
        let alloc = *self.bytes.allocator();
        self.bytes = spliced(alloc, front, key, value, back)?;
        Ok(())
    }

    /// Puts a string at the end, of any bytes. The refusals are LongEntry, then LongTxt, then NoMemory.
    pub fn push(&mut self, string: &[u8]) -> Result<(), TxtError>
        ensures bad_key { result ≢ Err TxtError.BadKey }
        ensures long_entry { (result ≡ Err TxtError.LongEntry) ↔ (push_refusal string.now self.old ≡ Some TxtError.LongEntry) }
        ensures long_txt { (result ≡ Err TxtError.LongTxt) ↔ (push_refusal string.now self.old ≡ Some TxtError.LongTxt) }
        ensures ok { OnOk result (self.new ≡ self.old ++ string.now ∷ []) }
        ensures err { OnErr result (self.new ≡ self.old) }
    {
        if string.len() > MAX_ENTRY {
            return Err(TxtError::LongEntry);
        }
        let alloc = *self.bytes.allocator();
        self.bytes = spliced(alloc, self.at_end(), string, None, &[])?;
        Ok(())
    }

    /// Takes out the first string that has the key, and tells whether there was one.
    pub fn remove(&mut self, key: &str) -> bool
        ensures removed { result ≡ list_any (has_key key.now) self.old }
        ensures strings { self.new ≡ without_key key.now self.old }
    {
        match self.place_of(key.as_bytes()) {
            Some(place) => {
                self.bytes.drain(place);
                true
            }
            None => false,
        }
    }

    // The bytes behind which a string goes at the end.
    fn at_end(&self) -> &[u8]
        ensures bytes { (string : List ℕ) → txt_data (self.now ++ string ∷ []) ≡ result.now ++ length string ∷ string ++ [] }
        ensures short { length result.now ≤ 8192 }
    {
        self.bytes.as_slice()
    }

    // The bytes between which an entry with this key goes.
    fn around(&self, key: &[u8]) -> (&[u8], &[u8])
        ensures bytes { (entry : List ℕ) → txt_data (put key.now entry self.now) ≡ result.0.now ++ length entry ∷ entry ++ result.1.now }
        ensures short { length result.0.now + length result.1.now ≤ 8192 }
    {
        let bytes = self.as_slice();
        match self.place_of(key) {
            Some(place) => (&bytes[..place.start], &bytes[place.end..]),
            None => (bytes, &[]),
        }
    }

    // Where the first string with this key stands, from its length byte on.
    fn place_of(&self, key: &[u8]) -> Option<Range<usize>>
        ensures place { MatchOption result (list_any (has_key key.now) self.now ≡ false)
            (λ place. IsPlaceOf key.now self.now place.start place.end) }
        ensures within { IfSome result (λ place. (place.start ≤ place.end) × (place.end ≤ length (txt_data self.now))) }
    {
        let mut start = 0usize;
        for string in self.strings() {
            let end = start + 1 + string.len();
            if has_key(string, key) {
                return Some(start..end);
            }
            start = end;
        }
        None
    }
}

// The bytes of an entry between those that stand before and behind it.
fn spliced(
    alloc: Global,
    front: &[u8],
    key: &[u8],
    value: Option<&[u8]>,
    back: &[u8],
) -> Result<Vec<u8>, TxtError>
    requires entry { length (entry_of key.now (option_copied value)) ≤ 255 }
    requires short { length front.now + length back.now ≤ 8192 }
    ensures long { let entry = entry_of key.now (option_copied value.entry) in
        (result ≡ Err TxtError.LongTxt) ↔ (nat_le (length (front.now ++ length entry ∷ entry ++ back.now)) 8192 ≡ false) }
    ensures ok { let entry = entry_of key.now (option_copied value.entry) in
        IfOk result (λ bytes. bytes.items ≡ front.now ++ length entry ∷ entry ++ back.now) }
    ensures short { IfOk result (λ bytes. length bytes.items ≤ 8192) }
    ensures err { IfErr result (λ e. (e ≡ TxtError.LongTxt) ⊎ (e ≡ TxtError.NoMemory)) }
{
    let len = front.len() + 1 + entry_len(key, value) + back.len();
    if len > MAX_LEN {
        return Err(TxtError::LongTxt);
    }
    let mut bytes = Vec::with_capacity(alloc, len)?;
    bytes.extend_from_slice(front)?;
    write_entry(&mut bytes, key, value)?;
    bytes.extend_from_slice(back)?;
    Ok(bytes)
}
