// The bytes of a name in wire form, in a place of their own that is copied as it stands.
ghost use Rattle.std.specs.Prelude.{◌≡◌, ◌↔◌, ◌+◌, ◌-◌, ◌<◌, ◌≤◌, ◌++◌, ◌∷◌, [], length, take, IsTrue};
ghost use Rattle.std.specs.Str.{str_to_ascii_lowercase};
ghost use Rattle.dns_name.specs.InPlace.{bytes_in};

/// At most 255 bytes.
#[derive(Clone, Copy, Drop)]
pub(crate) struct WireBytes {
    bytes: [u8; 255],
    len: u8,
}

impl WireBytes {
    /// No bytes.
    pub(crate) fn new() -> WireBytes
        ensures { bytes_in result ≡ [] }
    {
        WireBytes {
            bytes: [0; 255],
            len: 0,
        }
    }

    /// How many bytes there are.
    pub(crate) fn len(&self) -> usize
        ensures { result ≡ length (bytes_in self.now) }
    {
        usize::from(self.len)
    }

    /// The bytes.
    pub(crate) fn as_slice(&self) -> &[u8]
        ensures { result.now ≡ bytes_in self.now }
    {
        &self.bytes[..usize::from(self.len)]
    }

    /// Puts a byte at the end.
    pub(crate) fn push(&mut self, byte: u8)
        requires { length (bytes_in self.old) < 255 }
        ensures { bytes_in self.new ≡ bytes_in self.old ++ byte ∷ [] }
    {
        self.bytes[usize::from(self.len)] = byte;
        self.len += 1;
    }

    /// Takes the last byte away.
    pub(crate) fn pop(&mut self)
        requires { 0 < length (bytes_in self.old) }
        ensures { bytes_in self.new ≡ take (length (bytes_in self.old) - 1) (bytes_in self.old) }
    {
        self.len -= 1;
    }

    /// Puts bytes at the end.
    pub(crate) fn extend(&mut self, more: &[u8])
        requires { length (bytes_in self.old) + length more.now ≤ 255 }
        ensures { bytes_in self.new ≡ bytes_in self.old ++ more.now }
    {
        let from = usize::from(self.len);
        let to = from + more.len();
        self.bytes[from..to].copy_from_slice(more);
        self.len = to as u8;
    }

    /// Whether the bytes are the other's: eight at a time.
    pub(crate) fn is_spelled_as(&self, other: &WireBytes) -> bool
        ensures { IsTrue result ↔ (bytes_in self.now ≡ bytes_in other.now) }
    {
        if self.len() != other.len() {
            return false;
        }
        let (mut ours, mut theirs) = (self.bytes.as_slice(), other.bytes.as_slice());
        let mut left = usize::from(self.len);
        'chunks: while left >= 8 {
            let (our, our_rest) = ours.split_first_chunk::<8>().unwrap();
            let (their, their_rest) = theirs.split_first_chunk::<8>().unwrap();
            if !are_same(our, their) {
                return false;
            }
            ours = our_rest;
            theirs = their_rest;
            left -= 8;
        }
        begin_alike(ours, theirs, left)
    }

    /// Puts ASCII letters into lower case.
    pub(crate) fn lower(&mut self)
        ensures { bytes_in self.new ≡ str_to_ascii_lowercase (bytes_in self.old) }
    {
        let len = usize::from(self.len);
        self.bytes[..len].make_ascii_lowercase();
    }
}

// Whether eight bytes are the same: as one number, since names are compared all the time.
#[inline]
fn are_same(ours: &[u8; 8], theirs: &[u8; 8]) -> bool
    ensures { IsTrue result ↔ (ours.now ≡ theirs.now) }
{
    u64::from_le_bytes(*ours) == u64::from_le_bytes(*theirs)
}

// Whether the first so many of some bytes are the same, eight at most. Behind a name there are zero bytes, mostly, so that all eight are the same where
// these are.
fn begin_alike(ours: &[u8], theirs: &[u8], len: usize) -> bool
    requires few { len ≤ 8 }
    requires ours { len ≤ length ours.now }
    requires theirs { len ≤ length theirs.now }
    ensures { IsTrue result ↔ (take len ours.now ≡ take len theirs.now) }
{
    if let Some(our) = ours.first_chunk::<8>()
        && let Some(their) = theirs.first_chunk::<8>()
        && are_same(our, their)
    {
        return true;
    }
    ours[..len] == theirs[..len]
}
