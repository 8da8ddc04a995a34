ghost use Rattle.std.specs.Prelude.{◌≡◌, ◌≤◌, length};
ghost use Rattle.std.specs.Str.{IsUtf8};
ghost use Rattle.sd_name.specs.Renaming.{cut_to, with_suffix, renamed, host_renamed, is_continuation};

use arrayvec::{ArrayString, ArrayVec};
use dns_name::Label;
use itoa::Buffer;

/// A service's label with a number: ` (n)` behind the label, which is cut at the end of a character so that both fit 63
/// bytes; the label itself for 1. (RFC 6763 appendix D)
#[tactic(auto, unfolding(crate::specs::Renaming::renamed))]
pub fn renamed(label: &Label, number: u32) -> Label
    ensures value { result ≡ renamed label.now number }
    ensures text { IsUtf8 label.now → IsUtf8 result }
{
    if number == 1 {
        return copied(label);
    }
    let mut suffix = ArrayString::<16>::new();
    suffix.push_str(" (");
    suffix.push_str(Buffer::new().format(number));
    suffix.push_str(")");
    joined(label.as_slice(), suffix.as_str().as_bytes())
}

/// A host's label with a number: `-n` behind the label, which is cut at the end of a character so that both fit 63 bytes;
/// the label itself for 1. (RFC 6762 section 9)
#[tactic(auto, unfolding(crate::specs::Renaming::host_renamed))]
pub fn host_renamed(label: &Label, number: u32) -> Label
    ensures value { result ≡ host_renamed label.now number }
    ensures text { IsUtf8 label.now → IsUtf8 result }
{
    if number == 1 {
        return copied(label);
    }
    let mut suffix = ArrayString::<16>::new();
    suffix.push_str("-");
    suffix.push_str(Buffer::new().format(number));
    joined(label.as_slice(), suffix.as_str().as_bytes())
}

fn copied(label: &Label) -> Label
    ensures { result ≡ label.now }
{
    Label::new(label.as_slice()).unwrap()
}

// A label with a suffix, cut so that both fit.
fn joined(label: &[u8], suffix: &[u8]) -> Label
    requires some { 1 ≤ length suffix.now }
    requires short { length suffix.now ≤ 63 }
    ensures value { result ≡ with_suffix label.now suffix.now }
    ensures text { IsUtf8 label.now → IsUtf8 suffix.now → IsUtf8 result }
{
    let mut bytes = ArrayVec::<u8, 63>::new();
    let _ = bytes.try_extend_from_slice(front(label, 63 - suffix.len()));
    let _ = bytes.try_extend_from_slice(suffix);
    Label::new(bytes.as_slice()).unwrap()
}

// The longest front of at most so many bytes that ends with a whole character.
fn front(label: &[u8], room: usize) -> &[u8]
    ensures front { result.now ≡ cut_to room label.now }
    ensures short { length result.now ≤ room }
{
    if room >= label.len() {
        return label;
    }
    let mut end = room;
    while end > 0 && is_continuation(label[end]) {
        end -= 1;
    }
    &label[..end]
}

fn is_continuation(byte: u8) -> bool
    ensures { result ≡ is_continuation byte }
{
    (128..192).contains(&byte)
}
