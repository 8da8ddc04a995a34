ghost use Rattle.std.specs.Prelude.{◌≡◌, ◌+◌, ◌*◌, ◌≤◌, ◌++◌, ◌<◌, [], ◌∷◌, length, All, Ok};
ghost use Rattle.dns_name.specs.NameText.{byte_text, label_text, name_text};
ghost use Rattle.dns_name.specs.ReadName.{read_name};

use crate::Name;
use arrayvec::ArrayString;

/// The text of a name, which is ASCII.
pub type NameText = ArrayString<1020>;

impl Name {
    /// The text of the name: each label and a dot behind it, the root being a dot. A dot and a backslash in a label
    /// are behind a backslash, and each byte up to 32 and from 127 on is a backslash and three decimal digits.
    /// (RFC 1035 5.1)
    pub fn write_text(&self) -> NameText
        ensures text { result.bytes ≡ name_text self.now }
        ensures read { read_name result.bytes ≡ Ok self.now }
    {
        let mut out = NameText::new();
        let mut labels = self.labels();
        if self.wire_len() == 1 {
            out.push('.');
        }
        while let Some(label) = labels.next_label() {
            write_label(&mut out, label);
        }
        out
    }
}

// A label and a dot.
fn write_label(out: &mut NameText, label: &[u8])
    requires { length out.old.bytes + 4 * length label.now + 1 ≤ 1020 }
    ensures text { out.new.bytes ≡ out.old.bytes ++ (label_text label.now ++ 46 ∷ []) }
    ensures bytes { All (λ byte. byte < 256) label.now }
{
    for byte in label {
        write_label_byte(out, *byte);
    }
    out.push('.');
}

/// Writes a byte of a label: as itself, or behind a backslash. There must be room for four bytes.
pub fn write_label_byte<const CAP: usize>(out: &mut ArrayString<CAP>, byte: u8)
    requires { length out.old.bytes + 4 ≤ CAP }
    ensures { out.new.bytes ≡ out.old.bytes ++ byte_text byte }
{
    match byte {
        b'.' | b'\\' => {
            out.push('\\');
            out.push(char::from(byte));
        }
        0..=32 | 127..=255 => {
            out.push('\\');
            out.push(char::from(b'0' + byte / 100));
            out.push(char::from(b'0' + byte / 10 % 10));
            out.push(char::from(b'0' + byte % 10));
        }
        _ => out.push(char::from(byte)),
    }
}
