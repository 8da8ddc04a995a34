ghost use Rattle.std.specs.Prelude.{◌≡◌, ◌↔◌, ◌<◌, ◌++◌, ◌∷◌, [], length, All, Ok, OnOk, IsTrue};
ghost use Rattle.std.specs.List.{flat_map};
ghost use Rattle.dns_name.specs.NameText.{byte_text, label_text, name_text};
ghost use Rattle.dns_name.specs.ReadName.{read_name};

use crate::Name;
use crate::text::write_label_byte;
use arrayvec::ArrayString;
use std::alloc::AllocError;

impl Name {
    /// Appends the text of the name, which is ASCII: each label and a dot behind it, the root being a dot. A dot and a backslash in a label
    /// are behind a backslash, and each byte up to 32 and from 127 on is a backslash and three decimal digits. It is read as this name. Refused only for
    /// want of memory. (RFC 1035 5.1)
    pub fn put_text(&self, out: &mut Vec<u8>) -> Result<(), AllocError>
        ensures text { OnOk result (out.new.items ≡ out.old.items ++ name_text self.now) }
        ensures read { read_name (name_text self.now) ≡ Ok self.now }
    {
        if is_root(self.as_wire()) {
            out.push(b'.')?;
            return Ok(());
        }
        self.put_labels(out)
    }

    // Each label and a dot behind it.
    fn put_labels(&self, out: &mut Vec<u8>) -> Result<(), AllocError>
        ensures { OnOk result (out.new.items ≡ out.old.items ++ flat_map (λ l. label_text l ++ 46 ∷ []) self.now) }
    {
        let mut labels = self.labels();
        while let Some(label) = labels.next_label() {
            put_label_text(out, label)?;
            out.push(b'.')?;
        }
        Ok(())
    }
}

// Whether a name in wire form is the root.
fn is_root(wire: &[u8]) -> bool
    ensures root { IsTrue result ↔ (length wire.now ≡ 1) }
    ensures bytes { All (λ byte. byte < 256) wire.now }
{
    wire.len() == 1
}

/// Appends the text of a label, without a dot behind it. Refused only for want of memory.
pub fn put_label_text(out: &mut Vec<u8>, label: &[u8]) -> Result<(), AllocError>
    ensures { OnOk result (out.new.items ≡ out.old.items ++ flat_map byte_text label.now) }
{
    for byte in label {
        put_byte_text(out, *byte)?;
    }
    Ok(())
}

/// Appends the text of a byte of a label: as itself, or behind a backslash. Refused only for want of memory.
pub fn put_byte_text(out: &mut Vec<u8>, byte: u8) -> Result<(), AllocError>
    ensures { OnOk result (out.new.items ≡ out.old.items ++ byte_text byte) }
{
    match byte {
        b'!'..=b'-' | b'/'..=b'[' | b']'..=b'~' => {
            out.push(byte)?;
            Ok(())
        }
        _ => {
            let mut text = ArrayString::<4>::new();
            write_label_byte(&mut text, byte);
            out.extend_from_slice(text.as_bytes())?;
            Ok(())
        }
    }
}
