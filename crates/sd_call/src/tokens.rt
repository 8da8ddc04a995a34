// Labels and service types as text.
ghost use Rattle.std.specs.Prelude.{◌≡◌, ◌++◌, OnOk};
ghost use Rattle.std.specs.List.{flat_map};
ghost use Rattle.sd_call.specs.CallText.{label_token, type_byte, type_token};

use dns_name::{put_byte_text, put_label_text};
use std::alloc::AllocError;

/// Appends the text of a label, the empty one as `\e`. Refused only for want of memory.
pub fn put_label(out: &mut Vec<u8>, label: &[u8]) -> Result<(), AllocError>
    ensures { OnOk result (out.new.items ≡ out.old.items ++ label_token label.now) }
{
    if label.is_empty() {
        out.extend_from_slice(b"\\e")?;
        return Ok(());
    }
    put_label_text(out, label)?;
    Ok(())
}

/// Appends the text of a service type, in which dots and commas are themselves, the empty one as `\e`.
/// Refused only for want of memory.
pub fn put_type(out: &mut Vec<u8>, regtype: &[u8]) -> Result<(), AllocError>
    ensures { OnOk result (out.new.items ≡ out.old.items ++ type_token regtype.now) }
{
    if regtype.is_empty() {
        out.extend_from_slice(b"\\e")?;
        return Ok(());
    }
    put_type_bytes(out, regtype)?;
    Ok(())
}

fn put_type_bytes(out: &mut Vec<u8>, bytes: &[u8]) -> Result<(), AllocError>
    ensures { OnOk result (out.new.items ≡ out.old.items ++ flat_map type_byte bytes.now) }
{
    for byte in bytes {
        put_type_byte(out, *byte)?;
    }
    Ok(())
}

fn put_type_byte(out: &mut Vec<u8>, byte: u8) -> Result<(), AllocError>
    ensures { OnOk result (out.new.items ≡ out.old.items ++ type_byte byte) }
{
    if byte == b'.' {
        out.push(byte)?;
        return Ok(());
    }
    put_byte_text(out, byte)?;
    Ok(())
}
