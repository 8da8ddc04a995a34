// The parts of bodies, written.
ghost use Rattle.std.specs.Prelude.{◌≡◌, ◌++◌, ◌≤◌, length, OnOk};
ghost use Rattle.std.specs.Int.{to_be_bytes, w16};
ghost use Rattle.dns_name.specs.Names.{wire_of};
ghost use Rattle.sd_ipc.specs.Frames.{counted};
ghost use Rattle.sd_ipc.specs.Again.{ReadsNumber, ReadsName, ReadsText, ReadsTxt};

use bytes::Bytes;
use dns_name::Name;
use sd_call::Text;
use std::alloc::AllocError;

/// Appends a number, its byte of the greatest worth first.
#[tactic(auto, using(crate::proofs::PartsAgain::reads_number))]
pub(crate) fn put_u16(out: &mut Vec<u8>, number: u16) -> Result<(), AllocError>
    ensures bytes { OnOk result (out.new.items ≡ out.old.items ++ to_be_bytes w16 number) }
    ensures again { OnOk result (ReadsNumber number) }
{
    out.extend_from_slice(&number.to_be_bytes())?;
    Ok(())
}

/// Appends a name in wire form.
#[tactic(auto, using(crate::proofs::PartsAgain::reads_name))]
pub(crate) fn put_name(out: &mut Vec<u8>, name: &Name) -> Result<(), AllocError>
    ensures bytes { OnOk result (out.new.items ≡ out.old.items ++ wire_of name.now) }
    ensures again { OnOk result (ReadsName name.now) }
{
    out.extend_from_slice(name.as_wire())?;
    Ok(())
}

/// Appends a text behind the count of its bytes.
#[tactic(auto, using(crate::proofs::PartsAgain::reads_text))]
pub(crate) fn put_text(out: &mut Vec<u8>, text: &Text) -> Result<(), AllocError>
    ensures bytes { OnOk result (out.new.items ≡ out.old.items ++ counted text.now) }
    ensures again { OnOk result (ReadsText text.now) }
{
    put_counted(out, text.as_str().as_bytes())?;
    Ok(())
}

/// Appends TXT data behind the count of their bytes.
#[tactic(auto, using(crate::proofs::PartsAgain::reads_txt))]
pub(crate) fn put_txt(out: &mut Vec<u8>, txt: &Bytes) -> Result<(), AllocError>
    requires { length txt.now ≤ 8192 }
    ensures bytes { OnOk result (out.new.items ≡ out.old.items ++ counted txt.now) }
    ensures again { OnOk result (ReadsTxt txt.now) }
{
    put_counted(out, txt.as_slice())?;
    Ok(())
}

// Appends bytes behind their count.
fn put_counted(out: &mut Vec<u8>, bytes: &[u8]) -> Result<(), AllocError>
    requires { length bytes.now ≤ 8192 }
    ensures { OnOk result (out.new.items ≡ out.old.items ++ counted bytes.now) }
{
    let size = bytes.len() as u16;
    out.extend_from_slice(&size.to_be_bytes())?;
    out.extend_from_slice(bytes)?;
    Ok(())
}
