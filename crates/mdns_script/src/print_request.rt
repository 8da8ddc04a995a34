// Requests as lines say them, and TXT data as the words that stand for their strings.
ghost use Rattle.std.specs.Prelude.{◌≡◌, ◌++◌, codes, OnOk};
ghost use Rattle.std.specs.List.{flat_map};
ghost use Rattle.dns_record.specs.RecordText.{space};
ghost use Rattle.txt_record.specs.Strings.{strings_of};
ghost use Rattle.sd_call.specs.CallText.{label_token, type_token, norename_text};
ghost use Rattle.mdns_script.specs.CommandText.{string_word, txt_words, said_request};

use crate::print::{put_numbered, put_word};
use number_text::is_same;
use sd_call::{Request, Text, put_label, put_type};
use std::alloc::AllocError;

/// Puts a request. Only those with TXT data stand otherwise than in transcripts. Refused only for want of memory.
pub(crate) fn put_request(out: &mut Vec<u8>, request: &Request) -> Result<(), AllocError>
    ensures { OnOk result (out.new.items ≡ out.old.items ++ said_request request.now) }
{
    match request {
        Request::Register {
            label,
            regtype,
            port,
            norename,
            txt,
        } => {
            put_instance(out, label, regtype)?;
            put_numbered(out, b" ", u64::from(*port))?;
            put_norename(out, *norename)?;
            put_txt(out, txt.as_slice())
        }
        Request::Update { txt } => {
            put_word(out, b"update")?;
            put_txt(out, txt.as_slice())
        }
        other => sd_call::put_request(out, other),
    }
}

// The words of a registration up to its service type.
fn put_instance(out: &mut Vec<u8>, label: &Text, regtype: &Text) -> Result<(), AllocError>
    ensures { OnOk result (out.new.items ≡ out.old.items ++ (codes "register " ++ label_token label.now ++ space ++ type_token regtype.now)) }
{
    out.extend_from_slice(b"register ")?;
    put_label(out, label.as_str().as_bytes())?;
    out.push(b' ')?;
    put_type(out, regtype.as_str().as_bytes())?;
    Ok(())
}

// Whether a registration keeps its name.
fn put_norename(out: &mut Vec<u8>, norename: bool) -> Result<(), AllocError>
    ensures { OnOk result (out.new.items ≡ out.old.items ++ (space ++ norename_text norename)) }
{
    if norename {
        put_word(out, b" norename")
    } else {
        put_word(out, b" auto")
    }
}

// TXT data, each word behind a space.
fn put_txt(out: &mut Vec<u8>, txt: &[u8]) -> Result<(), AllocError>
    ensures { OnOk result (out.new.items ≡ out.old.items ++ txt_words txt.now) }
{
    if is_same(txt, b"\x01-") {
        return put_word(out, b" \\045");
    }
    if txt.is_empty() {
        return put_word(out, b" -");
    }
    put_strings(out, txt)?;
    Ok(())
}

// The words of strings behind their lengths.
fn put_strings(out: &mut Vec<u8>, txt: &[u8]) -> Result<(), AllocError>
    ensures { OnOk result (out.new.items ≡ out.old.items ++ flat_map string_word (strings_of txt.now)) }
{
    let mut rest = txt;
    'strings: while let Some((size, after)) = rest.split_first() {
        let (string, more) = after.split_at(usize::from(*size).min(after.len()));
        out.push(b' ')?;
        put_label(out, string)?;
        rest = more;
    }
    Ok(())
}
