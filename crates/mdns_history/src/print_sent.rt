// Sent messages as text.
ghost use Rattle.std.specs.Prelude.{◌≡◌, ◌∷◌, [], ◌++◌, OnOk};
ghost use Rattle.std.specs.List.{flat_map};
ghost use Rattle.mdns_history.specs.EntryText.{sent_lines, message_lines, question_line, section_lines, dest_text, way_text};

use crate::Sent;
use crate::print_event::put_from;
use dns_message::Message;
use dns_record::{Question, Rr, put_kind, put_name, put_record};
use mdns_base::Dest;
use number_text::put_decimal;
use std::alloc::AllocError;

/// Puts the lines of the messages that an entry sends. Refused only for want of memory.
pub(crate) fn put_sends(out: &mut Vec<u8>, sends: &[Sent]) -> Result<(), AllocError>
    ensures { OnOk result (out.new.items ≡ out.old.items ++ flat_map sent_lines sends.now) }
{
    for sent in sends {
        put_sent(out, sent)?;
    }
    Ok(())
}

fn put_sent(out: &mut Vec<u8>, sent: &Sent) -> Result<(), AllocError>
    ensures { OnOk result (out.new.items ≡ out.old.items ++ sent_lines sent.now) }
{
    out.extend_from_slice(b" > ")?;
    put_dest(out, sent.to)?;
    put_way(out, sent.message.response)?;
    put_decimal(out, u64::from(sent.message.id))?;
    if sent.message.truncated {
        out.extend_from_slice(b" tc")?;
    }
    out.push(b'\n')?;
    put_message(out, &sent.message)?;
    Ok(())
}

fn put_dest(out: &mut Vec<u8>, to: Dest) -> Result<(), AllocError>
    ensures { OnOk result (out.new.items ≡ out.old.items ++ dest_text to) }
{
    match to {
        Dest::All => {
            out.extend_from_slice(b"all")?;
            Ok(())
        }
        Dest::One(host) => {
            put_from(out, host)?;
            Ok(())
        }
    }
}

fn put_way(out: &mut Vec<u8>, response: bool) -> Result<(), AllocError>
    ensures { OnOk result (out.new.items ≡ out.old.items ++ way_text response) }
{
    if response {
        out.extend_from_slice(b" reply ")?;
        Ok(())
    } else {
        out.extend_from_slice(b" query ")?;
        Ok(())
    }
}

fn put_message(out: &mut Vec<u8>, message: &Message) -> Result<(), AllocError>
    ensures { OnOk result (out.new.items ≡ out.old.items ++ message_lines message.now) }
{
    put_questions(out, message.questions.as_slice())?;
    put_section(out, b'a', message.answers.as_slice())?;
    put_section(out, b'n', message.authority.as_slice())?;
    put_section(out, b'x', message.additional.as_slice())?;
    Ok(())
}

fn put_questions(out: &mut Vec<u8>, questions: &[Question]) -> Result<(), AllocError>
    ensures { OnOk result (out.new.items ≡ out.old.items ++ flat_map question_line questions.now) }
{
    for question in questions {
        put_question(out, question)?;
    }
    Ok(())
}

fn put_question(out: &mut Vec<u8>, question: &Question) -> Result<(), AllocError>
    ensures { OnOk result (out.new.items ≡ out.old.items ++ question_line question.now) }
{
    out.extend_from_slice(b"  ? ")?;
    put_name(out, &question.name)?;
    out.push(b' ')?;
    put_kind(out, question.kind)?;
    if question.unicast {
        out.extend_from_slice(b" qu")?;
    }
    out.push(b'\n')?;
    Ok(())
}

fn put_section(out: &mut Vec<u8>, letter: u8, rrs: &[Rr]) -> Result<(), AllocError>
    ensures { OnOk result (out.new.items ≡ out.old.items ++ section_lines (letter ∷ []) rrs.now) }
{
    for rr in rrs {
        out.extend_from_slice(&[b' ', b' ', letter, b' '])?;
        put_record(out, rr)?;
        out.push(b'\n')?;
    }
    Ok(())
}
