// Messages that grow by their lines.
ghost use Rattle.std.specs.Prelude.{◌≡◌, [], nat_le, IsTrue, IfOk};
ghost use Rattle.mdns_transcript.specs.Stages.{place};
ghost use Rattle.mdns_transcript.specs.Drafts.{reach};
ghost use Rattle.mdns_transcript.specs.Messages.{begun, with_question, with_record};

use dns_message::{Message, Questions, Rrs};
use dns_record::{Question, Rr};
use mdns_print::Section;
use std::alloc::{AllocError, Global};

/// A message without questions and records, with the header of a written message. (RFC 6762 18)
pub(crate) fn begun(alloc: Global, id: u16, response: bool, truncated: bool) -> Message
    ensures { result ≡ begun id response truncated }
{
    Message {
        id,
        response,
        authoritative: response,
        truncated,
        opcode: 0,
        rcode: 0,
        questions: Questions::new(alloc),
        answers: Rrs::new(alloc),
        authority: Rrs::new(alloc),
        additional: Rrs::new(alloc),
    }
}

/// Puts a question at the end of a message, where no record is there yet; says whether it is put.
pub(crate) fn add_question(message: &mut Message, question: Question) -> Result<bool, AllocError>
    ensures fits { IfOk result (λ fits. fits ≡ nat_le (reach message.old) 1) }
    ensures put { IfOk result (λ fits. IsTrue fits → message.new ≡ with_question question message.old) }
{
    if has_records(message, Section::Answers) {
        return Ok(false);
    }
    message.questions.push(question)?;
    Ok(true)
}

/// Puts a record at the end of a section, where no later section has one yet; says whether it is put.
pub(crate) fn add_record(
    message: &mut Message,
    section: Section,
    rr: Rr,
) -> Result<bool, AllocError>
    ensures fits { IfOk result (λ fits. fits ≡ nat_le (reach message.old) (place section)) }
    ensures put { IfOk result (λ fits. IsTrue fits → message.new ≡ with_record section rr message.old) }
{
    match section {
        Section::Answers => {
            if has_records(message, Section::Authority) {
                return Ok(false);
            }
            message.answers.push(rr)?;
        }
        Section::Authority => {
            if has_records(message, Section::Additional) {
                return Ok(false);
            }
            message.authority.push(rr)?;
        }
        Section::Additional => message.additional.push(rr)?,
    }
    Ok(true)
}

// Whether a message has records in a section, or in a later one.
fn has_records(message: &Message, section: Section) -> bool
    ensures { result ≡ nat_le (place section) (reach message.now) }
{
    let additional = !message.additional.as_slice().is_empty();
    let authority = !message.authority.as_slice().is_empty();
    let answers = !message.answers.as_slice().is_empty();
    match section {
        Section::Answers => answers || authority || additional,
        Section::Authority => authority || additional,
        Section::Additional => additional,
    }
}
