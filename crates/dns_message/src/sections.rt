// Questions and records, at offsets of a message. (RFC 1035 4.1.2 and 4.1.3, RFC 6762 10.2 and 18.12)
ghost use Rattle.std.specs.Prelude.{◌≡◌, ◌+◌, ◌<◌, ◌≤◌, length, IfOk};
ghost use Rattle.dns_message.specs.Reading.{question_at, record_at, data_end_at, all_at, IsReadAs};

use crate::data::read_rdata;
use crate::{MessageError, Questions, Rrs};
use dns_pointers::Packet;
use dns_record::{Question, Rr, kinds};
use std::alloc::Global;

/// The class IN. (RFC 1035 3.2.4)
const INTERNET: u16 = 1;

/// In a question: any class. (RFC 1035 3.2.5)
const ANY: u16 = 255;

// For so many records there is room before they are read, if so many are told of: most messages have no more.
const MANY: usize = 16;

// The bit of the class that asks for a unicast answer, or says that a record's set is complete.
const TOP_BIT: u16 = 0x8000;

/// So many questions from an offset on, those of another class than IN and ANY left out, and the offset behind them.
pub(crate) fn read_questions(
    alloc: Global,
    packet: &Packet<'_>,
    count: u16,
    at: usize,
) -> Result<(Questions, usize), MessageError>
    ensures { IsReadAs result (all_at (question_at packet.now) count at) }
{
    let mut questions = Questions::new(alloc);
    let mut place = at;
    'questions: for read in 0..count {
        let (question, end) = read_question(packet, place)?;
        if let Some(question) = question {
            questions.push(question)?;
        }
        place = end;
    }
    Ok((questions, place))
}

/// So many records from an offset on, those of another class than IN and of type OPT left out, and the offset behind
/// them.
pub(crate) fn read_records(
    alloc: Global,
    packet: &Packet<'_>,
    count: u16,
    at: usize,
) -> Result<(Rrs, usize), MessageError>
    ensures { IsReadAs result (all_at (record_at packet.now) count at) }
{
    let mut rrs = Rrs::new(alloc);
    rrs.reserve(usize::from(count).min(MANY))?;
    let mut place = at;
    'records: for read in 0..count {
        let (rr, end) = read_record(alloc, packet, place)?;
        if let Some(rr) = rr {
            rrs.push(rr)?;
        }
        place = end;
    }
    Ok((rrs, place))
}

#[tactic(auto, unfolding(crate::specs::Reading::question_at))]
fn read_question(packet: &Packet<'_>, at: usize) -> Result<(Option<Question>, usize), MessageError>
    ensures { result ≡ question_at packet.now at }
{
    let (name, fields) = packet.name_at(at)?;
    if packet.bytes().len() - fields < 4 {
        return Err(MessageError::Truncated);
    }
    let class = packet.u16_at(fields + 2);
    let kept = class % TOP_BIT == INTERNET || class % TOP_BIT == ANY;
    let question = kept.then_some(Question {
        name,
        kind: packet.u16_at(fields),
        unicast: class >= TOP_BIT,
    });
    Ok((question, fields + 4))
}

#[tactic(auto, unfolding(crate::specs::Reading::record_at))]
fn read_record(
    alloc: Global,
    packet: &Packet<'_>,
    at: usize,
) -> Result<(Option<Rr>, usize), MessageError>
    ensures { IsReadAs result (record_at packet.now at) }
{
    let (owner, fields) = packet.name_at(at)?;
    let stop = data_end(packet, fields)?;
    let (kind, class) = (packet.u16_at(fields), packet.u16_at(fields + 2));
    if kind == kinds::OPT || class % TOP_BIT != INTERNET {
        return Ok((None, stop));
    }
    let rdata = read_rdata(alloc, packet, kind, fields + 10, stop)?;
    let rr = Rr {
        owner,
        flush: class >= TOP_BIT,
        ttl: packet.u32_at(fields + 4),
        rdata,
    };
    Ok((Some(rr), stop))
}

// Where the data of a record end, by the fixed fields before them.
fn data_end(packet: &Packet<'_>, fields: usize) -> Result<usize, MessageError>
    requires within { fields ≤ length packet.now }
    ensures end { result ≡ data_end_at packet.now fields }
    ensures within { IfOk result (λ end. (fields + 10 ≤ end) × (end ≤ length packet.now)) }
{
    if packet.bytes().len() - fields < 10 {
        return Err(MessageError::Truncated);
    }
    let end = fields + 10 + usize::from(packet.u16_at(fields + 8));
    if end > packet.bytes().len() {
        return Err(MessageError::Truncated);
    }
    Ok(end)
}
