// Rows on queries of other hosts: `heard_askings` of `plain_asking`.
use crate::asking::causes;
use crate::row_error::RowError;
use crate::words::{moment_of, name};
use dns_message::{Message, Questions, Rrs};
use dns_record::{Question, Rr};
use mdns_base::{Host, Moment};
use plain_asking::{are_by, heard_askings};
use plain_history::{HeardMessage, HistoryEntry};
use std::alloc::Global;

/// `MOMENT PORT NAME REPLY lists RECORD`: why questions count as asked where such a query is heard. It is for the IPv4 addresses of a name,
/// wants a `unicast` or `multicast` reply, and lists a known answer.
pub fn row(alloc: Global, history: &[HistoryEntry], text: &str) -> Result<String, RowError> {
    let Some((head, answer)) = text.split_once(" lists ") else {
        return Err(RowError::NotUnderstood);
    };
    let words: Vec<&str> = head.split(' ').collect(alloc)?;
    match words.as_slice() {
        [moment, port, asked, reply] => {
            let mut query = query_of(alloc, port, asked, is_unicast(reply)?)?;
            query.message.answers.push(Rr::parse_text(alloc, answer)?)?;
            askings(alloc, history, moment_of(moment)?, &query)
        }
        _ => Err(RowError::NotUnderstood),
    }
}

fn is_unicast(reply: &str) -> Result<bool, RowError> {
    match reply {
        "unicast" => Ok(true),
        "multicast" => Ok(false),
        _ => Err(RowError::NotUnderstood),
    }
}

fn askings(
    alloc: Global,
    history: &[HistoryEntry],
    moment: Moment,
    query: &HeardMessage,
) -> Result<String, RowError> {
    if !are_by(moment, history) {
        return Err(RowError::NotUnderstood);
    }
    let marks = heard_askings(alloc, history, moment, Some(query))?;
    causes(alloc, marks.as_slice())
}

// A query without answers, from host 9.
fn query_of(
    alloc: Global,
    port: &str,
    asked: &str,
    unicast: bool,
) -> Result<HeardMessage, RowError> {
    let Ok(port) = port.parse::<u16>() else {
        return Err(RowError::NotUnderstood);
    };
    let mut questions = Questions::new(alloc);
    questions.push(Question {
        name: name(asked)?,
        kind: 1,
        unicast,
    })?;
    Ok(HeardMessage {
        from: Host { ip: 9, port },
        message: message_of(alloc, questions),
    })
}

fn message_of(alloc: Global, questions: Questions) -> Message {
    Message {
        id: 0,
        response: false,
        authoritative: false,
        truncated: false,
        opcode: 0,
        rcode: 0,
        questions,
        answers: Rrs::new(alloc),
        authority: Rrs::new(alloc),
        additional: Rrs::new(alloc),
    }
}
