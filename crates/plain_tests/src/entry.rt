// Rows that make the history.
use crate::kept::Kept;
use crate::row_error::RowError;
use crate::words::{count, moment_of, name, number};
use bytes::Bytes;
use dns_name::Label;
use mdns_base::{Host, Moment};
use mdns_history::{Config, Entry, Event, Gifts, HostConfig, Marks, Outcome, Sends};
use number_text::read_hex;
use sd_call::{Request, Text};
use std::alloc::Global;

/// `new`, or `MOMENT WORD EVENT`: how many entries the history has then.
pub fn row(alloc: Global, kept: &mut Kept, text: &str) -> Result<String, RowError> {
    let words: Vec<&str> = text.split(' ').collect(alloc)?;
    match words.as_slice() {
        ["new"] => *kept = Kept::new(alloc),
        [moment, word, rest @ ..] => {
            let event = event_of(alloc, rest)?;
            let entry = entry_of(alloc, moment_of(moment)?, number(word)?, event);
            kept.put(entry)?;
        }
        _ => return Err(RowError::NotUnderstood),
    }
    count(alloc, kept.entries().len())
}

/// An entry that marks, sends and gives nothing.
pub fn entry_of(alloc: Global, moment: Moment, word: u32, event: Event) -> Entry {
    let outcome = outcome_of(&event);
    Entry {
        moment: moment.ms(),
        word,
        event,
        marks: Marks::new(alloc),
        sent: Sends::new(alloc),
        given: Gifts::new(alloc),
        outcome,
    }
}

// How an event went: the session is the first, and each call is accepted.
fn outcome_of(event: &Event) -> Outcome {
    match event {
        Event::Attach => Outcome::Opened { session: 1 },
        Event::Call { .. } => Outcome::Code { code: 0 },
        _ => Outcome::Done,
    }
}

fn event_of(alloc: Global, words: &[&str]) -> Result<Event, RowError> {
    match words {
        ["boot", address] => boot(number(address)?, None),
        ["boot", address, label, v6] => boot(number(address)?, Some(host(label, v6)?)),
        ["attach"] => Ok(Event::Attach),
        ["call", op, request @ ..] => Ok(Event::Call {
            session: 1,
            op: number(op)?,
            request: request_of(alloc, request)?,
        }),
        ["hear", ip, port, hex] => hear(alloc, number(ip)?, number(port)?, hex),
        ["tick"] => Ok(Event::Tick),
        _ => Err(RowError::NotUnderstood),
    }
}

fn boot(address: u32, host: Option<HostConfig>) -> Result<Event, RowError> {
    let config = Config { address, host };
    Ok(Event::Boot { config })
}

fn host(label: &str, v6: &str) -> Result<HostConfig, RowError> {
    let Some(label) = Label::new(label.as_bytes()) else {
        return Err(RowError::NotUnderstood);
    };
    let v6 = Some(u128::from(number(v6)?));
    Ok(HostConfig { label, v6 })
}

fn request_of(alloc: Global, words: &[&str]) -> Result<Request, RowError> {
    match words {
        ["query", asked] => Ok(Request::Query {
            kind: 1,
            name: name(asked)?,
        }),
        ["browse", regtype] => match Text::new(alloc, regtype)? {
            Some(regtype) => Ok(Request::Browse { regtype }),
            None => Err(RowError::NotUnderstood),
        },
        ["stop"] => Ok(Request::Stop),
        _ => Err(RowError::NotUnderstood),
    }
}

fn hear(alloc: Global, ip: u32, port: u32, hex: &str) -> Result<Event, RowError> {
    let Ok(port) = u16::try_from(port) else {
        return Err(RowError::NotUnderstood);
    };
    let Some(bytes) = read_hex(alloc, hex.as_bytes())? else {
        return Err(RowError::NotUnderstood);
    };
    Ok(Event::Hear {
        from: Host { ip, port },
        bytes: Bytes::from_vec(bytes)?,
    })
}
