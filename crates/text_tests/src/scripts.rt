// Rows of scripts and of the words of `mdnsd serve`.
use bytes::Bytes;
use mdns_history::{Config, Event};
use mdns_script::{Command, Line, print_command, read_line};
use mdns_words::serve_words;
use row_words::{RowError, bytes_of, shown, text_of, word};
use sd_call::Request;
use std::alloc::{AllocError, Global};

/// `script LINE`: whether the line of a script is a `command` or `bad`.
pub fn script_row(alloc: Global, line: &str) -> Result<String, RowError> {
    let line = bytes_of(alloc, line)?;
    match read_line(alloc, &line)? {
        Line::Command(_) => word(alloc, "command"),
        Line::Bad => word(alloc, "bad"),
    }
}

/// `print LINE`: the command of a line as it is printed, or `bad`. A print that isn't printed as itself isn't understood.
pub fn print_row(alloc: Global, line: &str) -> Result<String, RowError> {
    let line = bytes_of(alloc, line)?;
    let Some(first) = print_of(alloc, &line)? else {
        return word(alloc, "bad");
    };
    match print_of(alloc, first.as_slice())? {
        Some(again) if again.as_slice() == first.as_slice() => shown(alloc, first.as_slice()),
        _ => Err(RowError::NotUnderstood),
    }
}

/// `event KIND`: the print of an event that no line says. One that is read as a line isn't understood.
pub fn event_row(alloc: Global, kind: &str) -> Result<String, RowError> {
    let command = Command::Event {
        daemon: 1,
        event: event_of(alloc, kind)?,
    };
    let text = print_command(alloc, &command)?;
    match print_of(alloc, text.as_slice())? {
        None => shown(alloc, text.as_slice()),
        Some(_) => Err(RowError::NotUnderstood),
    }
}

// The print of a line's command, where the line has one.
fn print_of(alloc: Global, line: &[u8]) -> Result<Option<Bytes>, AllocError> {
    match read_line(alloc, line)? {
        Line::Command(command) => Ok(Some(print_command(alloc, &command)?)),
        Line::Bad => Ok(None),
    }
}

fn event_of(alloc: Global, kind: &str) -> Result<Event, RowError> {
    match kind {
        "boot" => Ok(Event::Boot {
            config: Config {
                address: 167_772_161,
                host: None,
            },
        }),
        "attach" => Ok(Event::Attach),
        "tick" => Ok(Event::Tick),
        "strings" => Ok(Event::Call {
            session: 2,
            op: 3,
            request: Request::Update {
                txt: Bytes::from_vec(bytes_of(alloc, "<016100>")?)?,
            },
        }),
        _ => Err(RowError::NotUnderstood),
    }
}

/// `serve WORDS`: whether these words behind `mdnsd serve` ask for something, as `asked` or `none`.
pub fn serve_row(alloc: Global, line: &str) -> Result<String, RowError> {
    let line = text_of(alloc, line)?;
    let mut words = Vec::new(alloc);
    for word in line.split(' ') {
        words.push(word.to_string(alloc)?)?;
    }
    match serve_words(alloc, words.as_slice())? {
        Some(_) => word(alloc, "asked"),
        None => word(alloc, "none"),
    }
}
