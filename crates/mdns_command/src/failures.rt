// Why the program failed, in words for a person. No clause speaks of it.
use crate::help::HELP;
use crate::notes::note_on;
use crate::stop::{DOOR_FAULT, LINK_FAULT, SPAWN_FAULT, USAGE};
use mdns_play::{BAD_LINE, NO_MEMORY, READ_FAULT, TOO_LARGE, WRITE_FAULT};
use mdns_real::Trouble;
use mdns_server::say_wrong;
use std::alloc::{AllocError, Global};
use std::io;
use std::io::ErrorKind;

/// What is said of a status other than 0: with the words that were typed, where they could be read, the line of a script that
/// stopped it, and what failed at the place.
pub fn why(
    alloc: Global,
    status: u8,
    words: Option<&[String]>,
    stopped: Option<(&[u8], u64)>,
    trouble: Option<&Trouble>,
) -> Result<String, AllocError> {
    let Some(words) = words else {
        return String::from_str(alloc, unread(status));
    };
    match status {
        USAGE => wrong_words(alloc, words),
        BAD_LINE => match stopped {
            Some((script, line)) => note_on(alloc, script, line),
            None => String::from_str(alloc, "the script has a bad line"),
        },
        DOOR_FAULT => failed_door(alloc, words, trouble),
        LINK_FAULT => failed_link(alloc, words, trouble),
        _ => String::from_str(alloc, reason(status)),
    }
}

// What is said where the words can't be read.
fn unread(status: u8) -> &'static str {
    match status {
        USAGE => "a word is no UTF-8 text",
        _ => reason(status),
    }
}

// What is said of a status that needs no more.
fn reason(status: u8) -> &'static str {
    match status {
        READ_FAULT => "standard input can't be read",
        WRITE_FAULT => "standard output can't be written",
        NO_MEMORY => "out of memory",
        TOO_LARGE => "the script has more than 67108864 bytes",
        SPAWN_FAULT => "serve: a thread couldn't be started",
        _ => "failed",
    }
}

// What is said of words that are no command.
fn wrong_words(alloc: Global, words: &[String]) -> Result<String, AllocError> {
    match words {
        [command, behind @ ..] if command.as_str() == "serve" => {
            let wrong = say_wrong(alloc, behind)?;
            format!(in alloc; "serve: {wrong}")
        }
        [command, behind @ ..] if command.as_str() == "gen" => wrong_number(alloc, behind),
        [] => format!(in alloc; "a command is wanted\n{HELP}"),
        [command, word, ..] if command.as_str() == "script" => {
            format!(in alloc; "script takes no further word, not {word}\n{HELP}")
        }
        [command, ..] => format!(in alloc; "{command} is no command\n{HELP}"),
    }
}

// What is said of the words behind `gen` that aren't one number from 1 to 200.
fn wrong_number(alloc: Global, words: &[String]) -> Result<String, AllocError> {
    match words {
        [] => String::from_str(alloc, "gen: a number from 1 to 200 is wanted"),
        [number] => format!(in alloc; "gen: a number from 1 to 200 is wanted, not {number}"),
        [_, word, ..] => format!(in alloc; "gen takes no further word, not {word}"),
    }
}

// What is said where the socket of the clients failed.
fn failed_door(
    alloc: Global,
    words: &[String],
    trouble: Option<&Trouble>,
) -> Result<String, AllocError> {
    let path = word_behind(words, "--socket");
    match trouble {
        Some(Trouble::Socket { error }) => {
            let why = cause(
                alloc,
                error,
                "another daemon listens there, it is another user's, or it is no socket",
            )?;
            format!(in alloc; "serve: the socket {path} of the clients: {why}")
        }
        _ => format!(in alloc; "serve: the socket {path} of the clients failed"),
    }
}

// What is said where the relay failed.
fn failed_link(
    alloc: Global,
    words: &[String],
    trouble: Option<&Trouble>,
) -> Result<String, AllocError> {
    let port = word_behind(words, "--relay");
    match trouble {
        Some(Trouble::Relay { error }) => {
            let why = cause(alloc, error, "it is in use")?;
            format!(in alloc; "serve: the port {port} of the relay: {why}")
        }
        _ => format!(in alloc; "serve: the relay at port {port} failed"),
    }
}

// The word behind an option; empty where there is none.
fn word_behind<'a>(words: &'a [String], option: &str) -> &'a str {
    let mut is_wanted = false;
    for word in words {
        if is_wanted {
            return word.as_str();
        }
        is_wanted = word.as_str() == option;
    }
    ""
}

// Why a socket couldn't be had.
fn cause(alloc: Global, error: &io::Error, in_use: &str) -> Result<String, AllocError> {
    if error.kind() == ErrorKind::AddrInUse {
        String::from_str(alloc, in_use)
    } else {
        format!(in alloc; "{error}")
    }
}
