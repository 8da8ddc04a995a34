//! Reads a transcript on standard input and says whether every daemon's history in it is legal.
#![tactic(auto)]

mod help;
mod stop;
mod top;
mod verdict;
mod why;

use crate::help::help_for;
use crate::stop::{BAD_LINE, ILLEGAL, LEGAL, NO_MEMORY, USAGE, WRITE_FAULT};
use crate::top::mdns_check;
use crate::why::why;
use mdns_streams::{Input, Output};
use std::io::ErrorKind;
use std::process::ExitCode;
use std::{env, io};

fn main(rt: HostRuntime) -> ExitCode {
    let status = match read_words(rt) {
        Ok(words) => match help_for(&words) {
            Some(text) => told(rt.println(text).is_ok()),
            None => check(rt, &words),
        },
        Err(status) => status,
    };
    if status != LEGAL && status != ILLEGAL && status != BAD_LINE {
        let why = why(status);
        let _ = eprintln!(rt; "mdns-check: {why}");
    }
    ExitCode::from(status)
}

// The words behind the program's own name. The error is the status: 2 where a word is no text, 6 for want of memory.
fn read_words(rt: HostRuntime) -> Result<Vec<String>, u8> {
    let mut words = Vec::new(rt.alloc());
    match env::args(&rt) {
        Ok(args) => {
            for word in args.skip(1) {
                if words.push(word).is_err() {
                    return Err(NO_MEMORY);
                }
            }
            Ok(words)
        }
        Err(error) if matches!(error.kind(), ErrorKind::OutOfMemory) => Err(NO_MEMORY),
        Err(_) => Err(USAGE),
    }
}

// The status where help was to be printed.
fn told(is_printed: bool) -> u8 {
    if is_printed { LEGAL } else { WRITE_FAULT }
}

// Checks standard input.
fn check(rt: HostRuntime, words: &[String]) -> u8 {
    let mut input = Input::new(rt.reader());
    let mut output = Output::new(io::writer(&rt));
    mdns_check(rt.alloc(), words, &mut input, &mut output)
}

#[cfg(test)]
mod tests;
