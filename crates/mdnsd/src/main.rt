//! A Multicast DNS daemon. `mdnsd script` runs the script on standard input and prints its transcript; `mdnsd gen` plays a script that it makes
//! of a number; `mdnsd serve` serves clients.
#![tactic(auto)]

use mdns_command::{CommandLine, DONE, Keeping, Naming, WRITE_FAULT, help_for, mdnsd, why};
use mdns_real::RealPlace;
use mdns_streams::{Input, Output};
use std::process::ExitCode;
use std::{env, io};

fn main(rt: HostRuntime) -> ExitCode {
    let alloc = rt.alloc();
    let read = read_words(rt);
    let words = match &read {
        Ok(words) => Some(words.as_slice()),
        Err(_) => None,
    };
    if let Some(text) = help_for(words.unwrap_or(&[])) {
        let told = rt.println(text);
        return ExitCode::from(if told.is_ok() { DONE } else { WRITE_FAULT });
    }
    let mut input = Keeping::new(alloc, Input::new(rt.reader()));
    let mut output = Naming::new(Output::new(io::writer(&rt)));
    let mut place = RealPlace::new(rt, alloc);
    let args = env::args(&rt);
    let line = CommandLine { alloc, args };
    let status = mdnsd(&rt, line, &mut input, &mut output, &mut place);
    let stopped = output.stopped_at().map(|line| (input.kept(), line));
    if status != DONE
        && let Ok(why) = why(alloc, status, words, stopped, place.trouble())
    {
        let _ = eprintln!(rt; "mdnsd: {why}");
    }
    ExitCode::from(status)
}

// The words behind the program's own name. They can't be read where one is no text, or where memory is refused.
fn read_words(rt: HostRuntime) -> io::Result<Vec<String>> {
    let mut words = Vec::new(rt.alloc());
    for word in env::args(&rt)?.skip(1) {
        words.push(word)?;
    }
    Ok(words)
}
