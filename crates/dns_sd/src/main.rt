//! Asks the daemon for names and services, and registers services. `dns-sd -B _ipp._tcp` lists the printers of the link.
#![tactic(auto)]

use mdns_streams::Output;
use sd_command::{Ending, UnixPlug, dns_sd, help_for, say_wrong, why};
use std::io::{Eprint, Write};
use std::process::ExitCode;
use std::{env, io};

fn main(rt: HostRuntime) -> ExitCode {
    let words = match read_words(rt) {
        Ok(words) => words,
        Err(status) => {
            if status == Ending::Usage as u8 {
                let _ = eprintln!(rt; "dns-sd: a word is no UTF-8 text");
            }
            explain(&rt, status);
            return ExitCode::from(status);
        }
    };
    if let Some(text) = help_for(&words) {
        let told = rt.println(text);
        let status = if told.is_ok() {
            0
        } else {
            Ending::WriteFault as u8
        };
        return ExitCode::from(status);
    }
    let status = run(rt, &words);
    if status == Ending::Usage as u8
        && let Ok(wrong) = say_wrong(rt.alloc(), &words)
    {
        let _ = eprintln!(rt; "dns-sd: {wrong}");
    }
    explain(&rt, status);
    ExitCode::from(status)
}

// The words behind the program's own name, or the status where they can't be read.
fn read_words(rt: HostRuntime) -> Result<Vec<String>, u8> {
    let args = match env::args(&rt) {
        Ok(args) => args,
        Err(error) => return Err(unread_status(&error)),
    };
    let mut words = Vec::new(rt.alloc());
    for word in args.skip(1) {
        if words.push(word).is_err() {
            return Err(Ending::NoMemory as u8);
        }
    }
    Ok(words)
}

// Runs the words of the command line, and answers the status. Where standard output is closed nothing is begun: the connection to the
// daemon would be what has its number then.
fn run(rt: HostRuntime, words: &[String]) -> u8 {
    let mut writer = io::writer(&rt);
    if writer.write(b"").is_err() {
        return Ending::WriteFault as u8;
    }
    let mut plug = UnixPlug::new(rt);
    let mut output = Output::new(writer);
    dns_sd(rt.alloc(), words, &mut plug, &mut output)
}

// The status where the words can't be read: memory was refused, or a word is no text.
fn unread_status(error: &io::Error) -> u8 {
    if error.kind() == io::ErrorKind::OutOfMemory {
        Ending::NoMemory as u8
    } else {
        Ending::Usage as u8
    }
}

// Tells a person on standard error why the program ended.
fn explain<R: Eprint>(rt: &R, status: u8) {
    if let Some(why) = why(status) {
        let _ = eprintln!(rt; "{why}");
    }
}
