// Command lines, with the statuses and outputs that they must have, and what is said of bad lines.
use mdns_base::{MemSink, MemSource};
use mdns_command::{CommandLine, mdnsd, note_on};
use mdns_outside::Place;
use mdns_play::{NO_MEMORY, WRITE_FAULT};
use mdns_real::RealPlace;
use std::alloc::{AllocError, Global};
use std::env::Args;
use std::io;
use std::io::ErrorKind;
use std::sync::Wait;
use std::test::Fail;

// The words behind the program's name, the status over an empty input, and what is put.
const CASES: [(&[&str], u8, &str); 24] = [
    (&[], 2, ""),
    (&["scripts"], 2, ""),
    (&["Script"], 2, ""),
    (&["script"], 0, ""),
    (&["script", "script"], 2, ""),
    (&["", "script"], 2, ""),
    (&["script", ""], 2, ""),
    (&[""], 2, ""),
    (&["serve"], 2, ""),
    (&["serve", "--socket", "s"], 2, ""),
    (&["gen", "1"], 0, "gen 1\nnamed 1\nfound 1\nlost 1\n"),
    (&["gen", "64"], 0, "gen 64\nnamed 64\nfound 64\nlost 64\n"),
    (&["gen", "65"], 0, "gen 65\nnamed 65\nfound 65\nlost 65\n"),
    (
        &["gen", "100"],
        0,
        "gen 100\nnamed 100\nfound 100\nlost 100\n",
    ),
    (&["gen", "0"], 2, ""),
    (&["gen", "201"], 2, ""),
    (&["gen", "18446744073709551617"], 2, ""),
    (&["gen"], 2, ""),
    (&["gen", "1", "2"], 2, ""),
    (&["gen", "x"], 2, ""),
    (&["gen", "01"], 2, ""),
    (&["gen", "+1"], 2, ""),
    (&["gen", ""], 2, ""),
    (&["Gen", "1"], 2, ""),
];

// The command line of these words, as it is read.
fn command_line(alloc: Global, words: &[&str]) -> Result<io::Result<Args>, AllocError> {
    let mut list = Vec::new(alloc);
    list.push(String::from_str(alloc, "mdnsd")?)?;
    for word in words {
        list.push(String::from_str(alloc, word)?)?;
    }
    Ok(Ok(list.into_iter()))
}

// The status of a command line over an empty input and a sink of which these calls fail, and the sink.
fn run<R: Wait + Copy + Send + 'static, P: Place>(
    rt: &R,
    line: CommandLine,
    failing: &[u64],
    place: &mut P,
) -> Result<(u8, MemSink), AllocError> {
    let alloc = line.alloc;
    let mut source = MemSource::new(Vec::new(alloc), Vec::new(alloc));
    let mut sink = MemSink::new(alloc, Vec::from_slice(alloc, failing)?);
    let status = mdnsd(rt, line, &mut source, &mut sink, place);
    Ok((status, sink))
}

#[test]
fn command_lines(rt: HostRuntime) -> Result<(), Fail> {
    let alloc = rt.alloc();
    for (words, status, text) in CASES {
        let args = command_line(alloc, words)?;
        let mut place = RealPlace::new(rt, alloc);
        let (found, sink) = run(&rt, CommandLine { alloc, args }, &[], &mut place)?;
        if found == NO_MEMORY || found == WRITE_FAULT {
            // A sink of which no call is listed fails for want of memory alone.
            assert_eq!(rt; sink.bytes(), b"".as_slice());
            Err(AllocError)?;
        }
        assert_eq!(rt; found, status, "{text}");
        assert_eq!(rt; sink.bytes(), text.as_bytes());
    }
    Ok(())
}

// Not even the program's name; then a word that is no text, and want of memory for the words.
fn unread_lines(alloc: Global) -> Result<Vec<(io::Result<Args>, u8)>, AllocError> {
    let mut lines = Vec::new(alloc);
    lines.push((Ok(Vec::new(alloc).into_iter()), 2))?;
    lines.push((Err(io::Error::from(ErrorKind::InvalidData)), 2))?;
    lines.push((Err(io::Error::from(ErrorKind::OutOfMemory)), NO_MEMORY))?;
    Ok(lines)
}

#[test]
fn words_that_are_not_read(rt: HostRuntime) -> Result<(), Fail> {
    let alloc = rt.alloc();
    for (args, status) in unread_lines(alloc)? {
        let mut place = RealPlace::new(rt, alloc);
        let (found, sink) = run(&rt, CommandLine { alloc, args }, &[], &mut place)?;
        if found == NO_MEMORY && status != NO_MEMORY {
            Err(AllocError)?;
        }
        assert_eq!(rt; found, status);
        assert_eq!(rt; sink.bytes(), b"".as_slice());
    }
    Ok(())
}

#[test]
fn the_sink_fails(rt: HostRuntime) -> Result<(), Fail> {
    let alloc = rt.alloc();
    let args = command_line(alloc, &["gen", "1"])?;
    let mut place = RealPlace::new(rt, alloc);
    let (found, sink) = run(&rt, CommandLine { alloc, args }, &[1], &mut place)?;
    if found == NO_MEMORY {
        Err(AllocError)?;
    }
    assert_eq!(rt; found, WRITE_FAULT);
    assert_eq!(rt; sink.bytes(), b"".as_slice());
    Ok(())
}

// Lines that stop a script, and what is said of them.
const NOTES: [(&str, &str); 12] = [
    ("", "line 1 is bad"),
    (
        "fly 1",
        "line 1: daemon, at, word, seed, delay, lose, part, meet, open, close, take, hear or call is wanted as word 1",
    ),
    ("daemon 17", "line 1: K is wanted as word 2 of `daemon K`"),
    (
        "daemon 1 host a.b 10.0.0.1",
        "line 1: LABEL is wanted as word 4 of `daemon K host LABEL IPV4 [IPV6]`",
    ),
    (
        "daemon 1 host h 10.0.0.1 ::1",
        "line 1: IPV4 [IPV6] is wanted as word 5 of `daemon K host LABEL IPV4 [IPV6]`",
    ),
    (
        "hear 1 10.0.0.9 70000 -",
        "line 1: PORT is wanted as word 4 of `hear K IPV4 PORT HEX`",
    ),
    ("take 1 1", "line 1: N is wanted as word 4 of `take K S N`"),
    (
        "call 1 1 1 query A",
        "line 1: NAME is wanted as word 7 of `call K S OP query KIND NAME`",
    ),
    (
        "call 1 1 1 ask",
        "line 1: REQUEST is wanted as word 5 of `call K S OP REQUEST`",
    ),
    ("delay 0", "line 1: D is wanted as word 2 of `delay D`"),
    ("part 1 17", "line 1: B is wanted as word 3 of `part A B`"),
    ("open 2", "line 1: `open K` isn't in place here"),
];

#[test]
fn notes(rt: HostRuntime) -> Result<(), Fail> {
    for (line, note) in NOTES {
        let found = note_on(rt.alloc(), line.as_bytes(), 1)?;
        assert_eq!(rt; found.as_str(), note, "{line}");
    }
    Ok(())
}
