ghost use Rattle.std.specs.Prelude.{◌≡◌, ◌^◌, Ok, IfOk};
ghost use Rattle.std.specs.Option.{option_map};
ghost use Rattle.number_text.specs.Digits.{decimal_of, decimal_below};
ghost use Rattle.mdns_script.specs.Lines.{line_of, is_read, command_of, command_of_words, setting_of_words, event_of_words, close_command, take_command, max_of, hear_command, hear_words, call_command, call_words};
ghost use Rattle.mdns_script.specs.Boots.{daemon_of};

use crate::boot::{daemon_command, daemon_number};
use crate::link::{delay_command, lose_command, meet_command, part_command};
use crate::requests::request;
use crate::{Command, Line};
use bytes::Bytes;
use mdns_base::Host;
use mdns_history::Event;
use number_text::{
    cut_at, is_same, read_decimal, read_decimal_u16, read_decimal_u32, read_hex, read_ipv4,
};
use std::alloc::{AllocError, Global};

/// What a line asks for. The line is without its line feed and the carriage return before it. Only want of memory is an
/// error.
#[tactic(auto, unfolding(crate::specs::Lines::line_of))]
pub fn read_line(alloc: Global, line: &[u8]) -> Result<Line, AllocError>
    ensures { IfOk result (λ read. read ≡ line_of line.now) }
{
    if !is_read(line) {
        return Ok(Line::Command(Command::Pass));
    }
    match command_of(alloc, line)? {
        Some(command) => Ok(Line::Command(command)),
        None => Ok(Line::Bad),
    }
}

// Whether the line is neither empty nor a comment.
fn is_read(line: &[u8]) -> bool
    ensures { result ≡ is_read line.now }
{
    match line {
        [] => false,
        [first, ..] => *first != b'#',
    }
}

fn command_of(alloc: Global, line: &[u8]) -> Result<Option<Command>, AllocError>
    ensures { IfOk result (λ found. found ≡ command_of line.now) }
{
    match cut_at(line, b' ') {
        Some((word, rest)) => Ok(command_of_words(alloc, word, rest)?),
        None => Ok(None),
    }
}

// What a first word and the text behind it ask for.
fn command_of_words(alloc: Global, word: &[u8], rest: &[u8]) -> Result<Option<Command>, AllocError>
    ensures { IfOk result (λ found. found ≡ command_of_words word.now rest.now) }
{
    match setting_of_words(word, rest) {
        Some(command) => Ok(Some(command)),
        None => Ok(event_of_words(alloc, word, rest)?),
    }
}

// The lines that take no memory: they boot a daemon, pass time, set the words to come, or change the link.
fn setting_of_words(word: &[u8], rest: &[u8]) -> Option<Command>
    ensures { result ≡ setting_of_words word.now rest.now }
{
    if is_same(word, b"daemon") {
        daemon_command(rest)
    } else if is_same(word, b"at") {
        at_command(rest)
    } else if is_same(word, b"word") {
        word_command(rest)
    } else if is_same(word, b"seed") {
        seed_command(rest)
    } else if is_same(word, b"delay") {
        delay_command(rest)
    } else if is_same(word, b"lose") {
        lose_command(rest)
    } else if is_same(word, b"part") {
        part_command(rest)
    } else if is_same(word, b"meet") {
        meet_command(rest)
    } else {
        None
    }
}

// The lines that let something happen to a daemon.
fn event_of_words(alloc: Global, word: &[u8], rest: &[u8]) -> Result<Option<Command>, AllocError>
    ensures { IfOk result (λ found. found ≡ event_of_words word.now rest.now) }
{
    if is_same(word, b"open") {
        return Ok(open_command(rest));
    }
    if is_same(word, b"close") {
        return Ok(close_command(rest));
    }
    if is_same(word, b"take") {
        return Ok(take_command(rest));
    }
    if is_same(word, b"hear") {
        return Ok(hear_command(alloc, rest)?);
    }
    if is_same(word, b"call") {
        return Ok(call_command(alloc, rest)?);
    }
    Ok(None)
}

fn word_command(text: &[u8]) -> Option<Command>
    ensures { result ≡ option_map (λ w. Command.Word w) (decimal_below (2 ^ 32) text.now) }
{
    let word = read_decimal_u32(text)?;
    Some(Command::Word { word })
}

fn seed_command(text: &[u8]) -> Option<Command>
    ensures { result ≡ option_map (λ s. Command.Seed s) (decimal_below (2 ^ 32) text.now) }
{
    let seed = read_decimal_u32(text)?;
    Some(Command::Seed { seed })
}

fn open_command(text: &[u8]) -> Option<Command>
    ensures { result ≡ option_map (λ n. Command.Attach n) (daemon_of text.now) }
{
    let daemon = daemon_number(text)?;
    Some(Command::Attach { daemon })
}

fn at_command(text: &[u8]) -> Option<Command>
    ensures { result ≡ option_map (λ n. Command.At n) (decimal_of text.now) }
{
    let moment = read_decimal(text)?;
    Some(Command::At { moment })
}

#[tactic(auto, unfolding(crate::specs::Lines::close_command))]
fn close_command(text: &[u8]) -> Option<Command>
    ensures { result ≡ close_command text.now }
{
    let (daemon, session) = cut_at(text, b' ')?;
    let daemon = daemon_number(daemon)?;
    let session = read_decimal(session)?;
    Some(Command::Event {
        daemon,
        event: Event::Detach { session },
    })
}

#[tactic(auto, unfolding(crate::specs::Lines::take_command))]
fn take_command(text: &[u8]) -> Option<Command>
    ensures { result ≡ take_command text.now }
{
    let (daemon, rest) = cut_at(text, b' ')?;
    let (session, max) = cut_at(rest, b' ')?;
    let daemon = daemon_number(daemon)?;
    let session = read_decimal(session)?;
    let max = max_number(max)?;
    Some(Command::Event {
        daemon,
        event: Event::Take { session, max },
    })
}

// How many items are taken at most, 1 to 1000.
fn max_number(text: &[u8]) -> Option<u32>
    ensures { result ≡ max_of text.now }
{
    let number = read_decimal(text)?;
    if 1 <= number && number <= 1000 {
        Some(number as u32)
    } else {
        None
    }
}

fn call_command(alloc: Global, text: &[u8]) -> Result<Option<Command>, AllocError>
    ensures { IfOk result (λ found. found ≡ call_command text.now) }
{
    let Some((daemon, session, op, rest)) = call_words(text) else {
        return Ok(None);
    };
    let Some(request) = request(alloc, rest)? else {
        return Ok(None);
    };
    Ok(Some(Command::Event {
        daemon,
        event: Event::Call {
            session,
            op,
            request,
        },
    }))
}

// The daemon, the session, the number of the operation, and the text of the request.
#[tactic(auto, unfolding(crate::specs::Lines::call_words))]
fn call_words(text: &[u8]) -> Option<(u32, u64, u32, &[u8])>
    ensures { option_map (λ words. (words.0, words.1, words.2, words.3.now)) result ≡ call_words text.now }
{
    let (daemon, rest) = cut_at(text, b' ')?;
    let (session, rest) = cut_at(rest, b' ')?;
    let (op, rest) = cut_at(rest, b' ')?;
    let daemon = daemon_number(daemon)?;
    let session = read_decimal(session)?;
    let op = read_decimal_u32(op)?;
    Some((daemon, session, op, rest))
}

fn hear_command(alloc: Global, text: &[u8]) -> Result<Option<Command>, AllocError>
    ensures { IfOk result (λ found. found ≡ hear_command text.now) }
{
    let Some((daemon, from, hex)) = hear_words(text) else {
        return Ok(None);
    };
    let Some(bytes) = read_hex(alloc, hex)? else {
        return Ok(None);
    };
    Ok(Some(Command::Event {
        daemon,
        event: Event::Hear {
            from,
            bytes: Bytes::from_vec(bytes)?,
        },
    }))
}

// The daemon, the sender and the text of the packet.
#[tactic(auto, unfolding(crate::specs::Lines::hear_words))]
fn hear_words(text: &[u8]) -> Option<(u32, Host, &[u8])>
    ensures { option_map (λ words. (words.0, words.1, words.2.now)) result ≡ hear_words text.now }
{
    let (daemon, rest) = cut_at(text, b' ')?;
    let (ip, rest) = cut_at(rest, b' ')?;
    let (port, hex) = cut_at(rest, b' ')?;
    let daemon = daemon_number(daemon)?;
    let ip = read_ipv4(ip)?;
    let port = read_decimal_u16(port)?;
    Some((daemon, Host { ip, port }, hex))
}
