// Events and the first lines of entries read from text.
ghost use Rattle.std.specs.Prelude.{◌≡◌, IfOk};
ghost use Rattle.std.specs.Option.{option_map};
ghost use Rattle.number_text.specs.Digits.{decimal_of};
ghost use Rattle.mdns_script.specs.Boots.{daemon_of};
ghost use Rattle.mdns_lines.specs.ReadEvents.{host_config_in, config_in, call_words, call_in, hear_words, hear_in, take_in, plain_event, event_of_words, event_in, head_words, head_in};

use crate::requests::request;
use crate::tokens::{after, host, label};
use bytes::Bytes;
use mdns_base::Host;
use mdns_history::{Config, Event, HostConfig};
use mdns_print::Line;
use number_text::{
    cut_at, is_same, read_decimal, read_decimal_u32, read_hex, read_ipv4, read_ipv6,
};
use std::alloc::{AllocError, Global};

/// The first line of an entry, behind its `@`. Refused only for want of memory.
pub(crate) fn head(alloc: Global, text: &[u8]) -> Result<Option<Line>, AllocError>
    ensures { IfOk result (λ found. found ≡ head_in text.now) }
{
    let Some((daemon, moment, word, rest)) = head_words(text) else {
        return Ok(None);
    };
    match event(alloc, rest)? {
        Some(event) => Ok(Some(Line::Head {
            daemon,
            moment,
            word,
            event,
        })),
        None => Ok(None),
    }
}

// The daemon, the moment and the word, and the text of the event.
#[tactic(auto, unfolding(crate::specs::ReadEvents::head_words))]
fn head_words(text: &[u8]) -> Option<(u32, u64, u32, &[u8])>
    ensures { option_map (λ words. (words.0, words.1, words.2, words.3.now)) result ≡ head_words text.now }
{
    let (moment, rest) = cut_at(text, b' ')?;
    let (daemon, rest) = cut_at(rest, b' ')?;
    let (word, rest) = cut_at(rest, b' ')?;
    let moment = read_decimal(moment)?;
    let daemon = after(daemon, b"d")?;
    let word = after(word, b"w")?;
    let daemon = daemon_number(daemon)?;
    let word = read_decimal_u32(word)?;
    Some((daemon, moment, word, rest))
}

// The number of a daemon, 1 to 16.
fn daemon_number(text: &[u8]) -> Option<u32>
    ensures { result ≡ daemon_of text.now }
{
    let number = read_decimal(text)?;
    if 1 <= number && number <= 16 {
        Some(number as u32)
    } else {
        None
    }
}

fn event(alloc: Global, text: &[u8]) -> Result<Option<Event>, AllocError>
    ensures { IfOk result (λ found. found ≡ event_in text.now) }
{
    match cut_at(text, b' ') {
        Some((word, rest)) => Ok(event_of_words(alloc, word, rest)?),
        None => Ok(plain_event(text)),
    }
}

fn plain_event(text: &[u8]) -> Option<Event>
    ensures { result ≡ plain_event text.now }
{
    if is_same(text, b"tick") {
        Some(Event::Tick)
    } else if is_same(text, b"open") {
        Some(Event::Attach)
    } else {
        None
    }
}

fn event_of_words(alloc: Global, word: &[u8], rest: &[u8]) -> Result<Option<Event>, AllocError>
    ensures { IfOk result (λ found. found ≡ event_of_words word.now rest.now) }
{
    if is_same(word, b"boot") {
        return Ok(boot(rest));
    }
    if is_same(word, b"close") {
        return Ok(close(rest));
    }
    if is_same(word, b"take") {
        return Ok(take(rest));
    }
    if is_same(word, b"hear") {
        return Ok(hear(alloc, rest)?);
    }
    if is_same(word, b"call") {
        return Ok(call(alloc, rest)?);
    }
    Ok(None)
}

fn boot(text: &[u8]) -> Option<Event>
    ensures { result ≡ option_map (λ config. Event.Boot config) (config_in text.now) }
{
    let config = config(text)?;
    Some(Event::Boot { config })
}

// `IPV4`, or `IPV4` and a host.
fn config(text: &[u8]) -> Option<Config>
    ensures { result ≡ config_in text.now }
{
    match cut_at(text, b' ') {
        Some((ip, host)) => Some(Config {
            address: read_ipv4(ip)?,
            host: Some(host_config(host)?),
        }),
        None => Some(Config {
            address: read_ipv4(text)?,
            host: None,
        }),
    }
}

// `LABEL` or `LABEL IPV6`.
fn host_config(text: &[u8]) -> Option<HostConfig>
    ensures { result ≡ host_config_in text.now }
{
    match cut_at(text, b' ') {
        Some((token, v6)) => Some(HostConfig {
            label: label(token)?,
            v6: Some(read_ipv6(v6)?),
        }),
        None => Some(HostConfig {
            label: label(text)?,
            v6: None,
        }),
    }
}

fn close(text: &[u8]) -> Option<Event>
    ensures { result ≡ option_map (λ session. Event.Detach session) (decimal_of text.now) }
{
    let session = read_decimal(text)?;
    Some(Event::Detach { session })
}

#[tactic(auto, unfolding(crate::specs::ReadEvents::take_in))]
fn take(text: &[u8]) -> Option<Event>
    ensures { result ≡ take_in text.now }
{
    let (session, max) = cut_at(text, b' ')?;
    let session = read_decimal(session)?;
    let max = read_decimal_u32(max)?;
    Some(Event::Take { session, max })
}

fn hear(alloc: Global, text: &[u8]) -> Result<Option<Event>, AllocError>
    ensures { IfOk result (λ found. found ≡ hear_in text.now) }
{
    let Some((from, hex)) = hear_words(text) else {
        return Ok(None);
    };
    let Some(bytes) = read_hex(alloc, hex)? else {
        return Ok(None);
    };
    Ok(Some(Event::Hear {
        from,
        bytes: Bytes::from_vec(bytes)?,
    }))
}

// The sender, and the text of the packet.
#[tactic(auto, unfolding(crate::specs::ReadEvents::hear_words))]
fn hear_words(text: &[u8]) -> Option<(Host, &[u8])>
    ensures { option_map (λ words. (words.0, words.1.now)) result ≡ hear_words text.now }
{
    let (ip, rest) = cut_at(text, b' ')?;
    let (port, hex) = cut_at(rest, b' ')?;
    let from = host(ip, port)?;
    Some((from, hex))
}

fn call(alloc: Global, text: &[u8]) -> Result<Option<Event>, AllocError>
    ensures { IfOk result (λ found. found ≡ call_in text.now) }
{
    let Some((session, op, rest)) = call_words(text) else {
        return Ok(None);
    };
    let Some(request) = request(alloc, rest)? else {
        return Ok(None);
    };
    Ok(Some(Event::Call {
        session,
        op,
        request,
    }))
}

// The session, the number of the operation, and the text of the request.
#[tactic(auto, unfolding(crate::specs::ReadEvents::call_words))]
fn call_words(text: &[u8]) -> Option<(u64, u32, &[u8])>
    ensures { option_map (λ words. (words.0, words.1, words.2.now)) result ≡ call_words text.now }
{
    let (session, rest) = cut_at(text, b' ')?;
    let (op, rest) = cut_at(rest, b' ')?;
    let session = read_decimal(session)?;
    let op = read_decimal_u32(op)?;
    Some((session, op, rest))
}
