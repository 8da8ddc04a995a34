// Events as lines say them.
ghost use Rattle.std.specs.Prelude.{◌≡◌, ◌++◌, OnOk};
ghost use Rattle.mdns_history.specs.EntryText.{from_text};
ghost use Rattle.mdns_script.specs.CommandText.{said_event};

use crate::print::{put_numbered, put_word};
use crate::print_request::put_request;
use mdns_base::Host;
use mdns_history::Event;
use number_text::{put_hex, put_ipv4};
use sd_call::Request;
use std::alloc::AllocError;

/// Puts the line of an event of a daemon. Refused only for want of memory.
pub(crate) fn put_event(out: &mut Vec<u8>, daemon: u32, event: &Event) -> Result<(), AllocError>
    ensures { OnOk result (out.new.items ≡ out.old.items ++ said_event daemon event.now) }
{
    match event {
        Event::Detach { session } => put_close(out, daemon, *session),
        Event::Take { session, max } => put_take(out, daemon, *session, *max),
        Event::Hear { from, bytes } => put_hear(out, daemon, *from, bytes.as_slice()),
        Event::Call {
            session,
            op,
            request,
        } => put_call(out, daemon, *session, *op, request),
        Event::Boot { .. } => put_word(out, b"boot"),
        Event::Attach => put_word(out, b"open"),
        Event::Tick => put_word(out, b"tick"),
    }
}

fn put_close(out: &mut Vec<u8>, daemon: u32, session: u64) -> Result<(), AllocError>
    ensures { OnOk result (out.new.items ≡ out.old.items ++ said_event daemon (Event.Detach session)) }
{
    put_numbered(out, b"close ", u64::from(daemon))?;
    put_numbered(out, b" ", session)?;
    Ok(())
}

fn put_take(out: &mut Vec<u8>, daemon: u32, session: u64, max: u32) -> Result<(), AllocError>
    ensures { OnOk result (out.new.items ≡ out.old.items ++ said_event daemon (Event.Take session max)) }
{
    put_numbered(out, b"take ", u64::from(daemon))?;
    put_numbered(out, b" ", session)?;
    put_numbered(out, b" ", u64::from(max))?;
    Ok(())
}

fn put_hear(out: &mut Vec<u8>, daemon: u32, from: Host, bytes: &[u8]) -> Result<(), AllocError>
    ensures { OnOk result (out.new.items ≡ out.old.items ++ said_event daemon (Event.Hear from bytes.now)) }
{
    put_numbered(out, b"hear ", u64::from(daemon))?;
    out.push(b' ')?;
    put_from(out, from)?;
    out.push(b' ')?;
    put_hex(out, bytes)?;
    Ok(())
}

// An address and a port.
fn put_from(out: &mut Vec<u8>, from: Host) -> Result<(), AllocError>
    ensures { OnOk result (out.new.items ≡ out.old.items ++ from_text from) }
{
    put_ipv4(out, from.ip)?;
    put_numbered(out, b" ", u64::from(from.port))?;
    Ok(())
}

fn put_call(
    out: &mut Vec<u8>,
    daemon: u32,
    session: u64,
    op: u32,
    request: &Request,
) -> Result<(), AllocError>
    ensures { OnOk result (out.new.items ≡ out.old.items ++ said_event daemon (Event.Call session op request.now)) }
{
    put_numbered(out, b"call ", u64::from(daemon))?;
    put_numbered(out, b" ", session)?;
    put_numbered(out, b" ", u64::from(op))?;
    out.push(b' ')?;
    put_request(out, request)?;
    Ok(())
}
