// Events as text.
ghost use Rattle.std.specs.Prelude.{◌≡◌, ◌++◌, OnOk};
ghost use Rattle.mdns_history.specs.EntryText.{event_text, host_text, v6_text, from_text};

use crate::{Event, HostConfig};
use mdns_base::Host;
use number_text::{put_decimal, put_hex, put_ipv4, put_ipv6};
use sd_call::{Request, put_label, put_request};
use std::alloc::AllocError;

/// Puts the text of an event. Refused only for want of memory.
pub(crate) fn put_event(out: &mut Vec<u8>, event: &Event) -> Result<(), AllocError>
    ensures { OnOk result (out.new.items ≡ out.old.items ++ event_text event.now) }
{
    match event {
        Event::Boot { config } => {
            out.extend_from_slice(b"boot ")?;
            put_ipv4(out, config.address)?;
            put_host(out, &config.host)?;
            Ok(())
        }
        Event::Attach => {
            out.extend_from_slice(b"open")?;
            Ok(())
        }
        Event::Detach { session } => {
            out.extend_from_slice(b"close ")?;
            put_decimal(out, *session)?;
            Ok(())
        }
        Event::Call {
            session,
            op,
            request,
        } => {
            put_call(out, *session, *op, request)?;
            Ok(())
        }
        Event::Hear { from, bytes } => {
            put_heard(out, *from, bytes.as_slice())?;
            Ok(())
        }
        Event::Tick => {
            out.extend_from_slice(b"tick")?;
            Ok(())
        }
        Event::Take { session, max } => {
            out.extend_from_slice(b"take ")?;
            put_decimal(out, *session)?;
            out.push(b' ')?;
            put_decimal(out, u64::from(*max))?;
            Ok(())
        }
    }
}

// The call of a session.
fn put_call(out: &mut Vec<u8>, session: u64, op: u32, request: &Request) -> Result<(), AllocError>
    ensures { OnOk result (out.new.items ≡ out.old.items ++ event_text (Event.Call session op request.now)) }
{
    out.extend_from_slice(b"call ")?;
    put_decimal(out, session)?;
    out.push(b' ')?;
    put_decimal(out, u64::from(op))?;
    out.push(b' ')?;
    put_request(out, request)?;
    Ok(())
}

// A packet that was heard.
fn put_heard(out: &mut Vec<u8>, from: Host, bytes: &[u8]) -> Result<(), AllocError>
    ensures { OnOk result (out.new.items ≡ out.old.items ++ event_text (Event.Hear from bytes.now)) }
{
    out.extend_from_slice(b"hear ")?;
    put_from(out, from)?;
    out.push(b' ')?;
    put_hex(out, bytes)?;
    Ok(())
}

fn put_host(out: &mut Vec<u8>, host: &Option<HostConfig>) -> Result<(), AllocError>
    ensures { OnOk result (out.new.items ≡ out.old.items ++ host_text host.now) }
{
    match host {
        None => Ok(()),
        Some(host) => {
            out.push(b' ')?;
            put_label(out, host.label.as_slice())?;
            put_v6(out, host.v6)?;
            Ok(())
        }
    }
}

fn put_v6(out: &mut Vec<u8>, v6: Option<u128>) -> Result<(), AllocError>
    ensures { OnOk result (out.new.items ≡ out.old.items ++ v6_text v6) }
{
    match v6 {
        None => Ok(()),
        Some(v6) => {
            out.push(b' ')?;
            put_ipv6(out, v6)?;
            Ok(())
        }
    }
}

/// Puts an address and a port. Refused only for want of memory.
pub(crate) fn put_from(out: &mut Vec<u8>, host: Host) -> Result<(), AllocError>
    ensures { OnOk result (out.new.items ≡ out.old.items ++ from_text host) }
{
    put_ipv4(out, host.ip)?;
    out.push(b' ')?;
    put_decimal(out, u64::from(host.port))?;
    Ok(())
}
