// Events as text.
ghost use Rattle.std.specs.Prelude.{◌≡◌, ◌++◌, OnOk};
ghost use Rattle.mdns_history.specs.EntryText.{event_text, host_text, v6_text, from_text};

use crate::mark::{put_numbered, put_word};
use mdns_base::Host;
use mdns_history::{Config, Event, HostConfig};
use number_text::{put_hex, put_ipv4, put_ipv6};
use sd_call::{Request, put_label, put_request};
use std::alloc::AllocError;

/// Puts the text of an event. Refused only for want of memory.
pub(crate) fn put_event(out: &mut Vec<u8>, event: &Event) -> Result<(), AllocError>
    ensures { OnOk result (out.new.items ≡ out.old.items ++ event_text event.now) }
{
    match event {
        Event::Boot { config } => put_boot(out, config),
        Event::Attach => put_word(out, b"open"),
        Event::Detach { session } => put_numbered(out, b"close ", *session),
        Event::Call {
            session,
            op,
            request,
        } => put_call(out, *session, *op, request),
        Event::Hear { from, bytes } => put_heard(out, *from, bytes.as_slice()),
        Event::Tick => put_word(out, b"tick"),
        Event::Take { session, max } => put_take(out, *session, *max),
    }
}

fn put_boot(out: &mut Vec<u8>, config: &Config) -> Result<(), AllocError>
    ensures { OnOk result (out.new.items ≡ out.old.items ++ event_text (Event.Boot config.now)) }
{
    out.extend_from_slice(b"boot ")?;
    put_ipv4(out, config.address)?;
    put_host(out, &config.host)
}

fn put_host(out: &mut Vec<u8>, host: &Option<HostConfig>) -> Result<(), AllocError>
    ensures { OnOk result (out.new.items ≡ out.old.items ++ host_text host.now) }
{
    match host {
        None => Ok(()),
        Some(host) => {
            out.push(b' ')?;
            put_label(out, host.label.as_slice())?;
            put_v6(out, host.v6)
        }
    }
}

fn put_v6(out: &mut Vec<u8>, v6: Option<u128>) -> Result<(), AllocError>
    ensures { OnOk result (out.new.items ≡ out.old.items ++ v6_text v6) }
{
    match v6 {
        None => Ok(()),
        Some(v6) => {
            out.push(b' ')?;
            put_ipv6(out, v6)
        }
    }
}

fn put_call(out: &mut Vec<u8>, session: u64, op: u32, request: &Request) -> Result<(), AllocError>
    ensures { OnOk result (out.new.items ≡ out.old.items ++ event_text (Event.Call session op request.now)) }
{
    put_numbered(out, b"call ", session)?;
    put_numbered(out, b" ", u64::from(op))?;
    out.push(b' ')?;
    put_request(out, request)
}

fn put_take(out: &mut Vec<u8>, session: u64, max: u32) -> Result<(), AllocError>
    ensures { OnOk result (out.new.items ≡ out.old.items ++ event_text (Event.Take session max)) }
{
    put_numbered(out, b"take ", session)?;
    put_numbered(out, b" ", u64::from(max))
}

// A packet that was heard.
fn put_heard(out: &mut Vec<u8>, from: Host, bytes: &[u8]) -> Result<(), AllocError>
    ensures { OnOk result (out.new.items ≡ out.old.items ++ event_text (Event.Hear from bytes.now)) }
{
    out.extend_from_slice(b"hear ")?;
    put_from(out, from)?;
    out.push(b' ')?;
    put_hex(out, bytes)
}

/// Puts an address and a port. Refused only for want of memory.
pub(crate) fn put_from(out: &mut Vec<u8>, host: Host) -> Result<(), AllocError>
    ensures { OnOk result (out.new.items ≡ out.old.items ++ from_text host) }
{
    put_ipv4(out, host.ip)?;
    put_numbered(out, b" ", u64::from(host.port))
}
