// The commands of a generated script, one by one.
ghost use Rattle.std.specs.Prelude.{◌≡◌, ◌≤◌, ◌<◌, length, IfOk, IsTrue};
ghost use Rattle.dns_name.specs.Names.{is_label};
ghost use Rattle.mdns_generator.specs.Generated.{type_text, service_text, booting, registering, browsing, command_of};

use bytes::Bytes;
use dns_name::Label;
use mdns_history::{Config, Event, HostConfig};
use mdns_script::Command;
use sd_call::{Request, Text};
use std::alloc::{AllocError, Global};

/// The address of daemon K is this and K: 10.0.0.K.
const NETWORK: u32 = 167_772_160;

/// How many services a session announces at most.
const MOST_SERVICES: u32 = 64;

/// What the commands of one kind do, each by its number.
#[derive(Clone, Copy)]
pub(crate) enum Kind {
    /// Opens a session of daemon 1.
    Open,
    /// Lets daemon 1 announce a service.
    Register,
    /// Lets daemon 2 browse for the services of a type.
    Browse,
    /// Closes a session of daemon 1.
    Close,
}

/// The command of a kind and a number. Refused only for want of memory.
pub(crate) fn command(alloc: Global, kind: Kind, number: u32) -> Result<Command, AllocError>
    requires { number ≤ 200 }
    ensures { IfOk result (λ command. command ≡ command_of kind number) }
{
    match kind {
        Kind::Open => Ok(Command::Attach { daemon: 1 }),
        Kind::Register => registering(alloc, number),
        Kind::Browse => browsing(alloc, number),
        Kind::Close => Ok(Command::Event {
            daemon: 1,
            event: Event::Detach {
                session: u64::from(number),
            },
        }),
    }
}

/// Boots a daemon with a host of this name at 10.0.0.K.
pub(crate) fn booting(number: u32, name: &[u8]) -> Command
    requires low { number ≤ 16 }
    requires name { IsTrue (is_label name.now) }
    ensures { result ≡ booting number name.now }
{
    let Some(label) = Label::new(name) else {
        unreachable!()
    };
    Command::Daemon {
        number,
        config: Config {
            address: NETWORK + number,
            host: Some(HostConfig { label, v6: None }),
        },
    }
}

// Lets daemon 1 announce the service of a number.
fn registering(alloc: Global, number: u32) -> Result<Command, AllocError>
    requires { number ≤ 200 }
    ensures { IfOk result (λ command. command ≡ registering number) }
{
    let place = number.saturating_sub(1);
    let request = Request::Register {
        label: service_text(alloc, number)?,
        regtype: type_text(alloc, number % 7)?,
        port: 1000 + number as u16,
        norename: false,
        txt: Bytes::new(),
    };
    Ok(Command::Event {
        daemon: 1,
        event: Event::Call {
            session: u64::from(place / MOST_SERVICES + 1),
            op: place % MOST_SERVICES + 1,
            request,
        },
    })
}

// Lets daemon 2 browse for the services of the type of a number.
fn browsing(alloc: Global, number: u32) -> Result<Command, AllocError>
    requires { number ≤ 200 }
    ensures { IfOk result (λ command. command ≡ browsing number) }
{
    let request = Request::Browse {
        regtype: type_text(alloc, number)?,
    };
    Ok(Command::Event {
        daemon: 2,
        event: Event::Call {
            session: 1,
            op: number + 1,
            request,
        },
    })
}

// The label of the service of a number.
fn service_text(alloc: Global, number: u32) -> Result<Text, AllocError>
    requires { number ≤ 200 }
    ensures { IfOk result (λ text. text ≡ service_text number) }
{
    let string = format!(in alloc; "Svc-{number}")?;
    text(alloc, string.as_str())
}

// The service type of a number.
fn type_text(alloc: Global, number: u32) -> Result<Text, AllocError>
    requires { number ≤ 200 }
    ensures { IfOk result (λ text. text ≡ type_text number) }
{
    let string = format!(in alloc; "_g{number}._tcp")?;
    text(alloc, string.as_str())
}

// The text of a short string. Refused only for want of memory.
fn text(alloc: Global, string: &str) -> Result<Text, AllocError>
    requires { length string.now ≤ 1024 }
    ensures { IfOk result (λ text. text ≡ string.now) }
{
    match Text::new(alloc, string)? {
        Some(text) => Ok(text),
        None => unreachable!(),
    }
}
