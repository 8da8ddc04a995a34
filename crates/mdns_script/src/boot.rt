// The lines that boot a daemon.
ghost use Rattle.std.specs.Prelude.{◌≡◌};
ghost use Rattle.mdns_script.specs.Boots.{daemon_of, daemon_command, plain_command, hosted_command, hosted_of, host_of, addresses_of};

use crate::Command;
use crate::tokens::host_label;
use mdns_history::{Config, HostConfig};
use number_text::{cut_at, is_same, read_decimal, read_ipv4, read_ipv6};

/// The address of daemon K without a host is this and K: 10.0.0.K.
const NETWORK: u32 = 167_772_160;

/// What follows `daemon`: `K`, or `K host LABEL IPV4 [IPV6]`.
pub(crate) fn daemon_command(text: &[u8]) -> Option<Command>
    ensures { result ≡ daemon_command text.now }
{
    match cut_at(text, b' ') {
        Some((number, host)) => hosted_command(number, host),
        None => plain_command(text),
    }
}

// A daemon without a host.
fn plain_command(text: &[u8]) -> Option<Command>
    ensures { result ≡ plain_command text.now }
{
    let number = daemon_number(text)?;
    Some(Command::Daemon {
        number,
        config: Config {
            address: NETWORK + number,
            host: None,
        },
    })
}

// A daemon with a host.
fn hosted_command(number: &[u8], text: &[u8]) -> Option<Command>
    ensures { result ≡ hosted_command number.now text.now }
{
    let number = daemon_number(number)?;
    let config = hosted(text)?;
    Some(Command::Daemon { number, config })
}

// What `host LABEL IPV4 [IPV6]` says.
#[tactic(auto, unfolding(crate::specs::Boots::hosted_of))]
fn hosted(text: &[u8]) -> Option<Config>
    ensures { result ≡ hosted_of text.now }
{
    let (word, rest) = cut_at(text, b' ')?;
    if !is_same(word, b"host") {
        return None;
    }
    host(rest)
}

// What `LABEL IPV4 [IPV6]` says.
#[tactic(auto, unfolding(crate::specs::Boots::host_of))]
fn host(text: &[u8]) -> Option<Config>
    ensures { result ≡ host_of text.now }
{
    let (token, rest) = cut_at(text, b' ')?;
    let label = host_label(token)?;
    let (address, v6) = addresses(rest)?;
    Some(Config {
        address,
        host: Some(HostConfig { label, v6 }),
    })
}

// An IPv4 address, and the IPv6 address behind it, where there is one.
fn addresses(text: &[u8]) -> Option<(u32, Option<u128>)>
    ensures { result ≡ addresses_of text.now }
{
    match cut_at(text, b' ') {
        Some((v4, v6)) => Some((read_ipv4(v4)?, Some(read_ipv6(v6)?))),
        None => Some((read_ipv4(text)?, None)),
    }
}

/// The number of a daemon, 1 to 16.
pub(crate) fn daemon_number(text: &[u8]) -> Option<u32>
    ensures { result ≡ daemon_of text.now }
{
    let number = read_decimal(text)?;
    if 1 <= number && number <= 16 {
        Some(number as u32)
    } else {
        None
    }
}
