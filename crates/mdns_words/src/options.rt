// The options of `serve`, each of which is given at most once.
ghost use Rattle.std.specs.Prelude.{◌≡◌, ◌++◌, ◌∷◌, [], None, Some, if◌then◌else◌, IfOk};
ghost use Rattle.mdns_words.specs.Options.{no_options, put_option, put_peer, put_once, port_of};

use crate::HostLabel;
use mdns_outside::{PathText, Ports};
use number_text::{read_decimal_u16, read_decimal_u32, read_ipv4};
use std::alloc::{AllocError, Global};

/// What options and peers have been given.
#[derive(Drop)]
pub(crate) struct Options {
    pub socket: Option<PathText>,
    pub host: Option<HostLabel>,
    pub address: Option<u32>,
    pub relay: Option<u16>,
    pub seed: Option<u32>,
    pub peers: Ports,
}

impl Options {
    /// None so far.
    pub(crate) fn new(alloc: Global) -> Options
        ensures { result ≡ no_options }
    {
        Options {
            socket: None,
            host: None,
            address: None,
            relay: None,
            seed: None,
            peers: Ports::new(alloc),
        }
    }

    /// Takes an option with its value. The answer is false where there is no such option, where it was given before, or
    /// where the value isn't of its form.
    #[tactic(auto, unfolding(crate::specs::Options::put_option))]
    pub(crate) fn put(&mut self, alloc: Global, name: &str, value: &str) -> Result<bool, AllocError>
        ensures { IfOk result (λ done. put_option self.old name.now value.now ≡ (if done then Some self.new else None)) }
    {
        if name == "--socket" {
            put_text(alloc, &mut self.socket, value)
        } else if name == "--host" {
            Ok(put_value(&mut self.host, HostLabel::new(value)))
        } else if name == "--address" {
            Ok(put_value(&mut self.address, read_ipv4(value.as_bytes())))
        } else if name == "--relay" {
            Ok(put_value(&mut self.relay, port(value)))
        } else if name == "--seed" {
            Ok(put_value(&mut self.seed, read_decimal_u32(value.as_bytes())))
        } else {
            Ok(false)
        }
    }

    /// Takes the port of a peer. The answer is false where the word is no port.
    #[tactic(auto, unfolding(crate::specs::Options::put_peer))]
    pub(crate) fn put_peer(&mut self, word: &str) -> Result<bool, AllocError>
        ensures { IfOk result (λ done. put_peer self.old word.now ≡ (if done then Some self.new else None)) }
    {
        match port(word) {
            Some(port) => {
                self.peers.push(port)?;
                Ok(true)
            }
            None => Ok(false),
        }
    }
}

// Takes a text where there was none. The answer is false where there was one.
fn put_text(alloc: Global, place: &mut Option<PathText>, text: &str) -> Result<bool, AllocError>
    ensures { IfOk result (λ done. put_once place.old (Some text.now) ≡ (if done then Some place.new else None)) }
{
    if place.is_some() {
        return Ok(false);
    }
    *place = Some(PathText::new(alloc, text)?);
    Ok(true)
}

// Takes a value where there was none. The answer is false where there was one, or where none is given.
fn put_value<T: Drop>(place: &mut Option<T>, value: Option<T>) -> bool
    ensures { put_once place.old value ≡ (if result then Some place.new else None) }
{
    if place.is_some() || value.is_none() {
        return false;
    }
    *place = value;
    true
}

// A port from 1 to 65535, as decimal digits without a sign or a leading zero.
fn port(text: &str) -> Option<u16>
    ensures { result ≡ port_of text.now }
{
    let port = read_decimal_u16(text.as_bytes())?;
    if port == 0 { None } else { Some(port) }
}
