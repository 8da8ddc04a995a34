// Messages that are sent.
ghost use Rattle.std.specs.Prelude.{◌≡◌, map, IfOk};
ghost use Rattle.mdns_history.specs.InForce.{only_if};
ghost use Rattle.mdns_history.specs.Sending.{to_all, to_one};

use dns_message::Message;
use dns_record::Rr;
use mdns_base::{Dest, Host};
use mdns_history::Sent;
use mdns_pack::Messages;
use std::alloc::{AllocError, Global};

/// A message to all.
pub fn to_all(message: Message) -> Sent
    ensures { result ≡ to_all message }
{
    Sent {
        to: Dest::All,
        message,
    }
}

/// A message to one host.
pub fn to_one(host: Host, message: Message) -> Sent
    ensures { result ≡ to_one host message }
{
    Sent {
        to: Dest::One(host),
        message,
    }
}

/// Messages to all. Refused only for want of memory.
pub fn each_to_all(alloc: Global, messages: Messages) -> Result<Vec<Sent>, AllocError>
    ensures { IfOk result (λ sent. sent.items ≡ map to_all messages) }
{
    let mut sent = Vec::new(alloc);
    for message in messages.into_vec() {
        sent.push(to_all(message))?;
    }
    Ok(sent)
}

/// Messages to one host. Refused only for want of memory.
pub fn each_to_one(alloc: Global, host: Host, messages: Messages) -> Result<Vec<Sent>, AllocError>
    ensures { IfOk result (λ sent. sent.items ≡ map (to_one host) messages) }
{
    let mut sent = Vec::new(alloc);
    for message in messages.into_vec() {
        sent.push(to_one(host, message))?;
    }
    Ok(sent)
}

/// What is sent, where a duty is there, and nothing where it isn't.
pub fn sent_only_if(alloc: Global, test: bool, sent: Vec<Sent>) -> Vec<Sent>
    ensures { result.items ≡ only_if test sent.items }
{
    if test { sent } else { Vec::new(alloc) }
}

/// Records, where a duty is there, and none where it isn't.
pub fn records_only_if(alloc: Global, test: bool, rrs: Vec<Rr>) -> Vec<Rr>
    ensures { result.items ≡ only_if test rrs.items }
{
    if test { rrs } else { Vec::new(alloc) }
}
