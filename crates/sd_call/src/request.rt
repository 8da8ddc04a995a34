// What a client asks for.
ghost use Rattle.std.specs.Prelude.{◌≡◌, IfOk};

use crate::Text;
use bytes::Bytes;
use dns_name::Name;
use std::alloc::{AllocError, Global};

/// What a client asks of the daemon.
#[derive(Drop)]
pub enum Request {
    /// The records of a name and of a type.
    Query {
        kind: u16,
        name: Name,
    },
    /// The instances of a service type or of its first subtype. (RFC 6763 4 and 7.1)
    Browse {
        regtype: Text,
    },
    /// Where an instance of a service is reached, and its TXT data. (RFC 6763 5 and 6)
    Resolve {
        label: Text,
        regtype: Text,
    },
    /// The addresses of a name: `families` has bit 0 for IPv4 and bit 1 for IPv6.
    Address {
        families: u8,
        name: Name,
    },
    /// An instance of a service to be announced at a port of this host. With `norename` it keeps its name or fails.
    Register {
        label: Text,
        regtype: Text,
        port: u16,
        norename: bool,
        txt: Bytes,
    },
    /// Other TXT data for a registration.
    Update {
        txt: Bytes,
    },
    /// An end of the operation.
    Stop,
}

impl Request {
    /// An equal request. Refused only for want of memory.
    pub fn copy(&self, alloc: Global) -> Result<Request, AllocError>
        ensures { IfOk result (λ copy. copy ≡ self.now) }
    {
        Ok(match self {
            Request::Query { kind, name } => Request::Query {
                kind: *kind,
                name: name.copy(),
            },
            Request::Browse { regtype } => Request::Browse {
                regtype: regtype.copy(alloc)?,
            },
            Request::Resolve { label, regtype } => Request::Resolve {
                label: label.copy(alloc)?,
                regtype: regtype.copy(alloc)?,
            },
            Request::Address { families, name } => Request::Address {
                families: *families,
                name: name.copy(),
            },
            Request::Register {
                label,
                regtype,
                port,
                norename,
                txt,
            } => Request::Register {
                label: label.copy(alloc)?,
                regtype: regtype.copy(alloc)?,
                port: *port,
                norename: *norename,
                txt: txt.clone()?,
            },
            Request::Update { txt } => Request::Update { txt: txt.clone()? },
            Request::Stop => Request::Stop,
        })
    }
}

/// What a reply answers.
#[derive(Clone, Copy, Debug, PartialEq, Eq)]
pub enum Verb {
    /// The request that began the operation.
    Start,
    /// An update of a registration.
    Update,
    /// A stop.
    Stop,
}
