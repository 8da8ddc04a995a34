// A client of the daemon.
use crate::ClientError;
use crate::requests::{
    address_request, browse_request, query_request, register_request, resolve_request,
    update_request,
};
use bytes::Bytes;
use mdns_base::{Sink, Source};
use mdns_outside::Plug;
use sd_call::{Item, Request};
use sd_ipc::{read_item, write_request};
use std::alloc::Global;
use std::marker::Model;

/// A client: a connection to the daemon, and the number of the next operation.
///
/// Each call that starts an operation sends one frame, and answers the operation's number: 1 at first, and 1 again after
/// 4,294,967,295. What the daemon has to say of it comes by `process_result`.
#[derive(Drop)]
pub struct Client<S: Source + Drop, K: Sink + Drop> {
    alloc: Global,
    input: S,
    output: K,
    next: u32,
    over: bool,
}

impl<S: Source + Drop, K: Sink + Drop> Model for Client<S, K> {
    ghost use Rattle.sd_client.specs.Connections.{Connection};

    ghost Value = { Connection };

    ghost view = { λ c. record {
      left = S.left c.input;
      said = K.held c.output;
      source_faults = S.faults c.input;
      sink_faults = K.faults c.output;
      next = c.next;
      over = c.over;
    } };
}

impl<S: Source + Drop, K: Sink + Drop> Client<S, K> {
    ghost use Rattle.std.specs.Prelude.{◌≡◌, IsTrue, IfOk, IfErr, MatchResult, Some, false};
    ghost use Rattle.mdns_base.specs.Outside.{HasCause};
    ghost use Rattle.mdns_outside.specs.Plugs.{AddsOne, StaysTold, TakesComing};
    ghost use Rattle.sd_ipc.specs.Frames.{is_short};
    ghost use Rattle.sd_client.specs.Requests.{browse_request, resolve_request, query_request, address_request, register_request, update_request};
    ghost use Rattle.sd_client.specs.Connections.{next_number, IsFresh, Sends, Processes};

    // A client over a connection.
    fn new(alloc: Global, input: S, output: K) -> Self
        ensures { result ≡ record {
          left = S.left input;
          said = K.held output;
          source_faults = S.faults input;
          sink_faults = K.faults output;
          next = 1;
          over = false;
        } }
    {
        Client {
            alloc,
            input,
            output,
            next: 1,
            over: false,
        }
    }

    /// A client over a new connection to the daemon at a path. The one error is `PeerFault`, exactly where the plug failed.
    pub fn connect<P: Plug<In = S, Out = K>>(
        alloc: Global,
        plug: &mut P,
        path: &str,
    ) -> Result<Self, ClientError>
        ensures fresh { IfOk result (λ client. IsFresh client (P.said plug.new)) }
        ensures asked { AddsOne (P.asked plug.old) (P.asked plug.new) path.now }
        ensures coming { MatchResult result
            (λ client. TakesComing (P.coming plug.old) (P.coming plug.new) client.left)
            (λ _. StaysTold (P.coming plug.old) (P.coming plug.new)) }
        ensures said { StaysTold (P.said plug.old) (P.said plug.new) }
        ensures error { IfErr result (λ e. e ≡ ClientError.PeerFault) }
        ensures cause { HasCause (P.faults plug.old) (P.faults plug.new) result }
    {
        match plug.connect(path) {
            Ok((input, output)) => Ok(Client::new(alloc, input, output)),
            Err(_) => Err(ClientError::PeerFault),
        }
    }

    /// Sends a request that starts an operation, and answers the operation's number. Its TXT data are at most 8192 bytes.
    ///
    /// Of this call and all that send: `Ended` exactly where the client is over; `PeerFault` only where the sink failed, and
    /// the client is over then. `NoMemory` may come at any call, and leaves the client as it was.
    pub fn start(&mut self, request: &Request) -> Result<u32, ClientError>
        requires { IsTrue (is_short request.now) }
        ensures sends { Sends self.old self.new self.old.next (next_number self.old.next) (Some request.now) result }
        ensures number { IfOk result (λ op. op ≡ self.old.next) }
    {
        let op = self.next;
        self.send(op, request)?;
        self.next = op.checked_add(1).unwrap_or(1);
        Ok(op)
    }

    /// Asks for the instances of a service type, as `_ipp._tcp`, or of its subtype, as `_ipp._tcp,_color`.
    /// (RFC 6763 4 and 7.1) `BadParam` exactly where the text passes 1024 bytes.
    pub fn browse(&mut self, regtype: &str) -> Result<u32, ClientError>
        ensures sends { Sends self.old self.new self.old.next (next_number self.old.next) (browse_request regtype.now) result }
        ensures number { IfOk result (λ op. op ≡ self.old.next) }
    {
        let request = browse_request(self.alloc, regtype)?;
        self.start(&request)
    }

    /// Asks where an instance of a service is reached, and for its TXT data. (RFC 6763 5 and 6) `BadParam` exactly where a
    /// text passes 1024 bytes.
    pub fn resolve(&mut self, label: &str, regtype: &str) -> Result<u32, ClientError>
        ensures sends { Sends self.old self.new self.old.next (next_number self.old.next) (resolve_request label.now regtype.now) result }
        ensures number { IfOk result (λ op. op ≡ self.old.next) }
    {
        let request = resolve_request(self.alloc, label, regtype)?;
        self.start(&request)
    }

    /// Asks for the records of a name and a type. `BadParam` exactly where the text spells no name.
    pub fn query_record(&mut self, name: &str, kind: u16) -> Result<u32, ClientError>
        ensures sends { Sends self.old self.new self.old.next (next_number self.old.next) (query_request name.now kind) result }
        ensures number { IfOk result (λ op. op ≡ self.old.next) }
    {
        let request = query_request(name, kind)?;
        self.start(&request)
    }

    /// Asks for the addresses of a name: 1 for IPv4, 2 for IPv6, 3 for both. `BadParam` exactly where the text spells no
    /// name.
    pub fn get_addr_info(&mut self, families: u8, name: &str) -> Result<u32, ClientError>
        ensures sends { Sends self.old self.new self.old.next (next_number self.old.next) (address_request families name.now) result }
        ensures number { IfOk result (λ op. op ≡ self.old.next) }
    {
        let request = address_request(families, name)?;
        self.start(&request)
    }

    /// Registers a service at a port of the daemon's host. The flags are 0, or 8 for a name that is kept or not had at all.
    /// `BadParam` exactly where the flags are others, a text passes 1024 bytes, or the TXT data pass 8192.
    pub fn register(
        &mut self,
        flags: u32,
        label: &str,
        regtype: &str,
        port: u16,
        txt: &Bytes,
    ) -> Result<u32, ClientError>
        ensures sends { Sends self.old self.new self.old.next (next_number self.old.next)
            (register_request flags label.now regtype.now port txt.now) result }
        ensures number { IfOk result (λ op. op ≡ self.old.next) }
    {
        let request = register_request(self.alloc, flags, (label, regtype), port, txt)?;
        self.start(&request)
    }

    /// Gives a registration other TXT data. `BadParam` exactly where they pass 8192 bytes.
    pub fn update_record(&mut self, op: u32, txt: &Bytes) -> Result<(), ClientError>
        ensures { Sends self.old self.new op self.old.next (update_request txt.now) result }
    {
        let request = update_request(txt)?;
        self.send(op, &request)
    }

    /// Stops an operation.
    pub fn deallocate(&mut self, op: u32) -> Result<(), ClientError>
        ensures { Sends self.old self.new op self.old.next (Some Request.Stop) result }
    {
        self.send(op, &Request::Stop)
    }

    /// Waits for the next item: a reply, an answer that came, or one that went. `Ended` exactly where the client is over or
    /// the source ended before an item; `BadFrame` exactly where what came is no item; `PeerFault` only where the source
    /// failed. Behind each of these, and `NoMemory`, the client is over.
    pub fn process_result(&mut self) -> Result<Item, ClientError>
        ensures { Processes self.old self.new result }
    {
        if self.over {
            return Err(ClientError::Ended);
        }
        match read_item(self.alloc, &mut self.input) {
            Ok(Some(item)) => Ok(item),
            Ok(None) => {
                self.over = true;
                Err(ClientError::Ended)
            }
            Err(fault) => {
                self.over = true;
                Err(ClientError::from(fault))
            }
        }
    }

    /// The two ends of the connection.
    pub fn parts(self) -> (S, K)
        ensures left { S.left result.0 ≡ self.left }
        ensures said { K.held result.1 ≡ self.said }
        ensures source_faults { S.faults result.0 ≡ self.source_faults }
        ensures sink_faults { K.faults result.1 ≡ self.sink_faults }
    {
        (self.input, self.output)
    }

    // Sends a request for an operation.
    fn send(&mut self, op: u32, request: &Request) -> Result<(), ClientError>
        requires { IsTrue (is_short request.now) }
        ensures { Sends self.old self.new op self.old.next (Some request.now) result }
    {
        if self.over {
            return Err(ClientError::Ended);
        }
        let frame = write_request(self.alloc, op, request)?;
        match self.output.put(frame.as_slice()) {
            Ok(()) => Ok(()),
            Err(_) => {
                self.over = true;
                Err(ClientError::PeerFault)
            }
        }
    }
}
