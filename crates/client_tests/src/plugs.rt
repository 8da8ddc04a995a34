// Rows of a plug in memory.
use mdns_base::{MemSink, MemSource, Sink, Source};
use mdns_outside::{Counted, MemPlug, Peer, Plug};
use row_words::{RowError, bytes_of, number, shown, word};
use sd_client::Client;
use std::alloc::Global;

/// A client over a connection in memory.
pub type MemClient = Client<Counted<MemSource>, Counted<MemSink>>;

/// A connection in memory.
#[derive(Drop)]
pub struct Connection {
    input: Counted<MemSource>,
    output: Counted<MemSink>,
}

/// The plug that rows work on, a connection of it, and a client over another.
#[derive(Drop)]
pub struct Plugged {
    pub plug: MemPlug,
    pub open: Option<Connection>,
    pub client: Option<MemClient>,
}

impl Plugged {
    /// A plug to nobody.
    pub fn new(alloc: Global) -> Self {
        Plugged {
            plug: MemPlug::new(alloc, Vec::new(alloc), Vec::new(alloc)),
            open: None,
            client: None,
        }
    }
}

/// `plug connect PATH` and others: a call on the plug, or on a connection of it.
pub fn row(alloc: Global, kept: &mut Plugged, words: &[&str]) -> Result<String, RowError> {
    match words {
        ["new", calls @ .., bytes] => {
            kept.plug = plug(alloc, calls, bytes)?;
            word(alloc, "done")
        }
        ["connect", path] => connect_row(alloc, kept, path),
        ["back"] => back_row(alloc, kept),
        ["asked"] => asked_row(alloc, &kept.plug),
        ["said"] => said_row(alloc, &kept.plug),
        _ => connection_row(alloc, kept, words),
    }
}

// A plug to a peer that says these bytes, with the numbers of the read, the put and the connection that fail.
fn plug(alloc: Global, calls: &[&str], bytes: &str) -> Result<MemPlug, RowError> {
    let [read, put, connect] = calls else {
        return Err(RowError::NotUnderstood);
    };
    let (read, put) = (failing(alloc, read)?, failing(alloc, put)?);
    let coming = peers(alloc, bytes_of(alloc, bytes)?, read, put)?;
    Ok(MemPlug::new(alloc, coming, failing(alloc, connect)?))
}

// The number of the one call that fails; 0 is none.
fn failing(alloc: Global, call: &str) -> Result<Vec<u64>, RowError> {
    match number(call)? {
        0 => Ok(Vec::new(alloc)),
        call => Ok(Vec::from_slice(alloc, &[call])?),
    }
}

// One peer that says these bytes; none where there are none.
fn peers(
    alloc: Global,
    bytes: Vec<u8>,
    failing_reads: Vec<u64>,
    failing_puts: Vec<u64>,
) -> Result<Vec<Peer>, RowError> {
    let mut peers = Vec::new(alloc);
    if !bytes.is_empty() {
        peers.push(Peer {
            bytes,
            failing_reads,
            failing_puts,
        })?;
    }
    Ok(peers)
}

fn connect_row(alloc: Global, kept: &mut Plugged, path: &str) -> Result<String, RowError> {
    match kept.plug.connect(path) {
        Ok((input, output)) => {
            kept.open = Some(Connection { input, output });
            word(alloc, "done")
        }
        Err(_) => word(alloc, "failed"),
    }
}

fn back_row(alloc: Global, kept: &mut Plugged) -> Result<String, RowError> {
    let Some(Connection { input, output }) = kept.open.take() else {
        return Err(RowError::NotUnderstood);
    };
    kept.plug.back(input, output);
    word(alloc, "done")
}

fn connection_row(alloc: Global, kept: &mut Plugged, words: &[&str]) -> Result<String, RowError> {
    let Some(connection) = &mut kept.open else {
        return Err(RowError::NotUnderstood);
    };
    match words {
        ["read"] => read_row(alloc, &mut connection.input),
        ["put", piece] => put_row(alloc, &mut connection.output, piece),
        _ => Err(RowError::NotUnderstood),
    }
}

fn put_row(alloc: Global, output: &mut Counted<MemSink>, piece: &str) -> Result<String, RowError> {
    let piece = bytes_of(alloc, piece)?;
    match output.put(&piece) {
        Ok(()) => word(alloc, "done"),
        Err(_) => word(alloc, "failed"),
    }
}

// At most four bytes of a connection.
fn read_row(alloc: Global, input: &mut Counted<MemSource>) -> Result<String, RowError> {
    let mut buffer = [0u8; 4];
    match input.read(&mut buffer) {
        Ok(count) => shown(alloc, buffer.get(..count).ok_or(RowError::NotUnderstood)?),
        Err(_) => word(alloc, "failed"),
    }
}

// How many paths were asked for.
fn asked_row(alloc: Global, plug: &MemPlug) -> Result<String, RowError> {
    match plug.asked() {
        Some(asked) => Ok(asked.len().to_string(alloc)?),
        None => word(alloc, "untold"),
    }
}

// What was said on each connection that was given back.
fn said_row(alloc: Global, plug: &MemPlug) -> Result<String, RowError> {
    let Some(said) = plug.said() else {
        return word(alloc, "untold");
    };
    let mut out = said.len().to_string(alloc)?;
    out.push(':')?;
    for sink in said {
        out.push(' ')?;
        out.push_str(shown(alloc, sink.inner().bytes())?.as_str())?;
    }
    Ok(out)
}
