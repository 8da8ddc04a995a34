// Rows of what stands for the outside: an ear, an air, a door, and random words.
use bytes::Bytes;
use mdns_base::{Dest, Host, MemSource, Sink};
use mdns_outside::*;
use number_text::put_hex;
use row_words::{RowError, bytes_of, number, shown, text_from, word};
use std::alloc::{AllocError, Global};

/// The host that sends packets, and to which they go.
const SENDER: Host = Host {
    ip: 0x0a00_0001,
    port: 5353,
};

/// The ear, the air and the door that rows work on.
#[derive(Drop)]
pub struct Fakes {
    ear: MemEar,
    air: MemAir,
    door: MemDoor<MemSource, NullSink>,
}

impl Fakes {
    /// An ear and a door to which nothing comes, and an air that was handed nothing.
    pub fn new(alloc: Global) -> Self {
        Fakes {
            ear: MemEar::new(Vec::new(alloc), Vec::new(alloc)),
            air: MemAir::new(alloc, Vec::new(alloc)),
            door: MemDoor::new(Vec::new(alloc), Vec::new(alloc)),
        }
    }
}

// The number of the one call that fails.
fn failing(alloc: Global, call: &str) -> Result<Vec<u64>, RowError> {
    Ok(Vec::from_slice(alloc, &[number(call)?])?)
}

/// `ear new FAILING BYTES BYTES`, `ear receive`: two packets come to an ear, which is given a buffer of three bytes.
pub fn ear_row(alloc: Global, kept: &mut Fakes, words: &[&str]) -> Result<String, RowError> {
    match words {
        ["new", call, first, second] => {
            kept.ear = ear(alloc, call, first, second)?;
            word(alloc, "done")
        }
        ["receive"] => receive_row(alloc, &mut kept.ear),
        _ => Err(RowError::NotUnderstood),
    }
}

fn ear(alloc: Global, call: &str, first: &str, second: &str) -> Result<MemEar, RowError> {
    let mut packets = Vec::new(alloc);
    packets.push(incoming(alloc, first)?)?;
    packets.push(incoming(alloc, second)?)?;
    Ok(MemEar::new(packets, failing(alloc, call)?))
}

fn incoming(alloc: Global, bytes: &str) -> Result<Incoming, RowError> {
    Ok(Incoming {
        from: SENDER,
        bytes: Bytes::from_vec(bytes_of(alloc, bytes)?)?,
    })
}

fn receive_row(alloc: Global, ear: &mut MemEar) -> Result<String, RowError> {
    let mut buffer = [0u8; 3];
    match ear.receive(&mut buffer) {
        Ok(Some(Arrival { from, len })) if from == SENDER => {
            shown(alloc, buffer.get(..len).ok_or(RowError::NotUnderstood)?)
        }
        Ok(Some(_)) => word(alloc, "from another host"),
        Ok(None) => word(alloc, "nothing"),
        Err(_) => word(alloc, "failed"),
    }
}

/// `air new FAILING`, `air send all BYTES`, `air send one BYTES`, `air packets`: an air is handed packets, and counts them.
pub fn air_row(alloc: Global, kept: &mut Fakes, words: &[&str]) -> Result<String, RowError> {
    match words {
        ["new", call] => {
            kept.air = MemAir::new(alloc, failing(alloc, call)?);
            word(alloc, "done")
        }
        ["send", "all", bytes] => send_row(alloc, &mut kept.air, bytes, Dest::All),
        ["send", "one", bytes] => send_row(alloc, &mut kept.air, bytes, Dest::One(SENDER)),
        ["packets"] => packets_row(alloc, &kept.air),
        _ => Err(RowError::NotUnderstood),
    }
}

fn packets_row(alloc: Global, air: &MemAir) -> Result<String, RowError> {
    match air.packets() {
        Some(packets) => Ok(packets.len().to_string(alloc)?),
        None => word(alloc, "untold"),
    }
}

fn send_row(alloc: Global, air: &mut MemAir, bytes: &str, to: Dest) -> Result<String, RowError> {
    match air.send(&bytes_of(alloc, bytes)?, to) {
        Ok(()) => word(alloc, "done"),
        Err(_) => word(alloc, "failed"),
    }
}

/// `door new FAILING BYTES`, `door next`, `door put BYTES`: one caller comes to a door, and what is said to it is dropped.
pub fn door_row(alloc: Global, kept: &mut Fakes, words: &[&str]) -> Result<String, RowError> {
    match words {
        ["new", call, bytes] => {
            kept.door = door(alloc, call, bytes)?;
            word(alloc, "done")
        }
        ["next"] => next_row(alloc, &mut kept.door),
        ["put", bytes] => put_row(alloc, bytes),
        _ => Err(RowError::NotUnderstood),
    }
}

fn door(alloc: Global, call: &str, bytes: &str) -> Result<MemDoor<MemSource, NullSink>, RowError> {
    let input = MemSource::new(bytes_of(alloc, bytes)?, Vec::new(alloc));
    let mut callers = Vec::new(alloc);
    callers.push((input, NullSink))?;
    Ok(MemDoor::new(callers, failing(alloc, call)?))
}

fn next_row(alloc: Global, door: &mut MemDoor<MemSource, NullSink>) -> Result<String, RowError> {
    match door.next() {
        Ok(Some(_)) => word(alloc, "caller"),
        Ok(None) => word(alloc, "nobody"),
        Err(_) => word(alloc, "failed"),
    }
}

fn put_row(alloc: Global, bytes: &str) -> Result<String, RowError> {
    let bytes = bytes_of(alloc, bytes)?;
    match NullSink.put(&bytes) {
        Ok(()) => word(alloc, "done"),
        Err(_) => word(alloc, "failed"),
    }
}

/// `chacha SEED STREAM COUNT`: so many words of a seed on a stream.
pub fn chacha_row(alloc: Global, words: &[&str]) -> Result<String, RowError> {
    let [seed, stream, count] = words else {
        return Err(RowError::NotUnderstood);
    };
    let mut source = ChaWords::new(number(seed)?, number(stream)?);
    let mut out = Vec::new(alloc);
    for place in 0..number::<u32>(count)? {
        if place > 0 {
            out.push(b' ')?;
        }
        put_hex(&mut out, &source.word().to_be_bytes())?;
    }
    text_from(out)
}
