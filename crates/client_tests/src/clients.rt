// Rows of a client over a plug in memory.
use crate::plugs::{MemClient, Plugged};
use bytes::Bytes;
use mdns_outside::Plug;
use row_words::{RowError, bytes_of, number, text_from, text_of, word};
use sd_call::{Item, put_item};
use sd_client::*;
use std::alloc::{AllocError, Global};

/// `client browse TYPE` and others: a call of a client, whose connection the kept plug makes.
pub fn row(alloc: Global, kept: &mut Plugged, words: &[&str]) -> Result<String, RowError> {
    match words {
        ["connect", path] => connect_row(alloc, kept, path),
        ["back"] => back_row(alloc, kept),
        _ => match &mut kept.client {
            Some(client) => call_row(alloc, client, words),
            None => Err(RowError::NotUnderstood),
        },
    }
}

fn connect_row(alloc: Global, kept: &mut Plugged, path: &str) -> Result<String, RowError> {
    match Client::connect(alloc, &mut kept.plug, path) {
        Ok(client) => {
            kept.client = Some(client);
            word(alloc, "done")
        }
        Err(fault) => word(alloc, fault_word(fault)?),
    }
}

// Gives the connection back to the plug.
fn back_row(alloc: Global, kept: &mut Plugged) -> Result<String, RowError> {
    let Some(client) = kept.client.take() else {
        return Err(RowError::NotUnderstood);
    };
    let (input, output) = client.parts();
    kept.plug.back(input, output);
    word(alloc, "done")
}

fn call_row(alloc: Global, client: &mut MemClient, words: &[&str]) -> Result<String, RowError> {
    match words {
        ["item"] => item_row(alloc, client),
        ["browse", regtype] => browse_row(alloc, client, regtype),
        ["resolve", label, regtype] => resolve_row(alloc, client, label, regtype),
        ["query", name, kind] => query_row(alloc, client, name, kind),
        ["address", families, name] => address_row(alloc, client, families, name),
        ["register", settings @ ..] => register_row(alloc, client, settings),
        ["update", op, txt] => update_row(alloc, client, op, txt),
        ["stop", op] => stop_row(alloc, client, op),
        _ => Err(RowError::NotUnderstood),
    }
}

fn browse_row(alloc: Global, client: &mut MemClient, regtype: &str) -> Result<String, RowError> {
    let regtype = text_of(alloc, regtype)?;
    number_text(alloc, client.browse(regtype.as_str()))
}

fn resolve_row(
    alloc: Global,
    client: &mut MemClient,
    label: &str,
    regtype: &str,
) -> Result<String, RowError> {
    let regtype = text_of(alloc, regtype)?;
    number_text(alloc, client.resolve(label, regtype.as_str()))
}

fn query_row(
    alloc: Global,
    client: &mut MemClient,
    name: &str,
    kind: &str,
) -> Result<String, RowError> {
    let kind = number(kind)?;
    number_text(alloc, client.query_record(name, kind))
}

fn address_row(
    alloc: Global,
    client: &mut MemClient,
    families: &str,
    name: &str,
) -> Result<String, RowError> {
    let families = number(families)?;
    let name = text_of(alloc, name)?;
    number_text(alloc, client.get_addr_info(families, name.as_str()))
}

// The flags, the label, the type, the port and the TXT data of a service.
fn register_row(
    alloc: Global,
    client: &mut MemClient,
    settings: &[&str],
) -> Result<String, RowError> {
    let [flags, label, regtype, port, txt] = settings else {
        return Err(RowError::NotUnderstood);
    };
    let (flags, port) = (number(flags)?, number(port)?);
    let txt = data_of(alloc, txt)?;
    number_text(alloc, client.register(flags, label, regtype, port, &txt))
}

fn update_row(
    alloc: Global,
    client: &mut MemClient,
    op: &str,
    txt: &str,
) -> Result<String, RowError> {
    let op = number(op)?;
    let txt = data_of(alloc, txt)?;
    done_text(alloc, client.update_record(op, &txt))
}

fn stop_row(alloc: Global, client: &mut MemClient, op: &str) -> Result<String, RowError> {
    let op = number(op)?;
    done_text(alloc, client.deallocate(op))
}

fn data_of(alloc: Global, word: &str) -> Result<Bytes, RowError> {
    Ok(Bytes::from_vec(bytes_of(alloc, word)?)?)
}

// The text of the next item.
fn item_row(alloc: Global, client: &mut MemClient) -> Result<String, RowError> {
    match client.process_result() {
        Ok(item) => item_text(alloc, &item),
        Err(fault) => word(alloc, fault_word(fault)?),
    }
}

fn item_text(alloc: Global, item: &Item) -> Result<String, RowError> {
    let mut out = Vec::new(alloc);
    put_item(&mut out, item)?;
    text_from(out)
}

// The number of the operation that a call started.
fn number_text(alloc: Global, started: Result<u32, ClientError>) -> Result<String, RowError> {
    match started {
        Ok(op) => Ok(op.to_string(alloc)?),
        Err(fault) => word(alloc, fault_word(fault)?),
    }
}

fn done_text(alloc: Global, done: Result<(), ClientError>) -> Result<String, RowError> {
    match done {
        Ok(()) => word(alloc, "done"),
        Err(fault) => word(alloc, fault_word(fault)?),
    }
}

// Why a call failed. Want of memory is passed on.
fn fault_word(fault: ClientError) -> Result<&'static str, RowError> {
    match fault {
        ClientError::BadParam => Ok("bad parameter"),
        ClientError::PeerFault => Ok("peer fault"),
        ClientError::Ended => Ok("ended"),
        ClientError::BadFrame => Ok("bad frame"),
        ClientError::NoMemory => Err(RowError::NoMemory(AllocError)),
    }
}
