// Rows of the records of hosts and services. (RFC 6762 and 6763)
ghost use Rattle.std.specs.Prelude.{◌≡◌, IfOk, IsTrue};
ghost use Rattle.sd_service.specs.Bitmaps.{have_bitmap};

use bytes::Bytes;
use dns_name::{Label, Name};
use dns_record::{Rdata, Rr};
use mdns_history::{Config, HostConfig};
use number_text::{read_ipv4, read_ipv6};
use row_words::{RowError, Told, hex_of, name_of, number, record};
use sd_name::RegType;
use sd_service::{
    Service, host_name, host_records, is_nsec_of, nsec_of, service_name, service_records,
};
use std::alloc::Global;

/// A row of a host: `name` has a label and a number, `records` a name, a label, an address and an IPv6 address or `-`.
pub fn host_row(told: &mut Told, row: &[&str]) -> Result<(), RowError> {
    let alloc = told.alloc;
    match row {
        ["name", text, count] => {
            let name = host_name(&label(*text)?, number(*count)?);
            told.put_name(&name)
        }
        ["records", name, text, v4, v6] => {
            let name = name_of(*name)?;
            let config = config(label(*text)?, *v4, *v6)?;
            let records = host_records(alloc, &name, &config)?;
            told.put_records(records.as_slice())
        }
        _ => Err(RowError::NotUnderstood),
    }
}

fn label(text: &str) -> Result<Label, RowError> {
    Label::new(text.as_bytes()).ok_or(RowError::NotUnderstood)
}

fn config(label: Label, v4: &str, v6: &str) -> Result<Config, RowError> {
    let address = read_ipv4(v4.as_bytes()).ok_or(RowError::NotUnderstood)?;
    let v6 = match v6 {
        "-" => None,
        _ => Some(read_ipv6(v6.as_bytes()).ok_or(RowError::NotUnderstood)?),
    };
    Ok(Config {
        address,
        host: Some(HostConfig { label, v6 }),
    })
}

/// A row of a service: `name` has a label, a number and a type, `records` a label, a type, a port, TXT data in hexadecimal and the host's
/// name. The unique records are told, and behind a bar the shared ones.
pub fn service_row(told: &mut Told, row: &[&str]) -> Result<(), RowError> {
    match row {
        ["name", text, count, regtype] => {
            let name = numbered(*text, number(*count)?, &regtype_of(*regtype)?)?;
            told.put_name(&name)
        }
        ["records", text, regtype, port, txt, host] => {
            let service = Registered::read(told.alloc, *text, *regtype, *port, *txt)?;
            put_service(told, &service, &name_of(*host)?)
        }
        _ => Err(RowError::NotUnderstood),
    }
}

fn numbered(text: &str, count: u32, regtype: &RegType) -> Result<Name, RowError> {
    Ok(service_name(&label(text)?, regtype, count))
}

// What a service is registered with.
#[derive(Drop)]
struct Registered {
    name: Name,
    regtype: RegType,
    port: u16,
    txt: Bytes,
}

impl Registered {
    fn read(
        alloc: Global,
        text: &str,
        regtype: &str,
        port: &str,
        txt: &str,
    ) -> Result<Registered, RowError> {
        let regtype = regtype_of(regtype)?;
        let txt = hex_of(alloc, txt)?;
        Ok(Registered {
            name: numbered(text, 1, &regtype)?,
            regtype,
            port: number(port)?,
            txt: Bytes::from_vec(txt)?,
        })
    }
}

fn regtype_of(text: &str) -> Result<RegType, RowError> {
    RegType::parse(text).map_err(|_| RowError::NotUnderstood)
}

fn put_service(told: &mut Told, registered: &Registered, host: &Name) -> Result<(), RowError> {
    let service = Service {
        name: &registered.name,
        regtype: &registered.regtype,
        port: registered.port,
        txt: &registered.txt,
    };
    let (unique, shared) = service_records(told.alloc, &service, host)?;
    told.put_records(unique.as_slice())?;
    told.put(" | ")?;
    told.put_records(shared.as_slice())
}

/// A row of the record that says which types a name has: `of` has a kind of owner and its name, `is` also another name and a record, of
/// which it tells whether it is the one of that name, with the types of the owner.
pub fn types_row(told: &mut Told, row: &[&str]) -> Result<(), RowError> {
    match row {
        ["of", owner, name] => {
            let rr = types_of(told.alloc, *owner, &name_of(*name)?)?;
            told.put_record(&rr)
        }
        ["is", owner, owned, name, text] => {
            let unique = unique_of(told.alloc, *owner, &name_of(*owned)?)?;
            let rr = record(told.alloc, *text)?;
            told.put_yes(is_nsec_of(&rr, &name_of(*name)?, &unique))
        }
        _ => Err(RowError::NotUnderstood),
    }
}

fn types_of(alloc: Global, owner: &str, name: &Name) -> Result<Rr, RowError> {
    let unique = unique_of(alloc, owner, name)?;
    Ok(nsec_of(alloc, name, &unique)?)
}

// The unique records of a host or of a service of this name.
fn unique_of(alloc: Global, owner: &str, name: &Name) -> Result<[Rr; 2], RowError>
    ensures { IfOk result (λ unique. IsTrue (have_bitmap unique)) }
{
    match owner {
        "host" => Ok(host_unique(name)),
        "service" => service_unique(alloc, name),
        _ => Err(RowError::NotUnderstood),
    }
}

fn host_unique(name: &Name) -> [Rr; 2]
    ensures { IsTrue (have_bitmap result) }
{
    [
        unique(name, 120, Rdata::A(0x0a00_0001)),
        unique(name, 120, Rdata::Aaaa(1)),
    ]
}

fn service_unique(alloc: Global, name: &Name) -> Result<[Rr; 2], RowError>
    ensures { IfOk result (λ unique. IsTrue (have_bitmap unique)) }
{
    let txt = Rdata::Txt(Bytes::copy_from_slice(alloc, &[0])?);
    let srv = Rdata::Srv {
        priority: 0,
        weight: 0,
        port: 631,
        target: name.copy(),
    };
    Ok([unique(name, 4500, txt), unique(name, 120, srv)])
}

fn unique(name: &Name, ttl: u32, rdata: Rdata) -> Rr
    ensures data { result.rdata ≡ rdata }
{
    Rr {
        owner: name.copy(),
        flush: true,
        ttl,
        rdata,
    }
}
