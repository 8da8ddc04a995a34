// Looks at records, after which it is known that their data are as their types allow: numbers of their sizes, names, bytes.
ghost use Rattle.std.specs.Prelude.{true, ◌≡◌};
ghost use Rattle.dns_message.specs.Writing.{are_bytes, is_spellable_data, is_spellable_name};
ghost use Rattle.mdns_claimants.specs.Typed.{are_plain, have_data, is_plain};

use dns_name::Name;
use dns_record::{Rdata, Rr};

/// Looks at the data of records, each with a variant of its own.
pub fn look_at(rrs: &[Rr])
    requires { are_plain rrs.now ≡ true }
    ensures { have_data rrs.now ≡ true }
{
    for rr in rrs {
        look_at_data(&rr.rdata);
    }
}

fn look_at_data(rdata: &Rdata)
    requires { is_plain rdata.now ≡ true }
    ensures { is_spellable_data rdata.now ≡ true }
{
    match rdata {
        Rdata::A(address) => {
            let _address = *address;
        }
        Rdata::Aaaa(address) => {
            let _address = *address;
        }
        Rdata::Ptr(name) | Rdata::Cname(name) => look_at_name(name),
        Rdata::Srv {
            priority,
            weight,
            port,
            target,
        } => {
            let _numbers = (*priority, *weight, *port);
            look_at_name(target);
        }
        Rdata::Txt(bytes) => look_at_bytes(bytes.as_slice()),
        Rdata::Nsec { next, bitmap } => {
            look_at_name(next);
            look_at_bytes(bitmap.as_slice());
        }
        Rdata::Raw { .. } => {}
    }
}

fn look_at_name(name: &Name)
    ensures { is_spellable_name name.now ≡ true }
{
    look_at_bytes(name.as_wire());
}

fn look_at_bytes(bytes: &[u8])
    ensures { are_bytes bytes.now ≡ true }
{
    let _length = bytes.len();
}
