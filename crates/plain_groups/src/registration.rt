// Registrations that were accepted.
ghost use Rattle.std.specs.Prelude.{◌≡◌, ◌≤◌, ◌<◌, Some, length, slice_get, IsTrue, IfOk};
ghost use Rattle.std.specs.Option.{is_some, unwrap_or};
ghost use Rattle.sd_name.specs.ServiceTypes.{service_type};
ghost use Rattle.sd_call.specs.Requests.{well_formed, has_subtypes_up_to};
ghost use Rattle.mdns_history.specs.Groups.{registration_from, registration_in, registered_count, no_type};

use crate::group::{GroupType, copied, no_type};
use dns_name::Label;
use plain_history::HistoryEntry;
use sd_call::{Request, Text};
use sd_name::RegType;
use std::alloc::{AllocError, Global};
use std::marker::Model;

/// A registration: its label, type and port, and whether it is to keep its name.
#[derive(Drop)]
pub struct Registered {
    pub session: u64,
    pub op: u32,
    pub label: Label,
    pub regtype: GroupType,
    pub port: u16,
    pub norename: bool,
}

impl Model for Registered {
    ghost use Rattle.mdns_history.specs.Groups.{Registration};

    ghost Value = { Registration };

    ghost view = { λ a. record { session = a.session; op = a.op; label = a.label; type = a.regtype; port = a.port; norename = a.norename } };
}

/// The registration that an entry accepted. Refused only for want of memory.
#[tactic(auto, unfolding(mdns_history::specs::Groups::registration_in))]
pub fn registration_in(
    alloc: Global,
    entry: &HistoryEntry,
) -> Result<Option<Registered>, AllocError>
    ensures { IfOk result (λ found. found ≡ registration_in entry.now) }
{
    match entry.accepted_call() {
        Some((session, op, request)) => registration_from(alloc, session, op, request),
        None => Ok(None),
    }
}

// The registration that a request asks for.
#[tactic(auto, unfolding(sd_name::specs::ServiceTypes::is_service_label))]
fn registration_from(
    alloc: Global,
    session: u64,
    op: u32,
    request: &Request,
) -> Result<Option<Registered>, AllocError>
    requires { IsTrue (well_formed request.now) }
    ensures { IfOk result (λ found. found ≡ registration_from session op request.now) }
{
    let Request::Register {
        label,
        regtype,
        port,
        norename,
        ..
    } = request
    else {
        return Ok(None);
    };
    Ok(Some(Registered {
        session,
        op,
        label: Label::new(label.as_str().as_bytes()).unwrap(),
        regtype: group_type(alloc, regtype)?,
        port: *port,
        norename: *norename,
    }))
}

// The service type of a registration.
fn group_type(alloc: Global, regtype: &Text) -> Result<GroupType, AllocError>
    requires { IsTrue (has_subtypes_up_to 16 (service_type regtype.now)) }
    ensures { IfOk result (λ found. found ≡ unwrap_or (service_type regtype.now) no_type) }
{
    match RegType::parse(regtype.as_str()) {
        Ok(regtype) => type_copy(alloc, &regtype),
        Err(_) => Ok(no_type(alloc)),
    }
}

fn type_copy(alloc: Global, regtype: &RegType) -> Result<GroupType, AllocError>
    ensures { IfOk result (λ found. found ≡ regtype.now) }
{
    Ok(GroupType {
        name: regtype.type_name(),
        subtypes: subtypes(alloc, regtype)?,
    })
}

fn subtypes(alloc: Global, regtype: &RegType) -> Result<Vec<Label>, AllocError>
    ensures { IfOk result (λ found. found.items ≡ regtype.now.subtypes) }
{
    let mut subtypes = Vec::new(alloc);
    for place in 0..regtype.subtype_count() {
        let subtype = subtype_at(regtype, place);
        subtypes.push(subtype)?;
    }
    Ok(subtypes)
}

// The subtype at a place.
fn subtype_at(regtype: &RegType, place: usize) -> Label
    requires { place < length regtype.now.subtypes }
    ensures { slice_get regtype.now.subtypes place ≡ Some result }
{
    copied(regtype.subtype(place).unwrap())
}

/// How many registrations were accepted.
#[tactic(auto, unfolding(mdns_history::specs::Groups::registered_count))]
pub fn registered_count(history: &[HistoryEntry]) -> u64
    ensures value { result ≡ registered_count history.now }
    ensures bound { result ≤ length history.now }
{
    let mut count = 0;
    for entry in history {
        if registers_service(entry) {
            count += 1;
        }
    }
    count
}

/// Whether an entry accepted a registration.
#[tactic(auto, unfolding(mdns_history::specs::Groups::registration_in))]
pub fn registers_service(entry: &HistoryEntry) -> bool
    ensures { result ≡ is_some (registration_in entry.now) }
{
    match entry.accepted_call() {
        Some((_, _, Request::Register { .. })) => true,
        _ => false,
    }
}
