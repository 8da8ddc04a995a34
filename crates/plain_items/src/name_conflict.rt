// Whether a registration is to keep a name that is held. (RFC 6763 4.1.1)
ghost use Rattle.std.specs.Prelude.{◌≡◌, ◌<◌, ◌^◌, length, IsTrue, IfOk};
ghost use Rattle.std.specs.Option.{unwrap_or};
ghost use Rattle.sd_name.specs.ServiceTypes.{instance_name, is_service_label, service_type};
ghost use Rattle.sd_call.specs.Requests.{has_subtypes_up_to, well_formed};
ghost use Rattle.mdns_history.specs.Groups.{groups, is_taken, names_of, no_type};
ghost use Rattle.mdns_history.specs.Outcomes.{is_name_conflict};

use dns_name::{Label, Name};
use plain_groups::{groups, is_taken, names_of};
use plain_history::HistoryEntry;
use sd_call::{Request, Text};
use sd_name::{RegType, full_name};
use std::alloc::{AllocError, Global};

/// Whether a request is a registration that is to keep its name, which a live group holds. Refused only for want of memory.
pub fn is_name_conflict(
    alloc: Global,
    request: &Request,
    history: &[HistoryEntry],
) -> Result<bool, AllocError>
    requires short { length history.now < 2 ^ 30 }
    requires well_formed { IsTrue (well_formed request.now) }
    ensures { IfOk result (λ conflicts. conflicts ≡ is_name_conflict request.now history.now) }
{
    match request {
        Request::Register {
            label,
            regtype,
            norename: true,
            ..
        } => is_held(alloc, &registered_name(label, regtype), history),
        _ => Ok(false),
    }
}

// The name that a registration asks for.
#[tactic(auto, unfolding(sd_name::specs::ServiceTypes::is_service_label))]
fn registered_name(label: &Text, regtype: &Text) -> Name
    requires label { IsTrue (is_service_label label.now) }
    requires regtype { IsTrue (has_subtypes_up_to 16 (service_type regtype.now)) }
    ensures { result ≡ instance_name label.now (unwrap_or (service_type regtype.now) no_type) }
{
    let label = Label::new(label.as_str().as_bytes()).unwrap();
    match RegType::parse(regtype.as_str()) {
        Ok(regtype) => full_name(&label, &regtype),
        Err(_) => unreachable!(),
    }
}

// Whether a live group holds a name.
fn is_held(alloc: Global, name: &Name, history: &[HistoryEntry]) -> Result<bool, AllocError>
    requires { length history.now < 2 ^ 30 }
    ensures { IfOk result (λ held. held ≡ is_taken (names_of (groups history.now) history.now) name.now) }
{
    let live = groups(alloc, history)?;
    let names = names_of(alloc, &live, history)?;
    Ok(is_taken(&names, name))
}
