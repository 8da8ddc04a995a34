// The names that groups hold.
ghost use Rattle.std.specs.Prelude.{IsTrue, map, ◌≡◌};
ghost use Rattle.std.specs.Option.{unwrap_or};
ghost use Rattle.mdns_history.specs.Groups.{is_taken, no_type};
ghost use Rattle.mdns_probe.specs.Answering.{is_held_name};
ghost use Rattle.mdns_probe.specs.Kept.{name_of};
ghost use Rattle.sd_call.specs.Requests.{has_subtypes_up_to, well_formed};
ghost use Rattle.sd_name.specs.ServiceTypes.{instance_name, is_service_label, service_type};

use crate::claimant::Claimant;
use dns_name::{Label, Name};
use sd_call::{Request, Text};
use sd_name::{RegType, full_name};

/// Whether a registration is to keep a name that a live group holds.
pub fn is_held_name(groups: &[Claimant], request: &Request) -> bool
    requires { IsTrue (well_formed request.now) }
    ensures { result ≡ is_held_name request.now groups.now }
{
    match request {
        Request::Register {
            label,
            regtype,
            norename: true,
            ..
        } => is_held(groups, label, regtype),
        _ => false,
    }
}

#[tactic(auto, unfolding(sd_name::specs::ServiceTypes::is_service_label))]
fn is_held(groups: &[Claimant], label: &Text, regtype: &Text) -> bool
    requires label { IsTrue (is_service_label label.now) }
    requires regtype { IsTrue (has_subtypes_up_to 16 (service_type regtype.now)) }
    ensures { result ≡ is_taken (map name_of groups.now) (instance_name label.now (unwrap_or (service_type regtype.now) no_type)) }
{
    let Some(label) = Label::new(label.as_str().as_bytes()) else {
        return false;
    };
    match RegType::parse(regtype.as_str()) {
        Ok(regtype) => is_taken(groups, &full_name(&label, &regtype)),
        Err(_) => false,
    }
}

fn is_taken(groups: &[Claimant], name: &Name) -> bool
    ensures { result ≡ is_taken (map name_of groups.now) name.now }
{
    for one in groups {
        if name.folded_eq(one.name()) {
            return true;
        }
    }
    false
}
