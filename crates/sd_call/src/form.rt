// The form of requests.
ghost use Rattle.std.specs.Prelude.{◌≡◌, ◌≤◌, ◌&&◌, ◌||◌, ◌==◌, not};
ghost use Rattle.sd_name.specs.ServiceTypes.{service_type};
ghost use Rattle.sd_call.specs.Requests.{well_formed, has_subtypes_up_to};

use crate::{Request, Text};
use dns_record::kinds;
use sd_name::{RegType, is_service_label};
use txt_record::is_txt;

/// Whether a request is well formed: its type is one that can be asked for, its service type has as many subtypes as the
/// request may have, its label can be that of a service, its families are IPv4, IPv6 or both, its port isn't 0, and its
/// TXT data are a run of strings. (RFC 6763 sections 4.1.1, 6.1 and 7)
pub fn well_formed(request: &Request) -> bool
    ensures { result ≡ well_formed request.now }
{
    match request {
        Request::Query { kind, .. } => !(*kind == 0 || *kind == kinds::OPT),
        Request::Browse { regtype } => has_subtypes_up_to(1, regtype),
        Request::Resolve { label, regtype } => {
            is_service_label(label.as_str().as_bytes()) && has_subtypes_up_to(0, regtype)
        }
        Request::Address { families, .. } => (1..=3).contains(families),
        Request::Register {
            label,
            regtype,
            port,
            txt,
            ..
        } => {
            is_service_label(label.as_str().as_bytes())
                && has_subtypes_up_to(16, regtype)
                && *port != 0
                && is_txt(txt.as_slice())
        }
        Request::Update { txt } => is_txt(txt.as_slice()),
        Request::Stop => true,
    }
}

// Whether a text is a service type with at most so many subtypes.
#[tactic(auto, using(crate::proofs::Forms::no_type))]
fn has_subtypes_up_to(most: usize, regtype: &Text) -> bool
    requires { most ≤ 16 }
    ensures { result ≡ has_subtypes_up_to most (service_type regtype.now) }
{
    match RegType::parse(regtype.as_str()) {
        Ok(regtype) => regtype.subtype(most).is_none(),
        Err(_) => false,
    }
}
