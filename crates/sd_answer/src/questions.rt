// The questions of requests.
ghost use Rattle.std.specs.Prelude.{◌≡◌, [], ◌∷◌, ◌&&◌, IsTrue, IsSome};
ghost use Rattle.std.specs.List.{list_any};
ghost use Rattle.dns_name.specs.Names.{folded_eq};
ghost use Rattle.sd_name.specs.ServiceTypes.{service_type, is_service_label};
ghost use Rattle.sd_call.specs.Requests.{well_formed, has_subtypes_up_to};
ghost use Rattle.mdns_history.specs.Questions.{key_of, address_keys, browsed_name, browse_keys, resolve_keys, keys_of};

use arrayvec::ArrayVec;
use dns_name::{Label, Name};
use dns_record::{Key, kinds};
use sd_call::{Request, Text};
use sd_name::{RegType, full_name};

/// The questions that a well formed request asks, none where it asks nothing: a Query its type, an Address the types of its
/// families, a Browse PTR at its type or at its subtype, a Resolve SRV and TXT at the instance. It takes no memory.
/// (RFC 6762 section 5.2, RFC 6763 sections 4, 5 and 7.1)
#[tactic(auto, unfolding(mdns_history::specs::Questions::keys_of))]
pub fn questions_of(request: &Request) -> ArrayVec<Key, 2>
    requires { IsTrue (well_formed request.now) }
    ensures { result.items ≡ keys_of request.now }
{
    match request {
        Request::Query { kind, name } => one_question(*kind, name.copy()),
        Request::Browse { regtype } => browse_questions(regtype),
        Request::Resolve { label, regtype } => resolve_questions(label, regtype),
        Request::Address { families, name } => address_questions(*families, name),
        Request::Register { .. } | Request::Update { .. } | Request::Stop => ArrayVec::new(),
    }
}

/// Whether a well formed request asks a question of a name, case aside. It takes no memory. (RFC 6762 section 16)
pub fn touches(request: &Request, name: &Name) -> bool
    requires { IsTrue (well_formed request.now) }
    ensures { result ≡ list_any (λ key. folded_eq key.name name.now) (keys_of request.now) }
{
    questions_of(request)
        .iter()
        .any(|question| question.name.folded_eq(name))
}

fn one_question(kind: u16, name: Name) -> ArrayVec<Key, 2>
    ensures { result.items ≡ key_of kind name ∷ [] }
{
    let mut questions = ArrayVec::new();
    questions.push(Key { name, kind });
    questions
}

fn two_questions(first: u16, second: u16, name: Name) -> ArrayVec<Key, 2>
    ensures { result.items ≡ key_of first name ∷ key_of second name ∷ [] }
{
    let mut questions = ArrayVec::new();
    questions.push(Key {
        name: name.copy(),
        kind: first,
    });
    questions.push(Key { name, kind: second });
    questions
}

fn address_questions(families: u8, name: &Name) -> ArrayVec<Key, 2>
    ensures { result.items ≡ address_keys families name.now }
{
    match families {
        1 => one_question(kinds::A, name.copy()),
        2 => one_question(kinds::AAAA, name.copy()),
        _ => two_questions(kinds::A, kinds::AAAA, name.copy()),
    }
}

fn browse_questions(regtype: &Text) -> ArrayVec<Key, 2>
    requires { IsTrue (has_subtypes_up_to 1 (service_type regtype.now)) }
    ensures { result.items ≡ browse_keys (service_type regtype.now) }
{
    match RegType::parse(regtype.as_str()) {
        Ok(regtype) => one_question(kinds::PTR, browsed_name(&regtype)),
        Err(_) => ArrayVec::new(),
    }
}

// Where a type is browsed.
fn browsed_name(regtype: &RegType) -> Name
    ensures { result ≡ browsed_name regtype.now.subtypes regtype.now }
{
    match regtype.subtype_name(0) {
        Some(name) => name,
        None => regtype.type_name(),
    }
}

#[tactic(auto, unfolding(sd_name::specs::ServiceTypes::is_service_label))]
fn resolve_questions(label: &Text, regtype: &Text) -> ArrayVec<Key, 2>
    requires label { IsTrue (is_service_label label.now) }
    requires regtype { IsTrue (has_subtypes_up_to 0 (service_type regtype.now)) }
    ensures { result.items ≡ resolve_keys label.now (service_type regtype.now) }
{
    let Some(label) = Label::new(label.as_str().as_bytes()) else {
        return ArrayVec::new();
    };
    match RegType::parse(regtype.as_str()) {
        Ok(regtype) => two_questions(kinds::SRV, kinds::TXT, full_name(&label, &regtype)),
        Err(_) => ArrayVec::new(),
    }
}
