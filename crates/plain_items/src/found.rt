// The answers of operations. (RFC 6763 4 to 7)
ghost use Rattle.std.specs.Prelude.{◌≡◌, ◌<◌, ◌^◌, ◌==◌, ◌&&◌, List, [], ◌∷◌, length, IsTrue, IfOk};
ghost use Rattle.std.specs.List.{find};
ghost use Rattle.std.specs.Option.{option_copied};
ghost use Rattle.sd_call.specs.declared.answer.Answer.TheVariants.{Conflict};
ghost use Rattle.mdns_history.specs.declared.entry.Entry.{Entry};
ghost use Rattle.sd_call.specs.Requests.{is_register, well_formed};
ghost use Rattle.mdns_history.specs.Groups.{groups};
ghost use Rattle.mdns_history.specs.Answers.{answers, answers_over, known_records, named_if, operation_group, registration_answers};

use dns_name::Name;
use plain_groups::{LiveGroup, group_name, groups, is_sure, own_records};
use plain_history::{HistoryEntry, LiveOperation, live_records, now};
use sd_answer::{Answers, KnownRecords, answers_of, questions_of};
use sd_call::{Answer, Request};
use std::alloc::{AllocError, Global};

/// The live group of an operation, where these are the live groups of a history.
pub fn operation_group<'a>(
    operation: &LiveOperation,
    live: &'a [LiveGroup],
) -> Option<&'a LiveGroup>
    ensures { (history : List Entry) → live.now ≡ groups history → option_copied result ≡ operation_group operation.now history }
{
    group_of(operation.session, operation.op, live)
}

/// The group of an operation of this session and number, among groups.
pub fn group_of(session: u64, op: u32, live: &[LiveGroup]) -> Option<&LiveGroup>
    ensures { option_copied result ≡ find (λ group. (group.session == session) && (group.op == op)) live.now }
{
    live.iter()
        .find(|group| group.session == session && group.op == op)
}

/// Whether a request registers a service.
pub fn is_register(request: &Request) -> bool
    ensures { result ≡ is_register request.now }
{
    matches!(request, Request::Register { .. })
}

/// The answers of a live operation: a registration has its name once that is sure and a conflict where its group failed, and every
/// other one what the known records tell. Refused only for want of memory.
#[tactic(auto, unfolding(mdns_history::specs::Answers::answers))]
pub fn answers(
    alloc: Global,
    operation: &LiveOperation,
    history: &[HistoryEntry],
) -> Result<Answers, AllocError>
    requires { length history.now < 2 ^ 30 }
    ensures { IfOk result (λ found. found ≡ answers operation.now history.now) }
{
    if is_register(&operation.request) {
        return registration_answers(alloc, operation, history);
    }
    record_answers(alloc, &operation.request, history)
}

// The answers of a registration.
fn registration_answers(
    alloc: Global,
    operation: &LiveOperation,
    history: &[HistoryEntry],
) -> Result<Answers, AllocError>
    requires { length history.now < 2 ^ 30 }
    ensures { IfOk result (λ found. found ≡ registration_answers operation.now history.now) }
{
    let live = groups(alloc, history)?;
    match group_of(operation.session, operation.op, &live) {
        Some(group) => {
            let sure = is_sure(alloc, group, history)?;
            named_if(alloc, sure, group_name(group, history))
        }
        None => conflict(alloc),
    }
}

// The name of a registration, if it is sure.
fn named_if(alloc: Global, sure: bool, full: Name) -> Result<Answers, AllocError>
    ensures { IfOk result (λ found. found ≡ named_if sure full) }
{
    let mut found = Answers::new(alloc);
    if sure {
        found.push(Answer::Named { full })?;
    }
    Ok(found)
}

// The answer that a registration got no name.
fn conflict(alloc: Global) -> Result<Answers, AllocError>
    ensures { IfOk result (λ found. found ≡ Conflict ∷ []) }
{
    let mut found = Answers::new(alloc);
    found.push(Answer::Conflict)?;
    Ok(found)
}

// The answers that the known records give to a request.
#[tactic(auto, unfolding(mdns_history::specs::Answers::known_records))]
fn record_answers(
    alloc: Global,
    request: &Request,
    history: &[HistoryEntry],
) -> Result<Answers, AllocError>
    requires short { length history.now < 2 ^ 30 }
    requires well_formed { IsTrue (well_formed request.now) }
    ensures { IfOk result (λ found. found ≡ answers_over request.now (known_records history.now)) }
{
    let live = live_records(alloc, history, now(history))?;
    let own = own_records(alloc, history)?;
    let known = KnownRecords {
        held: &live,
        own: &own,
    };
    let questions = questions_of(request);
    answers_of(alloc, request, questions.as_slice(), &known)
}
