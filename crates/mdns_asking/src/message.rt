// Which questions a message asks in the daemon's stead. (RFC 6762 7.3)
ghost use Rattle.std.specs.Prelude.{◌≡◌, ◌==◌, ◌+◌, ◌&&◌, ◌||◌, ℕ, nat_le, not, IfOk};
ghost use Rattle.std.specs.List.{list_any, list_all};
ghost use Rattle.mdns_base.specs.Hosts.{mdns_port};
ghost use Rattle.dns_record.specs.Records.{matches, same};
ghost use Rattle.mdns_history.specs.Asking.{asks_openly};
ghost use Rattle.mdns_cache.specs.Lifetimes.{AllHeard};
ghost use Rattle.mdns_asking.specs.Asked.{is_asked_by};
ghost use Rattle.mdns_asking.specs.Walked.{may_stand_for, AreHeard};
ghost use Rattle.mdns_asking.specs.ByWalks.{is_heard_by};

use crate::walked::later_of;
use dns_record::{Key, Question, Rr, matches};
use mdns_base::MDNS_PORT;
use mdns_happened::{Heard, Walk, When};
use mdns_history::Held;
use mdns_known::known_answers;
use mdns_question::Tracked;
use std::alloc::{AllocError, Global};

/// Whether a message asks a question in the daemon's stead, by the later records of its name. Refused only for want of memory.
pub fn is_heard_by(
    alloc: Global,
    one: &Tracked,
    when: When,
    heard: &Heard<'_>,
    walks: &[Walk],
) -> Result<bool, AllocError>
    requires { AreHeard when.moment walks.now }
    ensures { IfOk result (λ asked. asked ≡ is_heard_by walks.now when.moment (record { from = heard.now.from.now; message = heard.now.message }) one.now) }
{
    is_asked_by(alloc, later_of(&one.key.name, walks), when, heard, one)
}

// Whether a message asks a question in the daemon's stead: it is a query that asks the same, which is due within a second,
// and lists no answer that the daemon wouldn't.
fn is_asked_by(
    alloc: Global,
    held: &[Held],
    when: When,
    heard: &Heard<'_>,
    one: &Tracked,
) -> Result<bool, AllocError>
    requires { AllHeard when.moment held.now }
    ensures { IfOk result (λ asked. asked ≡ is_asked_by held.now when.moment (record { from = heard.now.from.now; message = heard.now.message }) one.now) }
{
    if !may_stand_for(when, heard, one) {
        return Ok(false);
    }
    let known = known_answers(alloc, &one.key, held, when.at())?;
    let answers = heard.message.answers.as_slice();
    Ok(knows_no_more(&one.key, known.as_slice(), answers))
}

/// Whether the message is a complete query from port 5353, so that it may stand for one of ours.
pub fn may_be_ours(heard: &Heard<'_>) -> bool
    ensures { result ≡ (not heard.now.message.response && ((heard.now.from.now.port == mdns_port) && not heard.now.message.truncated)) }
{
    let message = &heard.message;
    !message.response && heard.from.port == MDNS_PORT && !message.truncated
}

// Whether it is one and asks this question for a multicast answer, and ours is due within a second.
fn may_stand_for(when: When, heard: &Heard<'_>, one: &Tracked) -> bool
    ensures { result ≡ may_stand_for when.moment (record { from = heard.now.from.now; message = heard.now.message }) one.now }
{
    may_be_ours(heard)
        && is_among_questions(&one.key, heard.message.questions.as_slice())
        && one.next <= when.moment + 1000
}

// Whether the question is asked without a wish for a unicast reply.
fn is_among_questions(key: &Key, questions: &[Question]) -> bool
    ensures { result ≡ list_any (asks_openly key.now) questions.now }
{
    questions.iter().any(|asked| asks_openly(key, asked))
}

/// Whether a question is asked without a wish for a unicast reply.
#[tactic(auto, unfolding(dns_record::specs::Records::key_eq))]
pub fn asks_openly(key: &Key, asked: &Question) -> bool
    ensures { result ≡ asks_openly key.now asked.now }
{
    key.name.folded_eq(&asked.name) && key.kind == asked.kind && !asked.unicast
}

// Whether each answer to the question is known.
fn knows_no_more(key: &Key, known: &[Rr], answers: &[Rr]) -> bool
    ensures { result ≡ list_all (λ rr. not (matches key.now rr) || list_any (same rr) known.now) answers.now }
{
    answers
        .iter()
        .all(|rr| !matches(key, rr) || is_known(rr, known))
}

fn is_known(rr: &Rr, known: &[Rr]) -> bool
    ensures { result ≡ list_any (same rr.now) known.now }
{
    known.iter().any(|other| rr.same(other))
}
