// The probes of groups. (RFC 6762 8.1)
ghost use Rattle.std.specs.Prelude.{◌≡◌, ◌<◌, ◌^◌, ◌++◌, length, IfOk, OnOk};
ghost use Rattle.std.specs.List.{list_any};
ghost use Rattle.plain_history.specs.Kept.{kept_if};
ghost use Rattle.mdns_history.specs.History.{has_mark, is_tick};
ghost use Rattle.mdns_history.specs.Sureness.{is_any_question, is_probe, is_setback_of, probe_moments, probes, registers, sets_back, tick_moments};

use crate::group::LiveGroup;
use crate::names::group_name;
use crate::registration::{registered_count, registers_service};
use dns_message::Message;
use dns_name::Name;
use dns_record::{Question, kinds};
use mdns_base::Moment;
use mdns_history::{Entry, Event, Mark};
use plain_history::HistoryEntry;
use std::alloc::{AllocError, Global};

// Whether a group was registered in an entry.
fn registers(id: u64, entry: &HistoryEntry, past: &[HistoryEntry]) -> bool
    requires { length past.now < 2 ^ 30 }
    ensures { result ≡ registers id entry.now past.now }
{
    (matches!(entry.entry().event, Event::Boot { .. }) && id == 0)
        || (registers_service(entry) && registered_count(past) + 1 == id)
}

fn is_setback_of(id: u64, mark: &Mark) -> bool
    ensures { result ≡ is_setback_of id mark.now }
{
    match mark {
        Mark::Renamed { group, .. } => *group == id,
        Mark::Contested { group } => *group == id,
        Mark::TieLost { group } => *group == id,
        _ => false,
    }
}

fn has_setback(id: u64, entry: &Entry) -> bool
    ensures { result ≡ has_mark (is_setback_of id) entry.now }
{
    entry
        .marks
        .as_slice()
        .iter()
        .any(|mark| is_setback_of(id, mark))
}

/// Whether a group is registered in an entry, or has to probe anew after it.
pub fn sets_back(id: u64, entry: &HistoryEntry, past: &[HistoryEntry]) -> bool
    requires { length past.now < 2 ^ 30 }
    ensures { result ≡ sets_back id entry.now past.now }
{
    registers(id, entry, past) || has_setback(id, entry.entry())
}

// The question for any record of a name, by a unicast reply.
fn is_any_question(name: &Name, question: &Question) -> bool
    ensures { result ≡ is_any_question name.now question.now }
{
    question.name.folded_eq(name) && question.kind == kinds::ANY && question.unicast
}

/// Whether a message probes a name.
pub fn is_probe(name: &Name, message: &Message) -> bool
    ensures { result ≡ is_probe name.now message.now }
{
    !message.response && asks_any(name, message.questions.as_slice())
}

fn asks_any(name: &Name, questions: &[Question]) -> bool
    ensures { result ≡ list_any (is_any_question name.now) questions.now }
{
    questions
        .iter()
        .any(|question| is_any_question(name, question))
}

/// Whether an entry probes a name.
pub fn probes(name: &Name, entry: &Entry) -> bool
    ensures { result ≡ probes name.now entry.now }
{
    entry
        .sent
        .as_slice()
        .iter()
        .any(|sent| is_probe(name, &sent.message))
}

/// The moments of a group's probes since it was set back, the last first. Refused only for want of memory.
#[tactic(auto, unfolding(mdns_history::specs::Sureness::probe_moments))]
pub fn probe_moments(
    alloc: Global,
    group: &LiveGroup,
    history: &[HistoryEntry],
) -> Result<Vec<Moment>, AllocError>
    requires { length history.now < 2 ^ 30 }
    ensures { IfOk result (λ moments. moments.items ≡ probe_moments group.now history.now) }
{
    let name = group_name(group, history);
    let mut moments = Vec::new(alloc);
    for (place, entry) in history.iter().enumerate() {
        if sets_back(group.id, entry, &history[place + 1..]) {
            return Ok(moments);
        }
        put_moment_if(&mut moments, probes(&name, entry.entry()), entry)?;
    }
    Ok(moments)
}

/// The moments of the ticks since a group was set back, the last first. Refused only for want of memory.
#[tactic(auto, unfolding(mdns_history::specs::Sureness::tick_moments))]
pub fn tick_moments(
    alloc: Global,
    group: &LiveGroup,
    history: &[HistoryEntry],
) -> Result<Vec<Moment>, AllocError>
    requires { length history.now < 2 ^ 30 }
    ensures { IfOk result (λ moments. moments.items ≡ tick_moments group.now history.now) }
{
    let mut moments = Vec::new(alloc);
    for (place, entry) in history.iter().enumerate() {
        if sets_back(group.id, entry, &history[place + 1..]) {
            return Ok(moments);
        }
        put_moment_if(&mut moments, is_tick(&entry.entry().event), entry)?;
    }
    Ok(moments)
}

fn is_tick(event: &Event) -> bool
    ensures { result ≡ is_tick event.now }
{
    matches!(event, Event::Tick)
}

/// Puts the moment of an entry behind others, where a test passed. Refused only for want of memory.
pub fn put_moment_if(
    moments: &mut Vec<Moment>,
    test: bool,
    entry: &HistoryEntry,
) -> Result<(), AllocError>
    ensures { OnOk result (moments.new.items ≡ moments.old.items ++ kept_if test entry.now.moment) }
{
    if test {
        moments.push(entry.moment())?;
    }
    Ok(())
}
