// Whether an entry is legal behind a history.
ghost use Rattle.std.specs.Prelude.{◌≡◌, ◌↔◌, ◌+◌, ◌<◌, ◌^◌, [], ◌∷◌, length, IsTrue, IfOk};
ghost use Rattle.std.specs.Str.{is_utf8};
ghost use Rattle.mdns_history.specs.InForce.{all_duties};
ghost use Rattle.mdns_history.specs.Fitting.{is_host_label, Fits, IsLegalFrom};
ghost use Rattle.plain_legal.specs.Laws.{IsLegalOrNone};
ghost use Rattle.plain_legal.specs.Trial.{may_follow, has_nothing, HasParts};

use crate::next::next_entry;
use crate::trial::put_first;
use mdns_base::Moment;
use mdns_history::{Entry, Event, Gifts, HostConfig, Marks, Outcome, Sends};
use plain_history::{HistoryEntry, now};
use plain_same::Same;
use sd_name::is_service_label;
use std::alloc::{AllocError, Global};

/// Puts an entry at the head of a legal history, or of none, where it is legal there; whether it is. Refused only for want of memory.
pub fn follow(
    alloc: Global,
    history: &mut Vec<HistoryEntry>,
    entry: Entry,
) -> Result<bool, AllocError>
    requires legal { IsLegalOrNone all_duties history.old.items }
    requires short { length history.old.items + 1 < 2 ^ 30 }
    ensures fits { IfOk result (λ fits. IsTrue fits ↔ IsLegalFrom all_duties entry history.old.items) }
    ensures put { IfOk result (λ fits. IsTrue fits → history.new.items ≡ entry ∷ history.old.items) }
{
    if history.is_empty() {
        begin(history, entry)
    } else {
        go_on(alloc, history, entry)
    }
}

// Puts the entry of a boot at the head of a history that has none, where a daemon may begin with it.
fn begin(history: &mut Vec<HistoryEntry>, entry: Entry) -> Result<bool, AllocError>
    requires none { history.old.items ≡ [] }
    ensures fits { IfOk result (λ fits. IsTrue fits ↔ IsLegalFrom all_duties entry []) }
    ensures put { IfOk result (λ fits. IsTrue fits → history.new.items ≡ entry ∷ []) }
{
    let begins = match &entry.event {
        Event::Boot { config } => is_host_label(&config.host),
        _ => false,
    };
    if !begins || Moment::try_new(entry.moment).is_none() || !has_nothing(&entry) {
        return Ok(false);
    }
    put_first(history, entry)?;
    Ok(true)
}

// Whether an entry has neither marks nor messages nor items, and there is nothing to tell of how it went.
fn has_nothing(entry: &Entry) -> bool
    ensures { result ≡ has_nothing entry.now }
{
    entry.marks.as_slice().is_empty()
        && entry.sent.as_slice().is_empty()
        && entry.given.as_slice().is_empty()
        && matches!(entry.outcome, Outcome::Done)
}

// Whether the label of a host, if there is one, is text without control characters.
#[tactic(auto, unfolding(sd_name::specs::ServiceTypes::is_service_label))]
fn is_host_label(host: &Option<HostConfig>) -> bool
    ensures { result ≡ is_host_label host.now }
{
    match host {
        Some(host) => is_text(host.label.as_slice()) && is_service_label(host.label.as_slice()),
        None => true,
    }
}

fn is_text(bytes: &[u8]) -> bool
    ensures { result ≡ is_utf8 bytes.now }
{
    match str::from_utf8(bytes) {
        Ok(_) => true,
        Err(_) => false,
    }
}

// Puts an entry at the head of a history that has some, where it is the one that follows.
fn go_on(alloc: Global, history: &mut Vec<HistoryEntry>, entry: Entry) -> Result<bool, AllocError>
    requires some { 0 < length history.old.items }
    requires legal { IsLegalOrNone all_duties history.old.items }
    requires short { length history.old.items + 1 < 2 ^ 30 }
    ensures fits { IfOk result (λ fits. IsTrue fits ↔ Fits all_duties entry history.old.items) }
    ensures put { IfOk result (λ fits. IsTrue fits → history.new.items ≡ entry ∷ history.old.items) }
{
    if !may_follow(history, &entry) {
        return Ok(false);
    }
    let Entry {
        moment,
        word,
        event,
        marks,
        sent,
        given,
        outcome,
    } = entry;
    let next = next_entry(alloc, history, Moment::new(moment), word, event)?;
    if !has(&next, &marks, &sent, &given, &outcome) {
        return Ok(false);
    }
    put_first(history, next)?;
    Ok(true)
}

// Whether an entry has these marks, messages and items, and went so.
fn has(entry: &Entry, marks: &Marks, sent: &Sends, given: &Gifts, outcome: &Outcome) -> bool
    ensures { IsTrue result ↔ HasParts entry.now marks.now sent.now given.now outcome.now }
{
    entry.marks.same_as(marks)
        && entry.sent.same_as(sent)
        && entry.given.same_as(given)
        && entry.outcome.same_as(outcome)
}

// Whether an entry is no boot, and neither earlier than a history nor past the last moment.
fn may_follow(history: &[HistoryEntry], entry: &Entry) -> bool
    ensures { result ≡ may_follow history.now entry.now }
{
    now(history).ms() <= entry.moment
        && Moment::try_new(entry.moment).is_some()
        && !matches!(entry.event, Event::Boot { .. })
}
