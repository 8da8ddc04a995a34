// Which questions are asked by an event: once time has passed those that are due, by the refresh point that is kept, or by the
// later records of a name that was walked. (RFC 6762 5.2)
ghost use Rattle.std.specs.Prelude.{◌≡◌, ◌<◌, ◌≤◌, ◌++◌, length, slice_index_or, IfOk, OnOk, IfNone, IfSome};
ghost use Rattle.std.specs.Option.{option_map, option_to_list};
ghost use Rattle.mdns_happened.specs.Told.{told_by};
ghost use Rattle.mdns_question.specs.Refreshing.{cause_of};
ghost use Rattle.mdns_asking.specs.Walked.{AreHeard};
ghost use Rattle.mdns_asking.specs.ByWalks.{timed_by, cause_by, refresh_cause, asked_by};

use crate::message::is_heard_by;
use crate::places::near_places;
use dns_record::Key;
use mdns_happened::{Happened, Walk, When, walk_of};
use mdns_history::Cause;
use mdns_question::{Asker, Tracked, first_refresh};
use std::alloc::{AllocError, Global};

/// The questions that are asked, each with its cause: once time has passed those that are due, and those that another host's
/// query asks in the daemon's stead. Only those are looked at that the event concerns. Refused only for want of memory.
pub fn asked_questions(
    alloc: Global,
    asker: &Asker,
    when: When,
    happened: &Happened<'_>,
    walks: &[Walk],
) -> Result<Vec<(Key, Cause)>, AllocError>
    requires { AreHeard when.moment walks.now }
    ensures { IfOk result (λ asked. asked.items ≡ asked_by (told_by happened.now).ticks (told_by happened.now).heard asker.now.questions walks.now when.moment) }
{
    let places = near_places(alloc, asker, when, happened, walks)?;
    let questions = asker.questions();
    let mut asked = Vec::new(alloc);
    let mut from = 0;
    for place in &places {
        if let Some(one) = question_from(questions, from, *place) {
            let cause = cause_by(alloc, one, when, happened, walks)?;
            put_asked(&mut asked, one, cause)?;
            from = *place + 1;
        }
    }
    Ok(asked)
}

// The question at a place, unless that lies before another place.
fn question_from(questions: &[Tracked], from: usize, place: usize) -> Option<&Tracked>
    ensures none { IfNone result (from ≤ place → length questions.now ≤ place) }
    ensures behind { IfSome result (λ _. from ≤ place) }
    ensures within { IfSome result (λ _. place < length questions.now) }
    ensures is { IfSome result (λ one. one.now ≡ slice_index_or questions.now place one.now) }
{
    if place < from {
        return None;
    }
    questions.get(place)
}

// Why an event asks a question, if it does.
fn cause_by(
    alloc: Global,
    one: &Tracked,
    when: When,
    happened: &Happened<'_>,
    walks: &[Walk],
) -> Result<Option<Cause>, AllocError>
    requires { AreHeard when.moment walks.now }
    ensures { IfOk result (λ cause. cause ≡ cause_by (told_by happened.now) when.moment walks.now one.now) }
{
    match happened {
        Happened::Ticked => Ok(cause_of(one, when, walks)),
        Happened::Heard(heard) => {
            let asks = is_heard_by(alloc, one, when, heard, walks)?;
            Ok(if asks { Some(Cause::Heard) } else { None })
        }
        _ => Ok(None),
    }
}

// Puts a question behind others, if there is a cause to ask it.
fn put_asked(
    asked: &mut Vec<(Key, Cause)>,
    one: &Tracked,
    cause: Option<Cause>,
) -> Result<(), AllocError>
    ensures { OnOk result (asked.new.items ≡ asked.old.items ++ option_to_list (option_map (λ cause. (one.now.key, cause)) cause)) }
{
    if let Some(cause) = cause {
        asked.push((one.key.copy(), cause))?;
    }
    Ok(())
}

// Why the question is asked, if it is due. Its turn in the series goes before a refresh, so no refresh point is looked for then.
fn cause_of(one: &Tracked, when: When, walks: &[Walk]) -> Option<Cause>
    ensures { result ≡ cause_of when.moment (timed_by walks.now one.now) }
{
    if one.next <= when.moment {
        return Some(Cause::Series);
    }
    refresh_cause(point_of(one, walks), when.moment)
}

// Why a question whose turn hasn't come is asked at `now`, in ms, if it is due where this is its refresh point.
fn refresh_cause(point: Option<u64>, now: u64) -> Option<Cause>
    ensures { result ≡ refresh_cause now point }
{
    match point {
        Some(point) if point <= now => Some(Cause::Refresh),
        _ => None,
    }
}

// The first refresh point that calls for an asking: of the later records, where the name was walked, or else the one that is kept.
fn point_of(one: &Tracked, walks: &[Walk]) -> Option<u64>
    ensures { result ≡ (timed_by walks.now one.now).refresh }
{
    match walk_of(&one.key.name, walks) {
        Some(walk) => first_refresh(one, walk.later.as_slice()),
        None => one.refresh,
    }
}
