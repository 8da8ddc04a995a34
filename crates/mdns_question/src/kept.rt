// Which questions are due by what is kept of them, refresh points too: no record is looked at. (RFC 6762 5.2)
ghost use Rattle.std.specs.Prelude.{◌≡◌, ◌++◌, map, IfOk, OnOk};
ghost use Rattle.std.specs.Option.{option_to_list};
ghost use Rattle.lists.specs.Lists.{least, least_of};
ghost use Rattle.mdns_question.specs.Next.{open_in};
ghost use Rattle.mdns_question.specs.Refreshing.{first_refresh, moment_of, cause_of, with_cause, due_by_kept};

use crate::Tracked;
use crate::next::next_with;
use dns_record::Key;
use mdns_base::Moment;
use mdns_history::{Cause, Held};
use mdns_timer::Deadlines;
use std::alloc::{AllocError, Global};

/// The first refresh point, in ms, that calls for an asking of a question once it has come, of records that are held: `None`
/// exactly where there is none. Records that don't answer the question change nothing. (RFC 6762 5.2)
pub fn first_refresh(one: &Tracked, held: &[Held]) -> Option<u64>
    ensures { result ≡ first_refresh held.now one.now }
{
    let mut first = None;
    for told in held {
        first = first_with(one, told, first);
    }
    first
}

// The first of a moment that may be there and of the refresh points of a record that call for an asking.
fn first_with(one: &Tracked, told: &Held, first: Option<u64>) -> Option<u64>
    ensures { result ≡ least (option_to_list first ++ open_in one.now told.now) }
{
    match first {
        Some(first) => Some(next_with(one, told, first)),
        None => first_of(one, told),
    }
}

// The first refresh point of a record that calls for an asking. Each lies before the record's end.
#[tactic(auto, using(crate::proofs::FirstRefresh::first_of_record))]
fn first_of(one: &Tracked, told: &Held) -> Option<u64>
    ensures { result ≡ least (open_in one.now told.now) }
{
    let first = next_with(one, told, told.end);
    if first < told.end { Some(first) } else { None }
}

/// The questions that are due at `now`, in ms, by what is kept of them, in their order, each with its cause. The moments are those at which
/// they are due. Refused only for want of memory.
pub fn due_by_kept(
    alloc: Global,
    questions: &[Tracked],
    deadlines: &Deadlines,
    now: Moment,
) -> Result<Vec<(Key, Cause)>, AllocError>
    requires { deadlines.now.moments ≡ map moment_of questions.now }
    ensures { IfOk result (λ due. due.items ≡ due_by_kept now questions.now) }
{
    let mut due = Vec::new(alloc);
    let mut from = 0;
    while let Some(place) = deadlines.next_due(from, now.ms()) {
        put_due(&mut due, &questions[place], now)?;
        from = place + 1;
    }
    Ok(due)
}

// Puts a question with its cause, if it is due.
fn put_due(due: &mut Vec<(Key, Cause)>, one: &Tracked, now: Moment) -> Result<(), AllocError>
    ensures { OnOk result (due.new.items ≡ due.old.items ++ option_to_list (with_cause now one.now)) }
{
    if let Some(cause) = cause_of(one, now) {
        due.push((one.key.copy(), cause))?;
    }
    Ok(())
}

// Why the question is due at `now`, if it is: its turn in the series goes before a refresh.
fn cause_of(one: &Tracked, now: Moment) -> Option<Cause>
    ensures { result ≡ cause_of now one.now }
{
    if one.next <= now.ms() {
        Some(Cause::Series)
    } else if moment_of(one) <= now.ms() {
        Some(Cause::Refresh)
    } else {
        None
    }
}

/// The first moment at which a question is due.
pub fn moment_of(one: &Tracked) -> u64
    ensures { result ≡ moment_of one.now }
{
    match one.refresh {
        Some(point) => one.next.min(point),
        None => one.next,
    }
}
