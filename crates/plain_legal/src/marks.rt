// The marks of an entry.
ghost use Rattle.std.specs.Prelude.{◌≡◌, ◌<◌, ◌≤◌, ◌^◌, [], ◌∷◌, true, length, map, nat_lt, IfOk};
ghost use Rattle.std.specs.Option.{option_copied};
ghost use Rattle.mdns_history.specs.declared.mark.Mark.TheVariants.{Announced};
ghost use Rattle.mdns_history.specs.Hearings.{brought};
ghost use Rattle.mdns_history.specs.InForce.{all_duties};
ghost use Rattle.mdns_history.specs.Lifetimes.{live_records, room_for_records};
ghost use Rattle.mdns_history.specs.Fitting.{bad_mark, event_marks};
ghost use Rattle.plain_history.specs.Last.{are_by};
ghost use Rattle.plain_legal.specs.Trial.{of_last, admitted_unless, refusal_of, asked_at, announced_told};

use dns_message::{MessageError, read};
use mdns_base::Moment;
use mdns_history::{Event, Mark};
use plain_announcing::announced_groups;
use plain_asking::{heard_askings, tick_askings};
use plain_claims::claim_marks;
use plain_groups::LiveGroup;
use plain_history::{HeardMessage, HistoryEntry, brought, live_records};
use std::alloc::{AllocError, Global};

/// The most records that may be live.
const ROOM_FOR_RECORDS: usize = 32_768;

/// The marks that the last entry of a history gets beside those of cut sessions: why its packet isn't heard, what that does to claims, the
/// questions that are asked, and the groups that are announced. No entry may be later than the last. Refused only for want of memory.
pub fn event_marks(alloc: Global, history: &[HistoryEntry]) -> Result<Vec<Mark>, AllocError>
    requires short { length history.now < 2 ^ 30 }
    requires by { of_last true (λ entry past. are_by entry.moment past) history.now ≡ true }
    ensures { IfOk result (λ marks. marks.items ≡ of_last [] (event_marks all_duties) history.now) }
{
    let Some((entry, past)) = history.split_first() else {
        return Ok(Vec::new(alloc));
    };
    let (event, moment) = (&entry.entry().event, entry.moment());
    let full = are_too_many(alloc, history, moment)?;
    let heard = admitted(alloc, event, full)?;
    let mut marks = refusal(alloc, event, full)?;
    let mut disturbed = claim_marks(alloc, heard.as_ref(), past)?;
    let mut asked = asked_at(alloc, moment, event, heard.as_ref(), past)?;
    let mut announced = announced(alloc, moment, event, history)?;
    marks.append(&mut disturbed)?;
    marks.append(&mut asked)?;
    marks.append(&mut announced)?;
    Ok(marks)
}

// Whether more records are live at a moment than there is room for.
fn are_too_many(alloc: Global, history: &[HistoryEntry], moment: Moment) -> Result<bool, AllocError>
    ensures { IfOk result (λ full. full ≡ nat_lt room_for_records (length (live_records history.now moment))) }
{
    let live = live_records(alloc, history, moment)?;
    Ok(live.len() > ROOM_FOR_RECORDS)
}

// The message that an event brings, unless there are too many records.
fn admitted(alloc: Global, event: &Event, full: bool) -> Result<Option<HeardMessage>, AllocError>
    ensures { IfOk result (λ heard. heard ≡ admitted_unless full (brought event.now)) }
{
    let heard = brought(alloc, event)?;
    Ok(if full { None } else { heard })
}

// Why a packet isn't heard.
fn refusal(alloc: Global, event: &Event, full: bool) -> Result<Vec<Mark>, AllocError>
    ensures { IfOk result (λ marks. marks.items ≡ refusal_of full event.now) }
{
    match event {
        Event::Hear { .. } if full => one_mark(alloc, Mark::Full),
        Event::Hear { bytes, .. } => bad_mark(alloc, bytes.as_slice()),
        _ => Ok(Vec::new(alloc)),
    }
}

fn one_mark(alloc: Global, mark: Mark) -> Result<Vec<Mark>, AllocError>
    ensures { IfOk result (λ marks. marks.items ≡ mark ∷ []) }
{
    let mut marks = Vec::new(alloc);
    marks.push(mark)?;
    Ok(marks)
}

// The mark of bytes that spell no message.
fn bad_mark(alloc: Global, bytes: &[u8]) -> Result<Vec<Mark>, AllocError>
    ensures { IfOk result (λ marks. marks.items ≡ bad_mark bytes.now) }
{
    match read(alloc, bytes) {
        Ok(_) => Ok(Vec::new(alloc)),
        Err(MessageError::NoMemory) => Err(AllocError),
        Err(fault) => {
            let number = fault as u8;
            one_mark(alloc, Mark::Bad { number })
        }
    }
}

// The marks of questions that a tick asks, or that a packet asks in the daemon's stead.
fn asked_at(
    alloc: Global,
    moment: Moment,
    event: &Event,
    heard: Option<&HeardMessage>,
    past: &[HistoryEntry],
) -> Result<Vec<Mark>, AllocError>
    requires { are_by moment past.now ≡ true }
    ensures { IfOk result (λ marks. marks.items ≡ asked_at moment event.now (option_copied heard.entry) past.now) }
{
    match event {
        Event::Tick => tick_askings(alloc, past, moment),
        _ => heard_askings(alloc, past, moment, heard),
    }
}

// The marks of the groups that a tick announces, which is the last entry of the history.
fn announced(
    alloc: Global,
    moment: Moment,
    event: &Event,
    history: &[HistoryEntry],
) -> Result<Vec<Mark>, AllocError>
    requires { length history.now < 2 ^ 30 }
    ensures { IfOk result (λ marks. marks.items ≡ announced_told moment event.now history.now) }
{
    match event {
        Event::Tick => announcements(alloc, &announced_groups(alloc, history, moment)?),
        _ => Ok(Vec::new(alloc)),
    }
}

// The marks of groups that are announced.
fn announcements(alloc: Global, groups: &[LiveGroup]) -> Result<Vec<Mark>, AllocError>
    ensures { IfOk result (λ marks. marks.items ≡ map (λ group. Announced group.id) groups.now) }
{
    let mut marks = Vec::new(alloc);
    for group in groups {
        marks.push(Mark::Announced { group: group.id })?;
    }
    Ok(marks)
}
