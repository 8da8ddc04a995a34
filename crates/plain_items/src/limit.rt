// Which sessions an entry cuts.
ghost use Rattle.std.specs.Prelude.{◌≡◌, ◌<◌, ◌^◌, ◌++◌, [], false, nat_lt, map, filter, length, IfOk};
ghost use Rattle.sd_call.specs.Answers.{frames_len, queue_limit};
ghost use Rattle.mdns_history.specs.declared.mark.Mark.TheVariants as mark;
ghost use Rattle.mdns_history.specs.Items.{change_items, cut_marks, queue, would_pass};
ghost use Rattle.plain_items.specs.LastEntry.{of_last};

use crate::change::change_items;
use crate::queued::queue;
use crate::served::served_sessions;
use mdns_history::Mark;
use plain_history::HistoryEntry;
use sd_call::{Item, item_len};
use std::alloc::{AllocError, Global};

/// The most bytes of frames that are queued for a session.
const QUEUE_LIMIT: usize = 16_777_216;

// Whether the frames of items have more bytes than may be queued.
fn pass_limit(items: &[Item]) -> bool
    ensures { result ≡ nat_lt queue_limit (frames_len items.now) }
{
    let mut room = QUEUE_LIMIT;
    for item in items {
        let len = item_len(item);
        if room < len {
            return true;
        }
        room -= len;
    }
    false
}

/// Whether what the last entry of a history brings a session would pass the limit of its queue; where there is no entry it doesn't.
/// Refused only for want of memory.
#[tactic(auto, using(crate::proofs::LastEntries::passes_last, crate::proofs::LastEntries::last_of_none))]
pub fn would_pass(alloc: Global, session: u64, history: &[HistoryEntry]) -> Result<bool, AllocError>
    requires { length history.now < 2 ^ 30 }
    ensures { IfOk result (λ passes. passes ≡ of_last false (λ entry past. would_pass entry past session) history.now) }
{
    let Some((_, past)) = history.split_first() else {
        return Ok(false);
    };
    let passes = passes_with(alloc, session, past, history)?;
    Ok(passes)
}

// Whether what was queued passes the limit with what the last entry brings.
fn passes_with(
    alloc: Global,
    session: u64,
    past: &[HistoryEntry],
    history: &[HistoryEntry],
) -> Result<bool, AllocError>
    requires { length history.now < 2 ^ 30 }
    ensures { IfOk result (λ passes. passes ≡ nat_lt queue_limit (frames_len (queue session past.now ++ of_last [] (change_items session) history.now))) }
{
    let mut items = queue(alloc, session, past)?;
    let mut more = change_items(alloc, session, history)?;
    items.append(&mut more)?;
    Ok(pass_limit(&items))
}

/// The marks of the sessions that the last entry of a history cuts, by number; none where there is no entry. Refused only for want of
/// memory.
#[tactic(auto, using(crate::proofs::LastEntries::cuts_last))]
pub fn cut_marks(alloc: Global, history: &[HistoryEntry]) -> Result<Vec<Mark>, AllocError>
    requires { length history.now < 2 ^ 30 }
    ensures { IfOk result (λ marks. marks.items ≡ of_last [] cut_marks history.now) }
{
    let served = served_sessions(alloc, history)?;
    let marks = cuts_among(alloc, &served, history)?;
    Ok(marks)
}

// The marks of those of some sessions that the last entry cuts.
fn cuts_among(
    alloc: Global,
    sessions: &[u64],
    history: &[HistoryEntry],
) -> Result<Vec<Mark>, AllocError>
    requires { length history.now < 2 ^ 30 }
    ensures { IfOk result (λ marks. marks.items ≡ map (λ session. mark.Cut session) (filter (λ session. of_last false (λ entry past. would_pass entry past session) history.now) sessions.now)) }
{
    let mut marks = Vec::new(alloc);
    for session in sessions {
        let passes = would_pass(alloc, *session, history)?;
        if passes {
            marks.push(Mark::Cut { session: *session })?;
        }
    }
    Ok(marks)
}
