// The questions that a tick asks. (RFC 6762 5.2)
ghost use Rattle.std.specs.Prelude.{◌≡◌, ◌++◌, IfOk, OnOk};
ghost use Rattle.std.specs.Option.{option_to_list};
ghost use Rattle.mdns_history.specs.Asking.{asked_mark, tick_askings, tick_cause};

use crate::active::active_questions;
use crate::question::ActiveQuestion;
use crate::refresh::is_refresh_due;
use crate::series::series_due;
use mdns_base::Moment;
use mdns_history::{Cause, Mark};
use plain_history::HistoryEntry;
use std::alloc::{AllocError, Global};

// Why a tick at a moment asks a question, if it asks it.
fn tick_cause(
    alloc: Global,
    active: &ActiveQuestion,
    history: &[HistoryEntry],
    moment: Moment,
) -> Result<Option<Cause>, AllocError>
    ensures { IfOk result (λ cause. cause ≡ tick_cause history.now moment active.now) }
{
    let due = series_due(alloc, active, history)?;
    if due <= moment.ms() {
        return Ok(Some(Cause::Series));
    }
    let refreshed = is_refresh_due(alloc, active, history, moment)?;
    if refreshed {
        return Ok(Some(Cause::Refresh));
    }
    Ok(None)
}

/// The marks of the questions that a tick at a moment asks behind a history, by folded name and then by type: each that is
/// due in its series, or for which a record is to be refreshed. Refused only for want of memory.
#[tactic(auto, using(crate::proofs::Lists::given_more), unfolding(mdns_history::specs::Asking::tick_askings))]
pub fn tick_askings(
    alloc: Global,
    history: &[HistoryEntry],
    moment: Moment,
) -> Result<Vec<Mark>, AllocError>
    ensures { IfOk result (λ marks. marks.items ≡ tick_askings history.now moment) }
{
    let mut marks = Vec::new(alloc);
    for active in active_questions(alloc, history)? {
        let cause = tick_cause(alloc, &active, history, moment)?;
        put_asked(&mut marks, &active, cause)?;
    }
    Ok(marks)
}

// Puts the mark of a question that is asked behind others, if it has a cause.
fn put_asked(
    marks: &mut Vec<Mark>,
    active: &ActiveQuestion,
    cause: Option<Cause>,
) -> Result<(), AllocError>
    ensures { OnOk result (marks.new.items ≡ marks.old.items ++ option_to_list (asked_mark active.now cause)) }
{
    if let Some(cause) = cause {
        let question = active.key.copy();
        marks.push(Mark::Asked { question, cause })?;
    }
    Ok(())
}
