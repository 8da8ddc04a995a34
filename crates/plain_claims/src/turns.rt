// What a packet does to the claims of all groups. (RFC 6762 8.1, 8.2 and 9)
ghost use Rattle.std.specs.Prelude.{◌≡◌, ◌<◌, ◌^◌, ◌++◌, length, vec_len, IfOk, OnOk};
ghost use Rattle.std.specs.Option.{option_copied, option_to_list};
ghost use Rattle.mdns_history.specs.Claims.{claim_marks, marks_in_turn};

use crate::claim::claim_mark;
use crate::holding::{HeldName, held_by_others, holdings_after, holdings_of};
use mdns_history::Mark;
use plain_groups::{LiveGroup, groups};
use plain_history::{HeardMessage, HistoryEntry};
use std::alloc::{AllocError, Global};

/// The marks that a heard message gives to groups in turn, each beside the names that the ones before it left. Refused only for want
/// of memory.
#[tactic(auto, using(crate::proofs::InTurn::put_next))]
pub fn marks_in_turn(
    alloc: Global,
    heard: &HeardMessage,
    history: &[HistoryEntry],
    groups: &[LiveGroup],
    mut holdings: Vec<HeldName>,
) -> Result<Vec<Mark>, AllocError>
    requires short { length history.now < 2 ^ 30 }
    requires few { vec_len holdings < 2 ^ 30 }
    ensures { IfOk result (λ marks. marks.items ≡ marks_in_turn heard.now history.now groups.now holdings.items) }
{
    let mut marks = Vec::new(alloc);
    for group in groups {
        let others = held_by_others(alloc, group.id, &holdings)?;
        let mark = claim_mark(alloc, heard, history, group, &others)?;
        holdings = holdings_after(alloc, group, &mark, holdings)?;
        put_mark(&mut marks, mark)?;
    }
    Ok(marks)
}

// Puts a mark behind others, if there is one.
fn put_mark(marks: &mut Vec<Mark>, mark: Option<Mark>) -> Result<(), AllocError>
    ensures { OnOk result (marks.new.items ≡ marks.old.items ++ option_to_list mark) }
{
    if let Some(mark) = mark {
        marks.push(mark)?;
    }
    Ok(())
}

/// The marks that a heard message, if there is one, gives to the groups of a history, by rising number. Refused only for want of
/// memory.
#[tactic(auto, unfolding(mdns_history::specs::Claims::claim_marks))]
pub fn claim_marks(
    alloc: Global,
    heard: Option<&HeardMessage>,
    history: &[HistoryEntry],
) -> Result<Vec<Mark>, AllocError>
    requires { length history.now < 2 ^ 30 }
    ensures { IfOk result (λ marks. marks.items ≡ claim_marks (option_copied heard.entry) history.now) }
{
    let Some(heard) = heard else {
        return Ok(Vec::new(alloc));
    };
    let live = groups(alloc, history)?;
    let holdings = holdings_of(alloc, &live, history)?;
    marks_in_turn(alloc, heard, history, &live, holdings)
}
