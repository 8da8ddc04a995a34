// The answers of registrations. (RFC 6763 4)
ghost use Rattle.std.specs.Prelude.{◌&&◌, ◌==◌, ◌≡◌};
ghost use Rattle.std.specs.Option.{option_copied, option_to_list};
ghost use Rattle.mdns_claimants.specs.Owned.{registered_answers};
ghost use Rattle.mdns_history.specs.Answers.{named_if};
ghost use Rattle.mdns_probe.specs.Answering.{registered_by};
ghost use Rattle.mdns_probe.specs.Kept.{name_of};

use crate::claimant::Claimant;
use sd_call::Answer;

/// What a registration knows of its group: its name once that is sure, and a conflict where there is no group any more.
pub fn registered_answer(groups: &[Claimant], session: u64, op: u32) -> Option<Answer>
    ensures { option_to_list result ≡ registered_answers session op groups.now }
{
    match group_of(groups, session, op) {
        Some(one) => named_if(one),
        None => Some(Answer::Conflict),
    }
}

/// The group of an operation, where it is live.
pub fn group_of(groups: &[Claimant], session: u64, op: u32) -> Option<&Claimant>
    ensures { option_copied result ≡ registered_by session op groups.now }
{
    groups.iter().find(|one| is_of(one, session, op))
}

/// Whether a group is that of an operation.
pub fn is_of(one: &Claimant, session: u64, op: u32) -> bool
    ensures { result ≡ ((one.now.group.session == session) && (one.now.group.op == op)) }
{
    one.naming().session() == session && one.naming().op() == op
}

/// The name of a group, if it is sure.
pub fn named_if(one: &Claimant) -> Option<Answer>
    ensures { option_to_list result ≡ named_if one.now.claim.sure (name_of one.now) }
{
    if one.claim().sure {
        let full = one.name().copy();
        Some(Answer::Named { full })
    } else {
        None
    }
}
