// What a packet does to the claim of one group. (RFC 6762 8.1, 8.2 and 9)
ghost use Rattle.std.specs.Prelude.{◌≡◌, ◌<◌, ◌^◌, ◌&&◌, ◌==◌, Some, not, length, true, IfOk};
ghost use Rattle.std.specs.List.{list_all};
ghost use Rattle.dns_name.specs.Names.{folded_eq};
ghost use Rattle.dns_record.specs.Conflicts.{clashes, loses_tie};
ghost use Rattle.mdns_base.specs.Hosts.{mdns_port};
ghost use Rattle.mdns_history.specs.Claims.{claim_mark, giving_up, was_probed};
ghost use Rattle.mdns_history.specs.Groups.{group_name, unique_records};
ghost use Rattle.mdns_history.specs.Hearings.{counted_records};

use dns_name::Name;
use dns_record::Rr;
use mdns_base::MDNS_PORT;
use mdns_conflict::{conflicts, loses_tie};
use mdns_history::Mark;
use plain_groups::{
    LiveGroup, free_number, group_name, is_sure, number_of, probe_moments, unique_records,
};
use plain_history::{HeardMessage, HistoryEntry};
use std::alloc::{AllocError, Global};

/// The greatest number of a name.
const GREATEST_NUMBER: u32 = 999_999;

/// Whether a group was probed since it was set back. Refused only for want of memory.
#[tactic(auto, unfolding(mdns_history::specs::Claims::was_probed))]
pub fn was_probed(
    alloc: Global,
    group: &LiveGroup,
    history: &[HistoryEntry],
) -> Result<bool, AllocError>
    requires { length history.now < 2 ^ 30 }
    ensures { IfOk result (λ probed. probed ≡ was_probed group.now history.now) }
{
    let moments = probe_moments(alloc, group, history)?;
    Ok(!moments.is_empty())
}

/// The mark of a group that has to give up its name, beside groups of these names: it fails where it may not be renamed or no number
/// is left, and else takes the least number that is free.
pub fn giving_up(group: &LiveGroup, history: &[HistoryEntry], others: &[Name]) -> Mark
    requires { length others.now < 2 ^ 30 }
    ensures { result ≡ giving_up group.now history.now others.now }
{
    let number = free_number(number_of(group, history) + 1, others, group);
    if group.norename || number > GREATEST_NUMBER {
        Mark::Failed { group: group.id }
    } else {
        Mark::Renamed {
            group: group.id,
            number,
        }
    }
}

// The unique records of a group, which all have its name.
fn claimed_records(
    alloc: Global,
    group: &LiveGroup,
    history: &[HistoryEntry],
) -> Result<Vec<Rr>, AllocError>
    ensures value { IfOk result (λ records. records.items ≡ unique_records group.now history.now) }
    ensures named { IfOk result (λ records. list_all (λ rr. folded_eq rr.owner (group_name group.now history.now)) records.items ≡ true) }
{
    let records = unique_records(alloc, group, history)?;
    Ok(records)
}

// Whether the records of a message that count clash with unique records, which all have the name.
#[tactic(auto, using(crate::proofs::Named::no_clashes, crate::proofs::Named::clashes_both))]
fn is_clashed(name: &Name, unique: &[Rr], heard: &HeardMessage) -> bool
    requires { list_all (λ own. folded_eq own.owner name.now) unique.now ≡ true }
    ensures { result ≡ clashes name.now unique.now (counted_records (Some heard.now)) }
{
    heard.message.response
        && (conflicts(unique, heard.message.answers.as_slice())
            || conflicts(unique, heard.message.additional.as_slice()))
}

// Whether a message is a query from port 5353 to which the tie is lost.
fn is_tied(
    alloc: Global,
    name: &Name,
    unique: &[Rr],
    heard: &HeardMessage,
) -> Result<bool, AllocError>
    requires { list_all (λ own. folded_eq own.owner name.now) unique.now ≡ true }
    ensures { IfOk result (λ tied. tied ≡ (not heard.now.message.response && (heard.now.from.port == mdns_port) && loses_tie name.now unique.now heard.now.message.authority)) }
{
    if heard.message.response || heard.from.port != MDNS_PORT {
        return Ok(false);
    }
    loses_tie(alloc, name, unique, heard.message.authority.as_slice())
}

/// The mark that a heard message gives to a group, beside groups of these names: a sure group with which it clashes is contested; one
/// that probes gives up its name, or loses a tie. Refused only for want of memory.
pub fn claim_mark(
    alloc: Global,
    heard: &HeardMessage,
    history: &[HistoryEntry],
    group: &LiveGroup,
    others: &[Name],
) -> Result<Option<Mark>, AllocError>
    requires short { length history.now < 2 ^ 30 }
    requires few { length others.now < 2 ^ 30 }
    ensures { IfOk result (λ mark. mark ≡ claim_mark heard.now history.now group.now others.now) }
{
    let id = group.id;
    let name = group_name(group, history);
    let unique = claimed_records(alloc, group, history)?;
    let clashed = is_clashed(&name, &unique, heard);
    if is_sure(alloc, group, history)? {
        return Ok(clashed.then_some(Mark::Contested { group: id }));
    }
    if !was_probed(alloc, group, history)? {
        return Ok(None);
    }
    if clashed {
        return Ok(Some(giving_up(group, history, others)));
    }
    let tied = is_tied(alloc, &name, &unique, heard)?;
    Ok(tied.then_some(Mark::TieLost { group: id }))
}
