// What a tick sends. (RFC 6762 5 to 8)
ghost use Rattle.std.specs.Prelude.{◌≡◌, ◌≤◌, ◌<◌, ◌^◌, ◌++◌, length, true, IfOk};
ghost use Rattle.mdns_history.specs.InForce.{only_if};
ghost use Rattle.mdns_history.specs.Asking.{tick_askings};
ghost use Rattle.mdns_history.specs.Sending.{sent_probes, sent_queries, sent_unicasts, tick_sends};
ghost use Rattle.plain_history.specs.Last.{are_by};
ghost use Rattle.plain_sending.specs.Ticked.{multicasts_in, of_last, past_is_by, sends_in};

use crate::duties::DaemonDuties;
use crate::multicasts::multicasts_in;
use crate::probes::sent_probes;
use crate::queries::sent_queries;
use crate::replies::sent_unicasts;
use crate::sent::sent_only_if;
use mdns_base::Moment;
use mdns_history::Sent;
use plain_asking::tick_askings;
use plain_history::HistoryEntry;
use std::alloc::{AllocError, Global};

// The probes of a moment, where the daemon claims names.
fn probes_in(
    alloc: Global,
    duties: &DaemonDuties,
    past: &[HistoryEntry],
    moment: Moment,
) -> Result<Vec<Sent>, AllocError>
    requires { length past.now < 2 ^ 30 }
    ensures { IfOk result (λ sent. sent.items ≡ only_if duties.now.claiming (sent_probes past.now moment)) }
{
    let sent = sent_probes(alloc, past, moment)?;
    Ok(sent_only_if(alloc, duties.claiming, sent))
}

// The queries of a moment, where the daemon asks.
fn queries_in(
    alloc: Global,
    duties: &DaemonDuties,
    past: &[HistoryEntry],
    moment: Moment,
) -> Result<Vec<Sent>, AllocError>
    requires { are_by moment past.now ≡ true }
    ensures { IfOk result (λ sent. sent.items ≡ only_if duties.now.asking (sent_queries (tick_askings past.now moment) past.now moment)) }
{
    let askings = tick_askings(alloc, past, moment)?;
    let sent = sent_queries(alloc, &askings, past, moment)?;
    Ok(sent_only_if(alloc, duties.asking, sent))
}

// The responses to all of a moment, and the replies to askers, where the daemon replies.
fn responses_in(
    alloc: Global,
    duties: &DaemonDuties,
    history: &[HistoryEntry],
    past: &[HistoryEntry],
    moment: Moment,
) -> Result<Vec<Sent>, AllocError>
    requires history { length history.now < 2 ^ 30 }
    requires past { length past.now < 2 ^ 30 }
    ensures { IfOk result (λ sent. sent.items ≡ multicasts_in duties.now history.now past.now moment ++ only_if duties.now.replying (sent_unicasts past.now moment)) }
{
    let mut multicasts = multicasts_in(alloc, duties, history, past, moment)?;
    let replies = sent_unicasts(alloc, past, moment)?;
    let mut unicasts = sent_only_if(alloc, duties.replying, replies);
    multicasts.append(&mut unicasts)?;
    Ok(multicasts)
}

// All that is sent at a moment: the history has the tick, the past ends before it.
fn sends_in(
    alloc: Global,
    duties: &DaemonDuties,
    history: &[HistoryEntry],
    past: &[HistoryEntry],
    moment: Moment,
) -> Result<Vec<Sent>, AllocError>
    requires history { length history.now < 2 ^ 30 }
    requires past { length past.now < 2 ^ 30 }
    requires by { are_by moment past.now ≡ true }
    ensures { IfOk result (λ sent. sent.items ≡ sends_in duties.now history.now past.now moment) }
{
    let mut sent = probes_in(alloc, duties, past, moment)?;
    let mut queries = queries_in(alloc, duties, past, moment)?;
    let mut responses = responses_in(alloc, duties, history, past, moment)?;
    queries.append(&mut responses)?;
    sent.append(&mut queries)?;
    Ok(sent)
}

/// What a tick sends, which is the last entry of the history: probes, then queries, then responses to all, then replies to askers.
/// No entry before the tick may be later than it. Refused only for want of memory.
#[tactic(auto, using(crate::proofs::Sends::sends_none, crate::proofs::Sends::sends_last, crate::proofs::Sends::past_by))]
pub fn tick_sends(
    alloc: Global,
    duties: &DaemonDuties,
    history: &[HistoryEntry],
) -> Result<Vec<Sent>, AllocError>
    requires short { length history.now < 2 ^ 30 }
    requires by { past_is_by history.now ≡ true }
    ensures { IfOk result (λ sent. sent.items ≡ of_last (tick_sends duties.now) history.now) }
{
    let Some((tick, past)) = history.split_first() else {
        return Ok(Vec::new(alloc));
    };
    sends_in(alloc, duties, history, past, tick.moment())
}
