// Queries. (RFC 6762 5.2 and 7.1)
ghost use Rattle.std.specs.Prelude.{◌≡◌, ◌≤◌, ◌^◌, ◌++◌, true, IfOk, OnOk};
ghost use Rattle.std.specs.List.{filter_map, flat_map};
ghost use Rattle.std.specs.Option.{option_to_list};
ghost use Rattle.mdns_history.specs.Asking.{known_answers};
ghost use Rattle.mdns_history.specs.Sending.{key_in_mark, sent_queries};
ghost use Rattle.plain_history.specs.Last.{are_by};

use crate::sent::each_to_all;
use dns_record::{Key, Rr};
use mdns_base::Moment;
use mdns_history::{Mark, Sent};
use mdns_pack::{in_order, pack_query};
use plain_asking::known_answers;
use plain_history::HistoryEntry;
use std::alloc::{AllocError, Global};

// Puts the question of a mark behind others, if it is one of an asking.
fn put_key(keys: &mut Vec<Key>, mark: &Mark) -> Result<(), AllocError>
    ensures { OnOk result (keys.new.items ≡ keys.old.items ++ option_to_list (key_in_mark mark.now)) }
{
    if let Mark::Asked { question, .. } = mark {
        keys.push(question.copy())?;
    }
    Ok(())
}

// The questions of marks.
fn keys_in(alloc: Global, askings: &[Mark]) -> Result<Vec<Key>, AllocError>
    ensures { IfOk result (λ keys. keys.items ≡ filter_map key_in_mark askings.now) }
{
    let mut keys = Vec::new(alloc);
    for mark in askings {
        put_key(&mut keys, mark)?;
    }
    Ok(keys)
}

// The known answers of questions, one question after the other.
fn known_of(
    alloc: Global,
    keys: &[Key],
    history: &[HistoryEntry],
    moment: Moment,
) -> Result<Vec<Rr>, AllocError>
    requires { are_by moment history.now ≡ true }
    ensures { IfOk result (λ known. known.items ≡ flat_map (λ key. known_answers key history.now moment) keys.now) }
{
    let mut all = Vec::new(alloc);
    for key in keys {
        let mut known = known_answers(alloc, key, history, moment)?.into_vec();
        all.append(&mut known)?;
    }
    Ok(all)
}

/// The queries of the questions that a tick's marks say it asks at a moment. No entry may be later than the moment. Refused
/// only for want of memory.
pub fn sent_queries(
    alloc: Global,
    askings: &[Mark],
    history: &[HistoryEntry],
    moment: Moment,
) -> Result<Vec<Sent>, AllocError>
    requires { are_by moment history.now ≡ true }
    ensures { IfOk result (λ sent. sent.items ≡ sent_queries askings.now history.now moment) }
{
    let keys = keys_in(alloc, askings)?;
    let all = known_of(alloc, &keys, history, moment)?;
    let known = in_order(all)?;
    let messages = pack_query(alloc, &keys, &known)?;
    each_to_all(alloc, messages)
}
