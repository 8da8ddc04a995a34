// The queries that an event sends. (RFC 6762 5.2, 7.1 and 7.2)
ghost use Rattle.std.specs.Prelude.{◌≡◌, ◌++◌, map, IfOk, OnOk};
ghost use Rattle.mdns_history.specs.Sending.{to_all};
ghost use Rattle.mdns_happened.specs.Told.{told_by};
ghost use Rattle.mdns_asking.specs.Walked.{AreHeard};
ghost use Rattle.mdns_asking.specs.ByWalks.{known_by, queries_by, sent_by};

use crate::walked::later_of;
use dns_record::Key;
use mdns_base::{Dest, Moment};
use mdns_happened::{Happened, Walk, When};
use mdns_history::{Cause, Sends, Sent};
use mdns_known::put_known_listings;
use mdns_pack::{Listing, Messages, listings_in_order, pack_listings};
use std::alloc::{AllocError, Global};

/// The queries: once time has passed those of the questions that are asked, with the known answers of all of them. Refused only for
/// want of memory.
pub fn queries(
    alloc: Global,
    when: When,
    happened: &Happened<'_>,
    walks: &[Walk],
    asked: &[(Key, Cause)],
) -> Result<Messages, AllocError>
    requires { AreHeard when.moment walks.now }
    ensures { IfOk result (λ messages. map to_all messages ≡ sent_by (told_by happened.now).ticks walks.now when.moment asked.now) }
{
    match happened {
        Happened::Ticked => {
            let keys = keys_in(alloc, asked)?;
            queries_for(alloc, when, walks, &keys)
        }
        _ => Ok(Messages::new(alloc)),
    }
}

// The questions without their causes.
fn keys_in(alloc: Global, asked: &[(Key, Cause)]) -> Result<Vec<Key>, AllocError>
    ensures { IfOk result (λ keys. keys.items ≡ map (λ due. due.0) asked.now) }
{
    let mut keys = Vec::new(alloc);
    for one in asked {
        keys.push(one.0.copy())?;
    }
    Ok(keys)
}

// The queries of questions, with the known answers of all of them.
fn queries_for(
    alloc: Global,
    when: When,
    walks: &[Walk],
    keys: &[Key],
) -> Result<Messages, AllocError>
    requires { AreHeard when.moment walks.now }
    ensures { IfOk result (λ messages. map to_all messages ≡ queries_by walks.now when.moment keys.now) }
{
    let known = all_known(alloc, when.at(), walks, keys)?;
    pack_listings(alloc, keys, &known)
}

// The known answers of questions, each once and in record order: those of each question are over the later records of its name.
fn all_known<'a>(
    alloc: Global,
    now: Moment,
    walks: &'a [Walk],
    keys: &[Key],
) -> Result<Vec<Listing<'a>>, AllocError>
    requires { AreHeard now walks.now }
    ensures { IfOk result (λ known. known.items ≡ known_by keys.now walks.now now) }
{
    let mut all = Vec::new(alloc);
    for key in keys {
        let held = later_of(&key.name, walks);
        put_known_listings(alloc, &mut all, key, held, now)?;
    }
    listings_in_order(all)
}

/// Puts messages behind others that are sent, each to all. Refused only for want of memory.
pub fn send_to_all(sent: &mut Sends, messages: Messages) -> Result<(), AllocError>
    ensures { OnOk result (sent.new ≡ sent.old ++ map to_all messages) }
{
    for message in messages.into_vec() {
        sent.push(Sent {
            to: Dest::All,
            message,
        })?;
    }
    Ok(())
}
