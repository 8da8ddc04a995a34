// The known answers of a question.
ghost use Rattle.std.specs.Prelude.{◌≡◌, ◌++◌, ◌≤◌, ◌^◌, IfOk, OnOk};
ghost use Rattle.std.specs.List.{All};
ghost use Rattle.mdns_known.specs.Known.{known_of, listed_of};

use crate::listing::{put_borrowed, put_listing};
use dns_message::Rrs;
use dns_record::{Key, Rr};
use mdns_base::Moment;
use mdns_history::Held;
use mdns_pack::{Listing, sorted};
use std::alloc::{AllocError, Global};

/// The known answers of a question at `now`, in ms, as a query lists them, in record order: the held records that match
/// and are live, whose end nothing cut, and that have at least half of their TTL left. They are listed without the flush
/// bit, with the seconds that are left, rounded up. A record that passes 8972 bytes alone in a message isn't listed.
/// Nothing held may have been heard after `now`. Refused only for want of memory. (RFC 6762 7.1)
#[tactic(auto, unfolding(crate::specs::Known::known_of))]
pub fn known_answers(
    alloc: Global,
    question: &Key,
    held: &[Held],
    now: Moment,
) -> Result<Rrs, AllocError>
    requires heard { All (λ one. one.heard ≤ now) held.now }
    ensures { IfOk result (λ known. known ≡ known_of question.now held.now now) }
{
    let mut known = Vec::with_capacity(alloc, held.len())?;
    put_known_answers(alloc, &mut known, question, held, now)?;
    sorted(known)
}

/// Puts the known answers of a question at `now`, in ms, behind others: those that `known_answers` has, but in the order in which
/// the records are held. Nothing held may have been heard after `now`. Refused only for want of memory. (RFC 6762 7.1)
pub fn put_known_answers(
    alloc: Global,
    known: &mut Vec<Rr>,
    question: &Key,
    held: &[Held],
    now: Moment,
) -> Result<(), AllocError>
    requires heard { All (λ one. one.heard ≤ now) held.now }
    ensures { OnOk result (known.new.items ≡ known.old.items ++ listed_of question.now held.now now) }
{
    for one in held {
        put_listing(alloc, known, question, one, now)?;
    }
    Ok(())
}

/// The same, where the records aren't copied but borrowed.
pub fn put_known_listings<'a>(
    alloc: Global,
    known: &mut Vec<Listing<'a>>,
    question: &Key,
    held: &'a [Held],
    now: Moment,
) -> Result<(), AllocError>
    requires heard { All (λ one. one.heard ≤ now) held.now }
    ensures { OnOk result (known.new.items ≡ known.old.items ++ listed_of question.now held.now now) }
{
    for one in held {
        put_borrowed(alloc, known, question, one, now)?;
    }
    Ok(())
}
