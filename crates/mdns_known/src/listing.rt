// Which held records are listed, and how.
ghost use Rattle.std.specs.Prelude.{◌≡◌, ◌+◌, ◌-◌, ◌/◌, ◌≤◌, ◌^◌, ◌&&◌, [], ◌∷◌, ◌++◌, OnOk, Some, None, true, false, length, IsTrue, IfOk, if◌then◌else◌};
ghost use Rattle.std.specs.Option.{option_to_list};
ghost use Rattle.dns_record.specs.Records.{matches, data_of};
ghost use Rattle.dns_message.specs.Packing.{query_with};
ghost use Rattle.mdns_history.specs.Lifetimes.{is_live_at, is_uncut};
ghost use Rattle.mdns_history.specs.Asking.{is_half_fresh, listed, fits_alone};
ghost use Rattle.mdns_known.specs.Known.{is_listed};

use dns_message::{LONGEST_MESSAGE, Message, Questions, Rrs, WriteError, write};
use dns_record::{Key, Rdata, Rr, matches};
use mdns_base::Moment;
use mdns_history::Held;
use mdns_pack::Listing;
use std::alloc::{AllocError, Global};

/// Puts a held record as it is listed behind others, where it is a known answer of a question. Refused only for want of memory.
pub fn put_listing(
    alloc: Global,
    known: &mut Vec<Rr>,
    question: &Key,
    one: &Held,
    now: Moment,
) -> Result<(), AllocError>
    requires heard { one.now.heard ≤ now }
    ensures { OnOk result (known.new.items ≡ known.old.items ++ option_to_list (if is_listed question.now now one.now then Some (listed now one.now) else None)) }
{
    if is_fresh(question, one, now) {
        put_if_it_fits(alloc, known, listed(one, now)?)
    } else {
        Ok(())
    }
}

/// The same, where the record isn't copied but borrowed.
pub fn put_borrowed<'a>(
    alloc: Global,
    known: &mut Vec<Listing<'a>>,
    question: &Key,
    one: &'a Held,
    now: Moment,
) -> Result<(), AllocError>
    requires heard { one.now.heard ≤ now }
    ensures { OnOk result (known.new.items ≡ known.old.items ++ option_to_list (if is_listed question.now now one.now then Some (listed now one.now) else None)) }
{
    if !is_fresh(question, one, now) {
        return Ok(());
    }
    if fits_listed(alloc, one, now)? {
        known.push(Listing::new(&one.rr, false, seconds_left(one, now)))?;
    }
    Ok(())
}

// Whether an uncut record as it is listed fits a message alone. Only a long one is copied and written to tell.
fn fits_listed(alloc: Global, one: &Held, now: Moment) -> Result<bool, AllocError>
    requires heard { one.now.heard ≤ now }
    requires uncut { IsTrue (is_uncut one.now) }
    ensures { IfOk result (λ fits. fits ≡ fits_alone (listed now one.now)) }
{
    if is_short(&one.rr) {
        return Ok(true);
    }
    let fitting = if_written_fits(alloc, listed(one, now)?)?;
    Ok(fitting.is_some())
}

// Whether a held record matches a question, is live and uncut, and has at least half of its TTL left.
fn is_fresh(question: &Key, one: &Held, now: Moment) -> bool
    ensures { result ≡ (matches question.now one.now.rr && is_live_at now one.now && is_uncut one.now && is_half_fresh now one.now) }
{
    matches(question, &one.rr) && one.is_live(now) && one.is_uncut() && one.is_half_fresh(now)
}

// An uncut record as it is listed: without the flush bit, with the seconds that are left, rounded up.
fn listed(one: &Held, now: Moment) -> Result<Rr, AllocError>
    requires heard { one.now.heard ≤ now }
    requires uncut { IsTrue (is_uncut one.now) }
    ensures { IfOk result (λ rr. rr ≡ listed now one.now) }
{
    Ok(Rr {
        owner: one.rr.owner.copy(),
        flush: false,
        ttl: seconds_left(one, now),
        rdata: one.rr.rdata.copy()?,
    })
}

// The seconds of an uncut record's TTL that are left, rounded up.
fn seconds_left(one: &Held, now: Moment) -> u32
    requires heard { one.now.heard ≤ now }
    requires uncut { IsTrue (is_uncut one.now) }
    ensures { result ≡ (one.now.end - now + 999) / 1000 }
{
    let _ttl = one.rr.ttl;
    let left = one.rr.ttl_ms().saturating_sub(now.ms() - one.heard.ms());
    ((left + 999) / 1000) as u32
}

// Puts a record behind others, where it fits a message alone. Only of a long one a message is written to tell.
fn put_if_it_fits(alloc: Global, known: &mut Vec<Rr>, rr: Rr) -> Result<(), AllocError>
    ensures { OnOk result (known.new.items ≡ known.old.items ++ option_to_list (if fits_alone rr then Some rr else None)) }
{
    if is_short(&rr) {
        known.push(rr)?;
    } else if let Some(fitting) = if_written_fits(alloc, rr)? {
        known.push(fitting)?;
    }
    Ok(())
}

// Whether a record is so short that it fits a message alone even where none of its names is compressed.
fn is_short(rr: &Rr) -> bool
    ensures { IsTrue result → fits_alone rr.now ≡ true }
{
    // A header has 12 bytes, and 10 stand between the owner and the data.
    plain_len(&rr.rdata) <= LONGEST_MESSAGE - 22 - rr.owner.wire_len()
}

// How many bytes data have in which no name is compressed.
fn plain_len(rdata: &Rdata) -> usize
    ensures { result ≡ length (data_of rdata.now) }
{
    match rdata {
        Rdata::A(_) => 4,
        Rdata::Aaaa(_) => 16,
        Rdata::Ptr(name) | Rdata::Cname(name) => name.wire_len(),
        Rdata::Srv { target, .. } => 6 + target.wire_len(),
        Rdata::Nsec { next, bitmap } => next.wire_len() + bitmap.as_slice().len(),
        Rdata::Txt(bytes) | Rdata::Raw { bytes, .. } => bytes.as_slice().len(),
    }
}

// A record, where a message of it alone isn't too long, and nothing where it is.
fn if_written_fits(alloc: Global, rr: Rr) -> Result<Option<Rr>, AllocError>
    ensures { IfOk result (λ fitting. fitting ≡ (if fits_alone rr then Some rr else None)) }
{
    let message = query_with(alloc, rr)?;
    match write(alloc, &message, LONGEST_MESSAGE) {
        Ok(_) => Ok(message.answers.into_vec().pop()),
        Err(WriteError::TooLong) => Ok(None),
        Err(WriteError::NoMemory) => Err(AllocError),
    }
}

// A query without questions that lists one record.
fn query_with(alloc: Global, rr: Rr) -> Result<Message, AllocError>
    ensures { IfOk result (λ message. message ≡ query_with [] (rr ∷ []) false) }
{
    let mut answers = Rrs::new(alloc);
    answers.push(rr)?;
    Ok(Message {
        id: 0,
        response: false,
        authoritative: false,
        truncated: false,
        opcode: 0,
        rcode: 0,
        questions: Questions::new(alloc),
        answers,
        authority: Rrs::new(alloc),
        additional: Rrs::new(alloc),
    })
}
