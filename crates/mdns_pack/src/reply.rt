// Replies with additional records.
ghost use Rattle.std.specs.Prelude.{◌≡◌, ◌<◌, ◌≤◌, List, [], ◌∷◌, ◌++◌, map, length, take, drop, not, IfOk, OnOk};
ghost use Rattle.std.specs.List.{list_any, flat_map};
ghost use Rattle.lists.specs.Lists.{ordered, without};
ghost use Rattle.dns_record.specs.Records.{record_cmp, same};
ghost use Rattle.dns_message.specs.declared.message.Message.{Message};
ghost use Rattle.dns_message.specs.Packing.{fits, parts_of, bare_reply, reply_with, fitting_additional, answers_in, wanted_in, pack_reply};

use crate::messages::PACKET_LENGTH;
use crate::order::{Ordered, in_order};
use crate::{Messages, Wanting};
use dns_message::{Draft, Message, Rrs};
use dns_record::{Rr, put_copies};
use std::alloc::{AllocError, Global};

/// The replies with the answers of this list, in its order, each with the additional records that it wants. A reply has as
/// many answers as fit 1440 bytes, and at least one, even where it is longer alone. Behind them it has, in record order, what
/// its answers want, where it still fits: what doesn't is left out, and the next is tried. No additional record is an answer
/// of any of these replies, nor an additional record of an earlier one. No answers give no replies. Refused only for want of
/// memory. (RFC 6762 6 and 17, RFC 6763 12)
///
/// What is proved of the replies speaks of two lists, the answers and what each wants, which are those of this list.
#[tactic(auto, unfolding(dns_message::specs::Packing::pack_reply))]
pub fn pack_reply(alloc: Global, wantings: &[Wanting]) -> Result<Messages, AllocError>
    ensures { IfOk result (λ messages. messages ≡ pack_reply (map (λ wanting. wanting.0) wantings.now) (map (λ wanting. wanting.1) wantings.now)) }
{
    let answers = answers_of(alloc, wantings)?;
    let mut messages = Messages::new(alloc);
    let mut rest = wantings;
    while !rest.is_empty() {
        let mut draft = Draft::reply(alloc)?;
        let len = put_answers(&mut draft, rest)?;
        let (part, others) = rest.split_at(len);
        put_reply(alloc, &mut messages, draft, part, &answers)?;
        rest = others;
    }
    Ok(messages)
}

// The answers in record order, so that one of them is soon found.
fn answers_of(alloc: Global, wantings: &[Wanting]) -> Result<Ordered, AllocError>
    ensures { IfOk result (λ answers. answers ≡ ordered record_cmp (answers_in wantings.now)) }
{
    let mut answers = Vec::with_capacity(alloc, wantings.len())?;
    for one in wantings {
        answers.push(one.answer().copy()?)?;
    }
    Ordered::of(answers)
}

// Puts as many answers as make a part, and tells how many.
fn put_answers<'a>(draft: &mut Draft<'a>, wantings: &'a [Wanting]) -> Result<usize, AllocError>
    requires some { 0 < length wantings.now }
    requires none { draft.old ≡ bare_reply [] }
    ensures part { IfOk result (λ len. draft.new ≡ bare_reply (answers_in (take len wantings.now))) }
    ensures some { IfOk result (λ len. 0 < len) }
    ensures within { IfOk result (λ len. len ≤ length wantings.now) }
    ensures parts { IfOk result (λ len. parts_of (λ part. fits (bare_reply (answers_in part))) wantings.now
        ≡ take len wantings.now ∷ parts_of (λ part. fits (bare_reply (answers_in part))) (drop len wantings.now)) }
{
    draft.answer_always(wantings[0].answer())?;
    for len in 1..wantings.len() {
        if !draft.answer(wantings[len].answer(), PACKET_LENGTH)? {
            return Ok(len);
        }
    }
    Ok(wantings.len())
}

// Puts the reply of a part, whose answers are drafted, behind earlier ones, where all have these answers.
fn put_reply<'a>(
    alloc: Global,
    messages: &mut Messages,
    draft: Draft<'a>,
    part: &'a [Wanting],
    answers: &Ordered,
) -> Result<(), AllocError>
    requires { draft ≡ bare_reply (answers_in part.now) }
    ensures { OnOk result (messages.new ≡ messages.old ++ reply_with (answers_in part.now) (fitting_additional (answers_in part.now) []
        (without same (wanted_in part.now) (answers.now ++ flat_map (λ message. message.additional) messages.old))) ∷ []) }
{
    let wanted = wanted_anew(alloc, part, answers, messages.as_slice())?;
    let message = with_additional(draft, part.len(), &wanted)?;
    messages.push(message)?;
    Ok(())
}

// The records that the answers of a part want, in record order, without all answers and what earlier replies have.
fn wanted_anew(
    alloc: Global,
    part: &[Wanting],
    answers: &Ordered,
    earlier: &[Message],
) -> Result<Vec<Rr>, AllocError>
    ensures { IfOk result (λ wanted. wanted.items ≡ without same (wanted_in part.now) (answers.now ++ flat_map (λ message. message.additional) earlier.now)) }
{
    let mut wanted = wanted_by(alloc, part)?.into_vec();
    wanted.retain(|rr| is_new(answers, earlier, rr));
    Ok(wanted)
}

// Whether a record is no answer and not added before.
fn is_new(answers: &Ordered, earlier: &[Message], rr: &Rr) -> bool
    ensures { result ≡ not (list_any (same rr.now) (answers.now ++ flat_map (λ message. message.additional) earlier.now)) }
{
    !answers.has(rr) && !is_added(earlier, rr)
}

// The records that the answers of a part want, in record order.
fn wanted_by(alloc: Global, part: &[Wanting]) -> Result<Rrs, AllocError>
    ensures { IfOk result (λ wanted. wanted ≡ wanted_in part.now) }
{
    let mut wanted = Vec::new(alloc);
    for one in part {
        put_copies(&mut wanted, one.wanted())?;
    }
    in_order(wanted)
}

// Whether a record is an additional one of a message.
fn is_added(messages: &[Message], rr: &Rr) -> bool
    ensures { result ≡ list_any (λ message. list_any (same rr.now) message.additional) messages.now }
{
    messages
        .iter()
        .any(|message| is_among(message.additional.as_slice(), rr))
}

// Whether a record is one of these.
fn is_among(records: &[Rr], rr: &Rr) -> bool
    ensures { result ≡ list_any (same rr.now) records.now }
{
    records.iter().any(|one| rr.same(one))
}

// The reply with these drafted answers, which are so many, and with those of the wanted records that fit beside them. A
// message is as long whichever section a record stands in, so they are drafted behind the answers.
fn with_additional<'a>(
    mut draft: Draft<'a>,
    answers: usize,
    wanted: &'a [Rr],
) -> Result<Message, AllocError>
    requires bare { draft ≡ bare_reply draft.answers }
    requires answers { length draft.answers ≡ answers }
    ensures { IfOk result (λ message. message ≡ reply_with draft.entry.answers (fitting_additional draft.entry.answers [] wanted.now)) }
{
    for rr in wanted {
        draft.answer(rr, PACKET_LENGTH)?;
    }
    let mut message = draft.into_message();
    let mut records = message.answers.into_vec();
    let additional = records.split_off(answers)?;
    message.additional = Rrs::from_vec(additional);
    message.answers = Rrs::from_vec(records);
    Ok(message)
}
