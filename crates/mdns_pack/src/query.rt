// Queries, with the known answers that are listed in them.
ghost use Rattle.std.specs.Prelude.{◌≡◌, ◌<◌, ◌≤◌, List, [], ◌∷◌, ◌++◌, map, length, take, drop, true, IfOk, OnOk, if◌then◌else◌};
ghost use Rattle.dns_message.specs.Packing.{fits, parts_of, query_with, bare_query, question_for, batch_messages, pack_query};
ghost use Rattle.dns_message.specs.Drafting.{with_answer};
ghost use Rattle.mdns_pack.specs.Listing.{IsListed};

use crate::listing::{laid_out, listings_of};
use crate::messages::PACKET_LENGTH;
use crate::{Listing, Messages};
use dns_message::{Draft, Rrs};
use dns_record::{Key, Question};
use std::alloc::{AllocError, Global};
use std::mem;

// About so many records of a few bytes fit a message, so that there is room for them ahead.
const MOST_LISTED: usize = 90;

/// The messages that ask questions, in their order, and list those of the known answers that match one of them. As many
/// questions as fit 1440 bytes, and at least one, make a batch; its known answers follow while the message stays within
/// 1440 bytes. Where one doesn't fit, the message says that more follows (TC), and a message without questions begins with
/// that record, even where it is longer alone. No questions give no messages. Refused only for want of memory.
/// (RFC 6762 7.1, 7.2 and 17)
pub fn pack_query(alloc: Global, questions: &[Key], known: &Rrs) -> Result<Messages, AllocError>
    ensures { IfOk result (λ messages. messages ≡ pack_query questions.now known.now) }
{
    let listings = listings_of(alloc, known.as_slice())?;
    pack_listings(alloc, questions, &listings)
}

/// The same messages, of known answers that are borrowed as they are listed. Refused only for want of memory.
pub fn pack_listings(
    alloc: Global,
    questions: &[Key],
    known: &[Listing<'_>],
) -> Result<Messages, AllocError>
    ensures { IfOk result (λ messages. messages ≡ pack_query questions.now known.now) }
{
    let asked = questions_for(alloc, questions)?;
    pack_batches(alloc, asked.as_slice(), questions, known)
}

// The messages of all batches of questions, which are those for these keys.
#[tactic(auto, unfolding(dns_message::specs::Packing::pack_query))]
fn pack_batches<'a>(
    alloc: Global,
    questions: &'a [Question],
    keys: &[Key],
    known: &'a [Listing<'_>],
) -> Result<Messages, AllocError>
    requires { questions.now ≡ map question_for keys.now }
    ensures { IfOk result (λ messages. messages ≡ pack_query keys.now known.now) }
{
    let mut messages = Messages::new(alloc);
    let (mut rest, mut left) = (keys, questions);
    while !rest.is_empty() {
        let mut draft = Draft::query(alloc)?;
        let len = put_questions(&mut draft, left, rest)?;
        let (batch, others) = rest.split_at(len);
        let (_, later) = left.split_at(len);
        put_batch(alloc, &mut messages, draft, batch, known)?;
        rest = others;
        left = later;
    }
    Ok(messages)
}

// Puts as many questions as make a batch, and tells how many.
fn put_questions<'a>(
    draft: &mut Draft<'a>,
    questions: &'a [Question],
    keys: &[Key],
) -> Result<usize, AllocError>
    requires same { questions.now ≡ map question_for keys.now }
    requires some { 0 < length keys.now }
    requires none { draft.old ≡ bare_query [] [] }
    ensures batch { IfOk result (λ len. draft.new ≡ bare_query (map question_for (take len keys.now)) []) }
    ensures some { IfOk result (λ len. 0 < len) }
    ensures within { IfOk result (λ len. len ≤ length keys.now) }
    ensures parts { IfOk result (λ len. parts_of (λ batch. fits (bare_query (map question_for batch) [])) keys.now
        ≡ take len keys.now ∷ parts_of (λ batch. fits (bare_query (map question_for batch) [])) (drop len keys.now)) }
{
    draft.question_always(&questions[0])?;
    for len in 1..questions.len() {
        if !draft.question(&questions[len], PACKET_LENGTH)? {
            return Ok(len);
        }
    }
    Ok(questions.len())
}

// Puts the messages of a batch, whose questions are drafted, behind others.
fn put_batch<'a>(
    alloc: Global,
    messages: &mut Messages,
    mut draft: Draft<'a>,
    batch: &[Key],
    known: &'a [Listing<'_>],
) -> Result<(), AllocError>
    requires { draft ≡ bare_query (map question_for batch.now) [] }
    ensures { OnOk result (messages.new ≡ messages.old ++ batch_messages known.now batch.now) }
{
    let room = known.len().min(MOST_LISTED);
    draft.reserve(room)?;
    let mut listed = Vec::with_capacity(alloc, room)?;
    for listing in known {
        if listing.matches_any(batch) {
            put_known(alloc, messages, &mut draft, &mut listed, listing)?;
        }
    }
    messages.push(laid_out(draft.into_message(), &listed))?;
    Ok(())
}

// Puts a known answer into a query, which is drafted and lists these, or into the next message, where the query would no
// longer fit.
fn put_known<'a>(
    alloc: Global,
    messages: &mut Messages,
    draft: &mut Draft<'a>,
    listed: &mut Vec<Listing<'a>>,
    listing: &'a Listing<'_>,
) -> Result<(), AllocError>
    requires { IsListed draft.old listed.old.items }
    ensures kept { OnOk result (IsListed draft.new listed.new.items) }
    ensures messages { OnOk result (messages.new ≡ (if fits (with_answer (bare_query draft.old.questions listed.old.items) listing.now) then messages.old
        else messages.old ++ query_with draft.old.questions listed.old.items true ∷ [])) }
    ensures message { OnOk result (bare_query draft.new.questions listed.new.items ≡ (if fits (with_answer (bare_query draft.old.questions listed.old.items) listing.now)
        then with_answer (bare_query draft.old.questions listed.old.items) listing.now else bare_query [] (listing.now ∷ []))) }
{
    if draft.answer(listing.record(), PACKET_LENGTH)? {
        listed.push(listing.again())?;
        return Ok(());
    }
    begin_next(alloc, messages, draft, listed, listing)
}

// Puts the query behind others, with the note that more follows, and begins the next message with a known answer.
fn begin_next<'a>(
    alloc: Global,
    messages: &mut Messages,
    draft: &mut Draft<'a>,
    listed: &mut Vec<Listing<'a>>,
    listing: &'a Listing<'_>,
) -> Result<(), AllocError>
    requires { IsListed draft.old listed.old.items }
    ensures kept { OnOk result (IsListed draft.new listed.new.items) }
    ensures messages { OnOk result (messages.new ≡ messages.old ++ query_with draft.old.questions listed.old.items true ∷ []) }
    ensures message { OnOk result (bare_query draft.new.questions listed.new.items ≡ bare_query [] (listing.now ∷ [])) }
{
    let mut next = Draft::query(alloc)?;
    next.reserve(listed.len())?;
    next.answer_always(listing.record())?;
    let mut message = laid_out(mem::replace(draft, next).into_message(), listed);
    message.truncated = true;
    messages.push(message)?;
    listed.clear();
    listed.push(listing.again())?;
    Ok(())
}

// The questions for keys, which ask for multicast answers.
fn questions_for(alloc: Global, keys: &[Key]) -> Result<Vec<Question>, AllocError>
    ensures { IfOk result (λ questions. questions.items ≡ map question_for keys.now) }
{
    let mut questions = Vec::with_capacity(alloc, keys.len())?;
    for key in keys {
        questions.push(Question {
            name: key.name.copy(),
            kind: key.kind,
            unicast: false,
        })?;
    }
    Ok(questions)
}
