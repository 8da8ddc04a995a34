// Replies without additional records.
ghost use Rattle.std.specs.Prelude.{◌≡◌, [], ◌∷◌, ◌++◌, IfOk, OnOk, if◌then◌else◌};
ghost use Rattle.dns_message.specs.Packing.{fits, bare_reply, pack_plain};
ghost use Rattle.dns_message.specs.Drafting.{with_answer};

use crate::Messages;
use crate::messages::PACKET_LENGTH;
use dns_message::Draft;
use dns_record::Rr;
use std::alloc::{AllocError, Global};
use std::mem;

/// The replies with these answers, in their order, and without additional records, as goodbyes and unicast replies are. Each
/// has as many of them as fit 1440 bytes, and at least one, even where it is longer alone. No answers give no replies.
/// Refused only for want of memory. (RFC 6762 6, 10.1 and 17)
#[tactic(auto, unfolding(dns_message::specs::Packing::pack_plain))]
pub fn pack_plain(alloc: Global, answers: &[Rr]) -> Result<Messages, AllocError>
    ensures { IfOk result (λ messages. messages ≡ pack_plain answers.now) }
{
    let mut messages = Messages::new(alloc);
    let Some((first, more)) = answers.split_first() else {
        return Ok(messages);
    };
    let mut draft = Draft::reply(alloc)?;
    draft.answer_always(first)?;
    for rr in more {
        put_plain(alloc, &mut messages, &mut draft, rr)?;
    }
    messages.push(draft.into_message())?;
    Ok(messages)
}

// Puts an answer into a reply, or into the next one, where the reply would no longer fit.
fn put_plain<'a>(
    alloc: Global,
    messages: &mut Messages,
    draft: &mut Draft<'a>,
    rr: &'a Rr,
) -> Result<(), AllocError>
    requires { draft.old ≡ bare_reply draft.old.answers }
    ensures messages { OnOk result (messages.new ≡ (if fits (with_answer draft.old rr.now) then messages.old else messages.old ++ draft.old ∷ [])) }
    ensures message { OnOk result (draft.new ≡ (if fits (with_answer draft.old rr.now) then with_answer draft.old rr.now else bare_reply (rr.now ∷ []))) }
{
    if !draft.answer(rr, PACKET_LENGTH)? {
        let mut next = Draft::reply(alloc)?;
        next.answer_always(rr)?;
        messages.push(mem::replace(draft, next).into_message())?;
    }
    Ok(())
}
