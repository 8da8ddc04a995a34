// Which records messages multicast.
ghost use Rattle.std.specs.Prelude.{◌≡◌, ◌++◌, ◌&&◌, IfOk, OnOk};
ghost use Rattle.mdns_base.specs.declared.host.Dest.TheVariants.{All};
ghost use Rattle.mdns_base.specs.Hosts.{dest_eq};
ghost use Rattle.mdns_history.specs.declared.entry.Entry.{Entry};
ghost use Rattle.mdns_history.specs.Debts.{sections, multicasts_in};
ghost use Rattle.mdns_reply.specs.Lasts.{multicasts_of};

use dns_message::{Message, Rrs};
use dns_record::{Rr, put_copies};
use mdns_base::Dest;
use mdns_history::Sent;
use std::alloc::{AllocError, Global};

/// Copies of the records that these messages multicast in responses, in any section. Refused only for want of memory.
/// (RFC 6762 6)
#[tactic(auto, unfolding(mdns_history::specs::Debts::multicasts_in))]
pub fn multicasts(alloc: Global, sent: &[Sent]) -> Result<Rrs, AllocError>
    ensures made { IfOk result (λ made. made ≡ multicasts_of sent.now) }
    ensures entry { IfOk result (λ made. (entry : Entry) → entry.sent ≡ sent.now → multicasts_in entry ≡ made) }
{
    let mut made = Vec::new(alloc);
    for one in sent {
        if is_multicast_response(one) {
            put_sections(&mut made, &one.message)?;
        }
    }
    Ok(Rrs::from_vec(made))
}

// Whether a message is a response to all.
fn is_multicast_response(one: &Sent) -> bool
    ensures { result ≡ (one.now.message.response && dest_eq one.now.to All) }
{
    match one.to {
        Dest::All => one.message.response,
        Dest::One(_) => false,
    }
}

// Puts copies of the records of all sections behind others.
fn put_sections(made: &mut Vec<Rr>, message: &Message) -> Result<(), AllocError>
    ensures { OnOk result (made.new.items ≡ made.old.items ++ sections message.now) }
{
    put_copies(made, message.answers.as_slice())?;
    put_copies(made, message.authority.as_slice())?;
    put_copies(made, message.additional.as_slice())
}
