// What a packet does to the claim of a group. (RFC 6762 8.1, 8.2 and 9)
ghost use Rattle.std.specs.Prelude.{IfOk, ◌≡◌};
ghost use Rattle.dns_record.specs.Conflicts.{clashes};
ghost use Rattle.mdns_contest.specs.Turning.{disturbance, is_clash, is_tie, said};
ghost use Rattle.mdns_probe.specs.Kept.{name_of};

use dns_record::Rr;
use mdns_base::MDNS_PORT;
use mdns_claimants::Claimant;
use mdns_conflict::{conflicts, loses_tie};
use mdns_happened::Heard;
use std::alloc::{AllocError, Global};

/// What a packet does to the claim of a group.
#[derive(Clone, Copy, Drop)]
pub enum Disturbance {
    /// The group was sure, and has to claim its name again.
    Contested,
    /// It has to give up its name.
    GivenUp,
    /// It lost a tie.
    Tied,
}

/// What a message does to the claim of a group, if anything. Refused only for want of memory.
pub fn disturbs(
    alloc: Global,
    heard: &Heard<'_>,
    one: &Claimant,
) -> Result<Option<Disturbance>, AllocError>
    ensures { IfOk result (λ found. found ≡ disturbance (said heard.now) one.now) }
{
    let claim = one.claim();
    if claim.sure {
        return Ok(if clashes(heard, one) {
            Some(Disturbance::Contested)
        } else {
            None
        });
    }
    if claim.probes == 0 {
        return Ok(None);
    }
    if clashes(heard, one) {
        return Ok(Some(Disturbance::GivenUp));
    }
    let tied = is_tied(alloc, heard, one)?;
    Ok(if tied { Some(Disturbance::Tied) } else { None })
}

// Whether one of a response's records clashes with the claim of a group.
#[tactic(auto, using(crate::proofs::Clashing::both, crate::proofs::Clashing::none))]
fn clashes(heard: &Heard<'_>, one: &Claimant) -> bool
    ensures { result ≡ is_clash (said heard.now) one.now }
{
    let message = &heard.message;
    message.response
        && (clashes_with(one, message.answers.as_slice())
            || clashes_with(one, message.additional.as_slice()))
}

// Whether one of several records clashes with the claim of a group.
fn clashes_with(one: &Claimant, rrs: &[Rr]) -> bool
    ensures { result ≡ clashes (name_of one.now) one.now.claim.unique rrs.now }
{
    conflicts(one.claim().unique.as_slice(), rrs)
}

// Whether a group loses a tie to a query. Refused only for want of memory.
fn is_tied(alloc: Global, heard: &Heard<'_>, one: &Claimant) -> Result<bool, AllocError>
    ensures { IfOk result (λ tied. tied ≡ is_tie (said heard.now) one.now) }
{
    let message = &heard.message;
    if message.response || heard.from.port != MDNS_PORT {
        return Ok(false);
    }
    let unique = one.claim().unique.as_slice();
    loses_tie(alloc, one.name(), unique, message.authority.as_slice())
}
