// Which records are the daemon's to send: own ones, and the NSEC records of sure names. (RFC 6762 6 and 6.1)
ghost use Rattle.std.specs.Prelude.{IsTrue, OnOk, filter, ◌&&◌, ◌++◌, ◌≡◌};
ghost use Rattle.std.specs.List.{list_any};
ghost use Rattle.dns_name.specs.Names.{folded_eq};
ghost use Rattle.dns_record.specs.Records.{same};
ghost use Rattle.mdns_asked.specs.Asked.{IsPut};
ghost use Rattle.mdns_claimants.specs.Bits.{bit_of};
ghost use Rattle.mdns_claimants.specs.Owned.{is_ours, nsec_for, nsec_if_sure, nsecs_in, own_in};
ghost use Rattle.mdns_claimants.specs.Typed.{HaveBitmaps};
ghost use Rattle.mdns_probe.specs.Kept.{name_of};
ghost use Rattle.sd_service.specs.Bitmaps.{have_bitmap};

use crate::claimant::Claimant;
use crate::owners::bit_of;
use dns_message::Rrs;
use dns_name::Name;
use dns_record::{Rr, kinds};
use mdns_asked::Asked;
use mdns_probe::Claim;
use sd_service::{is_nsec_of, nsec_of};
use std::alloc::{AllocError, Global};

/// Puts the NSEC records of a name behind others: those of the groups that have it and are sure. Refused only for want of memory.
pub fn put_nsecs(
    alloc: Global,
    rrs: &mut Rrs,
    groups: &[Claimant],
    name: &Name,
) -> Result<(), AllocError>
    requires mapped { HaveBitmaps groups.now }
    ensures { OnOk result (rrs.new ≡ rrs.old ++ filter (λ rr. folded_eq rr.owner name.now) (nsecs_in groups.now)) }
{
    for one in groups {
        if is_sure_of(one, name) {
            rrs.push(nsec_of(alloc, one.name(), one.claim().unique.as_slice())?)?;
        }
    }
    Ok(())
}

/// Puts the NSEC records that questions ask for behind those that they have: of the groups that are sure. Refused only for want of
/// memory.
pub fn put_asked_nsecs(
    alloc: Global,
    asked: &mut Asked,
    groups: &[Claimant],
) -> Result<(), AllocError>
    requires mapped { HaveBitmaps groups.now }
    ensures { OnOk result (IsPut (nsecs_in groups.now) asked.old asked.new) }
{
    for one in groups {
        put_asked_nsec(alloc, asked, one)?;
    }
    Ok(())
}

// The same of one group.
fn put_asked_nsec(alloc: Global, asked: &mut Asked, one: &Claimant) -> Result<(), AllocError>
    requires mapped { IsTrue (have_bitmap one.now.claim.unique) }
    ensures { OnOk result (IsPut (nsec_if_sure one.now) asked.old asked.new) }
{
    if one.claim().sure {
        let nsec = nsec_of(alloc, one.name(), one.claim().unique.as_slice())?;
        asked.put_all(&[nsec])?;
    }
    Ok(())
}

// Whether a group is sure and has a name, case aside.
fn is_sure_of(one: &Claimant, name: &Name) -> bool
    ensures { result ≡ (one.now.claim.sure && folded_eq (name_of one.now) name.now) }
{
    one.claim().sure && one.name().folded_eq(name)
}

/// Whether a record is the daemon's to send: an own record, or the NSEC record of a group that is sure.
pub fn is_ours(groups: &[Claimant], rr: &Rr) -> bool
    requires mapped { HaveBitmaps groups.now }
    ensures { result ≡ is_ours groups.now rr.now }
{
    if rr.rdata.kind() == kinds::NSEC {
        is_sure_nsec(groups, rr)
    } else {
        is_own(groups, rr)
    }
}

// Whether a record is the NSEC record of one of the groups that are sure.
fn is_sure_nsec(groups: &[Claimant], rr: &Rr) -> bool
    requires mapped { HaveBitmaps groups.now }
    ensures { result ≡ list_any (same rr.now) (nsecs_in groups.now) }
{
    for one in groups {
        if is_nsec_for(one, rr) {
            return true;
        }
    }
    false
}

// Whether a record is the NSEC record of a group, and that is sure.
fn is_nsec_for(one: &Claimant, rr: &Rr) -> bool
    requires mapped { IsTrue (have_bitmap one.now.claim.unique) }
    ensures { result ≡ (one.now.claim.sure && same rr.now (nsec_for one.now)) }
{
    one.claim().sure && is_nsec_of(rr, one.name(), one.claim().unique.as_slice())
}

/// Whether a record is own: one of the groups that are sure has it. Groups with no record of its name are passed over.
pub fn is_own(groups: &[Claimant], rr: &Rr) -> bool
    ensures { result ≡ list_any (same rr.now) (own_in groups.now) }
{
    let bit = bit_of(&rr.owner);
    for one in groups {
        if has_record(one, rr, bit) {
            return true;
        }
    }
    false
}

/// Whether a group is sure and has a record, whose owner's bit is given.
pub fn has_record(one: &Claimant, rr: &Rr, bit: u64) -> bool
    requires { bit ≡ bit_of rr.now.owner }
    ensures { result ≡ (one.now.claim.sure && list_any (same rr.now) (one.now.claim.unique ++ one.now.claim.shared)) }
{
    one.may_have(bit) && has_claimed(one.claim(), one.claim().sure, rr)
}

/// Whether a claim is sure and has a record.
pub fn has_claimed(claim: &Claim, sure: bool, rr: &Rr) -> bool
    ensures { result ≡ (sure && list_any (same rr.now) (claim.now.unique ++ claim.now.shared)) }
{
    sure && (is_among(claim.unique.as_slice(), rr) || is_among(claim.shared.as_slice(), rr))
}

/// Whether a record is the same as one of several.
pub fn is_among(rrs: &[Rr], rr: &Rr) -> bool
    ensures { result ≡ list_any (same rr.now) rrs.now }
{
    rrs.iter().any(|other| rr.same(other))
}
