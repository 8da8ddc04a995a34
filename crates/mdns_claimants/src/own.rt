// The own records of a name. (RFC 6762 6)
ghost use Rattle.std.specs.Prelude.{OnOk, [], ◌∷◌, ◌++◌, ◌≡◌};
ghost use Rattle.mdns_asked.specs.Asked.{IsPut};
ghost use Rattle.mdns_claimants.specs.Bits.{bit_of};
ghost use Rattle.mdns_claimants.specs.Owned.{claimed, claimed_of, of_name, own_in};

use crate::claimant::Claimant;
use crate::owners::bit_of;
use dns_message::Rrs;
use dns_name::Name;
use dns_record::Rr;
use mdns_asked::Asked;
use mdns_probe::Claim;
use std::alloc::AllocError;

/// Puts the own records of a name behind others: those of the groups that are sure. Refused only for want of memory.
pub fn put_own(rrs: &mut Rrs, groups: &[Claimant], name: &Name) -> Result<(), AllocError>
    ensures { OnOk result (rrs.new ≡ rrs.old ++ of_name name.now (own_in groups.now)) }
{
    let bit = bit_of(name);
    for one in groups {
        put_of_group(rrs, one, name, bit)?;
    }
    Ok(())
}

// Puts the records of a group that have a name, whose bit is given, behind others, if the group is sure.
fn put_of_group(rrs: &mut Rrs, one: &Claimant, name: &Name, bit: u64) -> Result<(), AllocError>
    requires { bit ≡ bit_of name.now }
    ensures { OnOk result (rrs.new ≡ rrs.old ++ claimed_of name.now one.now.claim.sure one.now.claim) }
{
    if one.may_have(bit) {
        put_claimed(rrs, one.claim(), one.claim().sure, name)?;
    }
    Ok(())
}

/// Puts the records of a claim that have a name behind others, if it is sure. Refused only for want of memory.
pub fn put_claimed(rrs: &mut Rrs, claim: &Claim, sure: bool, name: &Name) -> Result<(), AllocError>
    ensures { OnOk result (rrs.new ≡ rrs.old ++ claimed_of name.now sure claim.now) }
{
    if sure {
        put_of_name(rrs, claim.unique.as_slice(), name)?;
        put_of_name(rrs, claim.shared.as_slice(), name)?;
    }
    Ok(())
}

fn put_of_name(rrs: &mut Rrs, some: &[Rr], name: &Name) -> Result<(), AllocError>
    ensures { OnOk result (rrs.new ≡ rrs.old ++ of_name name.now some.now) }
{
    for rr in some {
        if rr.owner.folded_eq(name) {
            put_copy(rrs, rr)?;
        }
    }
    Ok(())
}

// Puts a copy of a record behind others. It stands apart from the loop over all records, which takes no room for a copy that it seldom makes.
fn put_copy(rrs: &mut Rrs, rr: &Rr) -> Result<(), AllocError>
    ensures { OnOk result (rrs.new ≡ rrs.old ++ rr.now ∷ []) }
{
    rrs.push(rr.copy()?)
}

/// Puts the own records that questions ask for behind those that they have: of the groups that are sure. Refused only for want of memory.
pub fn put_asked(asked: &mut Asked, groups: &[Claimant]) -> Result<(), AllocError>
    ensures { OnOk result (IsPut (own_in groups.now) asked.old asked.new) }
{
    for one in groups {
        let claim = one.claim();
        put_claim(asked, claim, claim.sure)?;
    }
    Ok(())
}

/// Puts the records of a claim that questions ask for behind those that they have, if it is sure. Refused only for want of memory.
pub fn put_claim(asked: &mut Asked, claim: &Claim, sure: bool) -> Result<(), AllocError>
    ensures { OnOk result (IsPut (claimed sure claim.now) asked.old asked.new) }
{
    if sure {
        asked.put_all(claim.unique.as_slice())?;
        asked.put_all(claim.shared.as_slice())?;
    }
    Ok(())
}
