// The names that records have, put together.
ghost use Rattle.std.specs.Prelude.{List, OnOk, [], false, true, ℕ, ◌≡◌};
ghost use Rattle.dns_name.specs.Names.{folded_eq};
ghost use Rattle.mdns_claimants.specs.Owned.{AreWithin, claimed_of, is_among, of_name};

use dns_name::Name;
use dns_record::Rr;
use mdns_probe::Claim;
use std::alloc::AllocError;

/// Puts the names of a claim's records behind others, if it is sure: under a name that is then not among them it has no record.
/// Refused only for want of memory.
pub fn put_claim_names(names: &mut Vec<Name>, claim: &Claim, sure: bool) -> Result<(), AllocError>
    ensures kept { OnOk result (AreWithin names.old.items names.new.items) }
    ensures named { OnOk result ((name : List (List ℕ)) → is_among names.new.items name ≡ false → claimed_of name sure claim.now ≡ []) }
{
    if sure {
        put_owners(names, claim.unique.as_slice())?;
        put_owners(names, claim.shared.as_slice())?;
    }
    Ok(())
}

// Puts the owners of records.
fn put_owners(names: &mut Vec<Name>, rrs: &[Rr]) -> Result<(), AllocError>
    ensures kept { OnOk result (AreWithin names.old.items names.new.items) }
    ensures named { OnOk result ((name : List (List ℕ)) → is_among names.new.items name ≡ false → of_name name rrs.now ≡ []) }
{
    for rr in rrs {
        put_once(names, &rr.owner)?;
    }
    Ok(())
}

/// Puts a name that isn't among others, case aside. Refused only for want of memory.
pub fn put_once(names: &mut Vec<Name>, name: &Name) -> Result<(), AllocError>
    ensures kept { OnOk result (AreWithin names.old.items names.new.items) }
    ensures put { OnOk result (is_among names.new.items name.now ≡ true) }
    ensures only { OnOk result ((other : List (List ℕ)) → is_among names.new.items other ≡ true → is_among names.old.items other ≡ false → folded_eq other name.now ≡ true) }
{
    if !is_among(names, name) {
        names.push(name.copy())?;
    }
    Ok(())
}

// Whether a name is one of several, case aside.
fn is_among(names: &[Name], name: &Name) -> bool
    ensures { result ≡ is_among names.now name.now }
{
    names.iter().any(|one| name.folded_eq(one))
}
