// The names whose records an event changes.
ghost use Rattle.std.specs.Prelude.{◌≡◌, ◌++◌, map, IfOk, OnOk};
ghost use Rattle.lists.specs.Lists.{ordered};
ghost use Rattle.dns_name.specs.Names.{name_cmp};

use dns_name::Name;
use mdns_history::SharedRr;
use std::alloc::AllocError;

/// These names and the owners of these records in order, of those that are one, case aside, the first alone. Refused only for want of
/// memory.
pub fn with_owners(mut names: Vec<Name>, heard: &[SharedRr]) -> Result<Vec<Name>, AllocError>
    ensures { IfOk result (λ all. all.items ≡ ordered name_cmp (names.items ++ map (λ rr. rr.owner) heard.now)) }
{
    put_owners(&mut names, heard)?;
    in_order(names)
}

fn put_owners(names: &mut Vec<Name>, heard: &[SharedRr]) -> Result<(), AllocError>
    ensures { OnOk result (names.new.items ≡ names.old.items ++ map (λ rr. rr.owner) heard.now) }
{
    names.reserve(heard.len())?;
    for rr in heard {
        names.push(rr.owner.copy())?;
    }
    Ok(())
}

fn in_order(mut names: Vec<Name>) -> Result<Vec<Name>, AllocError>
    ensures { IfOk result (λ sorted. sorted.items ≡ ordered name_cmp names.items) }
{
    names.sort_by(|left, right| left.folded_cmp(right))?;
    names.dedup_by(|later, kept| later.folded_eq(kept));
    Ok(names)
}
