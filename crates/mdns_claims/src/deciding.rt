// What is done to the groups by an event.
ghost use Rattle.std.specs.Prelude.{IfOk, map, ℕ, ◌≡◌};
ghost use Rattle.std.specs.Option.{option_map_or};
ghost use Rattle.mdns_claimants.specs.Named.{with_renewals};
ghost use Rattle.mdns_renewals.specs.Wishes.{IsAcceptable};
ghost use Rattle.mdns_claims.specs.Planned.{IsDone, IsFor, counted_by, ends_some, going_on, is_update, kept_by, means_of};
ghost use Rattle.mdns_renewals.specs.Occasions.{renewal_told};
ghost use Rattle.mdns_renewals.specs.Seen.{occasion_in};
ghost use Rattle.mdns_happened.specs.Told.{told_by};
ghost use Rattle.mdns_probe.specs.Claiming.{begun};
ghost use Rattle.mdns_probe.specs.Kept.{disturbed_for};

use crate::beginning::Beginning;
use crate::plan::Deed;
use mdns_claimants::Claimant;
use mdns_happened::Happened;
use mdns_renewals::{Seen, begun};
use sd_call::Request;
use std::alloc::{AllocError, Global};

/// What is done to the groups by an event. Refused only for want of memory.
pub fn deed(
    alloc: Global,
    seen: &Seen<'_>,
    registered: u64,
    groups: &[Claimant],
) -> Result<Deed, AllocError>
    requires call { IsAcceptable registered (told_by seen.now.happened.now).call }
    requires marks { seen.now.marks.now ≡ disturbed_for (told_by seen.now.happened.now).heard groups.now }
    ensures done { IfOk result (λ deed. IsDone (occasion_in seen.now) registered groups.now deed) }
    ensures fits { IfOk result (λ deed. IsFor registered groups.now deed) }
{
    if is_tick(seen.happened) {
        return Ok(Deed::Ticks);
    }
    if is_update(seen.happened) {
        let update = changes(alloc, seen, groups)?;
        return Ok(update);
    }
    if seen.marks.is_empty() {
        if ends_some(seen.happened) {
            return Ok(Deed::Ends);
        }
        let begun = begun(alloc, seen, registered, groups)?;
        let begins = beginning(alloc, begun)?;
        return Ok(begins);
    }
    let disturbed = changes(alloc, seen, groups)?;
    Ok(disturbed)
}

// What becomes of the groups that an event touches, as it is done. Refused only for want of memory.
fn changes(alloc: Global, seen: &Seen<'_>, groups: &[Claimant]) -> Result<Deed, AllocError>
    ensures kept { IfOk result (λ deed. kept_by (means_of (occasion_in seen.now)) groups.now deed
        ≡ going_on (told_by seen.now.happened.now) seen.now.marks.now (with_renewals (map (renewal_told (occasion_in seen.now)) groups.now) groups.now)) }
    ensures counted { IfOk result (λ deed. (registered : ℕ) → counted_by registered deed ≡ registered) }
    ensures fits { IfOk result (λ deed. (registered : ℕ) → IsFor registered groups.now deed) }
{
    let renewals = seen.renewals(alloc, groups)?;
    Ok(Deed::Changes(renewals))
}

// A group that begins, if one does. Refused only for want of memory.
fn beginning(alloc: Global, begun: Option<Claimant>) -> Result<Deed, AllocError>
    ensures { IfOk result (λ deed. deed ≡ option_map_or Deed.Begins begun Deed.Nothing) }
{
    match begun {
        Some(one) => {
            let one = Beginning::new(alloc, one)?;
            Ok(Deed::Begins(one))
        }
        None => Ok(Deed::Nothing),
    }
}

fn is_tick(happened: &Happened<'_>) -> bool
    ensures { result ≡ (told_by happened.now).ticks }
{
    matches!(happened, Happened::Ticked)
}

fn is_update(happened: &Happened<'_>) -> bool
    ensures { result ≡ is_update (told_by happened.now).call }
{
    match happened {
        Happened::Called {
            request: Request::Update { .. },
            code: 0,
            ..
        } => true,
        _ => false,
    }
}

// Whether operations end.
fn ends_some(happened: &Happened<'_>) -> bool
    ensures { result ≡ ends_some (told_by happened.now) }
{
    match happened {
        Happened::Detached { .. } => true,
        Happened::Called {
            request: Request::Stop,
            code: 0,
            ..
        } => true,
        _ => false,
    }
}
