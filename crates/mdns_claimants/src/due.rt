// Groups with the moments that are kept of them: what is done to both.
ghost use Rattle.std.specs.Prelude.{length, map, ◌<◌, ◌^◌, ◌≡◌, ◌≤◌};
ghost use Rattle.std.specs.List.{flat_map};
ghost use Rattle.lists.specs.Lists.{least};
ghost use Rattle.mdns_claimants.specs.Due.{IsChangedAt, moment_of, next_in, ticked_at};
ghost use Rattle.mdns_claimants.specs.Named.{AreNamed, IsNamedAt, with_renewal, with_renewals};

use crate::claimant::Claimant;
use crate::moment::{LAST_MOMENT, first_due, moment_of};
use crate::renewal::Renewal;
use mdns_base::Moment;
use mdns_timer::Deadlines;

/// The first moment, in ms, from which on something is due of a group by itself; `None` exactly where there is none. No group is
/// looked at, but in a daemon that doesn't announce what it claims, and where the first moment is the last one that is kept.
pub fn next_due(groups: &[Claimant], deadlines: &Deadlines, announces: bool) -> Option<u64>
    requires { deadlines.now.moments ≡ map moment_of groups.now }
    ensures { result ≡ least (flat_map (next_in announces) groups.now) }
{
    if !announces {
        return first_due(groups, announces);
    }
    let least = deadlines.least()?;
    if least < LAST_MOMENT {
        return Some(least);
    }
    if least > LAST_MOMENT {
        return None;
    }
    first_due(groups, announces)
}

/// Notes a tick, with announcements where there are any, at each group of which something is due. Of the others a tick makes
/// nothing else.
pub fn tick_due(groups: &mut [Claimant], deadlines: &mut Deadlines, now: Moment, announces: bool)
    requires timed { deadlines.old.moments ≡ map moment_of groups.old }
    ensures groups { groups.new ≡ map (ticked_at now announces) groups.old }
    ensures timed { deadlines.new.moments ≡ map moment_of groups.new }
    ensures spare { deadlines.new.spare ≡ deadlines.old.spare }
{
    let mut from = 0;
    while let Some(place) = deadlines.next_due(from, now.ms()) {
        tick_at(groups, place, now, announces);
        let next = moment_of(&groups[place]);
        deadlines.set(place, next);
        from = place + 1;
    }
}

fn tick_at(groups: &mut [Claimant], place: usize, now: Moment, announces: bool)
    requires place { place < length groups.old }
    ensures { IsChangedAt (ticked_at now announces) place groups.old groups.new }
{
    groups[place].tick(now, announces);
}

/// Gives groups other numbers and records, each in its place.
pub fn renew_all(
    groups: &mut [Claimant],
    deadlines: &mut Deadlines,
    mut renewals: Vec<Option<Renewal>>,
)
    requires named { AreNamed renewals.items groups.old }
    requires timed { deadlines.old.moments ≡ map moment_of groups.old }
    ensures groups { groups.new ≡ with_renewals renewals.items groups.old }
    ensures timed { deadlines.new.moments ≡ map moment_of groups.new }
    ensures spare { deadlines.new.spare ≡ deadlines.old.spare }
{
    while let Some(renewal) = renewals.pop() {
        let place = renewals.len();
        renew_at(groups, place, renewal);
        deadlines.set(place, moment_of(&groups[place]));
    }
}

fn renew_at(groups: &mut [Claimant], place: usize, renewal: Option<Renewal>)
    requires place { place < length groups.old }
    requires named { IsNamedAt renewal place groups.old }
    ensures { IsChangedAt (with_renewal renewal) place groups.old groups.new }
{
    groups[place].renew(renewal);
}
