// What is done to the groups by a plan.
ghost use Rattle.std.specs.Prelude.{filter, map, not, vec_capacity, vec_len, ◌+◌, ◌^◌, ◌≡◌, ◌≤◌};
ghost use Rattle.mdns_renewals.specs.Occasions.{ends_by};
ghost use Rattle.mdns_claimants.specs.Due.{ticked_at};
ghost use Rattle.mdns_claimants.specs.Named.{AreNamed, with_renewals};
ghost use Rattle.mdns_claims.specs.Planned.{FitsGroups, kept_by, room_of};
ghost use Rattle.mdns_claims.specs.Seen.{means_in};
ghost use Rattle.mdns_happened.specs.Told.{told_by};

use crate::plan::Deed;
use mdns_base::Moment;
use mdns_claimants::Claimants;
use mdns_happened::Happened;
use mdns_history::Mark;
use mdns_renewals::ends;

/// What a deed is done with: when, whether there are announcements, what happened, and the marks that it gives to claims.
#[derive(Drop)]
pub struct Means<'a> {
    pub moment: Moment,
    pub announces: bool,
    pub happened: &'a Happened<'a>,
    pub marks: &'a [Mark],
}

impl Means<'_> {
    /// Does a deed. It takes no memory.
    pub fn carry_out(&self, groups: &mut Claimants, deed: Deed)
        requires room { room_of deed ≤ groups.old.spare }
        requires fits { FitsGroups groups.old.kept deed }
        ensures { groups.new.kept ≡ kept_by (means_in self.now) groups.old.kept deed }
    {
        match deed {
            Deed::Nothing => {}
            Deed::Ticks => groups.tick(self.moment, self.announces),
            Deed::Begins(one) => groups.push(one.into_claimant()),
            Deed::Ends => end(groups, self.happened, self.marks),
            Deed::Changes(renewals) => {
                groups.renew(renewals);
                end(groups, self.happened, self.marks);
            }
        }
    }
}

// Takes out the groups that end.
fn end(groups: &mut Claimants, happened: &Happened<'_>, marks: &[Mark])
    ensures { groups.new.kept ≡ filter (λ one. not (ends_by (told_by happened.now) marks.now one.group)) groups.old.kept }
{
    let mut place = groups.as_slice().len();
    while place > 0 {
        place -= 1;
        if ends(happened, marks, groups.as_slice()[place].naming()) {
            groups.remove(place);
        }
    }
}
