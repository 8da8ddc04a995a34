// What a deed makes of a group, read before it is done.
ghost use Rattle.std.specs.Prelude.{None, slice_index_or, ◌||◌, ◌≡◌};
ghost use Rattle.std.specs.Option.{option_copied, option_map, option_to_list};
ghost use Rattle.mdns_renewals.specs.Occasions.{ends_by};
ghost use Rattle.mdns_claimants.specs.Owned.{registered_answers};
ghost use Rattle.mdns_claims.specs.Later.{begun_by, later_of, shown_by, shown_of, takes_none, touches};
ghost use Rattle.mdns_claimants.specs.Named.{with_renewal};
ghost use Rattle.mdns_claims.specs.Seen.{means_in};
ghost use Rattle.mdns_happened.specs.Told.{told_by};
ghost use Rattle.mdns_history.specs.Answers.{named_if};
ghost use Rattle.mdns_history.specs.Groups.{numbered_name};
ghost use Rattle.mdns_probe.specs.Claiming.{is_settle_due};

use crate::doing::Means;
use crate::plan::Deed;
use mdns_base::Moment;
use mdns_claimants::answers::{is_of, named_if};
use mdns_claimants::{Claimant, Renewal};
use mdns_probe::{Claim, Naming};
use mdns_renewals::ends;
use sd_call::Answer;

/// A group behind a deed: what it is called, the number of its name, whether it is sure, and the claim that has its records.
#[derive(Drop)]
pub struct Later<'a> {
    pub naming: &'a Naming,
    pub number: u32,
    pub sure: bool,
    pub claim: &'a Claim,
}

impl Later<'_> {
    /// Its name, if that is sure.
    pub fn answer(&self) -> Option<Answer>
        ensures { option_to_list result ≡ named_if self.now.sure (numbered_name self.now.naming.now self.now.number) }
    {
        if self.sure {
            let full = self.naming.name_under(self.number);
            Some(Answer::Named { full })
        } else {
            None
        }
    }
}

impl Means<'_> {
    /// What a deed makes of the group in a place, if that goes on.
    pub fn later<'a>(&self, deed: &'a Deed, place: usize, one: &'a Claimant) -> Option<Later<'a>>
        ensures { option_map shown_by result ≡ option_map shown_of (later_of (means_in self.now) deed.now place one.now) }
    {
        match deed {
            Deed::Ends | Deed::Changes(_) if self.ends(one) => None,
            Deed::Changes(renewals) => Some(renewed(one, renewal_at(renewals, place))),
            Deed::Ticks => Some(settled(one, self.moment)),
            Deed::Nothing | Deed::Begins(_) | Deed::Ends => Some(as_is(one)),
        }
    }

    /// Whether a deed changes the records, the name or the sureness of the group in a place, or ends it.
    pub fn touches(&self, deed: &Deed, place: usize, one: &Claimant) -> bool
        ensures { result ≡ touches (means_in self.now) deed.now place one.now }
    {
        match deed {
            Deed::Nothing | Deed::Begins(_) => false,
            Deed::Ticks => one.claim().is_settle_due(self.moment),
            Deed::Ends => self.ends(one),
            Deed::Changes(renewals) => self.ends(one) || renewal_at(renewals, place).is_some(),
        }
    }

    fn ends(&self, one: &Claimant) -> bool
        ensures { result ≡ ends_by (told_by self.now.happened.now) self.now.marks.now one.now.group }
    {
        ends(self.happened, self.marks, one.naming())
    }
}

/// Whether a deed surely takes no record from those that are the daemon's to send. A tick only makes groups sure.
pub fn takes_none(deed: &Deed) -> bool
    ensures { result ≡ takes_none deed.now }
{
    matches!(deed, Deed::Nothing | Deed::Ticks | Deed::Begins(_))
}

/// The group that a deed begins.
pub fn begun(deed: &Deed) -> Option<&Claimant>
    ensures { option_copied result ≡ begun_by deed.now }
{
    match deed {
        Deed::Begins(one) => Some(one.claimant()),
        _ => None,
    }
}

/// The answer of a registration among the group that a deed begins.
pub fn begun_answer(deed: &Deed, session: u64, op: u32) -> Option<Answer>
    ensures { option_to_list result ≡ registered_answers session op (option_to_list (begun_by deed.now)) }
{
    match begun(deed) {
        Some(one) if is_of(one, session, op) => named_if(one),
        _ => Some(Answer::Conflict),
    }
}

// A group as it is.
fn as_is(one: &Claimant) -> Later<'_>
    ensures { shown_by result ≡ shown_of one.now }
{
    let claim = one.claim();
    Later {
        naming: one.naming(),
        number: one.number(),
        sure: claim.sure,
        claim,
    }
}

// A group, sure if that is due.
fn settled(one: &Claimant, now: Moment) -> Later<'_>
    ensures { shown_by result ≡ record (shown_of one.now) { sure = one.now.claim.sure || is_settle_due now one.now.claim } }
{
    let claim = one.claim();
    Later {
        naming: one.naming(),
        number: one.number(),
        sure: claim.sure || claim.is_settle_due(now),
        claim,
    }
}

// A group with another number and other records, if there are any.
fn renewed<'a>(one: &'a Claimant, renewal: Option<&'a Renewal>) -> Later<'a>
    ensures { shown_by result ≡ shown_of (with_renewal (option_copied renewal.entry) one.now) }
{
    match renewal {
        Some(renewal) => Later {
            naming: one.naming(),
            number: renewal.number,
            sure: renewal.claim.sure,
            claim: &renewal.claim,
        },
        None => as_is(one),
    }
}

fn renewal_at(renewals: &[Option<Renewal>], place: usize) -> Option<&Renewal>
    ensures { option_copied result ≡ slice_index_or renewals.now place None }
{
    match renewals.get(place) {
        Some(Some(renewal)) => Some(renewal),
        _ => None,
    }
}
