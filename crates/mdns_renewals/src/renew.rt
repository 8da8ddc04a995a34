// What becomes of the groups that an event touches. (RFC 6762 8 and 9)
ghost use Rattle.std.specs.Prelude.{IfOk, is_some, map, true, ◌||◌, ◌≡◌, ◌≤◌};
ghost use Rattle.std.specs.List.{list_all, list_any};
ghost use Rattle.std.specs.Option.{option_copied};
ghost use Rattle.mdns_renewals.specs.Occasions.{claim_told, ends_by, is_touched, number_after, renaming_in, renewed, txt_behind, txt_given, txt_in, wait_told};
ghost use Rattle.mdns_claimants.specs.Named.{AreNamed, IsNamed, with_renewal};
ghost use Rattle.mdns_renewals.specs.Occasions.{renewal_told};
ghost use Rattle.mdns_renewals.specs.Seen.{occasion_in};
ghost use Rattle.mdns_claimants.specs.Typed.{have_data, is_mapped, is_typed, records_of};
ghost use Rattle.mdns_happened.specs.Told.{told_by};
ghost use Rattle.mdns_history.specs.Groups.{is_failure_of};
ghost use Rattle.mdns_history.specs.Probing.{is_lost_tie_of};
ghost use Rattle.mdns_history.specs.Sessions.{is_number, stops};
ghost use Rattle.mdns_history.specs.Sureness.{is_setback_of};
ghost use Rattle.sd_service.specs.Bitmaps.{have_bitmap};

use bytes::Bytes;
use dns_message::Rrs;
use dns_name::Name;
use dns_record::{Rdata, Rr};
use mdns_claimants::{Claimant, Renewal, look_at};
use mdns_happened::{Happened, When};
use mdns_history::{Config, Mark};
use mdns_probe::{Claim, Naming, Published};
use sd_call::Request;
use std::alloc::{AllocError, Global};

/// An event as groups see it: when it comes, what happened, the marks that it gives to claims, the daemon's configuration, the
/// host's name behind the event, whether conflicts were ever stormy by then, and whether the daemon announces what it claims.
#[derive(Drop)]
pub struct Seen<'a> {
    pub when: When,
    pub happened: &'a Happened<'a>,
    pub marks: &'a [Mark],
    pub config: &'a Config,
    pub host: Name,
    pub stormy: bool,
    pub announces: bool,
}

impl Seen<'_> {
    /// What becomes of each group that the event touches and doesn't end, in its place. Refused only for want of memory.
    pub fn renewals(
        &self,
        alloc: Global,
        groups: &[Claimant],
    ) -> Result<Vec<Option<Renewal>>, AllocError>
        ensures value { IfOk result (λ renewals. renewals.items ≡ map (renewal_told (occasion_in self.now)) groups.now) }
        ensures named { IfOk result (λ renewals. AreNamed renewals.items groups.now) }
        ensures typed { IfOk result (λ renewals. list_all is_typed renewals.items ≡ true) }
        ensures mapped { IfOk result (λ renewals. list_all is_mapped renewals.items ≡ true) }
    {
        let mut renewals = Vec::new(alloc);
        for one in groups {
            renewals.push(self.renewal(alloc, one)?)?;
        }
        Ok(renewals)
    }

    #[tactic(auto, using(crate::proofs::Renewed::ended_none, crate::proofs::Renewed::still_none, crate::proofs::Renewed::touched_some))]
    fn renewal(&self, alloc: Global, one: &Claimant) -> Result<Option<Renewal>, AllocError>
        ensures value { IfOk result (λ renewal. renewal ≡ renewal_told (occasion_in self.now) one.now) }
        ensures named { IfOk result (λ renewal. IsNamed (with_renewal renewal one.now)) }
        ensures typed { IfOk result (λ renewal. is_typed renewal ≡ true) }
        ensures mapped { IfOk result (λ renewal. is_mapped renewal ≡ true) }
    {
        if ends(self.happened, self.marks, one.naming()) {
            return Ok(None);
        }
        if self.touches(one) {
            let renewal = self.renewed(alloc, one)?;
            return Ok(Some(renewal));
        }
        Ok(None)
    }

    // Whether the event sets a group back or updates it, or renames the host of a service.
    fn touches(&self, one: &Claimant) -> bool
        ensures { result ≡ is_touched (occasion_in self.now) one.now }
    {
        let naming = one.naming();
        is_set_back(self.marks, naming.id())
            || is_updated(self.happened, naming)
            || (!naming.is_host() && renaming_in(0, self.marks).is_some())
    }

    // A group that is touched: its number, and its claim with the records of its name. Refused only for want of memory.
    #[tactic(auto, using(crate::proofs::Named::is_named))]
    fn renewed(&self, alloc: Global, one: &Claimant) -> Result<Renewal, AllocError>
        ensures value { IfOk result (λ renewal. (renewal.number ≡ (renewed (occasion_in self.now) one.now).number) × (renewal.claim ≡ (renewed (occasion_in self.now) one.now).claim)) }
        ensures named { IfOk result (λ renewal. IsNamed (record { group = one.now.group; number = renewal.number; claim = renewal.claim })) }
        ensures typed { IfOk result (λ renewal. have_data (records_of renewal.claim) ≡ true) }
        ensures mapped { IfOk result (λ renewal. have_bitmap renewal.claim.unique ≡ true) }
    {
        let naming = one.naming();
        let number = number_after(naming.id(), self.marks, one.number());
        let name = naming.name_under(number);
        let published = Published {
            config: self.config,
            host: &self.host,
            txt: &self.txt_behind(alloc, one)?,
        };
        let unique = naming.unique_records(alloc, &name, &published)?;
        let shared = naming.shared_records(alloc, &name)?;
        look_at(unique.as_slice());
        look_at(shared.as_slice());
        let claim = self.claim_with(one, unique, shared);
        Ok(Renewal { number, claim })
    }

    // The claim of a group that is touched with other records: it begins anew where the event sets it back.
    fn claim_with(&self, one: &Claimant, unique: Rrs, shared: Rrs) -> Claim
        ensures value { result ≡ claim_told (occasion_in self.now) one.now.group.id unique shared one.now.claim }
        ensures unique { result.unique ≡ unique }
        ensures shared { result.shared ≡ shared }
    {
        let id = one.naming().id();
        if is_set_back(self.marks, id) {
            Claim::begun(self.when.at(), self.wait(id), id, unique, shared)
        } else {
            one.claim().replaced(self.when.at(), unique, shared)
        }
    }

    /// How long the first probe of a group waits, in ms. (RFC 6762 8.1 and 8.2)
    pub fn wait(&self, id: u64) -> u64
        ensures value { result ≡ wait_told (occasion_in self.now) id }
        ensures short { result ≤ 5000 }
    {
        if self.stormy {
            5000
        } else if lost_tie(self.marks, id) {
            1000
        } else {
            u64::from(self.when.word % 251)
        }
    }

    // The TXT data of a group behind the event. Refused only for want of memory.
    fn txt_behind(&self, alloc: Global, one: &Claimant) -> Result<Bytes, AllocError>
        ensures { IfOk result (λ txt. txt ≡ txt_behind (occasion_in self.now) one.now) }
    {
        match txt_given(self.happened, one.naming()) {
            Some(txt) => txt.clone(),
            None => txt_in(alloc, one.claim().unique.as_slice()),
        }
    }
}

/// Whether an event ends a group: with its operation, or with its mark Failed.
pub fn ends(happened: &Happened<'_>, marks: &[Mark], naming: &Naming) -> bool
    ensures { result ≡ ends_by (told_by happened.now) marks.now naming.now }
{
    ends_operation(happened, naming) || has_failed(marks, naming.id())
}

fn has_failed(marks: &[Mark], id: u64) -> bool
    ensures { result ≡ list_any (is_failure_of id) marks.now }
{
    marks.iter().any(|mark| matches!(mark, Mark::Failed { group } if *group == id))
}

fn ends_operation(happened: &Happened<'_>, naming: &Naming) -> bool
    ensures { result ≡ (is_number naming.now.session (told_by happened.now).detached || stops naming.now.session naming.now.op (told_by happened.now).call) }
{
    match happened {
        Happened::Detached { session } => *session == naming.session(),
        Happened::Called {
            session,
            op,
            request: Request::Stop,
            code: 0,
        } => *session == naming.session() && *op == naming.op(),
        _ => false,
    }
}

fn is_set_back(marks: &[Mark], id: u64) -> bool
    ensures { result ≡ list_any (is_setback_of id) marks.now }
{
    marks.iter().any(|mark| match mark {
        Mark::Renamed { group, .. } | Mark::Contested { group } | Mark::TieLost { group } => {
            *group == id
        }
        _ => false,
    })
}

fn lost_tie(marks: &[Mark], id: u64) -> bool
    ensures { result ≡ list_any (is_lost_tie_of id) marks.now }
{
    marks.iter().any(|mark| matches!(mark, Mark::TieLost { group } if *group == id))
}

/// The first number that marks give to a group.
pub fn renaming_in(id: u64, marks: &[Mark]) -> Option<u32>
    ensures { result ≡ renaming_in id marks.now }
{
    for mark in marks {
        if let Mark::Renamed { group, number } = mark {
            if *group == id {
                return Some(*number);
            }
        }
    }
    None
}

/// The number of a group behind marks.
pub fn number_after(id: u64, marks: &[Mark], number: u32) -> u32
    ensures { result ≡ number_after id marks.now number }
{
    match renaming_in(id, marks) {
        Some(given) => given,
        None => number,
    }
}

fn is_updated(happened: &Happened<'_>, naming: &Naming) -> bool
    ensures { result ≡ is_some (txt_given (told_by happened.now).call naming.now) }
{
    txt_given(happened, naming).is_some()
}

// The TXT data that an accepted call gives to a group.
fn txt_given<'a>(happened: &'a Happened<'_>, naming: &Naming) -> Option<&'a Bytes>
    ensures { option_copied result ≡ txt_given (told_by happened.now).call naming.now }
{
    match happened {
        Happened::Called {
            session,
            op,
            request: Request::Update { txt },
            code: 0,
        } if *session == naming.session() && *op == naming.op() => Some(txt),
        _ => None,
    }
}

// The TXT data among records. Refused only for want of memory.
fn txt_in(alloc: Global, rrs: &[Rr]) -> Result<Bytes, AllocError>
    ensures { IfOk result (λ txt. txt ≡ txt_in rrs.now) }
{
    for rr in rrs {
        if let Rdata::Txt(txt) = &rr.rdata {
            return txt.clone();
        }
    }
    Ok(Bytes::new())
}
