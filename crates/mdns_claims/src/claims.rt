// The claims of a daemon.
ghost use Rattle.std.specs.Prelude.{IfOk, IsTrue, OnOk, [], filter, is_some, nat_le, true, ℕ, ◌++◌, ◌<◌, ◌^◌, ◌∷◌, ◌≡◌, ◌≤◌};
ghost use Rattle.std.specs.List.{flat_map};
ghost use Rattle.std.specs.Option.{option_map, option_to_list};
ghost use Rattle.lists.specs.Lists.{least};
ghost use Rattle.dns_name.specs.Names.{folded_eq};
ghost use Rattle.mdns_asked.specs.Asked.{IsPut};
ghost use Rattle.mdns_claims.specs.Behind.{contents_told, host_kept, host_named, kept_told, occasion_of, probes_told, storm_told};
ghost use Rattle.mdns_claimants.specs.Due.{next_in};
ghost use Rattle.mdns_claims.specs.Later.{groups_behind};
ghost use Rattle.mdns_claimants.specs.Owned.{is_ours, nsecs_in, of_name, own_in, registered_answers};
ghost use Rattle.mdns_renewals.specs.Wishes.{IsAcceptable};
ghost use Rattle.mdns_claims.specs.Planned.{IsFor, IsPlan, counted_by, kept_by, room_of};
ghost use Rattle.mdns_claims.specs.State.{Stands};
ghost use Rattle.mdns_claimants.specs.Typed.{HaveBitmaps, HaveData, have_data, records_of};
ghost use Rattle.mdns_happened.specs.Told.{told_by};
ghost use Rattle.mdns_history.specs.Fitting.{boot_entry};
ghost use Rattle.mdns_history.specs.Probing.{is_conflict};
ghost use Rattle.mdns_history.specs.Outcomes.{most_over_life};
ghost use Rattle.mdns_probe.specs.Answering.{is_held_name, registered_by};
ghost use Rattle.sd_call.specs.Requests.{well_formed};
ghost use Rattle.sd_service.specs.Bitmaps.{have_bitmap};

use crate::behind::Behind;
use crate::copies::{copy_config, copy_label};
use crate::deciding::deed;
use crate::doing::Means;
use crate::plan::{Deed, Plan};
use bytes::Bytes;
use dns_message::Rrs;
use dns_name::Name;
use dns_record::Rr;
use mdns_asked::Asked;
use mdns_base::Moment;
use mdns_claimants::answers::{group_of, registered_answer};
use mdns_claimants::held::is_held_name;
use mdns_claimants::ours::{is_ours, put_asked_nsecs, put_nsecs};
use mdns_claimants::own::{put_asked, put_own};
use mdns_claimants::probes::due_probes;
use mdns_claimants::{Claimant, Claimants};
use mdns_conflict::Storm;
use mdns_contest::claim_marks;
use mdns_happened::{Happened, When};
use mdns_history::{Config, HostConfig, Mark, Sends};
use mdns_probe::{Naming, Published};
use mdns_renewals::{Seen, begun_claimant, number_after};
use sd_call::{Answer, Request};
use sd_service::host_name;
use std::alloc::{AllocError, Global};
use std::marker::Model;

/// The most registrations of a daemon over its life.
const MOST_OVER_LIFE: u64 = 1 << 63;

/// What a daemon claims: the names of its host and of registrations, each with its probes; how many registrations were accepted; and
/// the conflicts of the last time. Moments are in ms. (RFC 6762 8 and 9)
#[derive(Drop)]
pub struct Claims {
    alloc: Global,
    config: Config,
    announces: bool,
    number: u32,
    registered: u64,
    groups: Claimants,
    storm: Storm,
}

impl Model for Claims {
    ghost use Rattle.mdns_claims.specs.State.{State};
    ghost use Rattle.mdns_claimants.specs.Typed.{HaveBitmaps, HaveData};

    ghost Value = { State };

    ghost view = { λ a. record {
      contents = record { config = a.config; announces = a.announces; number = a.number; registered = a.registered; kept = a.groups.kept; storm = a.storm };
      spare = a.groups.spare;
    } };

    ghost invariant = { λ a. HaveData a.groups.kept × HaveBitmaps a.groups.kept };
}

impl Claims {
    /// The claims of a daemon at its first moment: that of its host, if it has one. With `announces` it announces what it
    /// claims. Refused only for want of memory.
    pub fn new(
        alloc: Global,
        config: &Config,
        when: When,
        announces: bool,
    ) -> Result<Claims, AllocError>
        ensures stands { IfOk result (λ claims. Stands claims.contents (boot_entry when.moment when.word config.now ∷ [])) }
        ensures config { IfOk result (λ claims. claims.contents.config ≡ config.now) }
        ensures announces { IfOk result (λ claims. claims.contents.announces ≡ announces) }
        ensures data { IfOk result (λ claims. HaveData claims.contents.kept) }
    {
        Ok(Claims {
            alloc,
            config: copy_config(config),
            announces,
            number: 1,
            registered: 0,
            groups: first_groups(alloc, config, when)?,
            storm: Storm::new(),
        })
    }

    /// The first moment, in ms, from which on something is due of a group; `None` exactly where there is none.
    pub fn next_due(&self) -> Option<u64>
        ensures { result ≡ least (flat_map (next_in self.now.contents.announces) self.now.contents.kept) }
    {
        self.groups.next_due(self.announces)
    }

    /// The answer of a registration: its name once that is sure, and a conflict where its group failed.
    pub fn answer(&self, session: u64, op: u32) -> Option<Answer>
        ensures { option_to_list result ≡ registered_answers session op self.now.contents.kept }
    {
        registered_answer(self.groups.as_slice(), session, op)
    }

    /// Puts the own records of a name behind others. Refused only for want of memory.
    pub fn put_own(&self, rrs: &mut Rrs, name: &Name) -> Result<(), AllocError>
        ensures { OnOk result (rrs.new ≡ rrs.old ++ of_name name.now (own_in self.now.contents.kept)) }
    {
        put_own(rrs, self.groups.as_slice(), name)
    }

    /// Puts the NSEC records of a name behind others: those of the groups that have it and are sure. Refused only for want of
    /// memory. (RFC 6762 6.1)
    pub fn put_nsecs(&self, rrs: &mut Rrs, name: &Name) -> Result<(), AllocError>
        ensures { OnOk result (rrs.new ≡ rrs.old ++ filter (λ rr. folded_eq rr.owner name.now) (nsecs_in self.now.contents.kept)) }
    {
        put_nsecs(self.alloc, rrs, self.groups.as_slice(), name)
    }

    /// Puts the own records that questions ask for behind those that they have, in one pass over all groups. Refused only for want of
    /// memory.
    pub fn put_asked(&self, asked: &mut Asked) -> Result<(), AllocError>
        ensures { OnOk result (IsPut (own_in self.now.contents.kept) asked.old asked.new) }
    {
        put_asked(asked, self.groups.as_slice())
    }

    /// The same of the NSEC records of sure names. Refused only for want of memory. (RFC 6762 6.1)
    pub fn put_asked_nsecs(&self, asked: &mut Asked) -> Result<(), AllocError>
        ensures { OnOk result (IsPut (nsecs_in self.now.contents.kept) asked.old asked.new) }
    {
        put_asked_nsecs(self.alloc, asked, self.groups.as_slice())
    }

    /// Whether a record is the daemon's to send: it is own, or the NSEC record of a sure name. It takes no memory. (RFC 6762 6)
    pub fn is_ours(&self, rr: &Rr) -> bool
        ensures { result ≡ is_ours self.now.contents.kept rr.now }
    {
        is_ours(self.groups.as_slice(), rr)
    }

    /// The probes that are sent by an event: once time has passed those of the groups that are due. Refused only for want of
    /// memory. (RFC 6762 8.1)
    pub fn probes(&self, when: When, happened: &Happened<'_>) -> Result<Sends, AllocError>
        ensures { IfOk result (λ sent. sent ≡ probes_told (told_by happened.now).ticks self.now.contents.kept when.moment) }
    {
        match happened {
            Happened::Ticked => due_probes(self.alloc, &self.groups, when.at()),
            _ => Ok(Sends::new(self.alloc)),
        }
    }

    /// Whether there is a host.
    pub fn hosted(&self) -> bool
        ensures { result ≡ is_some self.now.contents.config.host }
    {
        self.config.host.is_some()
    }

    /// Whether no registration can be accepted any more, since there were so many over the daemon's life.
    pub fn spent(&self) -> bool
        ensures { result ≡ nat_le most_over_life self.now.contents.registered }
    {
        self.registered >= MOST_OVER_LIFE
    }

    /// Whether a registration has a group: it hasn't failed.
    pub fn is_live(&self, session: u64, op: u32) -> bool
        ensures { result ≡ is_some (registered_by session op self.now.contents.kept) }
    {
        group_of(self.groups.as_slice(), session, op).is_some()
    }

    /// Whether a registration is asked for that is to keep its name, and a group has that name. (RFC 6763 D)
    pub fn is_held_name(&self, request: &Request) -> bool
        requires { IsTrue (well_formed request.now) }
        ensures { result ≡ is_held_name request.now self.now.contents.kept }
    {
        is_held_name(self.groups.as_slice(), request)
    }

    /// What an event makes of claims. Nothing is changed. Refused only for want of memory.
    pub fn plan(&self, when: When, happened: &Happened<'_>) -> Result<Plan, AllocError>
        requires { IsAcceptable self.now.contents.registered (told_by happened.now).call }
        ensures plan { IfOk result (λ plan. IsPlan self.now.contents (occasion_of self.now.contents (told_by happened.now) when.moment when.word) plan) }
        ensures fits { IfOk result (λ plan. IsFor self.now.contents.registered self.now.contents.kept plan.deed) }
        ensures data { HaveData self.now.contents.kept }
    {
        let marks = claim_marks(self.alloc, self.groups.as_slice(), happened)?;
        let number = number_after(0, marks.as_slice(), self.number);
        let storm = storm_after(&self.storm, when.at(), marks.as_slice());
        let seen = Seen {
            when,
            happened,
            marks: marks.as_slice(),
            config: &self.config,
            host: host_under(&self.config, number),
            stormy: storm.stormy(),
            announces: self.announces,
        };
        let deed = deed(self.alloc, &seen, self.registered, self.groups.as_slice())?;
        Ok(Plan {
            marks,
            number,
            storm,
            deed,
        })
    }

    /// What a plan of an event leads to, read before it is carried out.
    pub fn behind<'a>(
        &'a self,
        when: When,
        happened: &'a Happened<'a>,
        plan: &'a Plan,
    ) -> Behind<'a>
        ensures before { result.groups.now ≡ self.now.contents.kept }
        ensures moment { result.means.moment ≡ when.moment }
        ensures happened { told_by result.means.happened.now ≡ told_by happened.now }
        ensures deed { result.deed.now ≡ plan.now.deed }
        ensures behind { groups_behind result ≡ kept_by (record { moment = when.moment; announces = self.now.contents.announces; told = told_by happened.now; marks = plan.now.marks }) self.now.contents.kept plan.now.deed }
        ensures data { IsFor self.now.contents.registered self.now.contents.kept plan.now.deed → HaveData (groups_behind result) }
        ensures told { (word : ℕ) → let at = occasion_of self.now.contents (told_by happened.now) when.moment word in IsPlan self.now.contents at plan.now → groups_behind result ≡ kept_told self.now.contents at }
    {
        Behind {
            groups: self.groups.as_slice(),
            due: self.groups.deadlines(),
            means: Means {
                moment: when.at(),
                announces: self.announces,
                happened,
                marks: plan.marks.as_slice(),
            },
            deed: &plan.deed,
        }
    }

    /// Takes the room that a plan needs. Nothing else changes. Refused only for want of memory.
    pub fn reserve(&mut self, plan: &Plan) -> Result<(), AllocError>
        ensures contents { self.new.contents ≡ self.old.contents }
        ensures room { OnOk result (room_of plan.now.deed ≤ self.new.spare) }
    {
        if let Deed::Begins(_) = plan.deed {
            self.groups.reserve(1)?;
        }
        Ok(())
    }

    /// Carries a plan out. It takes no memory.
    pub fn apply(&mut self, when: When, happened: &Happened<'_>, plan: Plan)
        requires room { room_of plan.deed ≤ self.old.spare }
        requires fits { IsFor self.old.contents.registered self.old.contents.kept plan.deed }
        ensures data { HaveData self.new.contents.kept }
        ensures contents { (word : ℕ) → let at = occasion_of self.old.contents (told_by happened.now) when.moment word in IsPlan self.old.contents at plan → self.new.contents ≡ contents_told self.old.contents at }
    {
        let Plan {
            marks,
            number,
            storm,
            deed,
        } = plan;
        let means = Means {
            moment: when.at(),
            announces: self.announces,
            happened,
            marks: marks.as_slice(),
        };
        self.number = number;
        self.storm = storm;
        self.registered = count_after(self.registered, &deed);
        means.carry_out(&mut self.groups, deed);
    }
}

// How many registrations were accepted behind a deed.
fn count_after(registered: u64, deed: &Deed) -> u64
    requires { room_of deed.now ≡ 1 → registered < 2 ^ 63 }
    ensures { result ≡ counted_by registered deed.now }
{
    match deed {
        Deed::Begins(_) => registered + 1,
        _ => registered,
    }
}

// The groups at the boot: that of the host, if there is one. Refused only for want of memory.
fn first_groups(alloc: Global, config: &Config, when: When) -> Result<Claimants, AllocError>
    ensures typed { IfOk result (λ groups. HaveData groups.kept) }
    ensures mapped { IfOk result (λ groups. HaveBitmaps groups.kept) }
    ensures value { IfOk result (λ groups. groups.kept ≡ option_to_list (option_map (host_kept when.moment when.word config.now) config.now.host)) }
{
    let mut groups = Claimants::new(alloc);
    if let Some(host) = &config.host {
        groups.reserve(1)?;
        groups.push(host_claimant(alloc, config, host, when)?);
    }
    Ok(groups)
}

// The host's group, as it begins at the boot. Refused only for want of memory.
fn host_claimant(
    alloc: Global,
    config: &Config,
    host: &HostConfig,
    when: When,
) -> Result<Claimant, AllocError>
    ensures typed { IfOk result (λ one. have_data (records_of one.claim) ≡ true) }
    ensures mapped { IfOk result (λ one. have_bitmap one.claim.unique ≡ true) }
    ensures value { IfOk result (λ one. one ≡ host_kept when.moment when.word config.now host.now) }
{
    let naming = Naming::host(copy_label(&host.label));
    let name = naming.name_under(1);
    let published = Published {
        config,
        host: &name,
        txt: &Bytes::new(),
    };
    let wait = u64::from(when.word % 251);
    begun_claimant(alloc, naming, when, wait, &published)
}

// The host's name under a number, and the root where there is no host.
fn host_under(config: &Config, number: u32) -> Name
    ensures { result ≡ host_named config.now number }
{
    match &config.host {
        Some(host) => host_name(&host.label, number),
        None => Name::root(),
    }
}

// A storm with one conflict more for each mark of one.
fn storm_after(storm: &Storm, now: Moment, marks: &[Mark]) -> Storm
    ensures { result ≡ storm_told storm.now now marks.now }
{
    let mut after = storm.copy();
    for mark in marks {
        if is_conflict(mark) {
            after.note(now);
        }
    }
    after
}

fn is_conflict(mark: &Mark) -> bool
    ensures { result ≡ is_conflict mark.now }
{
    matches!(
        mark,
        Mark::Renamed { .. } | Mark::Contested { .. } | Mark::Failed { .. }
    )
}
