// The claims of groups.
ghost use Rattle.std.specs.Prelude.{◌≡◌, ◌≤◌, ◌+◌, ◌^◌, ◌∷◌, ◌++◌, [], map, true, false, slice_get, vec_len, vec_capacity, OnOk, OnErr, IfOk, IfSome, IsOk, is_some};
ghost use Rattle.std.specs.List.{list_any, flat_map, find, position};
ghost use Rattle.std.specs.Option.{option_map, option_map_or, option_copied};
ghost use Rattle.lists.specs.Lists.{least};
ghost use Rattle.mdns_probe.specs.Claiming.{begun, set_back, probed_if, settled_if, announced_if, replaced, after_tick, is_of, change_of, changed_of, changed_first, without_first, gone_of, has_wait, due_of, all_due, next_of};

use crate::claim::{Change, Claim, Gone};
use crate::due::Due;
use dns_message::Rrs;
use mdns_base::Moment;
use mdns_timer::earlier;
use std::alloc::{AllocError, Global};
use std::marker::Model;

/// The claims of groups, in the order of registration. Moments are in ms. (RFC 6762 8)
#[derive(Drop)]
pub struct Groups {
    claims: Vec<Claim>,
}

impl Model for Groups {
    ghost use Rattle.std.specs.Prelude.{◌-◌, vec_len, vec_capacity};
    ghost use Rattle.mdns_probe.specs.Contents.{Contents};

    ghost Value = { Contents };

    ghost view = { λ a. record { claims = a.claims.items; spare = vec_capacity a.claims - vec_len a.claims } };
}

impl Groups {
    /// No groups, and no room.
    pub fn new(alloc: Global) -> Groups
        ensures { result.claims ≡ [] }
    {
        Groups {
            claims: Vec::new(alloc),
        }
    }

    /// Makes room for `more` groups. Nothing else changes. Refused only for want of memory.
    pub fn reserve(&mut self, more: usize) -> Result<(), AllocError>
        ensures claims { self.new.claims ≡ self.old.claims }
        ensures room { OnOk result (more ≤ self.new.spare) }
    {
        self.claims.reserve(more)?;
        Ok(())
    }

    /// Registers a group, which is first probed so much later. Refused only for want of memory, and then nothing changes.
    pub fn register(
        &mut self,
        now: Moment,
        wait: u64,
        group: u64,
        unique: Rrs,
        shared: Rrs,
    ) -> Result<(), AllocError>
        requires wait { wait ≤ 5000 }
        requires new { list_any (is_of group) self.old.claims ≡ false }
        ensures ok { OnOk result (self.new.claims ≡ self.old.claims ++ begun now wait group unique shared ∷ []) }
        ensures err { OnErr result (self.new.claims ≡ self.old.claims) }
        ensures reserved { 1 ≤ self.old.spare → IsOk result }
    {
        self.claims.reserve(1)?;
        let _ = self
            .claims
            .push(Claim::begun(now, wait, group, unique, shared));
        Ok(())
    }

    /// Notes a tick: the probes that were due were sent, or else the groups become sure for which that is due, and then those
    /// were announced for which that is due, where announcements are made at all. It takes no memory.
    pub fn tick(&mut self, now: Moment, announces: bool)
        ensures { self.new.claims ≡ map (after_tick now announces) self.old.claims }
    {
        tick_all(&mut self.claims, now, announces);
    }

    /// Lets a group be probed anew, so much later. It takes no memory.
    pub fn reset(&mut self, now: Moment, wait: u64, group: u64)
        requires wait { wait ≤ 5000 }
        ensures { self.new.claims ≡ map (changed_of group (set_back now wait)) self.old.claims }
    {
        change_all(&mut self.claims, now, group, Change::SetBack { wait });
    }

    /// Notes that a group was probed, where that is due. It takes no memory.
    pub fn probe_sent(&mut self, now: Moment, group: u64)
        ensures { self.new.claims ≡ map (changed_of group (probed_if now)) self.old.claims }
    {
        change_all(&mut self.claims, now, group, Change::Probed);
    }

    /// Notes that a group is sure, where that is due. It takes no memory.
    pub fn settled(&mut self, now: Moment, group: u64)
        ensures { self.new.claims ≡ map (changed_of group (settled_if now)) self.old.claims }
    {
        change_all(&mut self.claims, now, group, Change::Settled);
    }

    /// Notes that a group was announced, where that is due. It takes no memory.
    pub fn announced(&mut self, now: Moment, group: u64)
        ensures { self.new.claims ≡ map (changed_of group (announced_if now true)) self.old.claims }
    {
        change_all(&mut self.claims, now, group, Change::Announced);
    }

    /// Gives a group other records. It takes no memory.
    pub fn replace(&mut self, now: Moment, group: u64, unique: Rrs, shared: Rrs)
        ensures { self.new.claims ≡ changed_first group (replaced now unique shared) self.old.claims }
    {
        replace_in(&mut self.claims, now, group, unique, shared);
    }

    /// Takes a group out, and hands over what is left of it; `None` exactly where there is no such group. It takes no memory.
    pub fn withdraw(&mut self, group: u64) -> Option<Gone>
        ensures gone { result ≡ option_map gone_of (find (is_of group) self.old.claims) }
        ensures claims { self.new.claims ≡ without_first group self.old.claims }
        ensures room { self.old.spare ≤ self.new.spare }
    {
        match take_out(&mut self.claims, group) {
            Some(claim) => Some(Gone {
                sure: claim.sure,
                unique: claim.unique,
                shared: claim.shared,
            }),
            None => None,
        }
    }

    /// The claim of a group; `None` exactly where there is no such group.
    pub fn claim(&self, group: u64) -> Option<&Claim>
        ensures { option_copied result ≡ find (is_of group) self.now.claims }
    {
        self.claims.iter().find(|claim| claim.group == group)
    }

    /// The unique and the shared records of a group; `None` exactly where there is no such group.
    pub fn records(&self, group: u64) -> Option<(&Rrs, &Rrs)>
        ensures found { is_some result ≡ is_some (find (is_of group) self.now.claims) }
        ensures records { IfSome result (λ both. IfSome (find (is_of group) self.now.claims) (λ claim. (both.0.now ≡ claim.unique) × (both.1.now ≡ claim.shared))) }
    {
        match self.claim(group) {
            Some(claim) => Some((&claim.unique, &claim.shared)),
            None => None,
        }
    }

    /// Whether a group is there and sure.
    pub fn sure(&self, group: u64) -> bool
        ensures { result ≡ option_map_or (λ claim. claim.sure) (find (is_of group) self.now.claims) false }
    {
        match self.claim(group) {
            Some(claim) => claim.sure,
            None => false,
        }
    }

    /// The place-th thing that is due, counted from 0, in the order of the groups, where announcements
    /// are made or aren't; `None` exactly past the last.
    pub fn due(&self, now: Moment, announces: bool, place: usize) -> Option<Due>
        ensures { result ≡ slice_get (all_due announces now self.now.claims) place }
    {
        due_in(&self.claims, now, announces, place)
    }

    /// The first moment from which on something is due by itself; `None` exactly where there is none.
    pub fn next_due(&self, announces: bool) -> Option<u64>
        ensures { result ≡ least (flat_map (next_of announces) self.now.claims) }
    {
        first_of(&self.claims, announces)
    }

    /// The claims.
    pub fn claims(&self) -> &[Claim]
        ensures { result.now ≡ self.now.claims }
    {
        self.claims.as_slice()
    }
}

fn tick_all(claims: &mut [Claim], now: Moment, announces: bool)
    ensures { claims.new ≡ map (after_tick now announces) claims.old }
{
    for claim in claims.iter_mut() {
        claim.note_tick(now, announces);
    }
}

fn change_all(claims: &mut [Claim], now: Moment, group: u64, change: Change)
    requires wait { has_wait change }
    ensures { claims.new ≡ map (changed_of group (change_of now change)) claims.old }
{
    for claim in claims.iter_mut() {
        change_one(claim, now, group, change);
    }
}

fn change_one(claim: &mut Claim, now: Moment, group: u64, change: Change)
    requires wait { has_wait change }
    ensures { claim.new ≡ changed_of group (change_of now change) claim.old }
{
    if claim.group == group {
        claim.change(now, change);
    }
}

// Gives the first claim of a group other records.
fn replace_in(claims: &mut [Claim], now: Moment, group: u64, unique: Rrs, shared: Rrs)
    ensures { claims.new ≡ changed_first group (replaced now unique shared) claims.old }
{
    if let Some(place) = place_of(claims, group) {
        claims[place].replace(now, unique, shared);
    }
}

// Takes the first claim of a group out.
fn take_out(claims: &mut Vec<Claim>, group: u64) -> Option<Claim>
    ensures taken { result ≡ find (is_of group) claims.old.items }
    ensures claims { claims.new.items ≡ without_first group claims.old.items }
    ensures len { vec_len claims.new ≤ vec_len claims.old }
    ensures capacity { vec_capacity claims.new ≡ vec_capacity claims.old }
{
    match place_of(claims, group) {
        Some(place) => Some(claims.remove(place)),
        None => None,
    }
}

// The place of the claim of a group.
fn place_of(claims: &[Claim], group: u64) -> Option<usize>
    ensures { result ≡ position (is_of group) claims.now }
{
    claims.iter().position(|claim| claim.group == group)
}

#[tactic(auto, using(crate::proofs::Loops::given_here, crate::proofs::Loops::given_behind, crate::proofs::Loops::given_none))]
fn due_in(claims: &[Claim], now: Moment, announces: bool, place: usize) -> Option<Due>
    ensures { result ≡ slice_get (all_due announces now claims.now) place }
{
    let mut left = place;
    for claim in claims {
        if let Some(due) = claim.due(now, announces) {
            if left == 0 {
                return Some(due);
            }
            left -= 1;
        }
    }
    None
}

fn first_of(claims: &[Claim], announces: bool) -> Option<u64>
    ensures { result ≡ least (flat_map (next_of announces) claims.now) }
{
    let mut first = None;
    for claim in claims {
        first = earlier(first, claim.next_due(announces));
    }
    first
}
