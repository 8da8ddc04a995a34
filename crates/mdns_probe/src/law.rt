// Laws of the definitions: what a history's next entry makes of the claim of a group.
ghost use Rattle.std.specs.Prelude.{◌≡◌, ◌≤◌, true, false, ◌&&◌, List, ◌∷◌, Bool};
ghost use Rattle.mdns_history.specs.declared.entry.Entry.{Entry};
ghost use Rattle.mdns_history.specs.History.{now, has_mark, is_tick};
ghost use Rattle.mdns_history.specs.Groups.{Group, is_group, group_name, unique_records, shared_records};
ghost use Rattle.mdns_history.specs.Sureness.{sets_back, probes};
ghost use Rattle.mdns_history.specs.Probing.{first_wait};
ghost use Rattle.mdns_history.specs.Announcing.{is_announcement_of};
ghost use Rattle.mdns_probe.specs.Claiming.{begun, replaced, ticked, after_tick, is_probe_due, is_announce_due};
ghost use Rattle.mdns_probe.specs.Standing.{claim_in, IsPaced};
ghost use Rattle.mdns_probe.specs.Answering.{AnswersAreKept, CodesAreKept, CutsChangeNoAnswer};
ghost use Rattle.mdns_probe.specs.Laws.{ClaimsFollowTicks, ClaimsFollowOthers, AnnouncementsFollow, TicksSettleWhatIsDue, QuietTicksKeepOwn, TicksAloneProbe, OwnRecordsAreKept, ProbesAreKept, DisturbancesAreKept, DuesAreAwaited, TicksLeaveTheRest, TicksLeaveNothingDue};

/// A group's claim behind an entry: of one that the entry registers or sets back, of one that a tick finds, and of one
/// that any other entry finds. What keeps probes apart is kept up. (RFC 6762 8)
pub fn claims_follow_the_history()
    ensures set_back { (group : Group) (entry : Entry) (past : List Entry) → sets_back group.id entry past ≡ true
        → claim_in (entry ∷ past) group ≡ begun entry.moment (first_wait group.id entry past) group.id (unique_records group (entry ∷ past)) (shared_records group (entry ∷ past)) }
    ensures ticked { (group : Group) (entry : Entry) (past : List Entry) → is_group group.id past ≡ true → is_group group.id (entry ∷ past) ≡ true
        → group_name group (entry ∷ past) ≡ group_name group past → sets_back group.id entry past ≡ false → now past ≤ entry.moment → IsPaced past group
        → (announces : Bool) → is_tick entry.event ≡ true → unique_records group (entry ∷ past) ≡ unique_records group past
        → shared_records group (entry ∷ past) ≡ shared_records group past
        → probes (group_name group past) entry ≡ is_probe_due entry.moment (claim_in past group)
        → has_mark (is_announcement_of group.id) entry ≡ (announces && is_announce_due entry.moment (ticked entry.moment (claim_in past group)))
        → claim_in (entry ∷ past) group ≡ after_tick entry.moment announces (claim_in past group) }
    ensures replaced { (group : Group) (entry : Entry) (past : List Entry) → is_group group.id past ≡ true → is_group group.id (entry ∷ past) ≡ true
        → group_name group (entry ∷ past) ≡ group_name group past → sets_back group.id entry past ≡ false → now past ≤ entry.moment → IsPaced past group
        → is_tick entry.event ≡ false → probes (group_name group past) entry ≡ false → has_mark (is_announcement_of group.id) entry ≡ false
        → claim_in (entry ∷ past) group ≡ replaced entry.moment (unique_records group (entry ∷ past)) (shared_records group (entry ∷ past)) (claim_in past group) }
    ensures paced_anew { (group : Group) (entry : Entry) (past : List Entry) → sets_back group.id entry past ≡ true → IsPaced (entry ∷ past) group }
    ensures paced { (group : Group) (entry : Entry) (past : List Entry) → group_name group (entry ∷ past) ≡ group_name group past
        → sets_back group.id entry past ≡ false → now past ≤ entry.moment → IsPaced past group
        → (probes (group_name group past) entry ≡ true → is_probe_due entry.moment (claim_in past group) ≡ true) → IsPaced (entry ∷ past) group }
{}

/// What is kept of claims follows the history, over every legal history of a daemon that claims names: what a tick, and
/// any other entry, makes of the claims of all live groups, which of them a tick announces, and when it makes none sure.
/// Nothing but a tick probes, whatever the daemon's duties are. And what is read off what is kept, over every history: own
/// records, the probes of a tick, the marks that a packet gives. And something is due of a claim exactly from the moments on that it waits for; where nothing is, a tick leaves it; and behind a tick nothing is. (RFC 6762 8 and 9)
pub fn groups_follow_the_history()
    ensures ticks { ClaimsFollowTicks }
    ensures others { ClaimsFollowOthers }
    ensures announced { AnnouncementsFollow }
    ensures settling { TicksSettleWhatIsDue }
    ensures quiet { QuietTicksKeepOwn }
    ensures probes { TicksAloneProbe }
    ensures own { OwnRecordsAreKept }
    ensures probing { ProbesAreKept }
    ensures disturbed { DisturbancesAreKept }
    ensures awaited { DuesAreAwaited }
    ensures rest { TicksLeaveTheRest }
    ensures done { TicksLeaveNothingDue }
{}

/// The answers of operations and the codes of calls are read off what is kept of groups, and the records that are live or
/// own, over every history; the marks of sessions that are cut change no answer. (RFC 6763 4 to 6)
pub fn answers_follow_what_is_kept()
    ensures answers { AnswersAreKept }
    ensures codes { CodesAreKept }
    ensures cuts { CutsChangeNoAnswer }
{}
