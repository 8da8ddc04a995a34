// All that an event leads to, computed before anything is changed.
ghost use Rattle.std.specs.Prelude.{◌≡◌, ◌≤◌, ◌++◌, true, map, length, IfOk, OnOk};
ghost use Rattle.mdns_history.specs.Lifetimes.{room_for_records};
ghost use Rattle.mdns_happened.specs.Told.{told_by};
ghost use Rattle.mdns_happened.specs.Walks.{own_of};
ghost use Rattle.mdns_cache.specs.Lifetimes.{AllHeard};
ghost use Rattle.mdns_records.specs.After.{held_after};
ghost use Rattle.sd_answer.specs.Known.{rrs_of};
ghost use Rattle.sd_answer.specs.Laws.{have_data};
ghost use Rattle.mdns_question.specs.Refreshing.{AreTimed};
ghost use Rattle.mdns_question.specs.Standing.{mark_of};
ghost use Rattle.sd_sessions.specs.Settling.{cuts_of};
ghost use Rattle.sd_sessions.specs.Kept.{IsWellFormedCall};
ghost use Rattle.sd_sessions.specs.Planned.{IsTold};
ghost use Rattle.mdns_claims.specs.Behind.{occasion_of, probes_told};
ghost use Rattle.mdns_asking.specs.Kept.{HaveGaps};
ghost use Rattle.mdns_asking.specs.Walked as for_asking;
ghost use Rattle.mdns_claims.specs.Later.{groups_behind};
ghost use Rattle.mdns_claims.specs.Owned.{own_in};
ghost use Rattle.mdns_claims.specs.Planned as claiming;
ghost use Rattle.mdns_core.specs.Enough.{AreEnough, claims_told, with_own};
ghost use Rattle.mdns_core.specs.Looked.{is_looked_at, AreBounded, AreFew};
ghost use Rattle.mdns_core.specs.Planned.{IsPlan, IsTraffic, IsLed};
ghost use Rattle.mdns_core.specs.Kept.{state_of};
ghost use Rattle.std.specs.Option.{option_to_list};
ghost use Rattle.mdns_history.specs.declared.entry.Entry.{Entry};
ghost use Rattle.mdns_history.specs.Debts.{multicasts_in};
ghost use Rattle.mdns_owing.specs.Owing.{query_told};
ghost use Rattle.mdns_responding.specs.Told.{announced_told, responses_told};

use crate::parts::Parts;
use crate::reading::{Reading, read_event};
use dns_name::Name;
use mdns_asking::Plan as AskingPlan;
use mdns_cache::Steps;
use mdns_claims::{Behind, Claims, Plan as ClaimsPlan};
use mdns_happened::{Around, Happened, OwnWalk, Walk, When};
use mdns_history::{Event, Gifts, Marks, Sends, SharedRrs};
use mdns_owing::{Multicasts, Ours, Query};
use mdns_reply::multicasts;
use mdns_responding::Responder;
use sd_sessions::Plan as SessionsPlan;
use std::alloc::{AllocError, Global};
use std::sync::ledger::Ledger;

/// What an event leads to: what happened, the records that are heard, those of the names that it concerns, before it and after
/// it, the plans of claims, of questions and of sessions, the marks of the entry, what it sends, the records that are multicast
/// with that, the query that comes with it and is owed something, whether all that is the daemon's to send surely stays so, and the gifts.
#[derive(Drop)]
pub struct Plan<'a> {
    pub happened: Happened<'a>,
    pub heard: SharedRrs,
    pub claims: ClaimsPlan,
    pub walks: Vec<Walk>,
    pub asking: AskingPlan,
    pub sessions: SessionsPlan,
    pub marks: Marks,
    pub sent: Sends,
    pub multicasts: Multicasts,
    pub come: Option<Query>,
    pub keeps_own: bool,
    pub given: Gifts,
}

/// What an event asks and sends, the records that are multicast with that, and the query that comes with it, if it is owed something.
#[derive(Drop)]
pub struct Traffic {
    pub asking: AskingPlan,
    pub sent: Sends,
    pub multicasts: Multicasts,
    pub come: Option<Query>,
}

/// What an event leads to beside what is held and claimed: what it asks and sends, what it changes in sessions, the marks of the entry, whether all
/// that is the daemon's to send surely stays so, and the gifts.
#[derive(Drop)]
pub struct Led {
    pub traffic: Traffic,
    pub sessions: SessionsPlan,
    pub marks: Marks,
    pub keeps_own: bool,
    pub given: Gifts,
}

/// What a daemon keeps before an event, in parts, and its last moment. The key is its own.
#[derive(Drop)]
pub struct Kept<'a> {
    pub alloc: Global,
    pub last: u64,
    pub parts: &'a Parts,
    pub key: u64,
}

/// What an event leads to. Nothing is changed. Refused only for want of memory.
pub fn make_plan<'a, L: Ledger>(
    kept: &Kept<'_>,
    when: When,
    event: &'a Event,
    steps: &mut Steps<L>,
) -> Result<Plan<'a>, AllocError>
    requires within { length kept.now.parts.now.records.held ≤ room_for_records }
    requires past { AllHeard when.moment kept.now.parts.now.records.held }
    requires timed { AreTimed kept.now.parts.now.records.held kept.now.parts.now.asking.questions }
    requires typed { have_data (rrs_of kept.now.parts.now.records.held) ≡ true }
    ensures plan { IfOk result (λ plan. IsPlan (state_of kept.now.last kept.now.parts.now) when.moment when.word event.now plan) }
    ensures visits { AreBounded (state_of kept.now.last kept.now.parts.now) when.moment when.word event.now steps.old steps.new }
{
    let reading = read_event(kept, when, event)?;
    let claims = kept.parts.claims.plan(when, &reading.happened)?;
    let walks = walk(kept, when, &reading, &claims, steps)?;
    let led = led_to(kept, when, &reading, &claims, &walks)?;
    let Reading { happened, heard } = reading;
    let Traffic {
        asking,
        sent,
        multicasts,
        come,
    } = led.traffic;
    Ok(Plan {
        happened,
        heard,
        claims,
        walks,
        asking,
        sessions: led.sessions,
        marks: led.marks,
        sent,
        multicasts,
        come,
        keeps_own: led.keeps_own,
        given: led.given,
    })
}

// What an event that was read leads to, where these are its walks and this is planned for claims. Refused only for want of memory.
fn led_to(
    kept: &Kept<'_>,
    when: When,
    reading: &Reading<'_>,
    claims: &ClaimsPlan,
    walks: &[Walk],
) -> Result<Led, AllocError>
    requires past { AllHeard when.moment kept.now.parts.now.records.held }
    requires timed { AreTimed kept.now.parts.now.records.held kept.now.parts.now.asking.questions }
    requires typed { have_data (rrs_of kept.now.parts.now.records.held) ≡ true }
    requires owned { have_data (own_in kept.now.parts.now.claims.contents.kept) ≡ true }
    requires fits { claiming.IsFor kept.now.parts.now.claims.contents.registered kept.now.parts.now.claims.contents.kept claims.now.deed }
    requires told { IsTold (told_by reading.now.happened) kept.now.parts.now.sessions }
    requires call { IsWellFormedCall (told_by reading.now.happened).call }
    requires planned { claiming.IsPlan kept.now.parts.now.claims.contents (occasion_of kept.now.parts.now.claims.contents (told_by reading.now.happened) when.moment when.word) claims.now }
    requires walked { AreEnough (told_by reading.now.happened) when.moment kept.now.parts.now.records.held
        (held_after when.moment when.word reading.now.heard kept.now.parts.now.records.held)
        (own_in kept.now.parts.now.claims.contents.kept) (own_in (claims_told kept.now.parts.now.claims.contents (told_by reading.now.happened) when.moment when.word).kept)
        kept.now.parts.now.asking.questions kept.now.parts.now.sessions.sessions walks.now }
    ensures { IfOk result (λ led. IsLed (state_of kept.now.last kept.now.parts.now)
        (held_after when.moment when.word reading.now.heard kept.now.parts.now.records.held) when.moment when.word (told_by reading.now.happened) claims.now walks.now led) }
{
    let parts = kept.parts;
    let happened = &reading.happened;
    let behind = parts.claims.behind(when, happened, claims);
    let responder = Responder {
        alloc: kept.alloc,
        key: kept.key,
        lasts: &parts.lasts,
        owing: &parts.owing,
        behind: &behind,
    };
    let traffic = make_traffic(kept, &responder, when, happened, walks)?;
    let registered = behind.registered(kept.alloc)?;
    let around = Around {
        walks,
        registered: &registered,
    };
    let sessions = parts.sessions.plan(happened, &around)?;
    let marks = make_marks(&responder, claims, &traffic.asking, &sessions)?;
    let given = sessions.gifts(kept.alloc)?;
    let keeps_own = behind.keeps_own();
    Ok(Led {
        traffic,
        sessions,
        marks,
        keeps_own,
        given,
    })
}

// What an event asks and sends, and the query that comes with it. Refused only for want of memory.
fn make_traffic(
    kept: &Kept<'_>,
    responder: &Responder<'_>,
    when: When,
    happened: &Happened<'_>,
    walks: &[Walk],
) -> Result<Traffic, AllocError>
    requires call { IsWellFormedCall (told_by happened.now).call }
    requires heard { for_asking.AreHeard when.moment walks.now }
    ensures is { IfOk result (λ made. IsTraffic (told_by happened.now) when.moment kept.now.parts.now.sessions.sessions kept.now.parts.now.asking.questions walks.now
        (probes_told (told_by happened.now).ticks kept.now.parts.now.claims.contents.kept when.moment)
        (responses_told (told_by responder.now.behind.now.means.happened.now) responder.now.behind.now.means.moment responder.now.lasts.now.lasts
        responder.now.owing.now.queries responder.now.behind.now.groups.now (groups_behind responder.now.behind.now)) made) }
    ensures come { IfOk result (λ made. option_to_list made.come ≡ query_told kept.now.parts.now.claims.contents.kept kept.now.parts.now.lasts.lasts (told_by happened.now) when.moment when.word) }
    ensures gaps { IfOk result (λ _. HaveGaps kept.now.parts.now.asking.questions) }
{
    let parts = kept.parts;
    let mut sent = parts.claims.probes(when, happened)?;
    let asking = parts
        .asking
        .plan(when, happened, walks, &parts.sessions, &mut sent)?;
    responder.put_responses(&mut sent)?;
    let multicasts = multicasts_of(kept.alloc, &sent)?;
    let come = come(kept, when, happened)?;
    Ok(Traffic {
        asking,
        sent,
        multicasts,
        come,
    })
}

// The records that are multicast with what is sent. Refused only for want of memory.
fn multicasts_of(alloc: Global, sent: &Sends) -> Result<Multicasts, AllocError>
    ensures { IfOk result (λ made. (entry : Entry) → entry.sent ≡ sent.now → multicasts_in entry ≡ made) }
{
    Multicasts::of(alloc, multicasts(alloc, sent.as_slice())?)
}

// The query that comes with an event, if it is owed something by what is kept. Refused only for want of memory.
fn come(kept: &Kept<'_>, when: When, happened: &Happened<'_>) -> Result<Option<Query>, AllocError>
    ensures { IfOk result (λ query. option_to_list query ≡ query_told kept.now.parts.now.claims.contents.kept kept.now.parts.now.lasts.lasts (told_by happened.now) when.moment when.word) }
{
    let ours = Ours {
        alloc: kept.alloc,
        key: kept.key,
        claims: &kept.parts.claims,
        lasts: &kept.parts.lasts,
    };
    ours.query(when, happened)
}

// The records of the names that an event concerns, before it and after it: of those of which records end, are heard, come to be own or
// cease to be, those that an operation or a question asks for, and those that asking by itself needs. No other record is looked at.
// Refused only for want of memory.
fn walk<L: Ledger>(
    kept: &Kept<'_>,
    when: When,
    reading: &Reading<'_>,
    claims: &ClaimsPlan,
    steps: &mut Steps<L>,
) -> Result<Vec<Walk>, AllocError>
    requires call { IsWellFormedCall (told_by reading.now.happened).call }
    requires planned { claiming.IsPlan kept.now.parts.now.claims.contents (occasion_of kept.now.parts.now.claims.contents (told_by reading.now.happened) when.moment when.word) claims.now }
    ensures enough { IfOk result (λ walks. AreEnough (told_by reading.now.happened) when.moment kept.now.parts.now.records.held
        (held_after when.moment when.word reading.now.heard kept.now.parts.now.records.held)
        (own_in kept.now.parts.now.claims.contents.kept) (own_in (claims_told kept.now.parts.now.claims.contents (told_by reading.now.happened) when.moment when.word).kept)
        kept.now.parts.now.asking.questions kept.now.parts.now.sessions.sessions walks.items) }
    ensures visits { AreFew (is_looked_at (told_by reading.now.happened) when.moment reading.now.heard kept.now.parts.now.records.held
        (own_in kept.now.parts.now.claims.contents.kept) (own_in (claims_told kept.now.parts.now.claims.contents (told_by reading.now.happened) when.moment when.word).kept)
        kept.now.parts.now.asking.questions) kept.now.parts.now.records.held steps.old steps.new }
{
    let happened = &reading.happened;
    let heard = reading.heard.as_slice();
    let behind = kept.parts.claims.behind(when, happened, claims);
    let mut touched = kept.parts.records.touched(when.at(), heard)?;
    behind.put_moved_names(kept.alloc, &mut touched)?;
    let mut names = Vec::new(kept.alloc);
    kept.parts
        .sessions
        .put_names(&mut names, happened, &touched)?;
    kept.parts
        .asking
        .put_names(&mut names, when, happened, &touched)?;
    let walks = kept.parts.records.walk(when, heard, names, steps)?;
    with_own(kept.alloc, walks, &kept.parts.claims, &behind)
}

// Walks with the own records of their names, before an event and behind it. Refused only for want of memory.
fn with_own(
    alloc: Global,
    mut walks: Vec<Walk>,
    claims: &Claims,
    behind: &Behind<'_>,
) -> Result<Vec<Walk>, AllocError>
    ensures { IfOk result (λ owned. owned.items ≡ map (with_own (own_in claims.now.contents.kept) (own_in (groups_behind behind.now))) walks.items) }
{
    put_own(alloc, &mut walks, claims, behind)?;
    Ok(walks)
}

// Puts them into the walks, where these stand.
fn put_own(
    alloc: Global,
    walks: &mut [Walk],
    claims: &Claims,
    behind: &Behind<'_>,
) -> Result<(), AllocError>
    ensures { OnOk result (walks.new ≡ map (with_own (own_in claims.now.contents.kept) (own_in (groups_behind behind.now))) walks.old) }
{
    for walk in walks.iter_mut() {
        put_own_of(alloc, walk, claims, behind)?;
    }
    Ok(())
}

fn put_own_of(
    alloc: Global,
    walk: &mut Walk,
    claims: &Claims,
    behind: &Behind<'_>,
) -> Result<(), AllocError>
    ensures { OnOk result (walk.new ≡ with_own (own_in claims.now.contents.kept) (own_in (groups_behind behind.now)) walk.old) }
{
    walk.own = own_walk(alloc, &walk.name, claims, behind)?;
    Ok(())
}

// The own records of a name, before an event and behind it.
fn own_walk(
    alloc: Global,
    name: &Name,
    claims: &Claims,
    behind: &Behind<'_>,
) -> Result<OwnWalk, AllocError>
    ensures earlier { IfOk result (λ own. own.earlier ≡ own_of name.now (own_in claims.now.contents.kept)) }
    ensures later { IfOk result (λ own. own.later ≡ own_of name.now (own_in (groups_behind behind.now))) }
{
    let mut own = OwnWalk::none(alloc);
    claims.put_own(&mut own.earlier, name)?;
    behind.put_own(&mut own.later, name)?;
    Ok(own)
}

// The marks of an entry: that of a packet that was refused, those of claims, those of the questions that are asked, those of the groups
// that are announced, and those of the sessions that are cut. Refused only for want of memory.
fn make_marks(
    responder: &Responder<'_>,
    claims: &ClaimsPlan,
    asking: &AskingPlan,
    sessions: &SessionsPlan,
) -> Result<Marks, AllocError>
    ensures { IfOk result (λ marks. marks ≡ (told_by responder.now.behind.now.means.happened.now).refusal ++ claims.now.marks ++ map mark_of asking.now.asked.items
        ++ announced_told (told_by responder.now.behind.now.means.happened.now) responder.now.behind.now.means.moment responder.now.behind.now.groups.now
        ++ cuts_of sessions.now.changes.items) }
{
    let mut marks = Marks::new(responder.alloc);
    let behind = responder.behind;
    put_refusal(&mut marks, behind.means.happened)?;
    claims.put_marks(&mut marks)?;
    asking.put_askings(&mut marks)?;
    responder.put_marks(&mut marks)?;
    sessions.put_cuts(&mut marks)?;
    Ok(marks)
}

// Puts the mark of a packet that was refused behind others.
fn put_refusal(marks: &mut Marks, happened: &Happened<'_>) -> Result<(), AllocError>
    ensures { OnOk result (marks.new ≡ marks.old ++ (told_by happened.now).refusal) }
{
    if let Happened::Refused { why } = happened {
        marks.push(why.mark())?;
    }
    Ok(())
}
