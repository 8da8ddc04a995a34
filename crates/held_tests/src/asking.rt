// Rows of a daemon's questions: which begin, and when each is asked. (RFC 6762 5.2)
ghost use Rattle.std.specs.Prelude.{IfOk};
ghost use Rattle.mdns_happened.specs.Told.{told_by};
ghost use Rattle.sd_sessions.specs.Kept.{IsWellFormedCall};
ghost use Rattle.mdns_asking.specs.Walked.{AreHeard};

use crate::causes::put_cause;
use crate::read::{held, when};
use dns_name::Name;
use mdns_asking::{Asking, Plan};
use mdns_base::Moment;
use mdns_happened::{Happened, OwnWalk, Walk, When};
use mdns_history::{Held, Marks, Sends};
use row_words::{RowError, Told, key, name_of};
use sd_call::{Request, well_formed};
use sd_sessions::Sessions;
use std::alloc::Global;

/// A row of a daemon's questions. `call` has a moment, a random word and what a session queries, `tick` a moment, a word and the name that
/// is touched, or `-`; both have the name that is walked and the one record that is held of it. They tell when the first question was due,
/// what is asked, begun and ended, and how many names are walked, messages sent and askings marked.
pub fn asking_row(told: &mut Told, asking: &mut Asking, row: &[&str]) -> Result<(), RowError> {
    match row {
        ["new"] => {
            *asking = Asking::new(told.alloc);
            told.put("done")
        }
        ["call", now, word, asked, name, record] => {
            let event = Event::new(told.alloc, when(*now, *word)?, *name, *record)?;
            call(told, asking, event, *asked)
        }
        ["tick", now, word, touched, name, record] => {
            let mut event = Event::new(told.alloc, when(*now, *word)?, *name, *record)?;
            event.touch(*touched)?;
            step(told, asking, event, &Happened::Ticked)
        }
        ["next"] => told.put_number(asking.first_due()),
        _ => Err(RowError::NotUnderstood),
    }
}

// When an event comes, the names that it touches, and the name that is walked, of which one record is held.
#[derive(Drop)]
struct Event {
    when: When,
    touched: Vec<Name>,
    name: Name,
    held: Held,
}

impl Event {
    fn new(alloc: Global, when: When, name: &str, record: &str) -> Result<Event, RowError> {
        Ok(Event {
            when,
            touched: Vec::new(alloc),
            name: name_of(name)?,
            held: held(alloc, record)?,
        })
    }

    // Touches a name too; `-` is none.
    fn touch(&mut self, name: &str) -> Result<(), RowError> {
        if name != "-" {
            self.touched.push(name_of(name)?)?;
        }
        Ok(())
    }
}

// A call of the first session is accepted.
fn call(told: &mut Told, asking: &mut Asking, event: Event, asked: &str) -> Result<(), RowError> {
    let asked = key(asked)?;
    let request = Request::Query {
        kind: asked.kind,
        name: asked.name,
    };
    if !well_formed(&request) {
        return Err(RowError::NotUnderstood);
    }
    let happened = Happened::Called {
        session: 1,
        op: 1,
        request: &request,
        code: 0,
    };
    step(told, asking, event, &happened)
}

fn step(
    told: &mut Told,
    asking: &mut Asking,
    event: Event,
    happened: &Happened<'_>,
) -> Result<(), RowError>
    requires { IsWellFormedCall (told_by happened.now).call }
{
    told.put("due ")?;
    told.put_number(asking.first_due())?;
    let walked = walked(told.alloc, asking, &event, happened)?;
    told.put_count(", walked ", walked)?;
    let walks = walks(told.alloc, event.when.at(), event.name, event.held)?;
    carry_out(told, asking, event.when, happened, &walks)
}

// How many names are to be walked.
fn walked(
    alloc: Global,
    asking: &Asking,
    event: &Event,
    happened: &Happened<'_>,
) -> Result<usize, RowError>
    requires { IsWellFormedCall (told_by happened.now).call }
{
    let mut names = Vec::new(alloc);
    asking.put_names(&mut names, event.when, happened, &event.touched)?;
    Ok(names.len())
}

fn carry_out(
    told: &mut Told,
    asking: &mut Asking,
    when: When,
    happened: &Happened<'_>,
    walks: &[Walk],
) -> Result<(), RowError>
    requires call { IsWellFormedCall (told_by happened.now).call }
    requires heard { AreHeard when.moment walks.now }
{
    let mut sent = Sends::new(told.alloc);
    let sessions = Sessions::new(told.alloc);
    let plan = asking.plan(when, happened, walks, &sessions, &mut sent)?;
    told.put_count(", sent ", sent.as_slice().len())?;
    apply(told, asking, when, &plan, walks)
}

fn apply(
    told: &mut Told,
    asking: &mut Asking,
    when: When,
    plan: &Plan,
    walks: &[Walk],
) -> Result<(), RowError> {
    asking.reserve(plan)?;
    asking.apply(when, plan, walks);
    put_plan(told, plan)
}

// The walk of a name: its record, once it was heard.
fn walks(alloc: Global, now: Moment, name: Name, one: Held) -> Result<Vec<Walk>, RowError>
    ensures { IfOk result (λ walks. AreHeard now walks.items) }
{
    let mut later = Vec::new(alloc);
    if one.heard.ms() <= now.ms() {
        later.push(one)?;
    }
    let mut walks = Vec::new(alloc);
    walks.push(Walk {
        name,
        earlier: Vec::new(alloc),
        later,
        own: OwnWalk::none(alloc),
    })?;
    Ok(walks)
}

// What is asked, and why; how many questions begin and end, and how many askings are marked.
fn put_plan(told: &mut Told, plan: &Plan) -> Result<(), RowError> {
    told.put_count(", begun ", plan.begun.len())?;
    told.put_count(", ended ", plan.ended.len())?;
    let mut marks = Marks::new(told.alloc);
    plan.put_askings(&mut marks)?;
    told.put_count(", marked ", marks.as_slice().len())?;
    told.put(", asked ")?;
    for (place, asked) in plan.asked.iter().enumerate() {
        told.put_plus(place)?;
        put_cause(told, asked.1)?;
    }
    told.put_none(plan.asked.is_empty())
}
