// Rows on what a daemon asks: `plain_asking`.
use crate::entry::entry_of;
use crate::kept::Kept;
use crate::row_error::RowError;
use crate::words::{count, moment_of, name, numbers, or_none, put_word, yes_or_no};
use dns_record::Key;
use mdns_base::Moment;
use mdns_history::{Cause, Event, Mark};
use plain_asking::{active_questions, are_by, is_active, known_answers, tick_askings};
use plain_history::HistoryEntry;
use std::alloc::Global;

/// A call on the questions of the history; `tick` lets time pass and puts the entry, too.
pub fn row(alloc: Global, kept: &mut Kept, text: &str) -> Result<String, RowError> {
    let words: Vec<&str> = text.split(' ').collect(alloc)?;
    match words.as_slice() {
        ["active"] => count(alloc, active_questions(alloc, kept.entries())?.len()),
        ["active", asked] => yes_or_no(alloc, is_active(alloc, &key(asked)?, kept.entries())?),
        ["by", moment] => { yes_or_no(alloc, are_by(moment_of(moment)?, kept.entries())) }
        ["known", asked, moment] => known(alloc, kept.entries(), &key(asked)?, moment_of(moment)?),
        ["at", moment] => at(alloc, kept.entries(), moment_of(moment)?),
        ["tick", moment] => tick(alloc, kept, moment_of(moment)?),
        _ => Err(RowError::NotUnderstood),
    }
}

// The question for the IPv4 addresses of a name.
fn key(asked: &str) -> Result<Key, RowError> {
    Ok(Key {
        name: name(asked)?,
        kind: 1,
    })
}

// The TTLs of the known answers of a question.
fn known(
    alloc: Global,
    history: &[HistoryEntry],
    question: &Key,
    moment: Moment,
) -> Result<String, RowError> {
    if !are_by(moment, history) {
        return Err(RowError::NotUnderstood);
    }
    let mut seconds = Vec::new(alloc);
    for rr in known_answers(alloc, question, history, moment)?.as_slice() {
        seconds.push(u64::from(rr.ttl))?;
    }
    numbers(alloc, seconds.as_slice())
}

// Why questions are asked at a moment.
fn at(alloc: Global, history: &[HistoryEntry], moment: Moment) -> Result<String, RowError> {
    let marks = tick_askings(alloc, history, moment)?;
    causes(alloc, marks.as_slice())
}

// The same, and the tick stands in the history then.
fn tick(alloc: Global, kept: &mut Kept, moment: Moment) -> Result<String, RowError> {
    let marks = tick_askings(alloc, kept.entries(), moment)?;
    let told = causes(alloc, marks.as_slice())?;
    let mut entry = entry_of(alloc, moment, 0, Event::Tick);
    for mark in marks {
        entry.marks.push(mark)?;
    }
    kept.put(entry)?;
    Ok(told)
}

/// Why questions count as asked: a word for each.
pub fn causes(alloc: Global, marks: &[Mark]) -> Result<String, RowError> {
    let mut told = String::new(alloc);
    for mark in marks {
        put_word(&mut told, cause_of(mark))?;
    }
    or_none(alloc, told)
}

fn cause_of(mark: &Mark) -> &'static str {
    match mark {
        Mark::Asked { cause, .. } => match cause {
            Cause::Series => "series",
            Cause::Refresh => "refresh",
            Cause::Heard => "heard",
        },
        _ => "another mark",
    }
}
