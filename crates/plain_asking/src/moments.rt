// When questions were asked.
ghost use Rattle.std.specs.Prelude.{◌≡◌, ◌++◌, IfOk, OnOk};
ghost use Rattle.mdns_history.specs.History.{has_mark};
ghost use Rattle.mdns_history.specs.Asking.{asking_moments, is_asking, is_counted, is_series_asking, series_moments};
ghost use Rattle.plain_history.specs.Kept.{kept_if};

use crate::begun::entries_since;
use dns_record::Key;
use mdns_base::Moment;
use mdns_history::{Cause, Entry, Mark};
use plain_history::{HistoryEntry, key_eq};
use std::alloc::{AllocError, Global};

/// Whether an asking of a cause counts in the series of its question. (RFC 6762 5.2 and 7.3)
pub fn is_counted(cause: Cause) -> bool
    ensures { result ≡ is_counted cause }
{
    match cause {
        Cause::Series | Cause::Heard => true,
        Cause::Refresh => false,
    }
}

fn is_series_asking(question: &Key, mark: &Mark) -> bool
    ensures { result ≡ is_series_asking question.now mark.now }
{
    match mark {
        Mark::Asked {
            question: key,
            cause,
        } => key_eq(question, key) && is_counted(*cause),
        _ => false,
    }
}

fn is_asking(question: &Key, mark: &Mark) -> bool
    ensures { result ≡ is_asking question.now mark.now }
{
    match mark {
        Mark::Asked { question: key, .. } => key_eq(question, key),
        _ => false,
    }
}

// Whether an entry asked a question in its series.
fn asks_in_series(question: &Key, entry: &Entry) -> bool
    ensures { result ≡ has_mark (is_series_asking question.now) entry.now }
{
    entry
        .marks
        .as_slice()
        .iter()
        .any(|mark| is_series_asking(question, mark))
}

// Whether an entry asked a question, for any cause.
fn asks(question: &Key, entry: &Entry) -> bool
    ensures { result ≡ has_mark (is_asking question.now) entry.now }
{
    entry
        .marks
        .as_slice()
        .iter()
        .any(|mark| is_asking(question, mark))
}

/// The moments at which a question was asked in its series since it became active, the last first. Refused only for want
/// of memory.
#[tactic(auto, unfolding(mdns_history::specs::Asking::series_moments))]
pub fn series_moments(
    alloc: Global,
    question: &Key,
    history: &[HistoryEntry],
) -> Result<Vec<Moment>, AllocError>
    ensures { IfOk result (λ moments. moments.items ≡ series_moments question.now history.now) }
{
    let mut moments = Vec::new(alloc);
    let entries = entries_since(alloc, question, history)?;
    for entry in entries {
        let asked = asks_in_series(question, entry.entry());
        put_moment_if(&mut moments, asked, entry)?;
    }
    Ok(moments)
}

/// The moments at which a question was asked since it became active, for any cause, the last first. Refused only for want
/// of memory.
#[tactic(auto, unfolding(mdns_history::specs::Asking::asking_moments))]
pub fn asking_moments(
    alloc: Global,
    question: &Key,
    history: &[HistoryEntry],
) -> Result<Vec<Moment>, AllocError>
    ensures { IfOk result (λ moments. moments.items ≡ asking_moments question.now history.now) }
{
    let mut moments = Vec::new(alloc);
    let entries = entries_since(alloc, question, history)?;
    for entry in entries {
        let asked = asks(question, entry.entry());
        put_moment_if(&mut moments, asked, entry)?;
    }
    Ok(moments)
}

// Puts the moment of an entry behind others, where a test passed.
fn put_moment_if(
    moments: &mut Vec<Moment>,
    test: bool,
    entry: &HistoryEntry,
) -> Result<(), AllocError>
    ensures { OnOk result (moments.new.items ≡ moments.old.items ++ kept_if test entry.now.moment) }
{
    if test {
        moments.push(entry.moment())?;
    }
    Ok(())
}
