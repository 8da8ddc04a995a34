// The rows by their subjects.
use crate::fakes::{self, Fakes};
use crate::plugs::{self, Plugged};
use crate::{clients, frames, queues, replays};
use mdns_base::MemSource;
use row_words::{RowError, is_row};
use sd_call::Replayed;
use sd_outbox::Outbox;
use std::alloc::Global;

/// What rows work on, one after the other.
#[derive(Drop)]
pub struct Kept {
    replay: Replayed,
    queue: Outbox,
    source: MemSource,
    plug: Plugged,
    fakes: Fakes,
}

impl Kept {
    /// Nothing of anything.
    pub fn new(alloc: Global) -> Self {
        Kept {
            replay: Replayed::new(alloc),
            queue: Outbox::new(alloc),
            source: MemSource::new(Vec::new(alloc), Vec::new(alloc)),
            plug: Plugged::new(alloc),
            fakes: Fakes::new(alloc),
        }
    }
}

/// What is printed for a line: the line, and what came of it if it is a row.
pub fn printed(alloc: Global, kept: &mut Kept, line: &str) -> Result<String, RowError> {
    let mut out = String::from_str(alloc, line)?;
    if is_row(line) {
        out.push_str(" = ")?;
        out.push_str(row(alloc, kept, line)?.as_str())?;
    }
    Ok(out)
}

// What came of a row.
fn row(alloc: Global, kept: &mut Kept, line: &str) -> Result<String, RowError> {
    let Some((subject, rest)) = line.split_once(' ') else {
        return Err(RowError::NotUnderstood);
    };
    let words: Vec<&str> = rest.split(' ').collect(alloc)?;
    row_of_words(alloc, kept, subject, words.as_slice())
}

fn row_of_words(
    alloc: Global,
    kept: &mut Kept,
    subject: &str,
    words: &[&str],
) -> Result<String, RowError> {
    match subject {
        "replay" => replays::row(alloc, &mut kept.replay, words),
        "queue" => queues::row(alloc, &mut kept.queue, words),
        "frame" => frames::row(alloc, &mut kept.source, words),
        "plug" => plugs::row(alloc, &mut kept.plug, words),
        "client" => clients::row(alloc, &mut kept.plug, words),
        "ear" => fakes::ear_row(alloc, &mut kept.fakes, words),
        "air" => fakes::air_row(alloc, &mut kept.fakes, words),
        "door" => fakes::door_row(alloc, &mut kept.fakes, words),
        "chacha" => fakes::chacha_row(alloc, words),
        _ => Err(RowError::NotUnderstood),
    }
}
