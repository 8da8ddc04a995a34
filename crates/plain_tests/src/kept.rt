// The history that rows make and ask.
ghost use Rattle.std.specs.Prelude.{◌<◌, ◌^◌, length};

use crate::row_error::RowError;
use mdns_history::Entry;
use plain_history::HistoryEntry;
use std::alloc::Global;

/// The most entries of a history.
const MOST_ENTRIES: usize = 1000;

/// A short history.
#[derive(Drop)]
pub struct Kept {
    entries: Vec<HistoryEntry>,
    ghost short: { length entries.items < 2 ^ 30 },
}

impl Kept {
    /// A history without entries.
    pub fn new(alloc: Global) -> Self {
        Kept {
            entries: Vec::new(alloc),
        }
    }

    /// The entries, the last one first.
    pub fn entries(&self) -> &[HistoryEntry]
        ensures { length result.now < 2 ^ 30 }
    {
        &self.entries
    }

    /// Puts an entry behind the others.
    pub fn put(&mut self, entry: Entry) -> Result<(), RowError> {
        match HistoryEntry::new(entry) {
            Some(entry) if self.entries.len() < MOST_ENTRIES => {
                self.entries.insert(0, entry)?;
                Ok(())
            }
            _ => Err(RowError::NotUnderstood),
        }
    }
}
