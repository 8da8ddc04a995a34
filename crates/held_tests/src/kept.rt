// What the rows work on, and what each row gives.

use crate::asking::asking_row;
use crate::caches::cache_row;
use crate::held_records::held_row;
use crate::known_answers::known_row;
use crate::questions::Asked;
use mdns_asking::Asking;
use mdns_cache::{Cache, Steps};
use mdns_records::Records;
use row_words::{RowError, Told, is_row, words};
use std::alloc::Global;
use std::sync::ledger::Ledger;

/// What rows work on that are calls one after another.
#[derive(Drop)]
pub struct Kept {
    cache: Cache,
    records: Records,
    asked: Asked,
    asking: Asking,
}

impl Kept {
    /// Nothing of each.
    pub fn new(alloc: Global) -> Result<Kept, RowError> {
        let cache = Cache::new(alloc, 0, 7)?;
        let records = Records::new(alloc, 7)?;
        Ok(Kept {
            cache,
            records,
            asked: Asked::new(alloc),
            asking: Asking::new(alloc),
        })
    }

    /// The line that a row is printed as: the row and what came of it.
    pub fn told<L: Ledger>(
        &mut self,
        alloc: Global,
        steps: &mut Steps<L>,
        line: &str,
    ) -> Result<Vec<u8>, RowError> {
        let mut told = Told::new(alloc);
        told.put(line)?;
        if is_row(line) {
            told.put(" = ")?;
            self.put_row(&mut told, steps, line)?;
        }
        told.put("\n")?;
        Ok(told.text)
    }

    fn put_row<L: Ledger>(
        &mut self,
        told: &mut Told,
        steps: &mut Steps<L>,
        line: &str,
    ) -> Result<(), RowError> {
        let words = words(told.alloc, line)?;
        let (subject, row) = words.split_first().ok_or(RowError::NotUnderstood)?;
        self.tell(told, steps, *subject, row)
    }

    fn tell<L: Ledger>(
        &mut self,
        told: &mut Told,
        steps: &mut Steps<L>,
        subject: &str,
        row: &[&str],
    ) -> Result<(), RowError> {
        match subject {
            "cache" => cache_row(told, &mut self.cache, steps, row),
            "held" => held_row(told, &mut self.records, steps, row),
            "known" => known_row(told, row),
            "question" => self.asked.row(told, row),
            "asking" => asking_row(told, &mut self.asking, row),
            _ => Err(RowError::NotUnderstood),
        }
    }
}
