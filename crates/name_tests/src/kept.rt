// What is kept from row to row, and which function a row is for.

use crate::labels::{built_row, label_row};
use crate::memory::{sink_row, source_row};
use crate::names::name_row;
use crate::numbers::number_row;
use dns_name::Name;
use mdns_base::{MemSink, MemSource};
use row_words::{RowError, Told, is_row};
use std::alloc::Global;

/// The values that rows work on one after another.
#[derive(Drop)]
pub struct Kept {
    name: Name,
    source: MemSource,
    sink: MemSink,
}

impl Kept {
    /// The root, a source without bytes and a sink without bytes.
    pub fn new(alloc: Global) -> Kept {
        Kept {
            name: Name::root(),
            source: MemSource::new(Vec::new(alloc), Vec::new(alloc)),
            sink: MemSink::new(alloc, Vec::new(alloc)),
        }
    }

    /// What is printed for a line: the line, and behind it what came of it, where it is a row.
    pub fn told(&mut self, alloc: Global, line: &str) -> Result<Vec<u8>, RowError> {
        let mut told = Told::new(alloc);
        told.put(line)?;
        if is_row(line) {
            told.put(" = ")?;
            self.put_row(&mut told, line)?;
        }
        told.put("\n")?;
        Ok(told.text)
    }

    // Appends what came of a row.
    fn put_row(&mut self, told: &mut Told, line: &str) -> Result<(), RowError> {
        match line.split_once(' ') {
            Some(("name", row)) => name_row(told, row),
            Some(("label", row)) => label_row(told, row),
            Some(("built", row)) => built_row(told, &mut self.name, row),
            Some(("number", row)) => number_row(told, row),
            Some(("source", row)) => source_row(told, &mut self.source, row),
            Some(("sink", row)) => sink_row(told, &mut self.sink, row),
            _ => Err(RowError::NotUnderstood),
        }
    }
}
