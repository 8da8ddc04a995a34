// What the rows work on, and what each row gives.

use crate::answers::Known;
use crate::askers::asker_row;
use crate::conflicts::{conflict_row, storm_row};
use crate::draws::draw_row;
use crate::last_multicasts::last_row;
use crate::packets::packet_row;
use crate::services::{host_row, service_row, types_row};
use crate::values::value_row;
use by_name::ByName;
use mdns_asked::Asked;
use mdns_conflict::Storm;
use mdns_draw::Words;
use mdns_reply::Lasts;
use row_words::{RowError, Told, is_row, words};
use sd_index::Askers;
use std::alloc::Global;

/// What rows work on that are calls one after another.
#[derive(Drop)]
pub struct Kept {
    words: Words,
    values: ByName<u32>,
    askers: Askers,
    storm: Storm,
    known: Known,
    lasts: Lasts,
    packet: Asked,
}

impl Kept {
    /// Nothing of each.
    pub fn new(alloc: Global) -> Result<Kept, RowError> {
        let packet = Asked::new(alloc, 7, &[])?;
        Ok(Kept {
            words: Words::Same { word: 0 },
            values: ByName::new(alloc, 7),
            askers: Askers::new(alloc, 7),
            storm: Storm::new(),
            known: Known::new(alloc),
            lasts: Lasts::new(alloc, 1),
            packet,
        })
    }

    /// The line that a row is printed as: the row and what came of it.
    pub fn told(&mut self, alloc: Global, line: &str) -> Result<Vec<u8>, RowError> {
        let mut told = Told::new(alloc);
        told.put(line)?;
        if is_row(line) {
            told.put(" = ")?;
            self.put_row(&mut told, line)?;
        }
        told.put("\n")?;
        Ok(told.text)
    }

    fn put_row(&mut self, told: &mut Told, line: &str) -> Result<(), RowError> {
        let words = words(told.alloc, line)?;
        let (subject, row) = words.split_first().ok_or(RowError::NotUnderstood)?;
        self.tell(told, *subject, row)
    }

    fn tell(&mut self, told: &mut Told, subject: &str, row: &[&str]) -> Result<(), RowError> {
        match subject {
            "word" => draw_row(told, &mut self.words, row),
            "value" => value_row(told, &mut self.values, row),
            "asker" => asker_row(told, &mut self.askers, row),
            "conflict" => conflict_row(told, row),
            "storm" => storm_row(told, &mut self.storm, row),
            "host" => host_row(told, row),
            "service" => service_row(told, row),
            "types" => types_row(told, row),
            "answer" => self.known.row(told, row),
            "last" => last_row(told, &mut self.lasts, row),
            "packet" => packet_row(told, &mut self.packet, row),
            _ => Err(RowError::NotUnderstood),
        }
    }
}
