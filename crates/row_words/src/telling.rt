// What came of a row, as words.

use crate::error::RowError;
use dns_name::Name;
use dns_record::{Rr, put_kind, put_name, put_record};
use number_text::{put_decimal, put_hex};
use std::alloc::Global;
use std::cmp::Ordering;

/// What came of a row, as text.
#[derive(Drop)]
pub struct Told {
    /// Where the text is, and all else that a row makes.
    pub alloc: Global,
    pub text: Vec<u8>,
}

impl Told {
    /// Nothing so far.
    pub fn new(alloc: Global) -> Told {
        Told {
            alloc,
            text: Vec::new(alloc),
        }
    }

    /// Appends words.
    pub fn put(&mut self, words: &str) -> Result<(), RowError> {
        Ok(self.text.extend_from_slice(words.as_bytes())?)
    }

    /// Appends `yes` or `no`.
    pub fn put_yes(&mut self, is_so: bool) -> Result<(), RowError> {
        self.put(if is_so { "yes" } else { "no" })
    }

    /// Appends a number.
    pub fn put_decimal(&mut self, number: u64) -> Result<(), RowError> {
        Ok(put_decimal(&mut self.text, number)?)
    }

    /// Appends words, and a count behind them.
    pub fn put_count(&mut self, words: &str, count: usize) -> Result<(), RowError> {
        self.put(words)?;
        self.put_decimal(count as u64)
    }

    /// Appends a number, or `none`.
    pub fn put_number(&mut self, number: Option<u64>) -> Result<(), RowError> {
        match number {
            Some(number) => self.put_decimal(number),
            None => self.put("none"),
        }
    }

    /// Appends a number and the words that it stands for.
    pub fn put_numbered(&mut self, number: u8, words: &str) -> Result<(), RowError> {
        self.put_decimal(u64::from(number))?;
        self.put(" ")?;
        self.put(words)
    }

    /// Appends bytes in hexadecimal.
    pub fn put_hex(&mut self, bytes: &[u8]) -> Result<(), RowError> {
        Ok(put_hex(&mut self.text, bytes)?)
    }

    /// Appends bytes in hexadecimal, or `none`.
    pub fn put_bytes(&mut self, bytes: Option<&[u8]>) -> Result<(), RowError> {
        match bytes {
            Some(bytes) => self.put_hex(bytes),
            None => self.put("none"),
        }
    }

    /// Appends a name.
    pub fn put_name(&mut self, name: &Name) -> Result<(), RowError> {
        Ok(put_name(&mut self.text, name)?)
    }

    /// Appends the word of a type.
    pub fn put_kind(&mut self, kind: u16) -> Result<(), RowError> {
        Ok(put_kind(&mut self.text, kind)?)
    }

    /// Appends a record.
    pub fn put_record(&mut self, rr: &Rr) -> Result<(), RowError> {
        Ok(put_record(&mut self.text, rr)?)
    }

    /// Appends records with a plus between each two; `-` is none.
    pub fn put_records(&mut self, records: &[Rr]) -> Result<(), RowError> {
        for (place, rr) in records.iter().enumerate() {
            self.put_plus(place)?;
            self.put_record(rr)?;
        }
        self.put_none(records.is_empty())
    }

    /// Appends what stands before the thing at a place in a list: a plus, but for the first.
    pub fn put_plus(&mut self, place: usize) -> Result<(), RowError> {
        self.put(if place > 0 { " + " } else { "" })
    }

    /// Appends what stands before the thing at a place in a list: a comma, but for the first.
    pub fn put_comma(&mut self, place: usize) -> Result<(), RowError> {
        self.put(if place > 0 { ", " } else { "" })
    }

    /// Appends `-` for a list without anything.
    pub fn put_none(&mut self, is_empty: bool) -> Result<(), RowError> {
        self.put(if is_empty { "-" } else { "" })
    }

    /// Appends `less`, `equal` or `greater`.
    pub fn put_order(&mut self, order: Ordering) -> Result<(), RowError> {
        match order {
            Ordering::Less => self.put("less"),
            Ordering::Equal => self.put("equal"),
            Ordering::Greater => self.put("greater"),
        }
    }

    /// Appends the order of two values of which it is told, too, whether they are the same: that has to agree.
    pub fn put_standing(&mut self, order: Ordering, is_same: bool) -> Result<(), RowError> {
        if order.is_eq() == is_same {
            self.put_order(order)
        } else {
            self.put("the order tells other than sameness")
        }
    }
}
