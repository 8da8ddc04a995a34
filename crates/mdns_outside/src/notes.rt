// Lists to which threads add, for a test to read.
use std::alloc::Global;
use std::mem;
use std::sync::{Mutex, Wait};

/// A list to which threads add, and that a test reads. What finds no memory is left out. No clause speaks of it.
#[derive(Drop)]
pub struct Notes<T> {
    alloc: Global,
    items: Mutex<Vec<T>>,
}

impl<T: Drop> Notes<T> {
    /// An empty list.
    pub fn new(alloc: Global) -> Self {
        Notes {
            alloc,
            items: Mutex::new(Vec::new(alloc)),
        }
    }

    /// Adds an item at the end.
    pub fn add<R: Wait>(&self, rt: &R, item: T) {
        let mut items = self.items.lock(rt);
        let _ = items.push(item);
    }

    /// How many items there are.
    pub fn count<R: Wait>(&self, rt: &R) -> usize {
        self.items.lock(rt).len()
    }

    /// Takes all items out.
    pub fn take<R: Wait>(&self, rt: &R) -> Vec<T> {
        let mut items = self.items.lock(rt);
        mem::replace(&mut *items, Vec::new(self.alloc))
    }
}

impl Notes<u8> {
    /// Adds bytes at the end.
    pub fn add_bytes<R: Wait>(&self, rt: &R, bytes: &[u8]) {
        let mut items = self.items.lock(rt);
        let _ = items.extend_from_slice(bytes);
    }
}
