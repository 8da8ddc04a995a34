ghost use Rattle.std.specs.Prelude.{◌≡◌, ◌≢◌, ◌+◌, ◌≤◌, ◌↔◌, ◌==◌, [], Some, None, IsTrue, OnOk, is_none};
ghost use Rattle.sd_call.specs.Answers.{queue_limit};
ghost use Rattle.sd_outbox.specs.Queues.{would_pass, passes, with_item, first_of, rest_of, bytes_of, count_of};

use sd_call::{Item, item_len};
use std::alloc::{AllocError, Global};
use std::collections::VecDeque;
use std::marker::Model;

/// The most bytes of frames that are queued for a session.
const LIMIT: usize = 16_777_216;

/// Why an item wasn't queued.
#[derive(Clone, Copy, Debug, PartialEq, Eq)]
pub enum AppendError {
    /// The frames would pass 16,777,216 bytes, or the queue was cut before. It is empty and stays cut.
    Cut = 1,
    /// Memory was refused. The queue is as before.
    NoMemory = 2,
}

/// What a session takes from its queue.
#[derive(Drop)]
pub enum Taken {
    /// The item that was appended first of those that were queued.
    One(Item),
    /// Nothing is queued.
    Empty,
    /// The queue was cut.
    Cut,
}

/// What a session was given and hasn't taken, in order; or that it was cut, since it took too little.
#[derive(Drop)]
pub struct Outbox {
    queued: VecDeque<Item>,
    // How many bytes the frames of what is queued have.
    bytes: usize,
    is_cut: bool,
}

impl Model for Outbox {
    ghost use Rattle.std.specs.Prelude.{◌≡◌, ◌-◌, ◌≤◌, [], Some, None, IsTrue, if◌then◌else◌};
    ghost use Rattle.std.specs.VecDeque.{deque_len, deque_capacity};
    ghost use Rattle.sd_call.specs.Answers.{frames_len, queue_limit};
    ghost use Rattle.sd_outbox.specs.Queues.{Queue};

    ghost Value = { Queue };

    ghost view = { λ o. record { items = if o.is_cut then None else Some o.queued.items; spare = deque_capacity o.queued - deque_len o.queued } };

    ghost invariant = { λ o. (o.bytes ≡ frames_len o.queued.items) × (o.bytes ≤ queue_limit) × (IsTrue o.is_cut → o.queued.items ≡ []) };
}

impl Outbox {
    /// An empty queue without room.
    pub fn new(alloc: Global) -> Self
        ensures { result.items ≡ Some [] }
    {
        Outbox {
            queued: VecDeque::new(alloc),
            bytes: 0,
            is_cut: false,
        }
    }

    /// Makes room for `more` items beyond those that are queued. Refused only for want of memory.
    pub fn reserve(&mut self, more: usize) -> Result<(), AllocError>
        ensures room { OnOk result (more ≤ self.new.spare) }
        ensures items { self.new.items ≡ self.old.items }
        ensures spare { self.old.spare ≤ self.new.spare }
    {
        self.queued.reserve(more)
    }

    /// Puts an item behind what is queued. `Cut` exactly where the frames of what is queued and of the item would pass
    /// 16,777,216 bytes, or the queue was cut before: then it is emptied and stays cut. `NoMemory` only where there was no
    /// room, and then nothing changed. Takes room of one item at most.
    #[tactic(auto, using(crate::proofs::Lengths::frames_len_pushed))]
    pub fn append(&mut self, item: Item) -> Result<(), AppendError>
        ensures ok { OnOk result (self.new.items ≡ with_item item self.old.items) }
        ensures cut { (result ≡ Err AppendError.Cut) ↔ IsTrue (would_pass item self.old.items) }
        ensures emptied { result ≡ Err AppendError.Cut → self.new.items ≡ None }
        ensures unchanged { result ≡ Err AppendError.NoMemory → self.new.items ≡ self.old.items }
        ensures reserved { 1 ≤ self.old.spare → result ≢ Err AppendError.NoMemory }
        ensures spare { self.old.spare ≤ self.new.spare + 1 }
    {
        let len = item_len(&item);
        if self.is_cut || LIMIT - self.bytes < len {
            self.cut();
            return Err(AppendError::Cut);
        }
        if self.queued.push_back(item).is_err() {
            return Err(AppendError::NoMemory);
        }
        self.bytes += len;
        Ok(())
    }

    /// Whether the frames of what is queued and of these items would pass 16,777,216 bytes. Of a cut queue it tells whether
    /// these alone would.
    pub fn passes(&self, items: &[Item]) -> bool
        ensures { result ≡ passes items.now self.now.items }
    {
        let mut room = LIMIT - self.bytes();
        for item in items {
            let len = item_len(item);
            if len > room {
                return true;
            }
            room -= len;
        }
        false
    }

    /// Takes out the item that was appended first: `Empty` exactly where nothing is queued, `Cut` exactly where the queue
    /// was cut. Takes no memory and no room, and doesn't look at the other items.
    pub fn take(&mut self) -> Taken
        ensures first { result ≡ first_of self.old.items }
        ensures rest { self.new.items ≡ rest_of self.old.items }
        ensures spare { self.old.spare ≤ self.new.spare }
    {
        if self.is_cut {
            return Taken::Cut;
        }
        match self.queued.pop_front() {
            None => Taken::Empty,
            Some(item) => {
                self.bytes -= item_len(&item);
                Taken::One(item)
            }
        }
    }

    /// Empties the queue and cuts it for good.
    pub fn cut(&mut self)
        ensures items { self.new.items ≡ None }
        ensures spare { self.old.spare ≤ self.new.spare }
    {
        self.queued.clear();
        self.bytes = 0;
        self.is_cut = true;
    }

    /// Whether the queue was cut.
    pub fn is_cut(&self) -> bool
        ensures { result ≡ is_none self.now.items }
    {
        self.is_cut
    }

    /// How many bytes the frames of the queued items have, each with its length word.
    pub fn bytes(&self) -> usize
        ensures bytes { result ≡ bytes_of self.now.items }
        ensures within { result ≤ queue_limit }
    {
        self.bytes
    }

    /// How many items are queued.
    pub fn len(&self) -> usize
        ensures { result ≡ count_of self.now.items }
    {
        self.queued.len()
    }

    /// Whether nothing is queued, as of a cut queue.
    pub fn is_empty(&self) -> bool
        ensures { result ≡ (count_of self.now.items == 0) }
    {
        self.queued.is_empty()
    }
}
