// What a client holds that replays its items.
ghost use Rattle.std.specs.Prelude.{◌≡◌, ◌≤◌, ◌+◌, ◌-◌, ◌∷◌, ◌++◌, ◌==◌, filter, not, slice_get, true, false, Some, None, IsTrue, OnOk, OnErr};
ghost use Rattle.std.specs.List.{list_any};
ghost use Rattle.std.specs.Option.{option_copied};
ghost use Rattle.std.specs.Vec.{vec_len, vec_capacity};
ghost use Rattle.std.specs.FinMap.{empty, insert, remove};
ghost use Rattle.std.specs.FinSet as set;
ghost use Rattle.sd_call.specs.Replay.{replay_item, replay_reply, begins, takes_room};
ghost use Rattle.sd_call.specs.Holding.{has, is_it, are_once, answers_of, answer_at, held_sets};

use crate::{Answer, Item, Verb, answer_cmp};
use std::alloc::{AllocError, Global};
use std::marker::Model;

/// What a client has after the items that it was given: for each operation that was started and not stopped the set of its
/// answers. Two answers are the same exactly where their bytes in a frame are.
#[derive(Drop)]
pub struct Replayed {
    operations: Vec<u32>,
    kept: Vec<Kept>,
}

// An answer of an operation.
#[derive(Drop)]
pub struct Kept {
    op: u32,
    answer: Answer,
}

impl Model for Replayed {
    ghost use Rattle.std.specs.Prelude.{◌≡◌, ◌-◌, min, true};
    ghost use Rattle.std.specs.Vec.{vec_len, vec_capacity};
    ghost use Rattle.sd_call.specs.Holding.{Holding, are_once};

    ghost Value = { Holding };

    ghost view = { λ r. record {
      operations = r.operations.items;
      kept = r.kept.items;
      spare = min (vec_capacity r.operations - vec_len r.operations) (vec_capacity r.kept - vec_len r.kept);
    } };

    ghost invariant = { λ r. are_once r.kept.items ≡ true };
}

impl Replayed {
    /// No operations at all. It takes no memory.
    #[tactic(auto, unfolding(crate::specs::Holding::sets_in))]
    pub fn new(alloc: Global) -> Self
        ensures { held_sets result ≡ empty }
    {
        Replayed {
            operations: Vec::new(alloc),
            kept: Vec::new(alloc),
        }
    }

    /// Takes room for so many more items. Refused only for want of memory.
    pub fn reserve(&mut self, more: usize) -> Result<(), AllocError>
        ensures room { OnOk result (more ≤ self.new.spare) }
        ensures same { (self.new.operations ≡ self.old.operations) × (self.new.kept ≡ self.old.kept) }
        ensures grows { self.old.spare ≤ self.new.spare }
    {
        self.operations.reserve(more)?;
        self.kept.reserve(more)?;
        Ok(())
    }

    /// Takes an item in, with room for one. It answers `false`, and nothing changes, exactly where the item can't be: an
    /// answer is added that is there already, or removed that isn't there, or its operation isn't under way. Only a start
    /// and a stop that were answered with code 0 begin and end an operation. It takes no memory.
    pub fn replay(&mut self, item: Item) -> bool
        requires { 1 ≤ self.old.spare }
        ensures done { IsTrue result → replay_item item (held_sets self.old) ≡ Some (held_sets self.new) }
        ensures refused { result ≡ false → (replay_item item (held_sets self.old) ≡ None) × (self.new ≡ self.old) }
        ensures spare { self.old.spare ≤ self.new.spare + 1 }
        // Other items than a start and an answer that is added take no room.
        ensures kept { takes_room item ≡ false → self.old.spare ≤ self.new.spare }
    {
        match item {
            Item::Reply { op, verb, code } => {
                if code == 0 {
                    self.answered(op, verb);
                }
                true
            }
            Item::Add { op, answer } => self.add(op, answer),
            Item::Remove { op, answer } => self.remove(op, &answer),
        }
    }

    /// The answer of an operation at a place, counted from 0. `None` exactly past its last answer, or where the operation
    /// isn't under way.
    pub fn answer(&self, op: u32, place: usize) -> Option<&Answer>
        ensures value { option_copied result ≡ answer_at op place self.now }
        ensures once { are_once self.now.kept ≡ true }
    {
        if !has_operation(&self.operations, op) {
            return None;
        }
        answer_in(&self.kept, op, place)
    }
}

impl Replayed {
    // What a start or a stop does that was answered with code 0.
    fn answered(&mut self, op: u32, verb: Verb)
        requires { 1 ≤ self.old.spare }
        ensures sets { held_sets self.new ≡ replay_reply op verb true (held_sets self.old) }
        ensures spare { self.old.spare ≤ self.new.spare + 1 }
        ensures kept { begins verb ≡ false → self.old.spare ≤ self.new.spare }
    {
        match verb {
            Verb::Start => self.start(op),
            Verb::Stop => self.stop(op),
            Verb::Update => {}
        }
    }

    #[tactic(auto, using(crate::proofs::KeptLists::once_kept))]
    fn start(&mut self, op: u32)
        requires { 1 ≤ self.old.spare }
        ensures sets { held_sets self.new ≡ insert (held_sets self.old) op set.empty }
        ensures spare { self.old.spare ≤ self.new.spare + 1 }
    {
        drop_answers(&mut self.kept, op);
        if !has_operation(&self.operations, op) {
            // There is room for one more.
            let _ = self.operations.push(op);
        }
    }

    #[tactic(auto, using(crate::proofs::KeptLists::once_kept))]
    fn stop(&mut self, op: u32)
        ensures sets { held_sets self.new ≡ remove (held_sets self.old) op }
        ensures spare { self.old.spare ≤ self.new.spare }
    {
        drop_answers(&mut self.kept, op);
        drop_operation(&mut self.operations, op);
    }

    #[tactic(auto, using(crate::proofs::Holdings::add_away, crate::proofs::Holdings::add_there, crate::proofs::Holdings::added, crate::proofs::KeptLists::once_added))]
    fn add(&mut self, op: u32, answer: Answer) -> bool
        requires { 1 ≤ self.old.spare }
        ensures done { IsTrue result → replay_item (Item.Add op answer) (held_sets self.old) ≡ Some (held_sets self.new) }
        ensures refused { result ≡ false → (replay_item (Item.Add op answer) (held_sets self.old) ≡ None) × (self.new ≡ self.old) }
        ensures spare { self.old.spare ≤ self.new.spare + 1 }
    {
        if !has_operation(&self.operations, op) || has_answer(&self.kept, op, &answer) {
            return false;
        }
        // There is room for one more.
        let _ = self.kept.push(Kept { op, answer });
        true
    }

    #[tactic(auto, using(crate::proofs::Holdings::remove_away, crate::proofs::Holdings::remove_missing, crate::proofs::Holdings::removed, crate::proofs::KeptLists::once_kept))]
    fn remove(&mut self, op: u32, answer: &Answer) -> bool
        ensures done { IsTrue result → replay_item (Item.Remove op answer.now) (held_sets self.old) ≡ Some (held_sets self.new) }
        ensures refused { result ≡ false → (replay_item (Item.Remove op answer.now) (held_sets self.old) ≡ None) × (self.new ≡ self.old) }
        ensures spare { self.old.spare ≤ self.new.spare }
    {
        if !has_operation(&self.operations, op) || !has_answer(&self.kept, op, answer) {
            return false;
        }
        drop_answer(&mut self.kept, op, answer);
        true
    }
}

fn has_operation(operations: &[u32], op: u32) -> bool
    ensures { result ≡ has op operations.now }
{
    operations.iter().any(|other| *other == op)
}

fn has_answer(kept: &[Kept], op: u32, answer: &Answer) -> bool
    ensures { result ≡ list_any (is_it op answer.now) kept.now }
{
    kept.iter().any(|one| is_it(op, answer, one))
}

#[tactic(auto, unfolding(crate::specs::Answers::answer_eq))]
fn is_it(op: u32, answer: &Answer, one: &Kept) -> bool
    ensures { result ≡ is_it op answer.now one.now }
{
    one.op == op && answer_cmp(answer, &one.answer).is_eq()
}

fn drop_operation(operations: &mut Vec<u32>, op: u32)
    ensures items { operations.new.items ≡ filter (λ other. not (other == op)) operations.old.items }
    ensures room { vec_capacity operations.old - vec_len operations.old ≤ vec_capacity operations.new - vec_len operations.new }
{
    operations.retain(|other| *other != op);
}

fn drop_answers(kept: &mut Vec<Kept>, op: u32)
    ensures items { kept.new.items ≡ filter (λ one. not (one.op == op)) kept.old.items }
    ensures room { vec_capacity kept.old - vec_len kept.old ≤ vec_capacity kept.new - vec_len kept.new }
{
    kept.retain(|one| one.op != op);
}

fn drop_answer(kept: &mut Vec<Kept>, op: u32, answer: &Answer)
    ensures items { kept.new.items ≡ filter (λ one. not (is_it op answer.now one)) kept.old.items }
    ensures room { vec_capacity kept.old - vec_len kept.old ≤ vec_capacity kept.new - vec_len kept.new }
{
    kept.retain(|one| !is_it(op, answer, one));
}

// The answer of an operation at a place.
fn answer_in(kept: &[Kept], op: u32, place: usize) -> Option<&Answer>
    ensures { option_copied result ≡ slice_get (answers_of op kept.now) place }
{
    match kept_at(kept, op, place) {
        Some(one) => Some(&one.answer),
        None => None,
    }
}

fn kept_at(kept: &[Kept], op: u32, place: usize) -> Option<&Kept>
    ensures { option_copied result ≡ slice_get (filter (λ one. one.op == op) kept.now) place }
{
    let mut before = 0;
    for one in kept {
        if one.op == op {
            if before == place {
                return Some(one);
            }
            before += 1;
        }
    }
    None
}
