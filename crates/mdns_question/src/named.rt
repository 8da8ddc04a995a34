// The questions of a name, which stand side by side.
ghost use Rattle.std.specs.Prelude.{◌≡◌, ℕ, suc, ◌<◌, ◌≤◌, true, false, length, slice_index_or};
ghost use Rattle.dns_name.specs.Names.{folded_eq};
ghost use Rattle.mdns_timer.specs.Strict.{IsStrict};
ghost use Rattle.mdns_question.specs.declared.tracked.Tracked.{Tracked};
ghost use Rattle.mdns_question.specs.Tracking.{tracked_cmp};
ghost use Rattle.mdns_question.specs.Placed.{AreOfName};

use crate::Tracked;
use dns_name::Name;

/// The place of the first question of a name, and the place behind the last one; they are equal where there is none. They are found at
/// once where the question at the place `near` is one of the name.
pub fn places_near(questions: &[Tracked], name: &Name, near: usize) -> (usize, usize)
    requires { IsStrict tracked_cmp questions.now }
    ensures { AreOfName questions.now name.now result.0 result.1 }
{
    if is_at(questions, name, near) {
        let first = first_to(questions, name, near);
        (first, end_from(questions, name, near + 1))
    } else {
        places_of(questions, name)
    }
}

/// The same where no place is known to be near.
pub fn places_of(questions: &[Tracked], name: &Name) -> (usize, usize)
    requires { IsStrict tracked_cmp questions.now }
    ensures { AreOfName questions.now name.now result.0 result.1 }
{
    let first = questions.partition_point(|one| one.key.name.folded_cmp(name).is_lt());
    (first, end_from(questions, name, first))
}

// Whether the question at a place is one of a name.
fn is_at(questions: &[Tracked], name: &Name, place: usize) -> bool
    ensures within { result ≡ true → place < length questions.now }
    ensures named { result ≡ true → (d : Tracked) → folded_eq name.now (slice_index_or questions.now place d).key.name ≡ true }
{
    place < questions.len() && name.folded_eq(&questions[place].key.name)
}

// The place of the first of the questions of a name that stand side by side up to a place.
fn first_to(questions: &[Tracked], name: &Name, to: usize) -> usize
    requires { to ≤ length questions.now }
    ensures order { result ≤ to }
    ensures named { (k : ℕ) → k < to → (d : Tracked) → result ≤ k → folded_eq name.now (slice_index_or questions.now k d).key.name ≡ true }
    ensures before { (k : ℕ) (d : Tracked) → suc k ≡ result → folded_eq name.now (slice_index_or questions.now k d).key.name ≡ false }
{
    let mut first = to;
    while first > 0 {
        if !name.folded_eq(&questions[first - 1].key.name) {
            return first;
        }
        first -= 1;
    }
    first
}

// The place behind the questions of a name that stand side by side from a place on. Mostly a name has one question or none, and each one
// between is looked at later.
fn end_from(questions: &[Tracked], name: &Name, from: usize) -> usize
    requires { from ≤ length questions.now }
    ensures order { from ≤ result }
    ensures within { result ≤ length questions.now }
    ensures named { (k : ℕ) → k < result → (d : Tracked) → from ≤ k → folded_eq name.now (slice_index_or questions.now k d).key.name ≡ true }
    ensures behind { (d : Tracked) → result < length questions.now → folded_eq name.now (slice_index_or questions.now result d).key.name ≡ false }
{
    for end in from..questions.len() {
        if !name.folded_eq(&questions[end].key.name) {
            return end;
        }
    }
    questions.len()
}
