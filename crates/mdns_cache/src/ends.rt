// Which record ends first: a tournament over the places of a list.
ghost use Rattle.std.specs.Prelude.{◌≡◌, ℕ, ◌+◌, ◌*◌, ◌<◌, ◌≤◌, ◌^◌, [], ◌∷◌, List, length, MatchOption, HoldsAt, IfOk};
ghost use Rattle.by_name.specs.Filed.{AgreeBut};
ghost use Rattle.mdns_cache.specs.Ends.{winner, sooner, IsPlayed, IsFirst};
ghost use Rattle.mdns_cache.specs.Lifetimes.{ending_cmp};

use dns_record::record_cmp;
use mdns_history::Held;
use std::alloc::{AllocError, Global};
use std::cmp::Ordering;

fn ending_cmp(left: &Held, right: &Held) -> Ordering
    ensures { result ≡ ending_cmp left.now right.now }
{
    match left.end.cmp(&right.end) {
        Ordering::Equal => record_cmp(&left.rr, &right.rr),
        unequal => unequal,
    }
}

/// The winner at a node: what is kept of it, or the place that it stands for.
pub fn winner(nodes: &[usize], node: usize) -> usize
    ensures { result ≡ winner nodes.now node }
{
    if node < nodes.len() {
        nodes[node]
    } else {
        node - nodes.len()
    }
}

// Of two places that whose record ends first.
fn sooner(held: &[Held], left: usize, right: usize) -> usize
    ensures { result ≡ sooner held.now left right }
{
    match held.get(left) {
        None => right,
        Some(one) => match held.get(right) {
            None => left,
            Some(other) => {
                if ending_cmp(one, other).is_le() {
                    left
                } else {
                    right
                }
            }
        },
    }
}

/// Plays anew what the record at a place takes part in.
pub fn mend(nodes: &mut [usize], held: &[Held], place: usize)
    requires place { place < length nodes.old }
    requires size { length nodes.old < 2 ^ 60 }
    ensures { (dirty : List ℕ) → IsPlayed held.now (place ∷ dirty) nodes.old → IsPlayed held.now dirty nodes.new }
{
    let mut node = nodes.len() + place;
    while node > 1 {
        node /= 2;
        let left = winner(nodes, 2 * node);
        let right = winner(nodes, 2 * node + 1);
        nodes[node] = sooner(held, left, right);
    }
}

/// The same where the record at a place alone was changed since all was played: nothing above a node changes that another record wins as
/// before.
pub fn mend_changed(nodes: &mut [usize], held: &[Held], place: usize)
    requires place { place < length nodes.old }
    requires size { length nodes.old < 2 ^ 60 }
    ensures { (before : List Held) → AgreeBut (place ∷ []) before held.now → IsPlayed before [] nodes.old → IsPlayed held.now [] nodes.new }
{
    let mut node = nodes.len() + place;
    while node > 1 {
        node /= 2;
        let left = winner(nodes, 2 * node);
        let right = winner(nodes, 2 * node + 1);
        let first = sooner(held, left, right);
        if first != place && nodes[node] == first {
            return;
        }
        nodes[node] = first;
    }
}

/// The place of the record that ends first.
pub fn first_of(nodes: &[usize], held: &[Held]) -> Option<usize>
    requires played { IsPlayed held.now [] nodes.now }
    requires room { length held.now ≤ length nodes.now }
    ensures { MatchOption result (held.now ≡ []) (λ place. (place < length held.now) × HoldsAt (IsFirst held.now) held.now place) }
{
    let first = winner(nodes, 1);
    if first < held.len() {
        Some(first)
    } else {
        None
    }
}

/// A tournament of so many places, all played. Refused only for want of memory.
pub fn played(alloc: Global, held: &[Held], size: usize) -> Result<Vec<usize>, AllocError>
    requires { size < 2 ^ 60 }
    ensures len { IfOk result (λ nodes. length nodes.items ≡ size) }
    ensures played { IfOk result (λ nodes. IsPlayed held.now [] nodes.items) }
{
    let mut nodes = Vec::with_capacity(alloc, size)?;
    for _ in 0..size {
        nodes.push(0)?;
    }
    let mut node = size;
    while node > 1 {
        node -= 1;
        let left = winner(&nodes, 2 * node);
        let right = winner(&nodes, 2 * node + 1);
        nodes[node] = sooner(held, left, right);
    }
    Ok(nodes)
}
