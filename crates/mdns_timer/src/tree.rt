// The least of several moments: a tree over the places of a list.
ghost use Rattle.std.specs.Prelude.{◌≡◌, ℕ, ◌+◌, ◌*◌, ◌<◌, ◌≤◌, ◌^◌, length, min, IfOk, IfNone, IfSome};
ghost use Rattle.lists.specs.Lists.{least};
ghost use Rattle.mdns_timer.specs.Tree.{least_at, moment_at, IsTree, IsTreeBut, IsWidth, IsKept};
ghost use Rattle.mdns_timer.specs.Parts.{IsPart, NoneDue, IsFirstDue};

use crate::part::Part;
use std::alloc::{AllocError, Global};

/// The least moment below a node, or the moment at the place that it stands for.
pub fn least_at(nodes: &[u64], moments: &[u64], node: usize) -> u64
    ensures { result ≡ least_at nodes.now moments.now node }
{
    if node < nodes.len() {
        nodes[node]
    } else {
        moment_at(moments, node - nodes.len())
    }
}

// The moment at a place; behind the list it is the last one that there is.
fn moment_at(moments: &[u64], place: usize) -> u64
    ensures { result ≡ moment_at moments.now place }
{
    if place < moments.len() {
        moments[place]
    } else {
        u64::MAX
    }
}

// The least of what the two children of a node have.
fn least_below(nodes: &[u64], moments: &[u64], node: usize) -> u64
    requires { node < 2 ^ 62 }
    ensures { result ≡ min (least_at nodes.now moments.now (2 * node)) (least_at nodes.now moments.now (2 * node + 1)) }
{
    least_at(nodes, moments, 2 * node).min(least_at(nodes, moments, 2 * node + 1))
}

/// The least of the moments of a tree; `None` exactly where there is none.
pub fn least_in(nodes: &[u64], moments: &[u64]) -> Option<u64>
    requires { IsKept moments.now nodes.now }
    ensures { result ≡ least moments.now }
{
    if moments.is_empty() {
        return None;
    }
    Some(least_at(nodes, moments, 1))
}

/// Tells anew what lies above a place.
pub fn mend(nodes: &mut [u64], moments: &[u64], place: usize)
    requires place { place < length nodes.old }
    requires small { length nodes.old < 2 ^ 60 }
    requires others { IsTreeBut place moments.now nodes.old }
    ensures { IsTree moments.now nodes.new }
{
    let mut node = nodes.len() + place;
    while node > 1 {
        node /= 2;
        nodes[node] = least_below(nodes, moments, node);
    }
}

/// Tells all nodes anew.
pub fn build(nodes: &mut [u64], moments: &[u64])
    requires { length nodes.old < 2 ^ 60 }
    ensures { IsTree moments.now nodes.new }
{
    let mut node = nodes.len();
    while node > 1 {
        node -= 1;
        nodes[node] = least_below(nodes, moments, node);
    }
}

/// A tree of so many leaves. Refused only for want of memory.
pub fn built(alloc: Global, moments: &[u64], size: usize) -> Result<Vec<u64>, AllocError>
    requires { size < 2 ^ 60 }
    ensures len { IfOk result (λ nodes. length nodes.items ≡ size) }
    ensures tree { IfOk result (λ nodes. IsTree moments.now nodes.items) }
{
    let mut nodes = Vec::with_capacity(alloc, size)?;
    for _ in 0..size {
        nodes.push(0)?;
    }
    build(&mut nodes, moments);
    Ok(nodes)
}

/// The least power of two that isn't below so many places.
pub fn size_for(places: usize) -> usize
    requires { places < 2 ^ 59 }
    ensures enough { places ≤ result }
    ensures small { result < 2 ^ 60 }
    ensures width { IsWidth result }
{
    let mut size = 1;
    while size < places {
        size *= 2;
    }
    size
}

/// The first place from `from` on in a part whose moment has come at `now`, in ms.
pub fn due_in(nodes: &[u64], moments: &[u64], part: Part, from: usize, now: u64) -> Option<usize>
    requires tree { IsTree moments.now nodes.now }
    requires small { length nodes.now < 2 ^ 60 }
    requires part { IsPart (length nodes.now) part }
    requires before { NoneDue moments.now now from part.first }
    ensures none { IfNone result (NoneDue moments.now now from (part.first + part.width)) }
    ensures some { IfSome result (IsFirstDue moments.now now from) }
{
    if part.first + part.width <= from {
        return None;
    }
    if least_at(nodes, moments, part.node) > now {
        return None;
    }
    if part.width == 1 {
        return Some(part.first);
    }
    let width = part.width / 2;
    let left = Part {
        node: 2 * part.node,
        first: part.first,
        width,
    };
    let right = Part {
        node: 2 * part.node + 1,
        first: part.first + width,
        width,
    };
    match due_in(nodes, moments, left, from, now) {
        Some(place) => Some(place),
        None => due_in(nodes, moments, right, from, now),
    }
}
