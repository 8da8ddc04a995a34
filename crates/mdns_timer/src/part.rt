// A part of a tree.

/// A node, and how many places lie below it, from the first one on.
#[derive(Clone, Copy)]
pub struct Part {
    pub node: usize,
    pub first: usize,
    pub width: usize,
}
