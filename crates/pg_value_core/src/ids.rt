//! What names an element of a graph.

/// A node's number, which its tenant's counter gave it.
#[derive(Clone, Copy, PartialEq, Eq)]
pub struct NodeId(pub u64);

/// A relationship's number, which its tenant's counter gave it.
#[derive(Clone, Copy, Default)]
pub struct RelId(pub u64);

/// A walk: the numbers of a node, a relationship, a node and so on, in turn.
#[derive(Drop)]
pub struct Path(pub Vec<u64>);
