//! Assignments, by the numbers of names and values.

use node_tree::List;

/// What a name gets: a value, or what another name holds. Value 0 is unknown, the literals are 1, 2 and so on.
#[derive(Clone, Copy)]
pub enum Source {
    Sets(u32),
    Copies(u32),
}

/// A name, and what it gets.
#[derive(Clone, Copy)]
pub struct Assign {
    pub name: u32,
    pub source: Source,
}

/// What a unit does to its names: the number of its literals, the value of each name at the entry, and for each point the
/// nodes that assign, in the order in which they are done. The targets of one node all take the values before the node.
#[derive(Drop)]
pub struct Effects {
    pub literals: u32,
    pub start: List<u32>,
    pub points: List<List<List<Assign>>>,
}
