//! Points and edges.

use node_tree::{List, Memory, Twin};

/// What a point is of its unit or its statement. Roles compare in the order in which they stand here.
#[derive(Clone, Copy, Debug, PartialEq, Eq)]
pub enum Role {
    /// Where the unit begins.
    Entry,
    /// Where it ends.
    Exit,
    /// A statement or a handler. Of one that holds others, what is done before or between them: a condition, a subject, what a
    /// loop goes through.
    Head,
    /// What C's `for` does first.
    Init,
    /// The condition of C's `for`.
    Test,
    /// What C's `for` does after each round.
    Step,
}

/// A point: the number of its node in preorder, from 0, and its role there.
#[derive(Clone, Copy)]
pub struct Point {
    pub node: u32,
    pub role: Role,
}

/// An edge from one point to another, by their places in the list of points.
#[derive(Clone, Copy)]
pub struct Edge {
    pub from: u32,
    pub to: u32,
}

/// The points of a unit in order of node and then of role, so that the first is its entry, and the edges between them.
#[derive(Drop)]
pub struct Graph {
    pub points: List<Point>,
    pub edges: List<Edge>,
}

impl Twin for Point {
    fn copy(&self) -> Result<Point, Memory> {
        Ok(*self)
    }
}
