//! Assignments.

use node_tree::{List, Node};

/// How a node assigns.
#[derive(Clone, Copy, Debug, PartialEq, Eq)]
pub enum Manner {
    /// A statement or a declaration gives the value: `x = 1`, `x: int = 1`, `int x = 1`.
    Statement,
    /// An expression gives the value: `x := 1`, and in C `x = 1` wherever it stands.
    Expression,
    /// The value is joined to what was held before: `x += 1`.
    Augmented,
    /// The value is gone through or entered: the target of a `for` or a `with` in Python.
    Drawn,
    /// `x++` and `--x`.
    Stepped,
    /// `del x`.
    Deleted,
    /// An import.
    Imported,
    /// The name of a caught exception.
    Caught,
    /// The name of a function or a class, where it is defined.
    Defined,
    /// A declaration in C without a value.
    Declared,
}

/// How much of a target a name is.
#[derive(Clone, Copy, Debug, PartialEq, Eq)]
pub enum Reach {
    /// The name is the target.
    Whole,
    /// It is a part of the target, which is a tuple, a list or a star.
    Part,
    /// It holds the object of which the target is an attribute or an item, or to which it points: `x` in `x.a` and `x[0]`, and
    /// in C in `*x` and `(char *)x`.
    Base,
}

/// A name that is assigned: the number of the node that writes it, and how much of a target it is.
#[derive(Clone, Copy)]
pub struct Target<'t> {
    pub at: u32,
    pub name: &'t str,
    pub reach: Reach,
}

/// What a node assigns: at least one target, and the value that all of them take, where there is one. They take it as it was
/// before any of them got it.
#[derive(Drop)]
pub struct Assignment<'t> {
    pub manner: Manner,
    pub value: Option<&'t Node>,
    pub targets: List<Target<'t>>,
}
