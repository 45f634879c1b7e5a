//! Statements as the flow sees them.

use graph_form::Point;
use node_tree::List;

/// How the flow goes through a statement. Its parts are its kids, in this order; a missing one is `Absent`.
#[derive(Clone, Copy, Debug, PartialEq, Eq)]
pub enum Form {
    /// On to what follows.
    Plain,
    /// Statements in a row, with no point of their own. A part is a `Row`.
    Row,
    /// No statement.
    Absent,
    /// Then, else.
    If,
    /// Body, else: `while` and `for`.
    Loop,
    /// Body, which comes first.
    DoWhile,
    /// Body: the `for` of C, with the points Init, Test and Statement.
    ForC,
    /// Body: `with` and `class`.
    With,
    /// Body, handlers (a `Row`), else, finally.
    Try,
    /// Body.
    Handler,
    /// Body.
    Switch,
    Case,
    Default,
    Return,
    Raise,
    Break,
    Continue,
    /// The place to which it jumps stands in `target`.
    Goto,
}

/// A statement or a part: the number of its node, how the flow goes through it, and its parts.
#[derive(Drop)]
pub struct Statement {
    pub number: u32,
    pub form: Form,
    pub target: Point,
    pub kids: List<Statement>,
}
