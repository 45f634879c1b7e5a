//! What stands around a statement.

use graph_form::Point;
use node_tree::List;

/// What follows a statement, where `break`, `continue` and `raise` go, the finally parts that a jump out of the unit
/// passes, and the unit's exit. A route is the points to which a jump goes one after the other: the first points of each
/// finally part that it passes, and then its target.
#[derive(Drop)]
pub struct Around {
    pub next: List<Point>,
    pub break_to: List<List<Point>>,
    pub continue_to: List<List<Point>>,
    pub raise_to: List<List<Point>>,
    pub finals: List<List<Point>>,
    pub exit: Point,
}
