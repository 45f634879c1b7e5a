//! The moves of a unit for one source.

use flow_reach::Moves;
use node_tree::List;
use taint_plan::Goal;

/// What the points of a unit do to the facts, and the goals of the sinks. Fact 0 is carried on every path, and the others are the
/// names of the unit.
#[derive(Drop)]
pub struct UnitMoves {
    pub moves: Moves,
    pub goals: List<Goal>,
}
