//! The units of a file.

ghost use Rattle.std.specs.Prelude.{◌≡◌, IfOk};
ghost use Rattle.flow_graph.specs.Units.{units_of};

use node_tree::{List, Memory, Node};

/// The units of a tree by number: 0 for its top level, and that of each function. A number that doesn't fit counts as want of
/// memory.
pub fn units(root: &Node) -> Result<List<u32>, Memory>
    ensures { IfOk result (λ units. units ≡ units_of root.now) }
{
    let mut units = List::new(root.kids.alloc());
    units.push(0)?;
    let mut walk = root.walk()?;
    let _ = walk.next();
    let mut at: u32 = 0;
    while let Some(node) = walk.next() {
        let Some(next) = at.checked_add(1) else {
            return Err(Memory);
        };
        at = next;
        if node.kind.is_function() {
            units.push(at)?;
        }
    }
    Ok(units)
}
