//! Patterns whose names stand for something already.

ghost use Rattle.std.specs.Prelude.{◌≡◌, true, drop, IsTrue, IfOk};
ghost use Rattle.node_tree.specs.declared.node.Node.{Node as node_value};
ghost use Rattle.node_tree.specs.Tree.{kind_of, text_of};
ghost use Rattle.node_match.specs.Kinds.{role_of as role};
ghost use Rattle.node_match.specs.Sets.{Among};
ghost use Rattle.node_search.specs.Steady.{IsBound, BindsNothing, IsSteady};

use crate::list::is_last;
use meta_bind::Trail;
use node_match::{Role, is_wild, role_of};
use node_tree::{Memory, Node};

// Whether the name stands for something.
fn is_bound(name: &str, trail: &Trail<'_>) -> bool
    ensures { IsTrue result → IsBound trail.now name.now }
{
    match trail.get(name) {
        None => false,
        Some(_) => true,
    }
}

// Whether the pattern node binds nothing new.
fn binds_nothing(pattern: &Node, trail: &Trail<'_>) -> bool
    ensures { IsTrue result → BindsNothing trail.now (role (kind_of pattern.now)) (text_of pattern.now) }
{
    match role_of(pattern.kind) {
        Role::Meta => {
            if is_wild(&pattern.text) {
                return true;
            }
            is_bound(pattern.text.as_str(), trail)
        }
        Role::MetaDots => is_bound(pattern.text.as_str(), trail),
        _ => true,
    }
}

/// Whether no name of the pattern is new.
pub fn is_steady(pattern: &Node, trail: &Trail<'_>) -> Result<bool, Memory>
    ensures { IfOk result (λ steady. IsTrue steady → IsSteady trail.now pattern.now) }
{
    for node in pattern.walk()? {
        if !binds_nothing(node, trail) {
            return Ok(false);
        }
    }
    Ok(true)
}

/// Whether no name of the patterns from one on is new.
pub fn are_steady(patterns: &[Node], from: usize, trail: &Trail<'_>) -> Result<bool, Memory>
    ensures { IfOk result (λ steady. IsTrue steady → (q : node_value) → Among (drop from patterns.now) q → IsSteady trail.now q) }
{
    for at in from..patterns.len() {
        if !is_steady(&patterns[at], trail)? {
            return Ok(false);
        }
    }
    Ok(true)
}

/// Whether nothing can be added: no name is new, and this binding is there.
pub fn is_settled<'t>(steady: bool, trails: &[Trail<'t>], trail: &Trail<'t>) -> bool
    ensures still { IsTrue result → steady ≡ true }
    ensures there { IsTrue result → Among trails.now trail.now }
{
    if !steady {
        return false;
    }
    is_last(trails, trail)
}
