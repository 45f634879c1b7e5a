//! Dots that stand directly in one another.

ghost use Rattle.std.specs.Prelude.{List as list, ◌≡◌, ◌≢◌, ◌↔◌, ◌≤◌, ◌∷◌, []};
ghost use Rattle.node_tree.specs.declared.node.Node.{Node as node};
ghost use Rattle.node_tree.specs.declared.known.Known.{Known as known};
ghost use Rattle.node_tree.specs.Tree.{kids_of, kind_of};
ghost use Rattle.node_tree.specs.Numbers.{Numbered as numbered, count_of};
ghost use Rattle.meta_bind.specs.declared.bound.Bound.{Bound as bound};
ghost use Rattle.node_match.specs.Kinds.{role_of as role};
ghost use Rattle.node_match.specs.Relation.{Matches};
ghost use Rattle.node_match.specs.declared.class.Role.TheVariants.{Deep};

use node_match::{Role, role_of};
use node_tree::Node;

/// The last of dots that stand directly in one another. It matches the same.
pub fn innermost<'t>(pattern: &'t Node) -> &'t Node
    requires { role (kind_of pattern.now) ≡ Deep }
    ensures role { role (kind_of result.now) ≡ Deep }
    ensures last { (q : node) → kids_of result.now ≡ q ∷ [] → role (kind_of q) ≢ Deep }
    ensures within { count_of result.now ≤ count_of pattern.now }
    ensures same { (C : list known) (n : numbered) (b c : list bound) → Matches C result.now n b c ↔ Matches C pattern.now n b c }
{
    let inner = pattern.kids.as_slice();
    if inner.len() != 1 {
        return pattern;
    }
    let kid = &inner[0];
    match role_of(kid.kind) {
        Role::Deep => innermost(kid),
        _ => pattern,
    }
}
