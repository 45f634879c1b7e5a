//! What a pattern node says nothing of.

ghost use Rattle.std.specs.Prelude.{◌≡◌, ◌↔◌, ◌<◌, ◌+◌, ◌∷◌, length, drop, IsTrue};
ghost use Rattle.std.specs.Option.{option_copied};
ghost use Rattle.node_tree.specs.Tree.{kind_of, kids_of};
ghost use Rattle.node_match.specs.Free.{is_absent as absent, is_empty_list as empty_list, is_free as free, parts_of, IsTextFree};

use crate::class::is_same;
use node_tree::{Kind, Node};

// Whether the part isn't written.
fn is_absent(kid: &Node) -> bool
    ensures { result ≡ absent (kind_of kid.now) }
{
    match kid.kind {
        Kind::Absent => true,
        _ => false,
    }
}

// Whether it is a list of nothing.
fn is_empty_list(kid: &Node) -> bool
    ensures { result ≡ empty_list (kind_of kid.now) (kids_of kid.now) }
{
    match kid.kind {
        Kind::List => kid.kids.as_slice().is_empty(),
        _ => false,
    }
}

/// Whether a pattern node of that kind leaves its kid at this place free.
pub fn is_free(kind: Kind, at: usize, kid: &Node) -> bool
    ensures { result ≡ free kind at kid.now }
{
    match kind {
        Kind::FunctionDef => (at == 0 && is_empty_list(kid)) || (at == 3 && is_absent(kid)),
        Kind::ClassDef => at == 0 && is_empty_list(kid),
        Kind::Param => at == 1 && is_absent(kid),
        _ => false,
    }
}

/// What a pattern node asks of the kid at this place: that it matches the pattern there, or nothing.
pub fn part_at(pattern: &Node, at: usize) -> Option<&Node>
    requires { at < length (kids_of pattern.now) }
    ensures { drop at (parts_of pattern.now) ≡ option_copied result ∷ drop (at + 1) (parts_of pattern.now) }
{
    let kid = &pattern.kids.as_slice()[at];
    if is_free(pattern.kind, at, kid) {
        return None;
    }
    Some(kid)
}

/// Whether the pattern says nothing of the text of a node.
pub fn is_text_free(pattern: &Node) -> bool
    ensures { IsTrue result ↔ IsTextFree pattern.now }
{
    if !is_same(pattern.kind, Kind::FunctionDef) {
        return false;
    }
    pattern.text.as_str().is_empty()
}
