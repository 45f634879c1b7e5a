//! Leaves whose ranges lie in a text.

ghost use Rattle.std.specs.Prelude.{◌≡◌, ◌↔◌, IsTrue, All};
ghost use Rattle.std.specs.Str.{IsCharBoundary};
ghost use Rattle.node_tree.specs.Span.{LiesIn};
ghost use Rattle.store_file.specs.Found.{MemberLiesIn, LeafLiesIn};

use meta_bind::{Binding, Bound};
use node_tree::Span;
use tree_match::Leaf;

// Whether a place in the text cuts no character of it.
fn is_boundary(text: &[u8], at: u32) -> bool
    ensures { IsTrue result ↔ IsCharBoundary text.now at }
{
    let at = at as usize;
    if at >= text.len() {
        return at == text.len();
    }
    text[at] < 128 || text[at] >= 192
}

// Whether the span lies in the text, and cuts no character of it.
fn lies_in(text: &[u8], span: Span) -> bool
    ensures { IsTrue result ↔ LiesIn text.now span }
{
    if span.from > span.to {
        return false;
    }
    is_boundary(text, span.from) && is_boundary(text, span.to)
}

// Whether the span of each bound does.
fn all_lie_in(text: &[u8], bounds: &[Bound]) -> bool
    ensures { IsTrue result ↔ All (λ b. LiesIn text.now b.span) bounds.now }
{
    for bound in bounds {
        if !lies_in(text, bound.span) {
            return false;
        }
    }
    true
}

// Whether the range and the span of each bound do.
fn member_lies_in(text: &[u8], member: &(Span, Binding)) -> bool
    ensures { IsTrue result ↔ MemberLiesIn text.now member.now }
{
    lies_in(text, member.0) && all_lie_in(text, member.1.bounds())
}

// Whether those of each member do.
fn members_lie_in(text: &[u8], members: &[(Span, Binding)]) -> bool
    ensures { IsTrue result ↔ All (MemberLiesIn text.now) members.now }
{
    for member in members {
        if !member_lies_in(text, member) {
            return false;
        }
    }
    true
}

/// Whether each range and each span of a leaf lies in the text, and cuts no character of it.
pub fn leaf_lies_in(text: &[u8], leaf: &Leaf) -> bool
    ensures { IsTrue result ↔ LeafLiesIn text.now leaf.now }
{
    match leaf {
        Leaf::Crowded => true,
        Leaf::Full(set) => members_lie_in(text, set.members()),
    }
}
