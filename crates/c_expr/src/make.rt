//! The nodes of the grammar, made of parts. One that is too deep is cut off.

ghost use Rattle.std.specs.Prelude.{◌≡◌, ◌<◌, suc, max, length, IfOk, [], ◌∷◌};
ghost use Rattle.node_tree.specs.declared.kind.Kind.TheVariants as k;
ghost use Rattle.c_expr.specs.Table.{Own, AsId};
ghost use Rattle.c_expr.specs.Build as build;
ghost use Rattle.c_expr.specs.Build.{cut, token_at, tallest};
ghost use Rattle.c_expr.specs.Build.{list_of};
ghost use Rattle.c_expr.specs.Words as words;

use crate::part::Part;
use crate::word::{Token, Word};
use node_tree::{Kind, List, MOST_DEEP, Memory, Node, Span, Text};
use std::alloc::Global;

/// The kind of the node that a token makes, where it makes one.
fn kind_of(word: Word) -> Kind
    ensures { result ≡ words.kind_of word }
{
    match word {
        Word::Name => Kind::Name,
        Word::Number => Kind::Number,
        Word::Str => Kind::Str,
        Word::Char => Kind::Char,
        Word::StrAny => Kind::StrAny,
        Word::Meta => Kind::Meta,
        Word::MetaDots => Kind::MetaDots,
        Word::Dots => Kind::Dots,
        _ => Kind::Absent,
    }
}

/// The text of the node that a token makes.
fn shown(word: Word, text: &str) -> &str
    ensures { result.now ≡ words.shown word text.now }
{
    match word {
        Word::Str => match text.strip_suffix('"') {
            Some(front) => front,
            None => text,
        },
        Word::Char => match text.strip_suffix('\'') {
            Some(front) => front,
            None => text,
        },
        Word::StrAny | Word::Dots => "",
        _ => text,
    }
}

/// The kind of a name that is no expression; a metavariable keeps its own.
fn id_kind_of(word: Word) -> Kind
    ensures { result ≡ build.leaf_kind AsId word }
{
    match word {
        Word::Name => Kind::Id,
        word => kind_of(word),
    }
}

/// The node of the token there.
pub fn leaf(alloc: Global, tokens: &[Token<'_>], at: usize) -> Result<Part, Memory>
    requires { at < length tokens.now }
    ensures { IfOk result (λ p. p ≡ build.leaf tokens.now Own at) }
{
    let token = &tokens[at];
    let node = Node {
        kind: kind_of(token.word),
        text: Text::from_str(alloc, shown(token.word, token.text.as_str()))?,
        kids: List::new(alloc),
        span: token.span,
    };
    Ok(Part { node, depth: 1 })
}

/// The name there, which is no expression.
pub fn id(alloc: Global, tokens: &[Token<'_>], at: usize) -> Result<Part, Memory>
    requires { at < length tokens.now }
    ensures { IfOk result (λ p. p ≡ build.leaf tokens.now AsId at) }
{
    let token = &tokens[at];
    let node = Node {
        kind: id_kind_of(token.word),
        text: Text::from_str(alloc, shown(token.word, token.text.as_str()))?,
        kids: List::new(alloc),
        span: token.span,
    };
    Ok(Part { node, depth: 1 })
}

/// A node without text and kids.
fn bare(alloc: Global, at: u32, depth: u32) -> Part
    ensures { result ≡ record { node = build.node k.Absent [] [] (build.empty_at at); depth = depth } }
{
    let node = Node {
        kind: Kind::Absent,
        text: Text::new(alloc),
        kids: List::new(alloc),
        span: Span { from: at, to: at },
    };
    Part { node, depth }
}

/// A node that is left out.
pub fn absent(alloc: Global, at: u32) -> Part
    ensures { result ≡ build.absent at }
{
    bare(alloc, at, 1)
}

/// A part, or where it is left out what stands for it.
pub fn or_absent(alloc: Global, from: u32, part: Option<Part>) -> Part
    ensures { build.padded from 1 (list_of part) ≡ result ∷ [] }
{
    match part {
        Some(part) => part,
        None => absent(alloc, from),
    }
}

/// Whether a node of this kind without kids has no tokens.
#[tactic(auto, unfolding(crate::specs::Build::may_be_bare))]
fn may_be_bare(kind: Kind) -> bool
    ensures { result ≡ build.may_be_bare kind }
{
    kind.place() == Kind::List.place() || kind.place() == Kind::Absent.place()
}

/// A node, which without tokens stands where its parent begins.
#[tactic(auto, unfolding(crate::specs::Build::settled))]
fn settle(node: Node, at: u32) -> Node
    ensures { result ≡ build.settled at node }
{
    let Node {
        kind,
        text,
        kids,
        span,
    } = node;
    let span = if may_be_bare(kind) && kids.len() == 0 {
        Span { from: at, to: at }
    } else {
        span
    };
    Node {
        kind,
        text,
        kids,
        span,
    }
}

/// A node over kids that are so deep.
#[tactic(auto, unfolding(crate::specs::Build::cut))]
fn finish(alloc: Global, kind: Kind, text: Text, span: Span, kids: Vec<Node>, depth: u32) -> Part
    ensures { result ≡ cut (record { node = build.node kind text kids.items span; depth = suc depth }) }
{
    if depth >= MOST_DEEP {
        return bare(alloc, 0, MOST_DEEP + 1);
    }
    let node = Node {
        kind,
        text,
        kids: List::from_vec(kids),
        span,
    };
    Part {
        node,
        depth: depth + 1,
    }
}

/// A node over one other.
#[tactic(auto, unfolding(crate::specs::Build::over))]
pub fn over_one(
    alloc: Global,
    kind: Kind,
    text: Text,
    span: Span,
    kid: Part,
) -> Result<Part, Memory>
    ensures { IfOk result (λ p. p ≡ cut (build.over kind text span (kid ∷ []))) }
{
    let kids = vec![in alloc; settle(kid.node, span.from)]?;
    Ok(finish(alloc, kind, text, span, kids, kid.depth))
}

/// A node over two others.
#[tactic(auto, unfolding(crate::specs::Build::over))]
pub fn over_two(
    alloc: Global,
    kind: Kind,
    text: Text,
    span: Span,
    first: Part,
    last: Part,
) -> Result<Part, Memory>
    ensures { IfOk result (λ p. p ≡ cut (build.over kind text span (first ∷ last ∷ []))) }
{
    let depth = first.depth.max(last.depth);
    let kids = vec![in alloc; settle(first.node, span.from), settle(last.node, span.from)]?;
    Ok(finish(alloc, kind, text, span, kids, depth))
}

/// A node over others.
#[tactic(auto, unfolding(crate::specs::Build::over), using(crate::proofs::Parts::settled_more, crate::proofs::Parts::tallest_more))]
pub fn over(
    alloc: Global,
    kind: Kind,
    text: Text,
    span: Span,
    parts: Vec<Part>,
) -> Result<Part, Memory>
    ensures { IfOk result (λ p. p ≡ cut (build.over kind text span parts.items)) }
{
    let mut kids = Vec::with_capacity(alloc, parts.len())?;
    let mut depth = 0;
    for part in parts {
        depth = depth.max(part.depth);
        kids.push(settle(part.node, span.from))?;
    }
    Ok(finish(alloc, kind, text, span, kids, depth))
}

/// A node put over its first kid, which stands before its text; `from` is where it begins.
#[tactic(auto, using(crate::proofs::Cut::graft_made))]
pub fn graft_none(
    alloc: Global,
    from: u32,
    left: Part,
    kind: Kind,
    text: Text,
    span: Span,
) -> Result<Part, Memory>
    ensures { IfOk result (λ p. p ≡ cut (build.grafted from left (cut (build.over kind text span [])))) }
{
    let kids = vec![in alloc; settle(left.node, from)]?;
    let span = Span { from, to: span.to };
    Ok(finish(alloc, kind, text, span, kids, left.depth))
}

/// The same with a second kid.
#[tactic(auto, using(crate::proofs::Cut::graft_made))]
pub fn graft_one(
    alloc: Global,
    from: u32,
    left: Part,
    kind: Kind,
    text: Text,
    span: Span,
    kid: Part,
) -> Result<Part, Memory>
    ensures { IfOk result (λ p. p ≡ cut (build.grafted from left (cut (build.over kind text span (kid ∷ []))))) }
{
    let depth = left.depth.max(kid.depth);
    let kids = vec![in alloc; settle(left.node, from), settle(kid.node, from)]?;
    let span = Span { from, to: span.to };
    Ok(finish(alloc, kind, text, span, kids, depth))
}

/// The same with a second and a third kid.
#[tactic(auto, using(crate::proofs::Cut::graft_made))]
pub fn graft_two(
    alloc: Global,
    from: u32,
    left: Part,
    kind: Kind,
    text: Text,
    span: Span,
    kid: Part,
    last: Part,
) -> Result<Part, Memory>
    ensures { IfOk result (λ p. p ≡ cut (build.grafted from left (cut (build.over kind text span (kid ∷ last ∷ []))))) }
{
    let depth = left.depth.max(kid.depth).max(last.depth);
    let kids = vec![in alloc;
        settle(left.node, from),
        settle(kid.node, from),
        settle(last.node, from),
    ]?;
    let span = Span { from, to: span.to };
    Ok(finish(alloc, kind, text, span, kids, depth))
}

/// A part whose width is so deep.
#[tactic(auto, unfolding(crate::specs::Build::cut))]
pub fn widen(alloc: Global, part: Part, width: Part) -> Part
    ensures { result ≡ cut (record { node = part.node; depth = max part.depth (tallest (width ∷ [])) }) }
{
    let depth = part.depth.max(width.depth);
    if depth > MOST_DEEP {
        return bare(alloc, 0, MOST_DEEP + 1);
    }
    Part {
        node: part.node,
        depth,
    }
}
