//! Nodes without text of their own, made of parts.

ghost use Rattle.std.specs.Prelude.{◌≡◌, ◌<◌, [], ◌∷◌, length, IfOk};
ghost use Rattle.c_expr.specs.Build.{cut, nodes, over as node_over, token_at, span_between};

use c_expr::{Part, Token, over, over_one, over_two, span_at, text_at};
use node_tree::{Kind, List, Memory, Node, Text};
use std::alloc::Global;

/// A node over others, from a token up to another.
pub fn node(
    alloc: Global,
    tokens: &[Token<'_>],
    kind: Kind,
    at: usize,
    end: usize,
    parts: Vec<Part>,
) -> Result<Part, Memory>
    ensures { IfOk result (λ p. p ≡ cut (node_over kind [] (span_between tokens.now at end) parts.items)) }
{
    over(
        alloc,
        kind,
        Text::new(alloc),
        span_at(tokens, at, end),
        parts,
    )
}

/// A node without kids, from a token up to another.
pub fn bare(
    alloc: Global,
    tokens: &[Token<'_>],
    kind: Kind,
    at: usize,
    end: usize,
) -> Result<Part, Memory>
    ensures { IfOk result (λ p. p ≡ cut (node_over kind [] (span_between tokens.now at end) [])) }
{
    node(alloc, tokens, kind, at, end, Vec::new(alloc))
}

/// The same with the text of its first token.
pub fn named(
    alloc: Global,
    tokens: &[Token<'_>],
    kind: Kind,
    at: usize,
    end: usize,
) -> Result<Part, Memory>
    ensures { IfOk result (λ p. p ≡ cut (node_over kind (token_at tokens.now at).text (span_between tokens.now at end) [])) }
{
    let text = Text::from_str(alloc, text_at(tokens, at))?;
    over(alloc, kind, text, span_at(tokens, at, end), Vec::new(alloc))
}

/// A node over one other.
pub fn node_one(
    alloc: Global,
    tokens: &[Token<'_>],
    kind: Kind,
    at: usize,
    end: usize,
    part: Part,
) -> Result<Part, Memory>
    ensures { IfOk result (λ p. p ≡ cut (node_over kind [] (span_between tokens.now at end) (part ∷ []))) }
{
    over_one(
        alloc,
        kind,
        Text::new(alloc),
        span_at(tokens, at, end),
        part,
    )
}

/// A node over two others.
pub fn node_two(
    alloc: Global,
    tokens: &[Token<'_>],
    kind: Kind,
    at: usize,
    end: usize,
    first: Part,
    last: Part,
) -> Result<Part, Memory>
    ensures { IfOk result (λ p. p ≡ cut (node_over kind [] (span_between tokens.now at end) (first ∷ last ∷ []))) }
{
    over_two(
        alloc,
        kind,
        Text::new(alloc),
        span_at(tokens, at, end),
        first,
        last,
    )
}

/// The nodes of some parts.
#[tactic(auto, using(crate::proofs::Rounds::nodes_more))]
pub fn nodes_of(alloc: Global, parts: Vec<Part>) -> Result<List<Node>, Memory>
    ensures { IfOk result (λ ns. ns ≡ nodes parts.items) }
{
    let mut kids = Vec::with_capacity(alloc, parts.len())?;
    for part in parts {
        kids.push(part.node)?;
    }
    Ok(List::from_vec(kids))
}
