//! Items of one token, and the `;` that goes with them.

ghost use Rattle.std.specs.Prelude.{◌≡◌, ◌≤◌, ◌<◌, length, IfOk, Some};
ghost use Rattle.node_tree.specs.Gives.{Gives};
ghost use Rattle.c_expr.specs.reader.Reading as e;
ghost use Rattle.c_items.specs.reader.Reading as reading;
ghost use Rattle.c_items.specs.Table as table;

use crate::make::{bare, named};
use c_expr::{Part, Token, Word, is};
use node_tree::{Kind, ReadFault};
use std::alloc::Global;

/// The place behind a `;`, where one stands there.
pub fn ended(tokens: &[Token<'_>], at: usize) -> usize
    requires { at ≤ length tokens.now }
    ensures within { result ≤ length tokens.now }
    ensures gives { Some (reading.place result) ≡ reading.row tokens.now 0 table.ended at }
{
    if is(tokens, at, Word::Semicolon) {
        return at + 1;
    }
    at
}

/// Dots of a pattern, with the `;` that follows.
#[tactic(auto, using(crate::proofs::Steps::level_none, crate::proofs::Steps::dots_item_step))]
pub fn dots_item(
    alloc: Global,
    tokens: &[Token<'_>],
    room: u32,
    at: usize,
) -> Result<(Part, usize), ReadFault>
    requires { at ≤ length tokens.now }
    ensures within { IfOk result (λ x. x.1 ≤ length tokens.now) }
    ensures gives { Gives e.one result (reading.level tokens.now room table.DotsItem at) }
{
    if room == 0 {
        return Err(ReadFault::NoTree);
    }
    if is(tokens, at, Word::Dots) {
        let end = ended(tokens, at + 1);
        return Ok((bare(alloc, tokens, Kind::Dots, at, end)?, end));
    }
    if !is(tokens, at, Word::MetaDots) {
        return Err(ReadFault::NoTree);
    }
    let end = ended(tokens, at + 1);
    Ok((named(alloc, tokens, Kind::MetaDots, at, end)?, end))
}

/// A line that begins with `#`.
#[tactic(auto, using(crate::proofs::Steps::level_none, crate::proofs::Steps::directive_step))]
pub fn directive(
    alloc: Global,
    tokens: &[Token<'_>],
    room: u32,
    at: usize,
) -> Result<(Part, usize), ReadFault>
    requires { at ≤ length tokens.now }
    ensures within { IfOk result (λ x. x.1 ≤ length tokens.now) }
    ensures gives { Gives e.one result (reading.level tokens.now room table.Directive at) }
{
    if room == 0 {
        return Err(ReadFault::NoTree);
    }
    if !is(tokens, at, Word::Directive) {
        return Err(ReadFault::NoTree);
    }
    let end = at + 1;
    Ok((named(alloc, tokens, Kind::Directive, at, end)?, end))
}

/// `";"`
#[tactic(auto, using(crate::proofs::Steps::level_none, crate::proofs::Steps::empty_step))]
pub fn empty(
    alloc: Global,
    tokens: &[Token<'_>],
    room: u32,
    at: usize,
) -> Result<(Part, usize), ReadFault>
    requires { at ≤ length tokens.now }
    ensures within { IfOk result (λ x. x.1 ≤ length tokens.now) }
    ensures gives { Gives e.one result (reading.level tokens.now room table.Empty at) }
{
    if room == 0 {
        return Err(ReadFault::NoTree);
    }
    if !is(tokens, at, Word::Semicolon) {
        return Err(ReadFault::NoTree);
    }
    let end = at + 1;
    Ok((bare(alloc, tokens, Kind::Empty, at, end)?, end))
}
