//! Expressions within statements.

ghost use Rattle.std.specs.Prelude.{◌≤◌, ◌∷◌, [], length, IfOk, IsTrue};
ghost use Rattle.c_expr.specs.Words.{none_is_end};
ghost use Rattle.node_tree.specs.Gives.{Gives};
ghost use Rattle.c_expr.specs.reader.Reading as e;
ghost use Rattle.c_expr.specs.Runs.{level_of};
ghost use Rattle.c_items.specs.reader.Reading as reading;
ghost use Rattle.c_items.specs.Table as rows;
ghost use Rattle.c_items.specs.Table.{Expression};

use crate::look::starts_expression;
use c_expr::{CLevel, Part, Token, Word, absent, is, read_level, start_at};
use node_tree::ReadFault;
use std::alloc::Global;

/// An expression, a type or a declarator of a level.
#[tactic(auto, using(crate::proofs::Steps::expression_step))]
pub fn expression(
    alloc: Global,
    tokens: &[Token<'_>],
    level: CLevel,
    room: u32,
    at: usize,
) -> Result<(Part, usize), ReadFault>
    requires { at ≤ length tokens.now }
    ensures within { IfOk result (λ x. x.1 ≤ length tokens.now) }
    ensures gives { Gives e.one result (reading.level tokens.now room (Expression (level_of level)) at) }
{
    read_level(alloc, tokens, level, room, at)
}

/// `[comma]`
pub fn some_expression(
    alloc: Global,
    tokens: &[Token<'_>],
    room: u32,
    at: usize,
) -> Result<(Option<Part>, usize), ReadFault>
    requires { at ≤ length tokens.now }
    ensures within { IfOk result (λ x. x.1 ≤ length tokens.now) }
    ensures gives { Gives e.maybe result (reading.row tokens.now room rows.some_expression at) }
{
    if !starts_expression(tokens, at) {
        return Ok((None, at));
    }
    let (part, end) = expression(alloc, tokens, CLevel::Comma, room, at)?;
    Ok((Some(part), end))
}

/// `[comma]`, with what stands for it where it is left out.
pub fn maybe_expression(
    alloc: Global,
    tokens: &[Token<'_>],
    room: u32,
    at: usize,
) -> Result<(Part, usize), ReadFault>
    requires { at ≤ length tokens.now }
    ensures within { IfOk result (λ x. x.1 ≤ length tokens.now) }
    ensures gives { Gives e.one result (reading.row tokens.now room rows.maybe at) }
{
    if !starts_expression(tokens, at) {
        return Ok((absent(alloc, start_at(tokens, at)), at));
    }
    expression(alloc, tokens, CLevel::Comma, room, at)
}

/// `"(" comma ")"`
pub fn condition(
    alloc: Global,
    tokens: &[Token<'_>],
    room: u32,
    at: usize,
) -> Result<(Part, usize), ReadFault>
    requires { at ≤ length tokens.now }
    ensures within { IfOk result (λ x. x.1 ≤ length tokens.now) }
    ensures gives { Gives e.one result (reading.row tokens.now room rows.condition at) }
{
    if !is(tokens, at, Word::OpenRound) {
        return Err(ReadFault::NoTree);
    }
    let (part, close) = expression(alloc, tokens, CLevel::Comma, room, at + 1)?;
    if !is(tokens, close, Word::CloseRound) {
        return Err(ReadFault::NoTree);
    }
    Ok((part, close + 1))
}

/// The place behind a word that must stand there.
pub fn behind(tokens: &[Token<'_>], at: usize, word: Word) -> Result<usize, ReadFault>
    requires { IsTrue (none_is_end (word ∷ [])) }
    ensures within { IfOk result (λ x. x ≤ length tokens.now) }
    ensures gives { Gives reading.place result (reading.row tokens.now 0 (rows.tok word) at) }
{
    if !is(tokens, at, word) {
        return Err(ReadFault::NoTree);
    }
    Ok(at + 1)
}
