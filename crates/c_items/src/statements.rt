//! Statements of one line.

ghost use Rattle.std.specs.Prelude.{◌≤◌, length, IfOk};
ghost use Rattle.node_tree.specs.Gives.{Gives};
ghost use Rattle.c_expr.specs.reader.Reading as e;
ghost use Rattle.c_items.specs.reader.Reading as reading;
ghost use Rattle.c_items.specs.Table as table;

use crate::blocks::block;
use crate::dots::{dots_item, empty};
use crate::loops::{do_loop, for_loop, if_statement, switch, while_loop};
use crate::make::{bare, node_one};
use crate::parts::{expression, some_expression};
use crate::settle::stands_alone;
use c_expr::{CLevel, NAMES, Part, Token, Word, id, is, is_among, or_absent, start_at};
use node_tree::{Kind, ReadFault};
use std::alloc::Global;

/// A statement that is no label.
#[cycle(items)]
#[tactic(auto, using(crate::proofs::Steps::level_none, crate::proofs::Steps::statement_step))]
pub fn statement(
    alloc: Global,
    tokens: &[Token<'_>],
    room: u32,
    at: usize,
) -> Result<(Part, usize), ReadFault>
    requires { at ≤ length tokens.now }
    ensures within { IfOk result (λ x. x.1 ≤ length tokens.now) }
    ensures gives { Gives e.one result (reading.level tokens.now room table.Statement at) }
{
    if room == 0 {
        return Err(ReadFault::NoTree);
    }
    if stands_alone(tokens, at) {
        return dots_item(alloc, tokens, room, at);
    }
    if is(tokens, at, Word::OpenCurly) {
        return block(alloc, tokens, room, at);
    }
    if is(tokens, at, Word::If) {
        return if_statement(alloc, tokens, room, at);
    }
    if is(tokens, at, Word::While) {
        return while_loop(alloc, tokens, room, at);
    }
    if is(tokens, at, Word::Do) {
        return do_loop(alloc, tokens, room, at);
    }
    if is(tokens, at, Word::For) {
        return for_loop(alloc, tokens, room, at);
    }
    if is(tokens, at, Word::Switch) {
        return switch(alloc, tokens, room, at);
    }
    simple(alloc, tokens, room, at)
}

/// A statement that holds no other.
#[tactic(auto, using(crate::proofs::Steps::level_none, crate::proofs::Steps::simple_step))]
fn simple(
    alloc: Global,
    tokens: &[Token<'_>],
    room: u32,
    at: usize,
) -> Result<(Part, usize), ReadFault>
    requires { at ≤ length tokens.now }
    ensures within { IfOk result (λ x. x.1 ≤ length tokens.now) }
    ensures gives { Gives e.one result (reading.level tokens.now room table.Simple at) }
{
    if room == 0 {
        return Err(ReadFault::NoTree);
    }
    if is(tokens, at, Word::Return) {
        return return_statement(alloc, tokens, room, at);
    }
    if is_among(tokens, at, &[Word::Break, Word::Continue]) {
        return jump(alloc, tokens, room, at);
    }
    if is(tokens, at, Word::Goto) {
        return goto(alloc, tokens, room, at);
    }
    if is(tokens, at, Word::Semicolon) {
        return empty(alloc, tokens, room, at);
    }
    evaluated(alloc, tokens, room, at)
}

/// `"return" [comma] ";"`
#[tactic(auto, using(crate::proofs::Steps::level_none, crate::proofs::Steps::return_step))]
fn return_statement(
    alloc: Global,
    tokens: &[Token<'_>],
    room: u32,
    at: usize,
) -> Result<(Part, usize), ReadFault>
    requires { at ≤ length tokens.now }
    ensures within { IfOk result (λ x. x.1 ≤ length tokens.now) }
    ensures gives { Gives e.one result (reading.level tokens.now room table.Return at) }
{
    if room == 0 {
        return Err(ReadFault::NoTree);
    }
    if !is(tokens, at, Word::Return) {
        return Err(ReadFault::NoTree);
    }
    let (value, close) = some_expression(alloc, tokens, room, at + 1)?;
    if !is(tokens, close, Word::Semicolon) {
        return Err(ReadFault::NoTree);
    }
    let end = close + 1;
    let value = or_absent(alloc, start_at(tokens, at), value);
    Ok((node_one(alloc, tokens, Kind::Return, at, end, value)?, end))
}

/// `"break" ";" | "continue" ";"`
#[tactic(auto, using(crate::proofs::Steps::level_none, crate::proofs::Steps::jump_step))]
fn jump(
    alloc: Global,
    tokens: &[Token<'_>],
    room: u32,
    at: usize,
) -> Result<(Part, usize), ReadFault>
    requires { at ≤ length tokens.now }
    ensures within { IfOk result (λ x. x.1 ≤ length tokens.now) }
    ensures gives { Gives e.one result (reading.level tokens.now room table.Jump at) }
{
    if room == 0 {
        return Err(ReadFault::NoTree);
    }
    let kind = if is(tokens, at, Word::Break) {
        Kind::Break
    } else if is(tokens, at, Word::Continue) {
        Kind::Continue
    } else {
        return Err(ReadFault::NoTree);
    };
    if !is(tokens, at + 1, Word::Semicolon) {
        return Err(ReadFault::NoTree);
    }
    let end = at + 2;
    Ok((bare(alloc, tokens, kind, at, end)?, end))
}

/// `"goto" NAME ";"`
#[tactic(auto, using(crate::proofs::Steps::level_none, crate::proofs::Steps::goto_step))]
fn goto(
    alloc: Global,
    tokens: &[Token<'_>],
    room: u32,
    at: usize,
) -> Result<(Part, usize), ReadFault>
    requires { at ≤ length tokens.now }
    ensures within { IfOk result (λ x. x.1 ≤ length tokens.now) }
    ensures gives { Gives e.one result (reading.level tokens.now room table.Goto at) }
{
    if room == 0 {
        return Err(ReadFault::NoTree);
    }
    if !is(tokens, at, Word::Goto) {
        return Err(ReadFault::NoTree);
    }
    if !is_among(tokens, at + 1, &NAMES) {
        return Err(ReadFault::NoTree);
    }
    let name = id(alloc, tokens, at + 1)?;
    if !is(tokens, at + 2, Word::Semicolon) {
        return Err(ReadFault::NoTree);
    }
    let end = at + 3;
    Ok((node_one(alloc, tokens, Kind::Goto, at, end, name)?, end))
}

/// `comma ";"`
#[tactic(auto, using(crate::proofs::Steps::level_none, crate::proofs::Steps::evaluated_step))]
fn evaluated(
    alloc: Global,
    tokens: &[Token<'_>],
    room: u32,
    at: usize,
) -> Result<(Part, usize), ReadFault>
    requires { at ≤ length tokens.now }
    ensures within { IfOk result (λ x. x.1 ≤ length tokens.now) }
    ensures gives { Gives e.one result (reading.level tokens.now room table.Evaluated at) }
{
    if room == 0 {
        return Err(ReadFault::NoTree);
    }
    let (value, close) = expression(alloc, tokens, CLevel::Comma, room, at)?;
    if !is(tokens, close, Word::Semicolon) {
        return Err(ReadFault::NoTree);
    }
    let end = close + 1;
    Ok((
        node_one(alloc, tokens, Kind::ExprStmt, at, end, value)?,
        end,
    ))
}
