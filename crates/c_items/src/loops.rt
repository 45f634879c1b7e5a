//! Statements that hold others.

ghost use Rattle.std.specs.Prelude.{◌≤◌, ◌<◌, length, IfOk};
ghost use Rattle.node_tree.specs.Gives.{Gives};
ghost use Rattle.c_expr.specs.reader.Reading as e;
ghost use Rattle.c_items.specs.reader.Reading as reading;
ghost use Rattle.c_items.specs.Table as table;

use crate::blocks::sub;
use crate::declarations::declaration;
use crate::make::{node, node_two};
use crate::parts::{condition, maybe_expression};
use crate::settle::declares;
use c_expr::{Part, Token, Word, absent, is, or_absent, start_at};
use node_tree::{Kind, ReadFault};
use std::alloc::Global;

/// `"if" "(" comma ")" sub ["else" sub]`
#[cycle(items)]
#[tactic(auto, using(crate::proofs::Steps::level_none, crate::proofs::Steps::if_step))]
pub fn if_statement(
    alloc: Global,
    tokens: &[Token<'_>],
    room: u32,
    at: usize,
) -> Result<(Part, usize), ReadFault>
    requires { at ≤ length tokens.now }
    ensures within { IfOk result (λ x. x.1 ≤ length tokens.now) }
    ensures gives { Gives e.one result (reading.level tokens.now room table.If at) }
{
    if room == 0 {
        return Err(ReadFault::NoTree);
    }
    if !is(tokens, at, Word::If) {
        return Err(ReadFault::NoTree);
    }
    let (test, end) = condition(alloc, tokens, room, at + 1)?;
    let (then, end) = sub(alloc, tokens, room - 1, end)?;
    let (other, end) = else_part(alloc, tokens, room, end)?;
    let other = or_absent(alloc, start_at(tokens, at), other);
    let parts = vec![in alloc; test, then, other]?;
    Ok((node(alloc, tokens, Kind::If, at, end, parts)?, end))
}

/// `["else" sub]`
#[cycle(items)]
fn else_part(
    alloc: Global,
    tokens: &[Token<'_>],
    room: u32,
    at: usize,
) -> Result<(Option<Part>, usize), ReadFault>
    requires here { at ≤ length tokens.now }
    requires some { 0 < room }
    ensures within { IfOk result (λ x. x.1 ≤ length tokens.now) }
    ensures gives { Gives e.maybe result (reading.row tokens.now room table.else_part at) }
{
    if !is(tokens, at, Word::Else) {
        return Ok((None, at));
    }
    let (part, end) = sub(alloc, tokens, room - 1, at + 1)?;
    Ok((Some(part), end))
}

/// `"while" "(" comma ")" sub`
#[cycle(items)]
#[tactic(auto, using(crate::proofs::Steps::level_none, crate::proofs::Steps::while_step))]
pub fn while_loop(
    alloc: Global,
    tokens: &[Token<'_>],
    room: u32,
    at: usize,
) -> Result<(Part, usize), ReadFault>
    requires { at ≤ length tokens.now }
    ensures within { IfOk result (λ x. x.1 ≤ length tokens.now) }
    ensures gives { Gives e.one result (reading.level tokens.now room table.While at) }
{
    if room == 0 {
        return Err(ReadFault::NoTree);
    }
    if !is(tokens, at, Word::While) {
        return Err(ReadFault::NoTree);
    }
    let (test, end) = condition(alloc, tokens, room, at + 1)?;
    let (body, end) = sub(alloc, tokens, room - 1, end)?;
    let other = absent(alloc, start_at(tokens, at));
    let parts = vec![in alloc; test, body, other]?;
    Ok((node(alloc, tokens, Kind::While, at, end, parts)?, end))
}

/// `"do" sub "while" "(" comma ")" ";"`
#[cycle(items)]
#[tactic(auto, using(crate::proofs::Steps::level_none, crate::proofs::Steps::do_step))]
pub fn do_loop(
    alloc: Global,
    tokens: &[Token<'_>],
    room: u32,
    at: usize,
) -> Result<(Part, usize), ReadFault>
    requires { at ≤ length tokens.now }
    ensures within { IfOk result (λ x. x.1 ≤ length tokens.now) }
    ensures gives { Gives e.one result (reading.level tokens.now room table.DoWhile at) }
{
    if room == 0 {
        return Err(ReadFault::NoTree);
    }
    if !is(tokens, at, Word::Do) {
        return Err(ReadFault::NoTree);
    }
    let (body, end) = sub(alloc, tokens, room - 1, at + 1)?;
    if !is(tokens, end, Word::While) {
        return Err(ReadFault::NoTree);
    }
    let (test, close) = condition(alloc, tokens, room, end + 1)?;
    if !is(tokens, close, Word::Semicolon) {
        return Err(ReadFault::NoTree);
    }
    let end = close + 1;
    let part = node_two(alloc, tokens, Kind::DoWhile, at, end, body, test)?;
    Ok((part, end))
}

/// `"for" "(" (decl | [comma] ";") [comma] ";" [comma] ")" sub`
#[cycle(items)]
#[tactic(auto, using(crate::proofs::Steps::level_none, crate::proofs::Steps::for_step))]
pub fn for_loop(
    alloc: Global,
    tokens: &[Token<'_>],
    room: u32,
    at: usize,
) -> Result<(Part, usize), ReadFault>
    requires { at ≤ length tokens.now }
    ensures within { IfOk result (λ x. x.1 ≤ length tokens.now) }
    ensures gives { Gives e.one result (reading.level tokens.now room table.ForC at) }
{
    if room == 0 {
        return Err(ReadFault::NoTree);
    }
    if !is(tokens, at, Word::For) {
        return Err(ReadFault::NoTree);
    }
    if !is(tokens, at + 1, Word::OpenRound) {
        return Err(ReadFault::NoTree);
    }
    let (mut parts, close) = for_parts(alloc, tokens, room, at + 2)?;
    if !is(tokens, close, Word::CloseRound) {
        return Err(ReadFault::NoTree);
    }
    let (body, end) = sub(alloc, tokens, room - 1, close + 1)?;
    parts.push(body)?;
    Ok((node(alloc, tokens, Kind::ForC, at, end, parts)?, end))
}

/// `(decl | [comma] ";") [comma] ";" [comma]`
#[tactic(auto, using(crate::proofs::Steps::level_none, crate::proofs::Steps::for_parts_step))]
fn for_parts(
    alloc: Global,
    tokens: &[Token<'_>],
    room: u32,
    at: usize,
) -> Result<(Vec<Part>, usize), ReadFault>
    requires { at ≤ length tokens.now }
    ensures within { IfOk result (λ x. x.1 ≤ length tokens.now) }
    ensures gives { Gives e.parts result (reading.level tokens.now room table.ForParts at) }
{
    if room == 0 {
        return Err(ReadFault::NoTree);
    }
    let (init, end) = for_start(alloc, tokens, room, at)?;
    let (test, end) = maybe_expression(alloc, tokens, room, end)?;
    if !is(tokens, end, Word::Semicolon) {
        return Err(ReadFault::NoTree);
    }
    let (step, end) = maybe_expression(alloc, tokens, room, end + 1)?;
    Ok((vec![in alloc; init, test, step]?, end))
}

/// `decl | [comma] ";"`
#[tactic(auto, using(crate::proofs::Steps::level_none, crate::proofs::Steps::for_start_step))]
fn for_start(
    alloc: Global,
    tokens: &[Token<'_>],
    room: u32,
    at: usize,
) -> Result<(Part, usize), ReadFault>
    requires { at ≤ length tokens.now }
    ensures within { IfOk result (λ x. x.1 ≤ length tokens.now) }
    ensures gives { Gives e.one result (reading.level tokens.now room table.ForStart at) }
{
    if room == 0 {
        return Err(ReadFault::NoTree);
    }
    if declares(tokens, at) {
        return declaration(alloc, tokens, room, at);
    }
    let (init, end) = maybe_expression(alloc, tokens, room, at)?;
    if !is(tokens, end, Word::Semicolon) {
        return Err(ReadFault::NoTree);
    }
    Ok((init, end + 1))
}

/// `"switch" "(" comma ")" sub`
#[cycle(items)]
#[tactic(auto, using(crate::proofs::Steps::level_none, crate::proofs::Steps::switch_step))]
pub fn switch(
    alloc: Global,
    tokens: &[Token<'_>],
    room: u32,
    at: usize,
) -> Result<(Part, usize), ReadFault>
    requires { at ≤ length tokens.now }
    ensures within { IfOk result (λ x. x.1 ≤ length tokens.now) }
    ensures gives { Gives e.one result (reading.level tokens.now room table.Switch at) }
{
    if room == 0 {
        return Err(ReadFault::NoTree);
    }
    if !is(tokens, at, Word::Switch) {
        return Err(ReadFault::NoTree);
    }
    let (value, end) = condition(alloc, tokens, room, at + 1)?;
    let (body, end) = sub(alloc, tokens, room - 1, end)?;
    let part = node_two(alloc, tokens, Kind::Switch, at, end, value, body)?;
    Ok((part, end))
}
