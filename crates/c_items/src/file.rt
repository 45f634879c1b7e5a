//! Items of a file.

ghost use Rattle.std.specs.Prelude.{◌≤◌, length, IfOk};
ghost use Rattle.node_tree.specs.Gives.{Gives};
ghost use Rattle.c_expr.specs.reader.Reading as e;
ghost use Rattle.c_items.specs.reader.Reading as reading;
ghost use Rattle.c_items.specs.Table as table;

use crate::blocks::block;
use crate::declarations::declared;
use crate::dots::{directive, dots_item, empty, ended};
use crate::functions::defines;
use crate::look::starts_file_item;
use crate::make::node_one;
use crate::parts::expression;
use crate::settle::invokes;
use c_expr::{
    CLevel, Listed, Part, Token, Word, graft_one, graft_two, is, is_among, leaf, list, span_at,
    start_at,
};
use node_tree::{Kind, ReadFault, Text};
use std::alloc::Global;

/// `{file_item}`
#[tactic(auto, using(crate::proofs::Steps::level_none, crate::proofs::Steps::file_step, crate::proofs::Steps::file_turn, crate::proofs::Steps::rest_turned, crate::proofs::Steps::list_laws))]
pub fn file_items(
    alloc: Global,
    tokens: &[Token<'_>],
    room: u32,
    at: usize,
) -> Result<(Vec<Part>, usize), ReadFault>
    requires { at ≤ length tokens.now }
    ensures within { IfOk result (λ x. x.1 ≤ length tokens.now) }
    ensures gives { Gives e.parts result (reading.level tokens.now room table.File at) }
{
    if room == 0 {
        return Err(ReadFault::NoTree);
    }
    let mut parts = Vec::new(alloc);
    let mut end = at;
    for turn in 0..=tokens.len() {
        if !starts_file_item(tokens, end) {
            return Ok((parts, end));
        }
        let (part, next) = file_item(alloc, tokens, room, end)?;
        parts.push(part)?;
        end = next;
    }
    Err(ReadFault::NoTree)
}

/// A directive, a `;`, the use of a macro, a function or a declaration.
#[tactic(auto, using(crate::proofs::Steps::level_none, crate::proofs::Steps::file_item_step))]
fn file_item(
    alloc: Global,
    tokens: &[Token<'_>],
    room: u32,
    at: usize,
) -> Result<(Part, usize), ReadFault>
    requires { at ≤ length tokens.now }
    ensures within { IfOk result (λ x. x.1 ≤ length tokens.now) }
    ensures gives { Gives e.one result (reading.level tokens.now room table.FileItem at) }
{
    if room == 0 {
        return Err(ReadFault::NoTree);
    }
    if is(tokens, at, Word::Directive) {
        return directive(alloc, tokens, room, at);
    }
    if is(tokens, at, Word::Semicolon) {
        return empty(alloc, tokens, room, at);
    }
    if is_among(tokens, at, &[Word::Dots, Word::MetaDots]) {
        return dots_item(alloc, tokens, room, at);
    }
    if invokes(tokens, at) {
        return invocation(alloc, tokens, room, at);
    }
    external(alloc, tokens, room, at)
}

/// `NAME "(" args ")" [";"]`
#[tactic(auto, using(crate::proofs::Steps::level_none, crate::proofs::Steps::invocation_step))]
fn invocation(
    alloc: Global,
    tokens: &[Token<'_>],
    room: u32,
    at: usize,
) -> Result<(Part, usize), ReadFault>
    requires { at ≤ length tokens.now }
    ensures within { IfOk result (λ x. x.1 ≤ length tokens.now) }
    ensures gives { Gives e.one result (reading.level tokens.now room table.Invocation at) }
{
    if room == 0 {
        return Err(ReadFault::NoTree);
    }
    let (call, end) = invoked(alloc, tokens, room, at)?;
    let end = ended(tokens, end);
    let part = node_one(alloc, tokens, Kind::ExprStmt, at, end, call)?;
    Ok((part, end))
}

/// `NAME "(" args ")"`
#[tactic(auto, using(crate::proofs::Steps::level_none, crate::proofs::Steps::invoked_step))]
fn invoked(
    alloc: Global,
    tokens: &[Token<'_>],
    room: u32,
    at: usize,
) -> Result<(Part, usize), ReadFault>
    requires { at ≤ length tokens.now }
    ensures within { IfOk result (λ x. x.1 ≤ length tokens.now) }
    ensures gives { Gives e.one result (reading.level tokens.now room table.Invoked at) }
{
    if room == 0 {
        return Err(ReadFault::NoTree);
    }
    if !invokes(tokens, at) {
        return Err(ReadFault::NoTree);
    }
    let name = leaf(alloc, tokens, at)?;
    let (args, close) = list(alloc, tokens, Listed::Args, room, at + 2)?;
    if !is(tokens, close, Word::CloseRound) {
        return Err(ReadFault::NoTree);
    }
    let end = close + 1;
    let span = span_at(tokens, at + 1, end);
    let text = Text::new(alloc);
    let from = start_at(tokens, at);
    let part = graft_one(alloc, from, name, Kind::Call, text, span, args)?;
    Ok((part, end))
}

/// `spec (declr block | [var {"," var}] ";")`
#[tactic(auto, using(crate::proofs::Steps::level_none, crate::proofs::Steps::external_step))]
fn external(
    alloc: Global,
    tokens: &[Token<'_>],
    room: u32,
    at: usize,
) -> Result<(Part, usize), ReadFault>
    requires { at ≤ length tokens.now }
    ensures within { IfOk result (λ x. x.1 ≤ length tokens.now) }
    ensures gives { Gives e.one result (reading.level tokens.now room table.External at) }
{
    if room == 0 {
        return Err(ReadFault::NoTree);
    }
    let (base, end) = expression(alloc, tokens, CLevel::Spec, room, at)?;
    let from = start_at(tokens, at);
    if defines(tokens, end) {
        return function(alloc, tokens, room, from, base, end);
    }
    declared(alloc, tokens, room, from, base, end)
}

/// `declr block`, put over the spec before it.
#[tactic(auto, using(crate::proofs::Steps::level_none, crate::proofs::Steps::function_step))]
fn function(
    alloc: Global,
    tokens: &[Token<'_>],
    room: u32,
    from: u32,
    base: Part,
    at: usize,
) -> Result<(Part, usize), ReadFault>
    requires { at ≤ length tokens.now }
    ensures within { IfOk result (λ x. x.1 ≤ length tokens.now) }
    ensures gives { Gives e.one result (e.grafting from base (reading.level tokens.now room table.Function at)) }
{
    if room == 0 {
        return Err(ReadFault::NoTree);
    }
    let (name, end) = expression(alloc, tokens, CLevel::Declr, room, at)?;
    let (body, end) = block(alloc, tokens, room, end)?;
    let text = Text::new(alloc);
    let span = span_at(tokens, at, end);
    let part = graft_two(alloc, from, base, Kind::FuncDef, text, span, name, body)?;
    Ok((part, end))
}
