//! Blocks, and what stands in them.

ghost use Rattle.std.specs.Prelude.{◌≤◌, length, IfOk};
ghost use Rattle.node_tree.specs.Gives.{Gives};
ghost use Rattle.c_expr.specs.reader.Reading as e;
ghost use Rattle.c_items.specs.reader.Reading as reading;
ghost use Rattle.c_items.specs.Table as table;

use crate::declarations::declaration;
use crate::dots::directive;
use crate::look::starts_item;
use crate::make::{bare, node, node_one};
use crate::parts::expression;
use crate::settle::{declares, labels, marks};
use crate::statements::statement;
use c_expr::{CLevel, Part, Token, Word, id, is};
use node_tree::{Kind, ReadFault};
use std::alloc::Global;

/// `{item}`
#[cycle(items)]
#[tactic(auto, using(crate::proofs::Steps::level_none, crate::proofs::Steps::items_step, crate::proofs::Steps::items_turn, crate::proofs::Steps::rest_turned, crate::proofs::Steps::list_laws))]
pub fn items(
    alloc: Global,
    tokens: &[Token<'_>],
    room: u32,
    at: usize,
) -> Result<(Vec<Part>, usize), ReadFault>
    requires { at ≤ length tokens.now }
    ensures within { IfOk result (λ x. x.1 ≤ length tokens.now) }
    ensures gives { Gives e.parts result (reading.level tokens.now room table.Items at) }
{
    if room == 0 {
        return Err(ReadFault::NoTree);
    }
    let mut parts = Vec::new(alloc);
    let mut end = at;
    for turn in 0..=tokens.len() {
        if !starts_item(tokens, end) {
            return Ok((parts, end));
        }
        let (part, next) = item(alloc, tokens, room, end)?;
        parts.push(part)?;
        end = next;
    }
    Err(ReadFault::NoTree)
}

/// A directive, a declaration, a label or a statement.
#[cycle(items)]
#[tactic(auto, using(crate::proofs::Steps::level_none, crate::proofs::Steps::item_step))]
fn item(
    alloc: Global,
    tokens: &[Token<'_>],
    room: u32,
    at: usize,
) -> Result<(Part, usize), ReadFault>
    requires { at ≤ length tokens.now }
    ensures within { IfOk result (λ x. x.1 ≤ length tokens.now) }
    ensures gives { Gives e.one result (reading.level tokens.now room table.Item at) }
{
    if room == 0 {
        return Err(ReadFault::NoTree);
    }
    if is(tokens, at, Word::Directive) {
        return directive(alloc, tokens, room, at);
    }
    if declares(tokens, at) {
        return declaration(alloc, tokens, room, at);
    }
    if marks(tokens, at) {
        return mark(alloc, tokens, room, at);
    }
    statement(alloc, tokens, room, at)
}

/// `"{" {item} "}"`
#[cycle(items)]
#[tactic(auto, using(crate::proofs::Steps::level_none, crate::proofs::Steps::block_step))]
pub fn block(
    alloc: Global,
    tokens: &[Token<'_>],
    room: u32,
    at: usize,
) -> Result<(Part, usize), ReadFault>
    requires { at ≤ length tokens.now }
    ensures within { IfOk result (λ x. x.1 ≤ length tokens.now) }
    ensures gives { Gives e.one result (reading.level tokens.now room table.Block at) }
{
    if room == 0 {
        return Err(ReadFault::NoTree);
    }
    if !is(tokens, at, Word::OpenCurly) {
        return Err(ReadFault::NoTree);
    }
    let (parts, close) = items(alloc, tokens, room - 1, at + 1)?;
    if !is(tokens, close, Word::CloseCurly) {
        return Err(ReadFault::NoTree);
    }
    let end = close + 1;
    Ok((node(alloc, tokens, Kind::Block, at, end, parts)?, end))
}

/// A block, or a statement with the labels before it, as one.
#[cycle(items)]
#[tactic(auto, using(crate::proofs::Steps::level_none, crate::proofs::Steps::sub_step))]
pub fn sub(
    alloc: Global,
    tokens: &[Token<'_>],
    room: u32,
    at: usize,
) -> Result<(Part, usize), ReadFault>
    requires { at ≤ length tokens.now }
    ensures within { IfOk result (λ x. x.1 ≤ length tokens.now) }
    ensures gives { Gives e.one result (reading.level tokens.now room table.Sub at) }
{
    if room == 0 {
        return Err(ReadFault::NoTree);
    }
    if is(tokens, at, Word::OpenCurly) {
        return block(alloc, tokens, room, at);
    }
    let (parts, end) = labelled(alloc, tokens, room, at)?;
    Ok((node(alloc, tokens, Kind::Block, at, end, parts)?, end))
}

/// A statement, and the labels before it.
#[cycle(items)]
#[tactic(auto, using(crate::proofs::Steps::level_none, crate::proofs::Steps::labelled_step, crate::proofs::Steps::labelled_turn, crate::proofs::Steps::rest_turned, crate::proofs::Steps::list_laws))]
fn labelled(
    alloc: Global,
    tokens: &[Token<'_>],
    room: u32,
    at: usize,
) -> Result<(Vec<Part>, usize), ReadFault>
    requires { at ≤ length tokens.now }
    ensures within { IfOk result (λ x. x.1 ≤ length tokens.now) }
    ensures gives { Gives e.parts result (reading.level tokens.now room table.Labelled at) }
{
    if room == 0 {
        return Err(ReadFault::NoTree);
    }
    let mut parts = Vec::new(alloc);
    let mut end = at;
    for turn in 0..=tokens.len() {
        if !marks(tokens, end) {
            let (part, next) = statement(alloc, tokens, room, end)?;
            parts.push(part)?;
            return Ok((parts, next));
        }
        let (part, next) = mark(alloc, tokens, room, end)?;
        parts.push(part)?;
        end = next;
    }
    Err(ReadFault::NoTree)
}

/// `NAME ":" | "case" cond ":" | "default" ":"`
#[tactic(auto, using(crate::proofs::Steps::level_none, crate::proofs::Steps::mark_step))]
fn mark(
    alloc: Global,
    tokens: &[Token<'_>],
    room: u32,
    at: usize,
) -> Result<(Part, usize), ReadFault>
    requires { at ≤ length tokens.now }
    ensures within { IfOk result (λ x. x.1 ≤ length tokens.now) }
    ensures gives { Gives e.one result (reading.level tokens.now room table.Mark at) }
{
    if room == 0 {
        return Err(ReadFault::NoTree);
    }
    if labels(tokens, at) {
        return label(alloc, tokens, room, at);
    }
    if is(tokens, at, Word::Case) {
        return case(alloc, tokens, room, at);
    }
    default(alloc, tokens, room, at)
}

/// `NAME ":"`
#[tactic(auto, using(crate::proofs::Steps::level_none, crate::proofs::Steps::label_step))]
fn label(
    alloc: Global,
    tokens: &[Token<'_>],
    room: u32,
    at: usize,
) -> Result<(Part, usize), ReadFault>
    requires { at ≤ length tokens.now }
    ensures within { IfOk result (λ x. x.1 ≤ length tokens.now) }
    ensures gives { Gives e.one result (reading.level tokens.now room table.Label at) }
{
    if room == 0 {
        return Err(ReadFault::NoTree);
    }
    if !labels(tokens, at) {
        return Err(ReadFault::NoTree);
    }
    let name = id(alloc, tokens, at)?;
    let end = at + 2;
    Ok((node_one(alloc, tokens, Kind::Label, at, end, name)?, end))
}

/// `"case" cond ":"`
#[tactic(auto, using(crate::proofs::Steps::level_none, crate::proofs::Steps::case_step))]
fn case(
    alloc: Global,
    tokens: &[Token<'_>],
    room: u32,
    at: usize,
) -> Result<(Part, usize), ReadFault>
    requires { at ≤ length tokens.now }
    ensures within { IfOk result (λ x. x.1 ≤ length tokens.now) }
    ensures gives { Gives e.one result (reading.level tokens.now room table.Case at) }
{
    if room == 0 {
        return Err(ReadFault::NoTree);
    }
    if !is(tokens, at, Word::Case) {
        return Err(ReadFault::NoTree);
    }
    let (value, colon) = expression(alloc, tokens, CLevel::Cond, room, at + 1)?;
    if !is(tokens, colon, Word::Colon) {
        return Err(ReadFault::NoTree);
    }
    let end = colon + 1;
    Ok((node_one(alloc, tokens, Kind::Case, at, end, value)?, end))
}

/// `"default" ":"`
#[tactic(auto, using(crate::proofs::Steps::level_none, crate::proofs::Steps::default_step))]
fn default(
    alloc: Global,
    tokens: &[Token<'_>],
    room: u32,
    at: usize,
) -> Result<(Part, usize), ReadFault>
    requires { at ≤ length tokens.now }
    ensures within { IfOk result (λ x. x.1 ≤ length tokens.now) }
    ensures gives { Gives e.one result (reading.level tokens.now room table.Default at) }
{
    if room == 0 {
        return Err(ReadFault::NoTree);
    }
    if !is(tokens, at, Word::Default) {
        return Err(ReadFault::NoTree);
    }
    if !is(tokens, at + 1, Word::Colon) {
        return Err(ReadFault::NoTree);
    }
    let end = at + 2;
    Ok((bare(alloc, tokens, Kind::Default, at, end)?, end))
}
