//! Declarations.

ghost use Rattle.std.specs.Prelude.{◌≤◌, ◌++◌, [], length, IfOk};
ghost use Rattle.node_tree.specs.Gives.{Gives};
ghost use Rattle.node_tree.specs.declared.kind.Kind.TheVariants as k;
ghost use Rattle.c_expr.specs.reader.Reading as e;
ghost use Rattle.c_expr.specs.Build.{cut, over as node_over, span_between};
ghost use Rattle.c_expr.specs.Table.{Over};
ghost use Rattle.c_items.specs.reader.Reading as reading;
ghost use Rattle.c_items.specs.Table as table;
ghost use Rattle.grammar.specs.Rule.{make};

use crate::look::starts_variable;
use crate::make::node;
use crate::parts::expression;
use c_expr::{CLevel, Part, Token, Word, graft_one, is, span_at, start_at};
use node_tree::{Kind, ReadFault, Text};
use std::alloc::Global;

/// `spec [var {"," var}] ";"`
#[tactic(auto, using(crate::proofs::Steps::level_none, crate::proofs::Steps::declaration_step))]
pub fn declaration(
    alloc: Global,
    tokens: &[Token<'_>],
    room: u32,
    at: usize,
) -> Result<(Part, usize), ReadFault>
    requires { at ≤ length tokens.now }
    ensures within { IfOk result (λ x. x.1 ≤ length tokens.now) }
    ensures gives { Gives e.one result (reading.level tokens.now room table.Declaration at) }
{
    if room == 0 {
        return Err(ReadFault::NoTree);
    }
    let (base, end) = expression(alloc, tokens, CLevel::Spec, room, at)?;
    declared(alloc, tokens, room, start_at(tokens, at), base, end)
}

/// `[var {"," var}] ";"`, put over the spec before it.
#[tactic(auto, using(crate::proofs::Steps::level_none, crate::proofs::Steps::declared_step))]
pub fn declared(
    alloc: Global,
    tokens: &[Token<'_>],
    room: u32,
    from: u32,
    base: Part,
    at: usize,
) -> Result<(Part, usize), ReadFault>
    requires { at ≤ length tokens.now }
    ensures within { IfOk result (λ x. x.1 ≤ length tokens.now) }
    ensures gives { Gives e.one result (e.grafting from base (reading.level tokens.now room table.Declared at)) }
{
    if room == 0 {
        return Err(ReadFault::NoTree);
    }
    let (vars, close) = variables(alloc, tokens, room, at)?;
    if !is(tokens, close, Word::Semicolon) {
        return Err(ReadFault::NoTree);
    }
    let end = close + 1;
    let text = Text::new(alloc);
    let span = span_at(tokens, at, end);
    let part = graft_one(alloc, from, base, Kind::Decl, text, span, vars)?;
    Ok((part, end))
}

/// `[var {"," var}]`, as a list.
fn variables(
    alloc: Global,
    tokens: &[Token<'_>],
    room: u32,
    at: usize,
) -> Result<(Part, usize), ReadFault>
    requires { at ≤ length tokens.now }
    ensures within { IfOk result (λ x. x.1 ≤ length tokens.now) }
    ensures gives { Gives e.one result (reading.row tokens.now room (make (Over k.List 0) table.variables) at) }
{
    if !starts_variable(tokens, at) {
        let part = node(alloc, tokens, Kind::List, at, at, Vec::new(alloc))?;
        return Ok((part, at));
    }
    let (first, end) = expression(alloc, tokens, CLevel::Var, room, at)?;
    let vars = vec![in alloc; first]?;
    let (vars, end) = more_variables(alloc, tokens, room, vars, end)?;
    Ok((node(alloc, tokens, Kind::List, at, end, vars)?, end))
}

/// `{"," var}`, behind some variables.
#[tactic(auto, using(crate::proofs::Steps::level_none, crate::proofs::Steps::vars_step, crate::proofs::Steps::vars_turn, crate::proofs::Steps::rest_turned, crate::proofs::Steps::list_laws))]
fn more_variables(
    alloc: Global,
    tokens: &[Token<'_>],
    room: u32,
    mut vars: Vec<Part>,
    at: usize,
) -> Result<(Vec<Part>, usize), ReadFault>
    requires { at ≤ length tokens.now }
    ensures within { IfOk result (λ x. x.1 ≤ length tokens.now) }
    ensures gives { Gives e.parts result (reading.along vars.items (reading.level tokens.now room table.VarsTail at)) }
{
    if room == 0 {
        return Err(ReadFault::NoTree);
    }
    let mut end = at;
    for turn in 0..=tokens.len() {
        if !is(tokens, end, Word::Comma) {
            return Ok((vars, end));
        }
        let (var, next) = expression(alloc, tokens, CLevel::Var, room, end + 1)?;
        vars.push(var)?;
        end = next;
    }
    Err(ReadFault::NoTree)
}
