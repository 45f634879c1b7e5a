//! Statements that hold no others.

ghost use Rattle.std.specs.Prelude.{◌≡◌, ◌≢◌, ◌<◌, ◌≤◌, [], ◌∷◌, ◌++◌, length, IfOk};
ghost use Rattle.node_tree.specs.Gives.{Gives};
ghost use Rattle.py_suite.specs.reader.Reading as reading;
ghost use Rattle.py_suite.specs.Table as table;
ghost use Rattle.py_suite.specs.Table.{Simple, Worded, Naming, Return, Delete, Raise, Assert, Annotated, Evaluated};

use crate::annotated::annotates;
use crate::build::{plain, statement, unless_dots};
use crate::expression::{assigned, expression, marked, some_exprs, value};
use crate::imports::{from_import, import};
use crate::look::{starts_naming, starts_worded};
use crate::series::{Series, declared, further};
use node_tree::{Kind, List, Memory, Node, ReadFault};
use py_expr::{Item, PyLevel, Word, is, is_comma, one, starts_test, text_at, two};
use std::alloc::Global;

/// A simple statement.
#[tactic(auto, using(crate::proofs::Steps::simple_step, crate::proofs::Steps::level_none))]
pub fn simple(
    alloc: Global,
    items: &[Item<'_>],
    room: u32,
    at: usize,
) -> Result<(Node, usize), ReadFault>
    requires { at ≤ length items.now }
    ensures within { IfOk result (λ x. x.1 ≤ length items.now) }
    ensures gives { Gives reading.one result (reading.level items.now room Simple at) }
{
    if room == 0 {
        return Err(ReadFault::NoTree);
    }

    if starts_worded(items, at) {
        return worded(alloc, items, room, at);
    }
    if starts_naming(items, at) {
        return naming(alloc, items, room, at);
    }
    if is(items, at, Word::Yield) {
        return yielded(alloc, items, room, at);
    }
    if annotates(items, at) {
        return annotated(alloc, items, room, at);
    }
    evaluated(alloc, items, room, at)
}

/// A statement that a keyword begins.
#[tactic(auto, using(crate::proofs::Steps::worded_step, crate::proofs::Steps::level_none))]
fn worded(
    alloc: Global,
    items: &[Item<'_>],
    room: u32,
    at: usize,
) -> Result<(Node, usize), ReadFault>
    requires { at ≤ length items.now }
    ensures within { IfOk result (λ x. x.1 ≤ length items.now) }
    ensures gives { Gives reading.one result (reading.level items.now room Worded at) }
{
    if room == 0 {
        return Err(ReadFault::NoTree);
    }

    if is(items, at, Word::Return) {
        return returned(alloc, items, room, at);
    }
    if is(items, at, Word::Del) {
        return deleted(alloc, items, room, at);
    }
    if is(items, at, Word::Raise) {
        return raised(alloc, items, room, at);
    }
    if is(items, at, Word::Assert) {
        return asserted(alloc, items, room, at);
    }
    if is(items, at, Word::Pass) {
        return keyword(alloc, items, Kind::Pass, at);
    }
    if is(items, at, Word::Break) {
        return keyword(alloc, items, Kind::Break, at);
    }
    if !is(items, at, Word::Continue) {
        return Err(ReadFault::NoTree);
    }
    keyword(alloc, items, Kind::Continue, at)
}

/// A statement that declares or imports names.
#[tactic(auto, using(crate::proofs::Steps::naming_step, crate::proofs::Steps::global_step, crate::proofs::Steps::nonlocal_step, crate::proofs::Steps::level_none))]
fn naming(
    alloc: Global,
    items: &[Item<'_>],
    room: u32,
    at: usize,
) -> Result<(Node, usize), ReadFault>
    requires { at ≤ length items.now }
    ensures within { IfOk result (λ x. x.1 ≤ length items.now) }
    ensures gives { Gives reading.one result (reading.level items.now room Naming at) }
{
    if room == 0 {
        return Err(ReadFault::NoTree);
    }

    if is(items, at, Word::Global) {
        return declared(alloc, items, Kind::Global, room, at);
    }
    if is(items, at, Word::Nonlocal) {
        return declared(alloc, items, Kind::Nonlocal, room, at);
    }
    if is(items, at, Word::Import) {
        return import(alloc, items, room, at);
    }
    from_import(alloc, items, room, at)
}

/// A statement of one keyword.
fn keyword(
    alloc: Global,
    items: &[Item<'_>],
    kind: Kind,
    at: usize,
) -> Result<(Node, usize), ReadFault>
    requires { at < length items.now }
    ensures within { IfOk result (λ x. x.1 ≤ length items.now) }
    ensures gives { Gives reading.one result (reading.keyword items.now kind at) }
{
    let node = plain(alloc, items, kind, at, at + 1, List::new(alloc))?;
    Ok((node, at + 1))
}

/// `"return" [exprs]`
#[tactic(auto, using(crate::proofs::Steps::return_step, crate::proofs::Steps::level_none))]
fn returned(
    alloc: Global,
    items: &[Item<'_>],
    room: u32,
    at: usize,
) -> Result<(Node, usize), ReadFault>
    requires { at ≤ length items.now }
    ensures within { IfOk result (λ x. x.1 ≤ length items.now) }
    ensures gives { Gives reading.one result (reading.level items.now room Return at) }
{
    if room == 0 {
        return Err(ReadFault::NoTree);
    }

    if !is(items, at, Word::Return) {
        return Err(ReadFault::NoTree);
    }
    let (found, end) = some_exprs(alloc, items, room, at + 1)?;
    let kids = listed(alloc, found)?;
    Ok((plain(alloc, items, Kind::Return, at, end, kids)?, end))
}

/// `"del" exprs`
#[tactic(auto, using(crate::proofs::Steps::delete_step, crate::proofs::Steps::level_none))]
fn deleted(
    alloc: Global,
    items: &[Item<'_>],
    room: u32,
    at: usize,
) -> Result<(Node, usize), ReadFault>
    requires { at ≤ length items.now }
    ensures within { IfOk result (λ x. x.1 ≤ length items.now) }
    ensures gives { Gives reading.one result (reading.level items.now room Delete at) }
{
    if room == 0 {
        return Err(ReadFault::NoTree);
    }

    if !is(items, at, Word::Del) {
        return Err(ReadFault::NoTree);
    }
    let (target, end) = expression(alloc, items, PyLevel::Exprs, room, at + 1)?;
    let kids = one(alloc, target)?;
    Ok((plain(alloc, items, Kind::Del, at, end, kids)?, end))
}

/// `"raise" [test ["from" test]]`
#[tactic(auto, using(crate::proofs::Forms::raise_read, crate::proofs::Steps::raise_step, crate::proofs::Steps::level_none))]
fn raised(
    alloc: Global,
    items: &[Item<'_>],
    room: u32,
    at: usize,
) -> Result<(Node, usize), ReadFault>
    requires { at ≤ length items.now }
    ensures within { IfOk result (λ x. x.1 ≤ length items.now) }
    ensures gives { Gives reading.one result (reading.level items.now room Raise at) }
{
    if room == 0 {
        return Err(ReadFault::NoTree);
    }

    if !is(items, at, Word::Raise) {
        return Err(ReadFault::NoTree);
    }
    if !starts_test(items, at + 1) {
        let node = plain(alloc, items, Kind::Raise, at, at + 1, List::new(alloc))?;
        return Ok((node, at + 1));
    }
    let (value, end) = expression(alloc, items, PyLevel::Test, room, at + 1)?;
    let (cause, end) = marked(alloc, items, Word::From, PyLevel::Test, room, end)?;
    let kids = begun(alloc, value, cause)?;
    Ok((plain(alloc, items, Kind::Raise, at, end, kids)?, end))
}

/// `"assert" test ["," test]`
#[tactic(auto, using(crate::proofs::Steps::assert_step, crate::proofs::Steps::level_none))]
fn asserted(
    alloc: Global,
    items: &[Item<'_>],
    room: u32,
    at: usize,
) -> Result<(Node, usize), ReadFault>
    requires { at ≤ length items.now }
    ensures within { IfOk result (λ x. x.1 ≤ length items.now) }
    ensures gives { Gives reading.one result (reading.level items.now room Assert at) }
{
    if room == 0 {
        return Err(ReadFault::NoTree);
    }

    if !is(items, at, Word::Assert) {
        return Err(ReadFault::NoTree);
    }
    let (condition, end) = expression(alloc, items, PyLevel::Test, room, at + 1)?;
    if !is_comma(items, end) {
        let kids = one(alloc, condition)?;
        return Ok((plain(alloc, items, Kind::Assert, at, end, kids)?, end));
    }
    let (message, end) = expression(alloc, items, PyLevel::Test, room, end + 1)?;
    let kids = two(alloc, condition, message)?;
    Ok((plain(alloc, items, Kind::Assert, at, end, kids)?, end))
}

/// A yield that stands alone.
fn yielded(
    alloc: Global,
    items: &[Item<'_>],
    room: u32,
    at: usize,
) -> Result<(Node, usize), ReadFault>
    requires here { at < length items.now }
    requires some { 0 < room }
    ensures within { IfOk result (λ x. x.1 ≤ length items.now) }
    ensures gives { Gives reading.one result (reading.yielded items.now room at) }
{
    let (node, end) = expression(alloc, items, PyLevel::Yield, room, at)?;
    Ok((
        unless_dots(alloc, items, Kind::ExprStmt, at, end, node)?,
        end,
    ))
}

/// `prim ":" test ["=" value]`
#[tactic(auto, using(crate::proofs::Forms::annotated_read, crate::proofs::Steps::annotated_step, crate::proofs::Steps::level_none))]
fn annotated(
    alloc: Global,
    items: &[Item<'_>],
    room: u32,
    at: usize,
) -> Result<(Node, usize), ReadFault>
    requires { at ≤ length items.now }
    ensures within { IfOk result (λ x. x.1 ≤ length items.now) }
    ensures gives { Gives reading.one result (reading.level items.now room Annotated at) }
{
    if room == 0 {
        return Err(ReadFault::NoTree);
    }

    let (target, end) = expression(alloc, items, PyLevel::Prim, room, at)?;
    if !is(items, end, Word::Colon) {
        return Err(ReadFault::NoTree);
    }
    let (annotation, end) = expression(alloc, items, PyLevel::Test, room, end + 1)?;
    let (value, end) = assigned(alloc, items, room, end)?;
    let kids = followed(two(alloc, target, annotation)?, value)?;
    Ok((plain(alloc, items, Kind::AnnAssign, at, end, kids)?, end))
}

/// `exprs {"=" value} | exprs augop value`
#[tactic(auto, using(crate::proofs::Forms::evaluated_laws, crate::proofs::Forms::collected_laws, crate::proofs::Steps::evaluated_step, crate::proofs::Steps::level_none))]
fn evaluated(
    alloc: Global,
    items: &[Item<'_>],
    room: u32,
    at: usize,
) -> Result<(Node, usize), ReadFault>
    requires { at ≤ length items.now }
    ensures within { IfOk result (λ x. x.1 ≤ length items.now) }
    ensures gives { Gives reading.one result (reading.level items.now room Evaluated at) }
{
    if room == 0 {
        return Err(ReadFault::NoTree);
    }

    let (first, end) = expression(alloc, items, PyLevel::Exprs, room, at)?;
    if is(items, end, Word::Equal) {
        let (second, end) = value(alloc, items, room, end + 1)?;
        let kids = two(alloc, first, second)?;
        let (kids, end) = further(alloc, items, Series::Values, room, kids, end)?;
        return Ok((plain(alloc, items, Kind::Assign, at, end, kids)?, end));
    }
    if is(items, end, Word::Augmented) {
        let text = text_at(alloc, items, end)?;
        let (value, end) = value(alloc, items, room, end + 1)?;
        let kids = two(alloc, first, value)?;
        let node = statement(alloc, items, Kind::AugAssign, text, at, end, kids)?;
        return Ok((node, end));
    }
    let node = unless_dots(alloc, items, Kind::ExprStmt, at, end, first)?;
    Ok((node, end))
}

/// The list of a node that may be there.
fn listed(alloc: Global, found: Option<Node>) -> Result<List<Node>, Memory>
    ensures { IfOk result (λ ns. ns ≡ reading.found found) }
{
    match found {
        Some(node) => one(alloc, node),
        None => Ok(List::new(alloc)),
    }
}

/// The list of a node and one that may be there.
fn begun(alloc: Global, first: Node, found: Option<Node>) -> Result<List<Node>, Memory>
    ensures { IfOk result (λ ns. ns ≡ first ∷ reading.found found) }
{
    match found {
        Some(second) => two(alloc, first, second),
        None => one(alloc, first),
    }
}

/// Some nodes, and one more that may be there.
fn followed(mut kids: List<Node>, found: Option<Node>) -> Result<List<Node>, Memory>
    ensures { IfOk result (λ ns. ns ≡ kids ++ reading.found found) }
{
    if let Some(node) = found {
        kids.push(node)?;
    }
    Ok(kids)
}
