//! Primaries: atoms, and what stands behind them.

ghost use Rattle.std.specs.Prelude.{◌≡◌, ◌≢◌, ◌+◌, ◌<◌, ◌≤◌, [], ◌∷◌, length, IfOk};
ghost use Rattle.node_tree.specs.Gives.{Gives};
ghost use Rattle.py_expr.specs.reader.Reading as reading;
ghost use Rattle.py_expr.specs.Table.{Prim, Suffix, Attr, Call, Sub, Atom, Strings, MoreStrings, Paren, Inner, Items, ListLit, Deep};

use crate::build::{
    After, TOO_DEEP, Tail, attached, before, farther, grouped, ident, leaf, listed, one, over,
    spine, text_at,
};
use crate::item::Item;
use crate::level::Place;
use crate::look::{
    end_before, is, is_name, is_scalar, is_string, start_at, starts_arg, starts_braces,
    starts_inner, starts_star, starts_suffix,
};
use crate::read::arguments::args;
use crate::read::displays::braces;
use crate::read::lists::{after, exprs, index, starred, yields};
use crate::read::operators::named;
use crate::word::Word;
use node_tree::{Kind, List, Node, ReadFault, Text};
use std::alloc::Global;

/// `atom {suffix}`, from the left.
#[cycle(reader)]
#[tactic(auto, using(crate::proofs::Steps::prim_step, crate::proofs::Steps::prim_turn, crate::proofs::Steps::prim_turned, crate::proofs::Steps::level_none))]
pub fn prim(
    alloc: Global,
    items: &[Item<'_>],
    room: u32,
    at: usize,
) -> Result<(Node, usize), ReadFault>
    requires { at ≤ length items.now }
    ensures within { IfOk result (λ x. x.1 ≤ length items.now) }
    ensures gives { Gives reading.one result (reading.level items.now room Prim at) }
{
    if room == 0 {
        return Err(ReadFault::NoTree);
    }

    let (mut node, mut end) = atom(alloc, items, room, at)?;
    if !starts_suffix(items, end) {
        return Ok((node, end));
    }
    let from = start_at(items, at);
    let mut far = spine(&node, TOO_DEEP);
    for turn in 0..=items.len() {
        if !starts_suffix(items, end) {
            return Ok((node, end));
        }
        let (tail, next) = suffix(alloc, items, room, end)?;
        node = attached(alloc, from, far, node, tail)?;
        far = farther(far);
        end = next;
    }
    Err(ReadFault::NoTree)
}

/// `attr | call | sub`
#[cycle(reader)]
#[tactic(auto, using(crate::proofs::Steps::suffix_step, crate::proofs::Steps::level_none))]
fn suffix(
    alloc: Global,
    items: &[Item<'_>],
    room: u32,
    at: usize,
) -> Result<(Tail, usize), ReadFault>
    requires { at ≤ length items.now }
    ensures within { IfOk result (λ x. x.1 ≤ length items.now) }
    ensures gives { Gives reading.one_tail result (reading.level items.now room Suffix at) }
{
    if room == 0 {
        return Err(ReadFault::NoTree);
    }

    if is(items, at, Word::Dot) {
        return attr(alloc, items, room, at);
    }
    if is(items, at, Word::LeftRound) {
        return call(alloc, items, room, at);
    }
    sub(alloc, items, room, at)
}

/// `"." NAME`
#[tactic(auto, using(crate::proofs::Steps::attr_step, crate::proofs::Steps::level_none))]
fn attr(alloc: Global, items: &[Item<'_>], room: u32, at: usize) -> Result<(Tail, usize), ReadFault>
    requires { at ≤ length items.now }
    ensures within { IfOk result (λ x. x.1 ≤ length items.now) }
    ensures gives { Gives reading.one_tail result (reading.level items.now room Attr at) }
{
    if room == 0 {
        return Err(ReadFault::NoTree);
    }

    if !is(items, at, Word::Dot) {
        return Err(ReadFault::NoTree);
    }
    if !is_name(items, at + 1) {
        return Err(ReadFault::NoTree);
    }
    let tail = Tail {
        kind: Kind::Attr,
        text: text_at(alloc, items, at)?,
        to: end_before(items, at + 2),
        kid: Some(ident(alloc, items, at + 1)?),
    };
    Ok((tail, at + 2))
}

/// `"(" [args] ")"`
#[cycle(reader)]
#[tactic(auto, using(crate::proofs::Steps::call_step, crate::proofs::Steps::level_none))]
fn call(alloc: Global, items: &[Item<'_>], room: u32, at: usize) -> Result<(Tail, usize), ReadFault>
    requires { at ≤ length items.now }
    ensures within { IfOk result (λ x. x.1 ≤ length items.now) }
    ensures gives { Gives reading.one_tail result (reading.level items.now room Call at) }
{
    if room == 0 {
        return Err(ReadFault::NoTree);
    }

    if !is(items, at, Word::LeftRound) {
        return Err(ReadFault::NoTree);
    }
    if !starts_arg(items, at + 1) {
        if !is(items, at + 1, Word::RightRound) {
            return Err(ReadFault::NoTree);
        }
        let tail = Tail {
            kind: Kind::Call,
            text: Text::new(alloc),
            to: end_before(items, at + 2),
            kid: None,
        };
        return Ok((tail, at + 2));
    }
    let (list, close) = args(alloc, items, room - 1, at + 1)?;
    if !is(items, close, Word::RightRound) {
        return Err(ReadFault::NoTree);
    }
    let tail = Tail {
        kind: Kind::Call,
        text: Text::new(alloc),
        to: end_before(items, close + 1),
        kid: Some(list),
    };
    Ok((tail, close + 1))
}

/// `"[" subs "]"`
#[cycle(reader)]
#[tactic(auto, using(crate::proofs::Steps::sub_step, crate::proofs::Steps::level_none))]
fn sub(alloc: Global, items: &[Item<'_>], room: u32, at: usize) -> Result<(Tail, usize), ReadFault>
    requires { at ≤ length items.now }
    ensures within { IfOk result (λ x. x.1 ≤ length items.now) }
    ensures gives { Gives reading.one_tail result (reading.level items.now room Sub at) }
{
    if room == 0 {
        return Err(ReadFault::NoTree);
    }

    if !is(items, at, Word::LeftSquare) {
        return Err(ReadFault::NoTree);
    }
    let (kid, close) = index(alloc, items, room - 1, at + 1)?;
    if !is(items, close, Word::RightSquare) {
        return Err(ReadFault::NoTree);
    }
    let tail = Tail {
        kind: Kind::Sub,
        text: Text::new(alloc),
        to: end_before(items, close + 1),
        kid: Some(kid),
    };
    Ok((tail, close + 1))
}

/// An atom: one token, strings, or what stands in brackets.
#[cycle(reader)]
#[tactic(auto, using(crate::proofs::Steps::atom_step, crate::proofs::Steps::level_none))]
pub fn atom(
    alloc: Global,
    items: &[Item<'_>],
    room: u32,
    at: usize,
) -> Result<(Node, usize), ReadFault>
    requires { at ≤ length items.now }
    ensures within { IfOk result (λ x. x.1 ≤ length items.now) }
    ensures gives { Gives reading.one result (reading.level items.now room Atom at) }
{
    if room == 0 {
        return Err(ReadFault::NoTree);
    }

    if is_scalar(items, at) {
        return Ok((leaf(alloc, items, at)?, at + 1));
    }
    if is_string(items, at) {
        return strings(alloc, items, room, at);
    }
    if is(items, at, Word::LeftRound) {
        return paren(alloc, items, room, at);
    }
    if is(items, at, Word::LeftSquare) {
        return list_lit(alloc, items, room, at);
    }
    if starts_braces(items, at) {
        return braces(alloc, items, room, at);
    }
    deep(alloc, items, room, at)
}

/// One string, or several beside one another.
#[tactic(auto, using(crate::proofs::Steps::strings_step, crate::proofs::Steps::level_none))]
fn strings(
    alloc: Global,
    items: &[Item<'_>],
    room: u32,
    at: usize,
) -> Result<(Node, usize), ReadFault>
    requires { at ≤ length items.now }
    ensures within { IfOk result (λ x. x.1 ≤ length items.now) }
    ensures gives { Gives reading.one result (reading.level items.now room Strings at) }
{
    if room == 0 {
        return Err(ReadFault::NoTree);
    }

    if !is_string(items, at) {
        return Err(ReadFault::NoTree);
    }
    let first = leaf(alloc, items, at)?;
    if !is_string(items, at + 1) {
        return Ok((first, at + 1));
    }
    let (rest, end) = more_strings(alloc, items, room, at + 1)?;
    let kids = before(first, rest)?;
    let from = start_at(items, at);
    Ok((
        over(alloc, Kind::StrJoin, from, end_before(items, end), kids),
        end,
    ))
}

/// The strings from here on.
#[tactic(auto, using(crate::proofs::Steps::more_strings_step, crate::proofs::Steps::more_strings_turn, crate::proofs::Steps::more_strings_turned, crate::proofs::Steps::level_none, crate::proofs::Steps::list_laws))]
fn more_strings(
    alloc: Global,
    items: &[Item<'_>],
    room: u32,
    at: usize,
) -> Result<(List<Node>, usize), ReadFault>
    requires { at ≤ length items.now }
    ensures within { IfOk result (λ x. x.1 ≤ length items.now) }
    ensures gives { Gives reading.further result (reading.level items.now room MoreStrings at) }
{
    if room == 0 {
        return Err(ReadFault::NoTree);
    }

    if !is_string(items, at) {
        return Err(ReadFault::NoTree);
    }
    let mut kids = one(alloc, leaf(alloc, items, at)?)?;
    let mut end = at + 1;
    for turn in 0..=items.len() {
        if !is_string(items, end) {
            return Ok((kids, end));
        }
        kids.push(leaf(alloc, items, end)?)?;
        end += 1;
    }
    Err(ReadFault::NoTree)
}

/// `"(" [inner] ")"`; a tuple or a generator has the span of the parentheses.
#[cycle(reader)]
#[tactic(auto, using(crate::proofs::Steps::paren_step, crate::proofs::Steps::level_none))]
fn paren(
    alloc: Global,
    items: &[Item<'_>],
    room: u32,
    at: usize,
) -> Result<(Node, usize), ReadFault>
    requires { at ≤ length items.now }
    ensures within { IfOk result (λ x. x.1 ≤ length items.now) }
    ensures gives { Gives reading.one result (reading.level items.now room Paren at) }
{
    if room == 0 {
        return Err(ReadFault::NoTree);
    }

    if !is(items, at, Word::LeftRound) {
        return Err(ReadFault::NoTree);
    }
    let from = start_at(items, at);
    if !starts_inner(items, at + 1) {
        if !is(items, at + 1, Word::RightRound) {
            return Err(ReadFault::NoTree);
        }
        let to = end_before(items, at + 2);
        return Ok((over(alloc, Kind::Tuple, from, to, List::new(alloc)), at + 2));
    }
    let (first, after, close) = inner(alloc, items, room - 1, at + 1)?;
    if !is(items, close, Word::RightRound) {
        return Err(ReadFault::NoTree);
    }
    let to = end_before(items, close + 1);
    Ok((grouped(alloc, from, to, first, after)?, close + 1))
}

/// What stands in parentheses: `yield | items`
#[cycle(reader)]
#[tactic(auto, using(crate::proofs::Steps::inner_step, crate::proofs::Steps::level_none))]
fn inner(
    alloc: Global,
    items: &[Item<'_>],
    room: u32,
    at: usize,
) -> Result<(Node, After, usize), ReadFault>
    requires { at ≤ length items.now }
    ensures within { IfOk result (λ x. x.2 ≤ length items.now) }
    ensures gives { Gives reading.with_after result (reading.level items.now room Inner at) }
{
    if room == 0 {
        return Err(ReadFault::NoTree);
    }

    if is(items, at, Word::Yield) {
        let (node, end) = yields(alloc, items, room, at)?;
        return Ok((node, After::Nothing, end));
    }
    first_items(alloc, items, room, at)
}

/// Items with commas, or one and the clauses of a comprehension.
#[cycle(reader)]
#[tactic(auto, using(crate::proofs::Steps::items_step, crate::proofs::Steps::level_none))]
fn first_items(
    alloc: Global,
    items: &[Item<'_>],
    room: u32,
    at: usize,
) -> Result<(Node, After, usize), ReadFault>
    requires { at ≤ length items.now }
    ensures within { IfOk result (λ x. x.2 ≤ length items.now) }
    ensures gives { Gives reading.with_after result (reading.level items.now room Items at) }
{
    if room == 0 {
        return Err(ReadFault::NoTree);
    }

    if is(items, at, Word::Times) {
        let (first, end) = starred(alloc, items, room, at)?;
        let (after, end) = after(alloc, items, Place::Star, room, end)?;
        return Ok((first, after, end));
    }
    let (first, end) = named(alloc, items, room, at)?;
    let (after, end) = after(alloc, items, Place::Item, room, end)?;
    Ok((first, after, end))
}

/// `"[" [items] "]"`, or a comprehension.
#[cycle(reader)]
#[tactic(auto, using(crate::proofs::Steps::list_lit_step, crate::proofs::Steps::level_none))]
fn list_lit(
    alloc: Global,
    items: &[Item<'_>],
    room: u32,
    at: usize,
) -> Result<(Node, usize), ReadFault>
    requires { at ≤ length items.now }
    ensures within { IfOk result (λ x. x.1 ≤ length items.now) }
    ensures gives { Gives reading.one result (reading.level items.now room ListLit at) }
{
    if room == 0 {
        return Err(ReadFault::NoTree);
    }

    if !is(items, at, Word::LeftSquare) {
        return Err(ReadFault::NoTree);
    }
    let from = start_at(items, at);
    if !starts_star(items, at + 1) {
        if !is(items, at + 1, Word::RightSquare) {
            return Err(ReadFault::NoTree);
        }
        let to = end_before(items, at + 2);
        return Ok((
            over(alloc, Kind::ListLit, from, to, List::new(alloc)),
            at + 2,
        ));
    }
    let (first, after, close) = first_items(alloc, items, room - 1, at + 1)?;
    if !is(items, close, Word::RightSquare) {
        return Err(ReadFault::NoTree);
    }
    let to = end_before(items, close + 1);
    Ok((
        listed(alloc, Kind::ListLit, "list", from, to, first, after)?,
        close + 1,
    ))
}

/// `"<..." exprs "...>"`
#[cycle(reader)]
#[tactic(auto, using(crate::proofs::Steps::deep_step, crate::proofs::Steps::level_none))]
fn deep(alloc: Global, items: &[Item<'_>], room: u32, at: usize) -> Result<(Node, usize), ReadFault>
    requires { at ≤ length items.now }
    ensures within { IfOk result (λ x. x.1 ≤ length items.now) }
    ensures gives { Gives reading.one result (reading.level items.now room Deep at) }
{
    if room == 0 {
        return Err(ReadFault::NoTree);
    }

    if !is(items, at, Word::DeepOpen) {
        return Err(ReadFault::NoTree);
    }
    let (kid, close) = exprs(alloc, items, room - 1, at + 1)?;
    if !is(items, close, Word::DeepClose) {
        return Err(ReadFault::NoTree);
    }
    let kids = one(alloc, kid)?;
    let from = start_at(items, at);
    Ok((
        over(alloc, Kind::Deep, from, end_before(items, close + 1), kids),
        close + 1,
    ))
}
