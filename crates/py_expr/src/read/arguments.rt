//! Arguments and parameters.

ghost use Rattle.std.specs.Prelude.{◌≡◌, ◌≢◌, ◌+◌, ◌<◌, ◌≤◌, [], ◌∷◌, length, IfOk};
ghost use Rattle.node_tree.specs.Gives.{Gives};
ghost use Rattle.py_expr.specs.reader.Reading as reading;
ghost use Rattle.py_expr.specs.Table.{Args, FirstArg, Arg, PlainArg, Params, LambdaParams};
ghost use Rattle.node_tree.specs.declared.kind.Kind.TheVariants as k;
ghost use Rattle.py_expr.specs.declared.word.Word.TheVariants.{Other};
ghost use Rattle.py_expr.specs.Parts.{node};
ghost use Rattle.py_expr.specs.Build.{token_at, end_of};
ghost use Rattle.py_expr.specs.Build as build;

use crate::build::{
    After, absent, ident, leaf, list_of, node_of, one, or_absent, over, text_at, three,
};
use crate::item::Item;
use crate::level::Place;
use crate::look::{end_before, is, is_dots, is_name, start_at};
use crate::read::lists::after;
use crate::read::operators::{assigned, named, test};
use crate::word::Word;
use node_tree::{Kind, Memory, Node, ReadFault, Text};
use std::alloc::Global;

/// The arguments of a call, of which there is at least one.
#[cycle(reader)]
#[tactic(auto, using(crate::proofs::Steps::args_step, crate::proofs::Steps::level_none))]
pub fn args(
    alloc: Global,
    items: &[Item<'_>],
    room: u32,
    at: usize,
) -> Result<(Node, usize), ReadFault>
    requires { at ≤ length items.now }
    ensures within { IfOk result (λ x. x.1 ≤ length items.now) }
    ensures gives { Gives reading.one result (reading.level items.now room Args at) }
{
    if room == 0 {
        return Err(ReadFault::NoTree);
    }

    let (first, after, end) = first_arg(alloc, items, room, at)?;
    let from = start_at(items, at);
    let to = end_before(items, end);
    Ok((list_of(alloc, from, to, first, after)?, end))
}

/// A first argument, and what comes after it.
#[cycle(reader)]
#[tactic(auto, using(crate::proofs::Steps::first_arg_step, crate::proofs::Steps::level_none))]
fn first_arg(
    alloc: Global,
    items: &[Item<'_>],
    room: u32,
    at: usize,
) -> Result<(Node, After, usize), ReadFault>
    requires { at ≤ length items.now }
    ensures within { IfOk result (λ x. x.2 ≤ length items.now) }
    ensures gives { Gives reading.with_after result (reading.level items.now room FirstArg at) }
{
    if room == 0 {
        return Err(ReadFault::NoTree);
    }

    if is_name(items, at) {
        if is(items, at + 1, Word::Equal) {
            let (first, end) = assigned(alloc, items, Kind::Keyword, room, at)?;
            let (after, end) = after(alloc, items, Place::Arg, room, end)?;
            return Ok((first, after, end));
        }
    }
    if is(items, at, Word::Times) {
        let (first, end) = marked_arg(alloc, items, Kind::Star, room, at)?;
        let (after, end) = after(alloc, items, Place::Arg, room, end)?;
        return Ok((first, after, end));
    }
    if is(items, at, Word::Power) {
        let (first, end) = marked_arg(alloc, items, Kind::Star2, room, at)?;
        let (after, end) = after(alloc, items, Place::Arg, room, end)?;
        return Ok((first, after, end));
    }
    let (first, end) = named(alloc, items, room, at)?;
    let (after, end) = after(alloc, items, Place::FirstArg, room, end)?;
    Ok((first, after, end))
}

/// `NAME "=" test | plain_arg`
#[cycle(reader)]
#[tactic(auto, using(crate::proofs::Steps::arg_step, crate::proofs::Steps::level_none))]
pub fn arg(
    alloc: Global,
    items: &[Item<'_>],
    room: u32,
    at: usize,
) -> Result<(Node, usize), ReadFault>
    requires { at ≤ length items.now }
    ensures within { IfOk result (λ x. x.1 ≤ length items.now) }
    ensures gives { Gives reading.one result (reading.level items.now room Arg at) }
{
    if room == 0 {
        return Err(ReadFault::NoTree);
    }

    if is_name(items, at) {
        if is(items, at + 1, Word::Equal) {
            return assigned(alloc, items, Kind::Keyword, room, at);
        }
    }
    plain_arg(alloc, items, room, at)
}

/// `"*" test | "**" test | named`
#[cycle(reader)]
#[tactic(auto, using(crate::proofs::Steps::plain_arg_step, crate::proofs::Steps::level_none))]
fn plain_arg(
    alloc: Global,
    items: &[Item<'_>],
    room: u32,
    at: usize,
) -> Result<(Node, usize), ReadFault>
    requires { at ≤ length items.now }
    ensures within { IfOk result (λ x. x.1 ≤ length items.now) }
    ensures gives { Gives reading.one result (reading.level items.now room PlainArg at) }
{
    if room == 0 {
        return Err(ReadFault::NoTree);
    }

    if is(items, at, Word::Times) {
        return marked_arg(alloc, items, Kind::Star, room, at);
    }
    if is(items, at, Word::Power) {
        return marked_arg(alloc, items, Kind::Star2, room, at);
    }
    named(alloc, items, room, at)
}

/// A test behind one or two stars.
#[cycle(reader)]
fn marked_arg(
    alloc: Global,
    items: &[Item<'_>],
    kind: Kind,
    room: u32,
    at: usize,
) -> Result<(Node, usize), ReadFault>
    requires here { at < length items.now }
    requires some { 0 < room }
    ensures within { IfOk result (λ x. x.1 ≤ length items.now) }
    ensures gives { Gives reading.one result (reading.marked_arg items.now room kind at) }
{
    let (kid, end) = test(alloc, items, room, at + 1)?;
    let kids = one(alloc, kid)?;
    let from = start_at(items, at);
    Ok((over(alloc, kind, from, end_before(items, end), kids), end))
}

/// `param {"," param} [","]`
#[tactic(auto, using(crate::proofs::Steps::params_step, crate::proofs::Steps::level_none))]
pub fn params(
    alloc: Global,
    items: &[Item<'_>],
    room: u32,
    at: usize,
) -> Result<(Node, usize), ReadFault>
    requires { at ≤ length items.now }
    ensures within { IfOk result (λ x. x.1 ≤ length items.now) }
    ensures gives { Gives reading.one result (reading.level items.now room Params at) }
{
    if room == 0 {
        return Err(ReadFault::NoTree);
    }

    let (first, end) = param(alloc, items, true, room, at)?;
    let (after, end) = after(alloc, items, Place::Param, room, end)?;
    let from = start_at(items, at);
    let to = end_before(items, end);
    Ok((list_of(alloc, from, to, first, after)?, end))
}

/// The parameters of a lambda, which have no annotations.
#[cycle(reader)]
#[tactic(auto, using(crate::proofs::Steps::lambda_params_step, crate::proofs::Steps::level_none))]
pub fn lambda_params(
    alloc: Global,
    items: &[Item<'_>],
    room: u32,
    at: usize,
) -> Result<(Node, usize), ReadFault>
    requires { at ≤ length items.now }
    ensures within { IfOk result (λ x. x.1 ≤ length items.now) }
    ensures gives { Gives reading.one result (reading.level items.now room LambdaParams at) }
{
    if room == 0 {
        return Err(ReadFault::NoTree);
    }

    let (first, end) = param(alloc, items, false, room, at)?;
    let (after, end) = after(alloc, items, Place::LambdaParam, room, end)?;
    let from = start_at(items, at);
    let to = end_before(items, end);
    Ok((list_of(alloc, from, to, first, after)?, end))
}

/// `["*" | "**"] given | "*" | "/"`, or dots in its place.
#[cycle(reader)]
#[tactic(auto, using(crate::proofs::Steps::param_step, crate::proofs::Steps::level_none))]
pub fn param(
    alloc: Global,
    items: &[Item<'_>],
    typed: bool,
    room: u32,
    at: usize,
) -> Result<(Node, usize), ReadFault>
    requires { at ≤ length items.now }
    ensures within { IfOk result (λ x. x.1 ≤ length items.now) }
    ensures gives { Gives reading.one result (reading.level items.now room (reading.param_of typed) at) }
{
    if room == 0 {
        return Err(ReadFault::NoTree);
    }

    if is_dots(items, at) {
        return Ok((leaf(alloc, items, at)?, at + 1));
    }
    let from = start_at(items, at);
    if is_name(items, at) {
        let (name, annotation, value, end) = given(alloc, items, typed, room, at)?;
        let to = end_before(items, end);
        let mark = Text::new(alloc);
        return Ok((
            parameter(alloc, mark, from, to, name, annotation, value)?,
            end,
        ));
    }
    if is(items, at, Word::Times) {
        if is_name(items, at + 1) {
            return marked_param(alloc, items, typed, room, at);
        }
        return Ok((bare(alloc, items, at)?, at + 1));
    }
    if is(items, at, Word::Power) {
        return marked_param(alloc, items, typed, room, at);
    }
    if !is(items, at, Word::Slash) {
        return Err(ReadFault::NoTree);
    }
    Ok((bare(alloc, items, at)?, at + 1))
}

/// A name behind one or two stars.
#[cycle(reader)]
fn marked_param(
    alloc: Global,
    items: &[Item<'_>],
    typed: bool,
    room: u32,
    at: usize,
) -> Result<(Node, usize), ReadFault>
    requires { at < length items.now }
    ensures within { IfOk result (λ x. x.1 ≤ length items.now) }
    ensures gives { Gives reading.one result (reading.marked_param items.now room typed at) }
{
    let from = start_at(items, at);
    let mark = text_at(alloc, items, at)?;
    let (name, annotation, value, end) = given(alloc, items, typed, room, at + 1)?;
    let to = end_before(items, end);
    Ok((
        parameter(alloc, mark, from, to, name, annotation, value)?,
        end,
    ))
}

/// A parameter with this mark.
fn parameter(
    alloc: Global,
    mark: Text,
    from: u32,
    to: u32,
    name: Node,
    annotation: Option<Node>,
    value: Option<Node>,
) -> Result<Node, Memory>
    ensures { IfOk result (λ n. n ≡ node k.Param mark from to (name ∷ build.slice_kids from (reading.found annotation) (reading.found value))) }
{
    let kids = three(
        alloc,
        name,
        or_absent(alloc, from, annotation),
        or_absent(alloc, from, value),
    )?;
    Ok(node_of(Kind::Param, mark, from, to, kids))
}

/// A mark that stands alone in the place of a parameter.
fn bare(alloc: Global, items: &[Item<'_>], at: usize) -> Result<Node, Memory>
    requires { at < length items.now }
    ensures { IfOk result (λ n. n ≡ node k.Param (token_at items.now at).text (token_at items.now at).span.from (end_of items.now (at + 1)) (build.absent (token_at items.now at).span.from ∷ build.absent (token_at items.now at).span.from ∷ build.absent (token_at items.now at).span.from ∷ [])) }
{
    let from = start_at(items, at);
    let text = text_at(alloc, items, at)?;
    let to = end_before(items, at + 1);
    parameter(alloc, text, from, to, absent(alloc, from), None, None)
}

/// `NAME [":" test] ["=" test]`, for a parameter of a lambda without `":" test`.
#[cycle(reader)]
#[tactic(auto, using(crate::proofs::Steps::given_step, crate::proofs::Steps::level_none))]
fn given(
    alloc: Global,
    items: &[Item<'_>],
    typed: bool,
    room: u32,
    at: usize,
) -> Result<(Node, Option<Node>, Option<Node>, usize), ReadFault>
    requires { at ≤ length items.now }
    ensures within { IfOk result (λ x. x.3 ≤ length items.now) }
    ensures gives { Gives reading.given result (reading.level items.now room (reading.given_of typed) at) }
{
    if room == 0 {
        return Err(ReadFault::NoTree);
    }

    if !is_name(items, at) {
        return Err(ReadFault::NoTree);
    }
    let name = ident(alloc, items, at)?;
    let (annotation, end) = annotation(alloc, items, typed, room, at + 1)?;
    let (value, end) = marked(alloc, items, Word::Equal, room, end)?;
    Ok((name, annotation, value, end))
}

/// `[":" test]`, or nothing for a parameter of a lambda.
#[cycle(reader)]
fn annotation(
    alloc: Global,
    items: &[Item<'_>],
    typed: bool,
    room: u32,
    at: usize,
) -> Result<(Option<Node>, usize), ReadFault>
    requires here { at ≤ length items.now }
    requires some { 0 < room }
    ensures within { IfOk result (λ x. x.1 ≤ length items.now) }
    ensures gives { Gives reading.optional result (reading.annotation items.now room typed at) }
{
    if !typed {
        return Ok((None, at));
    }
    marked(alloc, items, Word::Colon, room, at)
}

/// `[mark test]`
#[cycle(reader)]
fn marked(
    alloc: Global,
    items: &[Item<'_>],
    mark: Word,
    room: u32,
    at: usize,
) -> Result<(Option<Node>, usize), ReadFault>
    requires here { at ≤ length items.now }
    requires some { 0 < room }
    requires mark { mark ≢ Other }
    ensures within { IfOk result (λ x. x.1 ≤ length items.now) }
    ensures gives { Gives reading.optional result (reading.marked items.now room mark at) }
{
    if !is(items, at, mark) {
        return Ok((None, at));
    }
    let (node, end) = test(alloc, items, room, at + 1)?;
    Ok((Some(node), end))
}
