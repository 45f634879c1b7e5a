//! Imports.

ghost use Rattle.std.specs.Prelude.{◌≡◌, ◌<◌, ◌≤◌, [], ◌∷◌, ◌++◌, length, IfOk};
ghost use Rattle.node_tree.specs.Gives.{Gives};
ghost use Rattle.py_expr.specs.Build.{token_at};
ghost use Rattle.py_suite.specs.reader.Reading as reading;
ghost use Rattle.py_suite.specs.Table.{Import, Alias, Dotted, FromImport, Origin, Imported, Aliases};

use crate::build::{plain, statement};
use crate::look::{is_point, starts_alias, starts_dotted};
use crate::series::{Series, further};
use node_tree::{Kind, List, Node, ReadFault, Text};
use py_expr::{
    Item, Word, absent, ident, is, is_comma, is_dots, is_name, leaf, one, start_at, text_at, two,
};
use std::alloc::Global;

/// `"import" alias {"," alias}`
#[tactic(auto, using(crate::proofs::Forms::import_read, crate::proofs::Forms::stated_laws, crate::proofs::Steps::import_step, crate::proofs::Steps::level_none))]
pub fn import(
    alloc: Global,
    items: &[Item<'_>],
    room: u32,
    at: usize,
) -> Result<(Node, usize), ReadFault>
    requires { at ≤ length items.now }
    ensures within { IfOk result (λ x. x.1 ≤ length items.now) }
    ensures gives { Gives reading.one result (reading.level items.now room Import at) }
{
    if room == 0 {
        return Err(ReadFault::NoTree);
    }

    if !is(items, at, Word::Import) {
        return Err(ReadFault::NoTree);
    }
    let (first, end) = alias(alloc, items, room, at + 1)?;
    let kids = one(alloc, first)?;
    let (kids, end) = further(alloc, items, Series::Aliases, room, kids, end)?;
    Ok((plain(alloc, items, Kind::Import, at, end, kids)?, end))
}

/// `dotted ["as" NAME]`, or dots of a pattern.
#[tactic(auto, using(crate::proofs::Forms::alias_read, crate::proofs::Steps::alias_step, crate::proofs::Steps::level_none))]
pub fn alias(
    alloc: Global,
    items: &[Item<'_>],
    room: u32,
    at: usize,
) -> Result<(Node, usize), ReadFault>
    requires { at ≤ length items.now }
    ensures within { IfOk result (λ x. x.1 ≤ length items.now) }
    ensures gives { Gives reading.one result (reading.level items.now room Alias at) }
{
    if room == 0 {
        return Err(ReadFault::NoTree);
    }

    if is_dots(items, at) {
        return Ok((leaf(alloc, items, at)?, at + 1));
    }
    let (name, end) = dotted(alloc, items, room, at)?;
    if !is(items, end, Word::As) {
        let kids = one(alloc, name)?;
        return Ok((plain(alloc, items, Kind::Alias, at, end, kids)?, end));
    }
    if !is_name(items, end + 1) {
        return Err(ReadFault::NoTree);
    }
    let kids = two(alloc, name, ident(alloc, items, end + 1)?)?;
    let end = end + 2;
    Ok((plain(alloc, items, Kind::Alias, at, end, kids)?, end))
}

/// `NAME {"." NAME}`, as one name, or a metavariable.
#[tactic(auto, using(crate::proofs::Forms::dotted_laws, crate::proofs::Steps::dotted_step, crate::proofs::Steps::level_none))]
fn dotted(
    alloc: Global,
    items: &[Item<'_>],
    room: u32,
    at: usize,
) -> Result<(Node, usize), ReadFault>
    requires { at ≤ length items.now }
    ensures within { IfOk result (λ x. x.1 ≤ length items.now) }
    ensures gives { Gives reading.one result (reading.level items.now room Dotted at) }
{
    if room == 0 {
        return Err(ReadFault::NoTree);
    }

    if is(items, at, Word::Meta) {
        return Ok((ident(alloc, items, at)?, at + 1));
    }
    if !is(items, at, Word::Name) {
        return Err(ReadFault::NoTree);
    }
    let text = text_at(alloc, items, at)?;
    let (text, end) = pointed(alloc, items, room, text, at + 1)?;
    let node = statement(alloc, items, Kind::Id, text, at, end, List::new(alloc))?;
    Ok((node, end))
}

/// `{"." NAME}`, behind a text.
#[tactic(auto, using(crate::proofs::Rounds::parts_rest, crate::proofs::Rounds::pointed_end, crate::proofs::Rounds::pointed_lacks, crate::proofs::Rounds::pointed_turned))]
fn pointed(
    alloc: Global,
    items: &[Item<'_>],
    room: u32,
    mut text: Text,
    at: usize,
) -> Result<(Text, usize), ReadFault>
    requires { at ≤ length items.now }
    ensures within { IfOk result (λ x. x.1 ≤ length items.now) }
    ensures gives { Gives reading.signs result (reading.pointed_behind text (reading.further_parts items.now room at)) }
{
    let mut end = at;
    for turn in 0..=items.len() {
        if !is(items, end, Word::Dot) {
            return Ok((text, end));
        }
        if !is(items, end + 1, Word::Name) {
            return Err(ReadFault::NoTree);
        }
        text.push(".")?;
        text.push(items[end + 1].text.as_str())?;
        end += 2;
    }
    Err(ReadFault::NoTree)
}

/// `"from" origin "import" imported`
#[tactic(auto, using(crate::proofs::Forms::from_laws, crate::proofs::Steps::from_import_step, crate::proofs::Steps::level_none))]
pub fn from_import(
    alloc: Global,
    items: &[Item<'_>],
    room: u32,
    at: usize,
) -> Result<(Node, usize), ReadFault>
    requires { at ≤ length items.now }
    ensures within { IfOk result (λ x. x.1 ≤ length items.now) }
    ensures gives { Gives reading.one result (reading.level items.now room FromImport at) }
{
    if room == 0 {
        return Err(ReadFault::NoTree);
    }

    if !is(items, at, Word::From) {
        return Err(ReadFault::NoTree);
    }
    let (points, name, end) = origin(alloc, items, room, start_at(items, at), at + 1)?;
    if !is(items, end, Word::Import) {
        return Err(ReadFault::NoTree);
    }
    let (list, end) = imported(alloc, items, room, end + 1)?;
    let kids = two(alloc, name, list)?;
    let node = statement(alloc, items, Kind::FromImport, points, at, end, kids)?;
    Ok((node, end))
}

/// `DOTS [dotted] | dotted`, for a statement that begins there: the points, and the name or that it is absent.
#[tactic(auto, using(crate::proofs::Forms::origin_laws, crate::proofs::Steps::level_none))]
fn origin(
    alloc: Global,
    items: &[Item<'_>],
    room: u32,
    from: u32,
    at: usize,
) -> Result<(Text, Node, usize), ReadFault>
    requires { at ≤ length items.now }
    ensures within { IfOk result (λ x. x.2 ≤ length items.now) }
    ensures gives { Gives reading.headed result (reading.heads items.now room from Origin at) }
{
    if room == 0 {
        return Err(ReadFault::NoTree);
    }

    if !is_point(items, at) {
        let (name, end) = dotted(alloc, items, room, at)?;
        return Ok((Text::new(alloc), name, end));
    }
    let text = text_at(alloc, items, at)?;
    let (text, end) = points(alloc, items, room, text, at + 1)?;
    if !starts_dotted(items, end) {
        return Ok((text, absent(alloc, from), end));
    }
    let (name, end) = dotted(alloc, items, room, end)?;
    Ok((text, name, end))
}

/// Further points, behind some.
#[tactic(auto, using(crate::proofs::Rounds::points_rest, crate::proofs::Rounds::points_end, crate::proofs::Rounds::points_turned))]
fn points(
    alloc: Global,
    items: &[Item<'_>],
    room: u32,
    mut text: Text,
    at: usize,
) -> Result<(Text, usize), ReadFault>
    requires { at ≤ length items.now }
    ensures within { IfOk result (λ x. x.1 ≤ length items.now) }
    ensures gives { Gives reading.signs result (reading.behind text (reading.further_points items.now room at)) }
{
    let mut end = at;
    for turn in 0..=items.len() {
        if !is_point(items, end) {
            return Ok((text, end));
        }
        text.push(items[end].text.as_str())?;
        end += 1;
    }
    Err(ReadFault::NoTree)
}

/// `"*" | "(" aliases [","] ")" | aliases`
#[tactic(auto, using(crate::proofs::Forms::imported_laws, crate::proofs::Steps::imported_step, crate::proofs::Steps::level_none))]
fn imported(
    alloc: Global,
    items: &[Item<'_>],
    room: u32,
    at: usize,
) -> Result<(Node, usize), ReadFault>
    requires { at ≤ length items.now }
    ensures within { IfOk result (λ x. x.1 ≤ length items.now) }
    ensures gives { Gives reading.one result (reading.level items.now room Imported at) }
{
    if room == 0 {
        return Err(ReadFault::NoTree);
    }

    if is(items, at, Word::Times) {
        return everything(alloc, items, at);
    }
    if !is(items, at, Word::LeftRound) {
        return aliases(alloc, items, room, at);
    }
    let (first, end) = alias(alloc, items, room, at + 1)?;
    let kids = one(alloc, first)?;
    let (kids, end) = more_aliases(alloc, items, room, kids, end)?;
    if !is(items, end, Word::RightRound) {
        return Err(ReadFault::NoTree);
    }
    let list = plain(alloc, items, Kind::List, at + 1, end, kids)?;
    Ok((list, end + 1))
}

/// `{"," alias} [","]`, behind some.
#[tactic(auto, using(crate::proofs::Rounds::aliases_rest, crate::proofs::Rounds::parted_end, crate::proofs::Rounds::parted_last))]
fn more_aliases(
    alloc: Global,
    items: &[Item<'_>],
    room: u32,
    mut kids: List<Node>,
    at: usize,
) -> Result<(List<Node>, usize), ReadFault>
    requires here { at ≤ length items.now }
    requires some { 0 < room }
    ensures within { IfOk result (λ x. x.1 ≤ length items.now) }
    ensures gives { Gives reading.all result (reading.along kids (reading.more_aliases items.now room at)) }
{
    let mut end = at;
    for turn in 0..=items.len() {
        if !is_comma(items, end) {
            return Ok((kids, end));
        }
        if !starts_alias(items, end + 1) {
            return Ok((kids, end + 1));
        }
        let (kid, next) = alias(alloc, items, room, end + 1)?;
        kids.push(kid)?;
        end = next;
    }
    Err(ReadFault::NoTree)
}

/// `"*"`
fn everything(alloc: Global, items: &[Item<'_>], at: usize) -> Result<(Node, usize), ReadFault>
    requires { at < length items.now }
    ensures within { IfOk result (λ x. x.1 ≤ length items.now) }
    ensures gives { Gives reading.one result (reading.everything items.now at) }
{
    let text = text_at(alloc, items, at)?;
    let end = at + 1;
    let name = statement(alloc, items, Kind::Id, text, at, end, List::new(alloc))?;
    let alias = plain(alloc, items, Kind::Alias, at, end, one(alloc, name)?)?;
    let list = plain(alloc, items, Kind::List, at, end, one(alloc, alias)?)?;
    Ok((list, end))
}

/// `alias {"," alias}`
#[tactic(auto, using(crate::proofs::Forms::aliases_read, crate::proofs::Forms::collected_laws, crate::proofs::Steps::aliases_step, crate::proofs::Steps::level_none))]
fn aliases(
    alloc: Global,
    items: &[Item<'_>],
    room: u32,
    at: usize,
) -> Result<(Node, usize), ReadFault>
    requires { at ≤ length items.now }
    ensures within { IfOk result (λ x. x.1 ≤ length items.now) }
    ensures gives { Gives reading.one result (reading.level items.now room Aliases at) }
{
    if room == 0 {
        return Err(ReadFault::NoTree);
    }

    let (first, end) = alias(alloc, items, room, at)?;
    let kids = one(alloc, first)?;
    let (kids, end) = further(alloc, items, Series::Aliases, room, kids, end)?;
    Ok((plain(alloc, items, Kind::List, at, end, kids)?, end))
}
