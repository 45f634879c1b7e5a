//! Dictionaries, sets and comprehensions.

ghost use Rattle.std.specs.Prelude.{◌≡◌, ◌+◌, ◌<◌, ◌≤◌, ◌&&◌, true, length, IfOk, eqb};
ghost use Rattle.grammar.specs.Rule.{has};
ghost use Rattle.node_tree.specs.Gives.{Gives};
ghost use Rattle.py_expr.specs.reader.Reading as reading;
ghost use Rattle.py_expr.specs.declared.word.Word.TheVariants.{Walrus};
ghost use Rattle.py_expr.specs.Words.{class};
ghost use Rattle.py_expr.specs.Build.{token_at};
ghost use Rattle.py_expr.specs.Table.{Braces, Dotted, Pair, Comprehension, Clause, ForClause, names};

use crate::build::{After, Entries, append, displayed, leaf, node_of, one, over, text_at, two};
use crate::item::Item;
use crate::level::{Binary, Place};
use crate::look::{
    end_before, is, is_dots, is_name, set_place, start_at, starts_clause, starts_entry, starts_for,
    starts_pair,
};
use crate::read::lists::{after, double_starred, starred, targs};
use crate::read::operators::{assigned, binary, test};
use crate::word::Word;
use node_tree::{Kind, List, Node, ReadFault, Text};
use std::alloc::Global;

/// `"{" [entries] "}"`
#[cycle(reader)]
#[tactic(auto, using(crate::proofs::Steps::braces_step, crate::proofs::Steps::level_none))]
pub fn braces(
    alloc: Global,
    items: &[Item<'_>],
    room: u32,
    at: usize,
) -> Result<(Node, usize), ReadFault>
    requires { at ≤ length items.now }
    ensures within { IfOk result (λ x. x.1 ≤ length items.now) }
    ensures gives { Gives reading.one result (reading.level items.now room Braces at) }
{
    if room == 0 {
        return Err(ReadFault::NoTree);
    }

    let from = start_at(items, at);
    if is(items, at, Word::LeftBrace) {
        if !starts_entry(items, at + 1) {
            if !is(items, at + 1, Word::RightBrace) {
                return Err(ReadFault::NoTree);
            }
            let to = end_before(items, at + 2);
            return Ok((
                over(alloc, Kind::DictLit, from, to, List::new(alloc)),
                at + 2,
            ));
        }
        let (found, close) = entry(alloc, items, true, room - 1, at + 1)?;
        return closed(items, from, found, close);
    }
    if !is(items, at, Word::BraceDots) {
        return Err(ReadFault::NoTree);
    }
    let (found, close) = dotted(alloc, items, room - 1, at + 1)?;
    closed(items, from, found, close)
}

/// The node of what stands in braces, where they close.
fn closed(
    items: &[Item<'_>],
    from: u32,
    found: Entries,
    close: usize,
) -> Result<(Node, usize), ReadFault>
    requires { close ≤ length items.now }
    ensures within { IfOk result (λ x. x.1 ≤ length items.now) }
    ensures gives { Gives reading.one result (reading.closed items.now from found close) }
{
    if !is(items, close, Word::RightBrace) {
        return Err(ReadFault::NoTree);
    }
    let to = end_before(items, close + 1);
    Ok((
        node_of(found.kind, found.text, from, to, found.kids),
        close + 1,
    ))
}

/// Whether a name with `:=` behind it stands there.
fn is_assigned(items: &[Item<'_>], at: usize) -> bool
    requires { at ≤ length items.now }
    ensures test { result ≡ (has names (class (token_at items.now at).word) && eqb (class Walrus) (class (token_at items.now (at + 1)).word)) }
    ensures within { result ≡ true → at + 1 < length items.now }
{
    if is_name(items, at) {
        is(items, at + 1, Word::Walrus)
    } else {
        false
    }
}

/// The entries of a dictionary or a set, or one and the clauses of a comprehension, which only a first one takes.
#[cycle(reader)]
#[tactic(auto, using(crate::proofs::Steps::entry_step, crate::proofs::Steps::value_step, crate::proofs::Steps::level_none))]
fn entry(
    alloc: Global,
    items: &[Item<'_>],
    first: bool,
    room: u32,
    at: usize,
) -> Result<(Entries, usize), ReadFault>
    requires { at ≤ length items.now }
    ensures within { IfOk result (λ x. x.1 ≤ length items.now) }
    ensures gives { Gives reading.one_display result (reading.level items.now room (reading.entry_of first) at) }
{
    if room == 0 {
        return Err(ReadFault::NoTree);
    }

    if is(items, at, Word::Power) {
        let (node, end) = double_starred(alloc, items, room, at)?;
        let (after, end) = after_pair(alloc, items, false, room, end)?;
        return Ok((displayed(alloc, Kind::DictLit, "dict", node, after)?, end));
    }
    if is(items, at, Word::Times) {
        let (node, end) = starred(alloc, items, room, at)?;
        let (after, end) = after(alloc, items, Place::Star, room, end)?;
        return Ok((displayed(alloc, Kind::SetLit, "set", node, after)?, end));
    }
    if is_assigned(items, at) {
        let (node, end) = assigned(alloc, items, Kind::Walrus, room, at)?;
        let (after, end) = after(alloc, items, set_place(first), room, end)?;
        return Ok((displayed(alloc, Kind::SetLit, "set", node, after)?, end));
    }
    let (node, end) = test(alloc, items, room, at)?;
    if !is(items, end, Word::Colon) {
        let (after, end) = after(alloc, items, set_place(first), room, end)?;
        return Ok((displayed(alloc, Kind::SetLit, "set", node, after)?, end));
    }
    let (value, end) = test(alloc, items, room, end + 1)?;
    let kids = two(alloc, node, value)?;
    let from = start_at(items, at);
    let pair = over(alloc, Kind::Pair, from, end_before(items, end), kids);
    let (after, end) = after_pair(alloc, items, first, room, end)?;
    Ok((displayed(alloc, Kind::DictLit, "dict", pair, after)?, end))
}

/// Dots, and then what tells whether the braces are of a dictionary or of a set.
#[cycle(reader)]
#[tactic(auto, using(crate::proofs::Steps::dotted_step, crate::proofs::Steps::dots_leaf_step, crate::proofs::Steps::dotted_turn, crate::proofs::Steps::dotted_turned, crate::proofs::Steps::level_none, crate::proofs::Steps::list_laws))]
fn dotted(
    alloc: Global,
    items: &[Item<'_>],
    room: u32,
    at: usize,
) -> Result<(Entries, usize), ReadFault>
    requires { at ≤ length items.now }
    ensures within { IfOk result (λ x. x.1 ≤ length items.now) }
    ensures gives { Gives reading.one_display result (reading.level items.now room Dotted at) }
{
    if room == 0 {
        return Err(ReadFault::NoTree);
    }

    if !is_dots(items, at) {
        return Err(ReadFault::NoTree);
    }
    let mut kids = one(alloc, leaf(alloc, items, at)?)?;
    let mut end = at + 1;
    for turn in 0..=items.len() {
        if is(items, end, Word::CommaDots) {
            if !is_dots(items, end + 1) {
                return Err(ReadFault::NoTree);
            }
            kids.push(leaf(alloc, items, end + 1)?)?;
            end += 2;
        } else {
            return decided(alloc, items, room, kids, end);
        }
    }
    Err(ReadFault::NoTree)
}

/// What stands in braces behind dots: nothing, or an entry behind a comma.
#[cycle(reader)]
fn decided(
    alloc: Global,
    items: &[Item<'_>],
    room: u32,
    front: List<Node>,
    at: usize,
) -> Result<(Entries, usize), ReadFault>
    requires here { at ≤ length items.now }
    requires some { 0 < room }
    ensures within { IfOk result (λ x. x.1 ≤ length items.now) }
    ensures gives { Gives reading.one_display result (reading.decided items.now room front at) }
{
    if !is(items, at, Word::Comma) {
        return Ok((
            Entries {
                kind: Kind::DictLit,
                text: Text::new(alloc),
                kids: front,
            },
            at,
        ));
    }
    if !starts_entry(items, at + 1) {
        return Ok((
            Entries {
                kind: Kind::DictLit,
                text: Text::new(alloc),
                kids: front,
            },
            at + 1,
        ));
    }
    let (found, end) = entry(alloc, items, false, room, at + 1)?;
    let kids = append(front, found.kids)?;
    Ok((
        Entries {
            kind: found.kind,
            text: found.text,
            kids,
        },
        end,
    ))
}

/// What comes after a first pair: further ones, or the clauses of a comprehension.
#[cycle(reader)]
#[tactic(auto, using(crate::proofs::Steps::after_pair_step, crate::proofs::Steps::level_none, crate::proofs::Steps::list_laws))]
fn after_pair(
    alloc: Global,
    items: &[Item<'_>],
    first: bool,
    room: u32,
    at: usize,
) -> Result<(After, usize), ReadFault>
    requires { at ≤ length items.now }
    ensures within { IfOk result (λ x. x.1 ≤ length items.now) }
    ensures gives { Gives reading.after result (reading.level items.now room (reading.after_pair_of first) at) }
{
    if room == 0 {
        return Err(ReadFault::NoTree);
    }

    if first {
        if starts_for(items, at) {
            let (clauses, end) = comprehension(alloc, items, room, at)?;
            return Ok((After::Clauses(clauses), end));
        }
    }
    if is(items, at, Word::CommaDots) {
        let (kids, end) = pairs(alloc, items, true, room, at + 1)?;
        return Ok((After::Further(kids), end));
    }
    if is(items, at, Word::Comma) {
        let (kids, end) = pairs(alloc, items, false, room, at + 1)?;
        return Ok((After::Further(kids), end));
    }
    Ok((After::Nothing, at))
}

/// `[pair {"," pair} [","]]`, where dots may stand for pairs.
#[cycle(reader)]
#[tactic(auto, using(crate::proofs::Steps::pairs_step, crate::proofs::Steps::pairs_turn, crate::proofs::Steps::pairs_turned, crate::proofs::Steps::level_none, crate::proofs::Steps::list_laws))]
fn pairs(
    alloc: Global,
    items: &[Item<'_>],
    dots: bool,
    room: u32,
    at: usize,
) -> Result<(List<Node>, usize), ReadFault>
    requires { at ≤ length items.now }
    ensures within { IfOk result (λ x. x.1 ≤ length items.now) }
    ensures gives { Gives reading.all result (reading.level items.now room (reading.pairs_of dots) at) }
{
    if room == 0 {
        return Err(ReadFault::NoTree);
    }

    let mut kids = List::new(alloc);
    if !dots {
        if !starts_pair(items, at) {
            return Ok((kids, at));
        }
    }
    let (first, mut end) = pair_or_dots(alloc, items, dots, room, at)?;
    kids.push(first)?;
    for turn in 0..=items.len() {
        let dots = is(items, end, Word::CommaDots);
        if !dots {
            if !is(items, end, Word::Comma) {
                return Ok((kids, end));
            }
            if !starts_pair(items, end + 1) {
                return Ok((kids, end + 1));
            }
        }
        let (kid, next) = pair_or_dots(alloc, items, dots, room, end + 1)?;
        kids.push(kid)?;
        end = next;
    }
    Err(ReadFault::NoTree)
}

/// Dots, or a pair.
#[cycle(reader)]
#[tactic(auto, using(crate::proofs::Steps::pair_or_dots_step, crate::proofs::Steps::level_none))]
fn pair_or_dots(
    alloc: Global,
    items: &[Item<'_>],
    dots: bool,
    room: u32,
    at: usize,
) -> Result<(Node, usize), ReadFault>
    requires { at ≤ length items.now }
    ensures within { IfOk result (λ x. x.1 ≤ length items.now) }
    ensures gives { Gives reading.one result (reading.level items.now room (reading.pair_of dots) at) }
{
    if room == 0 {
        return Err(ReadFault::NoTree);
    }

    if !dots {
        return pair(alloc, items, room, at);
    }
    if !is_dots(items, at) {
        return Err(ReadFault::NoTree);
    }
    Ok((leaf(alloc, items, at)?, at + 1))
}

/// `test ":" test | "**" bor`
#[cycle(reader)]
#[tactic(auto, using(crate::proofs::Steps::pair_step, crate::proofs::Steps::level_none))]
fn pair(alloc: Global, items: &[Item<'_>], room: u32, at: usize) -> Result<(Node, usize), ReadFault>
    requires { at ≤ length items.now }
    ensures within { IfOk result (λ x. x.1 ≤ length items.now) }
    ensures gives { Gives reading.one result (reading.level items.now room Pair at) }
{
    if room == 0 {
        return Err(ReadFault::NoTree);
    }

    if is(items, at, Word::Power) {
        return double_starred(alloc, items, room, at);
    }
    let (key, end) = test(alloc, items, room, at)?;
    if !is(items, end, Word::Colon) {
        return Err(ReadFault::NoTree);
    }
    let (value, end) = test(alloc, items, room, end + 1)?;
    let kids = two(alloc, key, value)?;
    let from = start_at(items, at);
    Ok((
        over(alloc, Kind::Pair, from, end_before(items, end), kids),
        end,
    ))
}

/// The clauses of a comprehension.
#[cycle(reader)]
#[tactic(auto, using(crate::proofs::Steps::comprehension_step, crate::proofs::Steps::comprehension_turn, crate::proofs::Steps::comprehension_turned, crate::proofs::Steps::level_none, crate::proofs::Steps::list_laws))]
pub fn comprehension(
    alloc: Global,
    items: &[Item<'_>],
    room: u32,
    at: usize,
) -> Result<(List<Node>, usize), ReadFault>
    requires { at ≤ length items.now }
    ensures within { IfOk result (λ x. x.1 ≤ length items.now) }
    ensures gives { Gives reading.all_clauses result (reading.level items.now room Comprehension at) }
{
    if room == 0 {
        return Err(ReadFault::NoTree);
    }

    let (first, mut end) = for_clause(alloc, items, room, at)?;
    let mut kids = one(alloc, first)?;
    for turn in 0..=items.len() {
        if !starts_clause(items, end) {
            return Ok((kids, end));
        }
        let (kid, next) = clause(alloc, items, room, end)?;
        kids.push(kid)?;
        end = next;
    }
    Err(ReadFault::NoTree)
}

/// `for_clause | "if" or`
#[cycle(reader)]
#[tactic(auto, using(crate::proofs::Steps::clause_step, crate::proofs::Steps::level_none))]
fn clause(
    alloc: Global,
    items: &[Item<'_>],
    room: u32,
    at: usize,
) -> Result<(Node, usize), ReadFault>
    requires { at ≤ length items.now }
    ensures within { IfOk result (λ x. x.1 ≤ length items.now) }
    ensures gives { Gives reading.one result (reading.level items.now room Clause at) }
{
    if room == 0 {
        return Err(ReadFault::NoTree);
    }

    if !is(items, at, Word::If) {
        return for_clause(alloc, items, room, at);
    }
    let (kid, end) = binary(alloc, items, Binary::Or, room, at + 1)?;
    let kids = one(alloc, kid)?;
    let from = start_at(items, at);
    Ok((
        over(alloc, Kind::CompIf, from, end_before(items, end), kids),
        end,
    ))
}

/// `["async"] "for" targs "in" or`
#[cycle(reader)]
#[tactic(auto, using(crate::proofs::Steps::for_clause_step, crate::proofs::Steps::level_none))]
fn for_clause(
    alloc: Global,
    items: &[Item<'_>],
    room: u32,
    at: usize,
) -> Result<(Node, usize), ReadFault>
    requires { at ≤ length items.now }
    ensures within { IfOk result (λ x. x.1 ≤ length items.now) }
    ensures gives { Gives reading.one result (reading.level items.now room ForClause at) }
{
    if room == 0 {
        return Err(ReadFault::NoTree);
    }

    let from = start_at(items, at);
    if is(items, at, Word::Async) {
        let text = text_at(alloc, items, at)?;
        let (target, value, end) = for_part(alloc, items, room, at + 1)?;
        let kids = two(alloc, target, value)?;
        let to = end_before(items, end);
        return Ok((node_of(Kind::CompFor, text, from, to, kids), end));
    }
    let (target, value, end) = for_part(alloc, items, room, at)?;
    let kids = two(alloc, target, value)?;
    let to = end_before(items, end);
    Ok((over(alloc, Kind::CompFor, from, to, kids), end))
}

/// `"for" targs "in" or`
#[cycle(reader)]
fn for_part(
    alloc: Global,
    items: &[Item<'_>],
    room: u32,
    at: usize,
) -> Result<(Node, Node, usize), ReadFault>
    requires here { at ≤ length items.now }
    requires some { 0 < room }
    ensures within { IfOk result (λ x. x.2 ≤ length items.now) }
    ensures gives { Gives reading.two result (reading.for_part items.now room at) }
{
    if !is(items, at, Word::For) {
        return Err(ReadFault::NoTree);
    }
    let (target, end) = targs(alloc, items, room, at + 1)?;
    if !is(items, end, Word::In) {
        return Err(ReadFault::NoTree);
    }
    let (value, end) = binary(alloc, items, Binary::Or, room, end + 1)?;
    Ok((target, value, end))
}
