//! f-strings: the nodes of their parts, which are made before the tokens that they stand among are read.

ghost use Rattle.std.specs.Prelude.{◌≡◌, ◌<◌, ℕ, List, IfOk};
ghost use Rattle.node_tree.specs.declared.node.Node.{Node as node};
ghost use Rattle.py_expr.specs.declared.item.Item.{Item as item_type};
ghost use Rattle.py_expr.specs.Items.{IsItem, AreItems};
ghost use Rattle.py_expr.specs.Insides.{Finds, IsValue, IsPart, HasNodes};
ghost use Rattle.py_expr.specs.Insides as spec;

use crate::build::{empty_list, node_of, over, two};
use crate::item::{Item, item_of};
use crate::run::whole;
use crate::word::{Word, word_of};
use node_tree::{Kind, List, Memory, Mode, Node, Span, Text, Twin};
use py_lex::{FPart, PyToken, PyWord};
use std::alloc::Global;

/// The tokens as the grammar sees them, where at most so many f-strings stand within one another.
#[cycle(inside)]
pub fn items<'t>(
    alloc: Global,
    mode: Mode,
    tokens: &'t [PyToken],
    levels: u32,
) -> Result<List<Item<'t>>, Memory>
    ensures found { IfOk result (λ is. AreItems (HasNodes levels mode) mode tokens.now is) }
    ensures only { IfOk result (λ is. (js : List item_type) → AreItems (HasNodes levels mode) mode tokens.now js → js ≡ is) }
{
    let mut all = List::new(alloc);
    for at in 0..tokens.len() {
        all.push(item(alloc, mode, &tokens[at], &tokens[at + 1..], levels)?)?;
    }
    Ok(all)
}

/// A token as the grammar sees it, before some others.
#[cycle(inside)]
fn item<'t>(
    alloc: Global,
    mode: Mode,
    token: &'t PyToken,
    after: &[PyToken],
    levels: u32,
) -> Result<Item<'t>, Memory>
    ensures found { IfOk result (λ i. IsItem (HasNodes levels mode) mode token.now after.now i) }
    ensures only { IfOk result (λ i. (j : item_type) → IsItem (HasNodes levels mode) mode token.now after.now j → j ≡ i) }
{
    if token.word != PyWord::FStr {
        return Ok(item_of(word_of(mode, token, after), token, List::new(alloc)));
    }
    match nodes(alloc, mode, token.parts.as_slice(), levels)? {
        Some(inside) => Ok(item_of(Word::FStr, token, inside)),
        None => Ok(item_of(Word::Other, token, List::new(alloc))),
    }
}

/// The nodes of parts, or nothing where a field has no tree.
#[cycle(inside)]
fn nodes(
    alloc: Global,
    mode: Mode,
    parts: &[FPart],
    levels: u32,
) -> Result<Option<List<Node>>, Memory>
    ensures { IfOk result (Finds (HasNodes levels mode parts.now)) }
{
    if levels == 0 {
        return Ok(None);
    }
    let mut all = List::from_vec(Vec::with_capacity(alloc, parts.len())?);
    for at in 0..parts.len() {
        match part(alloc, mode, &parts[at], levels - 1)? {
            Some(node) => all.push(node)?,
            None => return Ok(None),
        }
    }
    Ok(Some(all))
}

/// The node of a part, or nothing where it is a field that has no tree.
#[cycle(inside)]
fn part(alloc: Global, mode: Mode, part: &FPart, levels: u32) -> Result<Option<Node>, Memory>
    ensures { IfOk result (Finds (IsPart (HasNodes levels mode) mode part.now)) }
{
    match part {
        FPart::Plain(text, span) => {
            let text = text.copy()?;
            Ok(Some(node_of(Kind::FText, text, span.from, span.to, List::new(alloc))))
        }
        FPart::Field(tokens, conversion, format, span) => {
            let Some(value) = value(alloc, mode, tokens.as_slice(), levels)? else {
                return Ok(None);
            };
            let Some(nodes) = nodes(alloc, mode, format.as_slice(), levels)? else {
                return Ok(None);
            };
            Ok(Some(field(alloc, *span, conversion, value, nodes)?))
        }
    }
}

/// The expression of a field, if it has one.
#[cycle(inside)]
fn value(alloc: Global, mode: Mode, tokens: &[PyToken], levels: u32) -> Result<Option<Node>, Memory>
    ensures { IfOk result (Finds (IsValue (HasNodes levels mode) mode tokens.now)) }
{
    let items = items(alloc, mode, without_equal(tokens), levels)?;
    whole(alloc, items.as_slice())
}

/// Whether a token is `=`.
fn is_equal(token: &PyToken) -> bool
    ensures { result ≡ spec.is_equal token.now }
{
    match token.word {
        PyWord::Op => token.text.as_str() == "=",
        _ => false,
    }
}

/// The tokens of a field without an `=` behind the expression.
fn without_equal(tokens: &[PyToken]) -> &[PyToken]
    ensures { result.now ≡ spec.without_equal tokens.now }
{
    match tokens.split_last() {
        Some((last, front)) => { if is_equal(last) { front } else { tokens } }
        None => tokens,
    }
}

/// The list of a format's parts.
fn format_list(alloc: Global, from: u32, nodes: List<Node>) -> Node
    ensures { result ≡ spec.format_list from nodes }
{
    let Some(first) = nodes.get(0) else {
        return empty_list(alloc, from);
    };
    let Some(last) = nodes.get(nodes.len() - 1) else {
        return empty_list(alloc, from);
    };
    let (from, to) = (first.span.from, last.span.to);
    over(alloc, Kind::List, from, to, nodes)
}

/// The node of a field.
fn field(
    alloc: Global,
    span: Span,
    conversion: &Text,
    value: Node,
    nodes: List<Node>,
) -> Result<Node, Memory>
    ensures { IfOk result (λ n. n ≡ spec.field_node span conversion.now value nodes) }
{
    let list = format_list(alloc, span.from, nodes);
    let kids = two(alloc, value, list)?;
    Ok(node_of(Kind::FField, conversion.copy()?, span.from, span.to, kids))
}
