//! Whether a comparison holds.

ghost use Rattle.std.specs.Prelude.{◌≡◌, [], ◌∷◌, map, drop};
ghost use Rattle.node_tree.specs.Tree.{content_of, kind_of, text_of};
ghost use Rattle.meta_filter.specs.Values as spec;

use crate::arithmetic::{compared, computed};
use crate::numeral::{behind, byte_at, written};
use meta_bind::Binding;
use node_tree::{Kind, List, Node, Span};
use rule_form::{Amount, CompareOp, Comparison};

/// The number that the bytes of a span write, if they do.
fn number_in(bytes: &[u8], span: Span) -> Option<i128>
    ensures { result ≡ spec.number_in bytes.now span }
{
    match bytes.get(span.from as usize..span.to as usize) {
        Some(text) => written(text),
        None => None,
    }
}

/// The number that the content of a string without prefix writes, if the node is one.
fn string_number(node: &Node) -> Option<i128>
    ensures { result ≡ spec.string_number (kind_of node.now) (text_of node.now) }
{
    if node.kind != Kind::Str {
        return None;
    }
    let text = node.text.as_str().as_bytes();
    if byte_at(text, 0) != b'"' {
        return None;
    }
    written(behind(text, 1))
}

/// The number that the content of a string writes, if the nodes are one string without prefix that does.
#[tactic(auto, using(crate::proofs::Contents::one_node, crate::proofs::Contents::more_nodes))]
fn number_inside(nodes: &[Node]) -> Option<i128>
    ensures { result ≡ spec.number_inside (map content_of nodes.now) }
{
    let Some((node, others)) = nodes.split_first() else {
        return None;
    };
    if !others.is_empty() {
        return None;
    }
    string_number(node)
}

/// The value of an amount, if it has one.
#[tactic(auto, using(crate::proofs::Layers::value_number, crate::proofs::Layers::value_bound, crate::proofs::Layers::value_content, crate::proofs::Layers::value_negated, crate::proofs::Layers::value_arith))]
fn value_of(amount: &Amount, binding: &Binding, bytes: &[u8]) -> Option<i128>
    ensures { result ≡ spec.value_of binding.now bytes.now amount.now }
{
    match amount {
        Amount::Number(n) => Some(*n),
        Amount::Value(name) => match binding.get(name.as_str()) {
            Some(bound) => number_in(bytes, bound.span),
            None => None,
        },
        Amount::Content(name) => match binding.get(name.as_str()) {
            Some(bound) => number_inside(bound.nodes.as_slice()),
            None => None,
        },
        Amount::Negated(inner) => {
            let n = value_of(inner.get(), binding, bytes)?;
            n.checked_neg()
        }
        Amount::Arith(op, left, right) => {
            let x = value_of(left.get(), binding, bytes)?;
            let y = value_of(right.get(), binding, bytes)?;
            computed(*op, x, y)
        }
    }
}

/// Whether two neighbours compare as the operator between them says, if there is one.
fn pair_holds(ops: &[CompareOp], at: usize, x: i128, y: i128) -> bool
    ensures { result ≡ spec.pairs_hold (x ∷ y ∷ []) (drop at ops.now) }
{
    match ops.get(at) {
        Some(op) => compared(*op, x, y),
        None => true,
    }
}

/// Whether a number and those that follow compare as the operators between them say, if all have values.
fn links_truth(
    first: i128,
    others: &[Amount],
    ops: &[CompareOp],
    binding: &Binding,
    bytes: &[u8],
) -> Option<bool>
    ensures { result ≡ spec.links_truth binding.now bytes.now first others.now ops.now }
{
    let mut before = first;
    let mut holds = true;
    for (i, amount) in others.iter().enumerate() {
        let value = value_of(amount, binding, bytes)?;
        let pair = pair_holds(ops, i, before, value);
        holds &= pair;
        before = value;
    }
    Some(holds)
}

/// Whether a chain holds, if all its amounts have values.
fn chain_truth(
    amounts: &[Amount],
    ops: &[CompareOp],
    binding: &Binding,
    bytes: &[u8],
) -> Option<bool>
    ensures { result ≡ spec.chain_truth binding.now bytes.now amounts.now ops.now }
{
    let Some((first, others)) = amounts.split_first() else {
        return Some(false);
    };
    let number = value_of(first, binding, bytes)?;
    let links = links_truth(number, others, ops, binding, bytes)?;
    let is_chain = !ops.is_empty() && others.len() == ops.len();
    Some(is_chain && links)
}

/// Whether a comparison is true, if all its parts have values.
#[tactic(auto, using(crate::proofs::Layers::truth_or, crate::proofs::Layers::truth_and, crate::proofs::Layers::truth_not, crate::proofs::Layers::truth_chain))]
fn truth_of(comparison: &Comparison, binding: &Binding, bytes: &[u8]) -> Option<bool>
    ensures { result ≡ spec.truth_of binding.now bytes.now comparison.now }
{
    match comparison {
        Comparison::Or(left, right) => {
            let x = truth_of(left.get(), binding, bytes)?;
            let y = truth_of(right.get(), binding, bytes)?;
            Some(x || y)
        }
        Comparison::And(left, right) => {
            let x = truth_of(left.get(), binding, bytes)?;
            let y = truth_of(right.get(), binding, bytes)?;
            Some(x && y)
        }
        Comparison::Not(inner) => {
            let x = truth_of(inner.get(), binding, bytes)?;
            Some(!x)
        }
        Comparison::Chain(amounts, ops) => {
            chain_truth(amounts.as_slice(), ops.as_slice(), binding, bytes)
        }
    }
}

/// Whether a comparison holds, where metavariables are bound to parts of these bytes.
///
/// It is computed in whole numbers. `//` and `%` round down. `$NAME` is the number that the bytes where it was bound write: an
/// optional `-`, and then decimal digits, with single `_` between them and no leading 0 unless it is `0`, or `0x`, `0o` or `0b`
/// and digits. `int($NAME)` is the number that the content of the bound string writes, if that has no prefix. All parts are
/// computed, also those that no longer matter. Where one has no value, or none that fits in 128 bits with a sign, the
/// comparison doesn't hold, be it under a `not` or not. A `Chain` of another shape than those that are read is false.
pub fn holds_comparison(comparison: &Comparison, binding: &Binding, bytes: &[u8]) -> bool
    ensures { result ≡ spec.holds binding.now bytes.now comparison.now }
{
    truth_of(comparison, binding, bytes) == Some(true)
}
