//! The public call: from a text to the comparison that it is.

ghost use Rattle.std.specs.Prelude.{◌≡◌, IfOk, IfErr, Some};
ghost use Rattle.rule_form.specs.declared.comparison.Comparison.{Comparison as a_comparison};
ghost use Rattle.meta_filter.specs.declared.part.Part.{Part as a_part};
ghost use Rattle.meta_filter.specs.Comparisons.{IsPartOf, IsComparisonOf, IsFault, GivesComparison};
ghost use Rattle.meta_filter.specs.Reading.{Gives};

use crate::fault::CompareFault;
use crate::layer::Layer;
use crate::lex::lex;
use crate::part::{MAX_DEPTH, Meaning, Part};
use crate::reader::from_left;
use crate::token::Token;
use rule_form::Comparison;
use std::alloc::Global;

/// How many steps deeper the reader may go: so that the depth never reaches it.
const ROOM: u32 = 102;

/// The part that all the tokens spell.
fn whole_part(alloc: Global, tokens: &[Token<'_>]) -> Result<Part, CompareFault>
    ensures found { IfOk result (IsPartOf tokens.now) }
    ensures only { (p : a_part) → IsPartOf tokens.now p → Gives (λ q. q) result (Some p) }
{
    let (part, end) = from_left(alloc, tokens, Layer::Either, ROOM, 0)?;
    if end != tokens.len() {
        return Err(CompareFault::NoComparison);
    }
    if part.depth > MAX_DEPTH {
        return Err(CompareFault::NoComparison);
    }
    Ok(part)
}

/// Reads a comparison, such as `$X + 1 < int($Y) or not $Z == 0`.
///
/// Loosest first it has `or`, `and`, `not`, chains of `<`, `<=`, `>`, `>=`, `==` and `!=`, then `+` and `-`, then `*`, `//` and
/// `%`, the `-` before a number, and at last decimal digits, `$NAME`, `int($NAME)` and parentheses. `or`, `and` and `not` take
/// truths, the other operators take numbers, and the whole is a truth. `or`, `and`, `+`, `-`, `*`, `//` and `%` are joined from
/// the left, and a chain is one node. Between tokens stand spaces, tabs and line ends.
///
/// NoComparison comes exactly where the text is no such comparison, or a number doesn't fit in 128 bits with a sign, or the
/// comparison is more than 100 deep. Each operator, each chain and each pair of parentheses is one deeper than what it holds, and
/// a number, a `$NAME` and an `int($NAME)` are 1 deep.
pub fn read_comparison(alloc: Global, text: &str) -> Result<Comparison, CompareFault>
    ensures found { IfOk result (IsComparisonOf text.now) }
    ensures fault { IfErr result (IsFault text.now) }
    // Each comparison that the text writes is the one that is read, unless memory runs out. So there is at most one.
    ensures only { (c : a_comparison) → IsComparisonOf text.now c → GivesComparison c result }
{
    let tokens = lex(alloc, text)?;
    let part = whole_part(alloc, tokens.as_slice())?;
    let Meaning::Truth(comparison) = part.meaning else {
        return Err(CompareFault::NoComparison);
    };
    Ok(comparison)
}
