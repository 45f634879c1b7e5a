//! What the tokens of a whole text are.

ghost use Rattle.std.specs.Prelude.{◌≡◌, ◌≤◌, ℕ, List as list, length, IfOk, Some};
ghost use Rattle.node_tree.specs.Gives.{Gives};
ghost use Rattle.c_expr.specs.declared.part.Part.{Part as a_part};
ghost use Rattle.c_expr.specs.declared.word.Word.TheVariants.{End};
ghost use Rattle.c_expr.specs.Words.{class};
ghost use Rattle.c_expr.specs.Build.{tallest, token_at};
ghost use Rattle.c_expr.specs.reader.Reading as e;
ghost use Rattle.c_items.specs.reader.Reading as reading;
ghost use Rattle.c_unit.specs.Units.{level_of, IsAll};

use c_expr::{CLevel, Part, Token, Word, is, shallow_end};
use c_items::{expression, file_items, items};
use node_tree::{MOST_DEEP, ReadFault};
use std::alloc::Global;

/// How many steps deeper the reader may go: so that depth, brackets and what stands in them never reach it.
const ROOM: u32 = 1002;

/// What the tokens of a text are read as.
#[derive(Clone, Copy, Debug, PartialEq, Eq)]
pub enum Whole {
    Expression,
    /// Items of a block.
    Items,
    FileItems,
}

/// What stands from the first token on, and the place behind it.
fn read(alloc: Global, tokens: &[Token<'_>], whole: Whole) -> Result<(Vec<Part>, usize), ReadFault>
    ensures within { IfOk result (λ x. x.1 ≤ length tokens.now) }
    ensures gives { Gives e.parts result (reading.level tokens.now 1002 (level_of whole) 0) }
{
    match whole {
        Whole::Expression => {
            let (part, end) = expression(alloc, tokens, CLevel::Comma, ROOM, 0)?;
            Ok((vec![in alloc; part]?, end))
        }
        Whole::Items => items(alloc, tokens, ROOM, 0),
        Whole::FileItems => file_items(alloc, tokens, ROOM, 0),
    }
}

/// The place of the first token that ends a text.
fn first_end(tokens: &[Token<'_>]) -> usize
    ensures { (n : ℕ) → class (token_at tokens.now n).word ≡ class End → result ≤ n }
{
    for at in 0..tokens.len() {
        if is(tokens, at, Word::End) {
            return at;
        }
    }
    tokens.len()
}

/// How deep the deepest of some parts is.
fn deepest(mut parts: &[Part]) -> u32
    ensures { result ≡ tallest parts.now }
{
    let mut depth = 0;
    while let [part, rest @ ..] = parts {
        depth = depth.max(part.depth);
        parts = rest;
    }
    depth
}

/// The parts that all tokens up to the end spell, none of which is deeper than so much, and the place of the end.
pub fn read_whole(
    alloc: Global,
    tokens: &[Token<'_>],
    whole: Whole,
    most: u32,
) -> Result<(Vec<Part>, usize), ReadFault>
    requires { most ≤ MOST_DEEP }
    ensures found { IfOk result (λ x. IsAll (level_of whole) tokens.now x.0.items x.1) }
    ensures shallow { IfOk result (λ x. tallest x.0.items ≤ most) }
    // All that the tokens are is what is read, unless memory runs out.
    ensures only { (ps : list a_part) (end : ℕ) → IsAll (level_of whole) tokens.now ps end → tallest ps ≤ most → Gives e.parts result (Some (ps, end)) }
{
    let shallow = shallow_end(tokens, 0);
    if shallow < first_end(tokens) {
        return Err(ReadFault::NoTree);
    }
    let (parts, end) = read(alloc, tokens, whole)?;
    if !is(tokens, end, Word::End) {
        return Err(ReadFault::NoTree);
    }
    if deepest(parts.as_slice()) > most {
        return Err(ReadFault::NoTree);
    }
    if shallow < end {
        return Err(ReadFault::NoTree);
    }
    Ok((parts, end))
}
