//! The public call: from tokens to the tree of a level.

ghost use Rattle.std.specs.Prelude.{◌≡◌, ◌≤◌, ℕ, length, IfOk, List as list, Some};
ghost use Rattle.node_tree.specs.declared.node.Node.{Node as node};
ghost use Rattle.node_tree.specs.declared.view.Mode.{Mode as mode_of};
ghost use Rattle.node_tree.specs.Gives.{Gives};
ghost use Rattle.node_tree.specs.Spans.{SpansLieIn};
ghost use Rattle.c_lex.specs.Places.{AreTokensIn};
ghost use Rattle.c_expr.specs.reader.Reading as reading;
ghost use Rattle.c_expr.specs.Runs.{level_of, IsRunTree, IsTree, AreOf};

use crate::classify::classified;
use crate::declarators::{Naming, declarator};
use crate::initializers::variable;
use crate::limits::shallow_end;
use crate::operators::{Precedence, assign, cast, chain, comma, conditional, unary};
use crate::part::Part;
use crate::primaries::{postfix, primary};
use crate::types::{spec, type_name};
use crate::word::Token;
use c_lex::CToken;
use node_tree::{List, MOST_DEEP, Mode, Node, ReadFault};
use std::alloc::Global;

/// A level of the grammar of C.
#[derive(Clone, Copy, Debug, PartialEq, Eq)]
pub enum CLevel {
    /// Expressions with commas (C11 6.5.17).
    Comma,
    /// Assignments (6.5.16).
    Assign,
    /// Conditional expressions (6.5.15).
    Cond,
    /// Logical or, with all that binds more tightly (6.5.5 to 6.5.14).
    Lor,
    /// Casts (6.5.4).
    Cast,
    /// Unary expressions (6.5.3).
    Unary,
    /// Postfix expressions (6.5.2).
    Postfix,
    /// Primary expressions (6.5.1).
    Prim,
    /// Type names (6.7.7).
    Tname,
    /// The words of a declaration (6.7).
    Spec,
    /// Declarators with a name (6.7.6).
    Declr,
    /// A declarator and its value (6.7).
    Var,
}

/// How many steps deeper the reader may go: so that depth, brackets and what stands in them never reach it.
const ROOM: u32 = 1002;

/// Reads a level from a token on: its node, and the number of the token behind it. The reader may go so many steps deeper.
///
/// This is the reader by the table itself: it asks for no limits but that of the room, and not whether the run is closed.
pub fn read_level(
    alloc: Global,
    tokens: &[Token<'_>],
    level: CLevel,
    room: u32,
    at: usize,
) -> Result<(Part, usize), ReadFault>
    requires { at ≤ length tokens.now }
    ensures within { IfOk result (λ x. x.1 ≤ length tokens.now) }
    ensures gives { Gives reading.one result (reading.level tokens.now room (level_of level) at) }
{
    match level {
        CLevel::Comma => comma(alloc, tokens, room, at),
        CLevel::Assign => assign(alloc, tokens, room, at),
        CLevel::Cond => conditional(alloc, tokens, room, at),
        CLevel::Lor => chain(alloc, tokens, Precedence::Or, room, at),
        CLevel::Cast => cast(alloc, tokens, room, at),
        CLevel::Unary => unary(alloc, tokens, room, at),
        CLevel::Postfix => postfix(alloc, tokens, room, at),
        CLevel::Prim => primary(alloc, tokens, room, at),
        CLevel::Tname => type_name(alloc, tokens, room, at),
        CLevel::Spec => spec(alloc, tokens, room, at),
        CLevel::Declr => declarator(alloc, tokens, Naming::Named, room, at),
        CLevel::Var => variable(alloc, tokens, room, at),
    }
}

/// The closed run of a level that begins at a token: its tree, and the place behind it.
fn read_run(
    alloc: Global,
    tokens: &[Token<'_>],
    level: CLevel,
    from: usize,
) -> Result<(Node, usize), ReadFault>
    requires { from ≤ length tokens.now }
    ensures found { IfOk result (λ x. (mode : mode_of) → IsRunTree mode tokens.now level from x.0 x.1) }
    ensures only { (mode : mode_of) (n : node) (to : ℕ) → AreOf mode tokens.now → IsRunTree mode tokens.now level from n to → Gives (λ x. x) result (Some (n, to)) }
{
    let shallow = &tokens[..shallow_end(tokens, from)];
    let (part, end) = read_level(alloc, shallow, level, ROOM, from)?;
    if part.depth > MOST_DEEP {
        return Err(ReadFault::NoTree);
    }
    Ok((part.node, end))
}

/// The tree of the closed run of a level that begins at the token `from`, and the place behind the run.
///
/// A run is closed where the token behind it cannot go on with it. NoTree comes exactly where no closed run of the level begins
/// at `from` whose tree is at most 500 deep and none of whose tokens stands inside more than 500 open brackets of the run.
/// The node of a name that is left out is `Absent`, and stands where its parent begins.
pub fn read_c(
    alloc: Global,
    tokens: &List<CToken>,
    from: u32,
    level: CLevel,
    mode: Mode,
) -> Result<(Node, u32), ReadFault>
    requires { from ≤ length tokens.now }
    // What is read is the closed run.
    ensures found { IfOk result (λ x. IsTree mode tokens.now level from x.0 x.1) }
    // Its spans lie in each text in which the tokens lie.
    ensures placed { (text : list ℕ) → AreTokensIn text tokens.now → IfOk result (λ x. SpansLieIn text x.0) }
    // Each closed run is what is read, unless memory runs out. So there is at most one.
    ensures only { (n : node) (to : ℕ) → IsTree mode tokens.now level from n to → Gives (λ x. x) result (Some (n, to)) }
{
    let classed = classified(alloc, tokens, mode)?;
    let (node, end) = read_run(alloc, classed.as_slice(), level, from as usize)?;
    let Ok(end) = u32::try_from(end) else {
        return Err(ReadFault::Memory);
    };
    Ok((node, end))
}
