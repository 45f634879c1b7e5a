//! The public call: from tokens to the tree of a run.

ghost use Rattle.std.specs.Prelude.{◌≡◌, ◌<◌, ◌≤◌, ℕ, length, IfOk, List as list, Some};
ghost use Rattle.node_tree.specs.declared.node.Node.{Node as node};
ghost use Rattle.node_tree.specs.Gives.{Gives};
ghost use Rattle.node_tree.specs.Spans.{SpansLieIn};
ghost use Rattle.py_lex.specs.Places.{AreTokensIn};
ghost use Rattle.py_expr.specs.reader.Reading as reading;
ghost use Rattle.node_tree.specs.declared.view.Mode.{Mode as mode_of};
ghost use Rattle.py_expr.specs.Insides.{Finds, IsWhole};
ghost use Rattle.py_expr.specs.Runs.{IsTree, IsRunTree, AreOf, level_at};

use crate::inside::items;
use crate::item::Item;
use crate::level::{Binary, PyLevel};
use crate::limits::{is_shallow, shallow_end};
use crate::read;
use node_tree::{List, MOST_DEEP, Memory, Mode, Node, ReadFault};
use py_lex::PyToken;
use std::alloc::Global;

/// How many steps deeper the reader may go: 500 for depth, 500 for brackets, and two.
const ROOM: u32 = 1002;

/// Reads a level from an item on: its tree, and the number of the item behind it. The reader may go so many steps deeper.
///
/// This is the reader by the table itself: it asks for no limits, and not whether the run is closed.
pub fn read_level(
    alloc: Global,
    items: &[Item<'_>],
    level: PyLevel,
    room: u32,
    at: usize,
) -> Result<(Node, usize), ReadFault>
    requires { at ≤ length items.now }
    ensures within { IfOk result (λ x. x.1 ≤ length items.now) }
    ensures gives { Gives reading.one result (reading.level items.now room (level_at level) at) }
{
    match level {
        PyLevel::Exprs => read::exprs(alloc, items, room, at),
        PyLevel::Star => read::star(alloc, items, room, at),
        PyLevel::Named => read::named(alloc, items, room, at),
        PyLevel::Test => read::test(alloc, items, room, at),
        PyLevel::Or => read::binary(alloc, items, Binary::Or, room, at),
        PyLevel::And => read::binary(alloc, items, Binary::And, room, at),
        PyLevel::Not => read::not(alloc, items, room, at),
        PyLevel::Cmp => read::cmp(alloc, items, room, at),
        PyLevel::Bor => read::binary(alloc, items, Binary::Bar, room, at),
        PyLevel::Unary => read::unary(alloc, items, room, at),
        PyLevel::Power => read::power(alloc, items, room, at),
        PyLevel::Await => read::awaited(alloc, items, room, at),
        PyLevel::Prim => read::prim(alloc, items, room, at),
        PyLevel::Atom => read::atom(alloc, items, room, at),
        PyLevel::Yield => read::yields(alloc, items, room, at),
        PyLevel::Targs => read::targs(alloc, items, room, at),
        PyLevel::Target => read::target(alloc, items, room, at),
        PyLevel::Params => read::params(alloc, items, room, at),
        PyLevel::Args => read::args(alloc, items, room, at),
    }
}

/// Reads the closed run of a level that begins at an item: its tree, and the number of the item behind it.
fn read_items(
    alloc: Global,
    items: &[Item<'_>],
    from: usize,
    level: PyLevel,
) -> Result<(Node, usize), ReadFault>
    requires { from ≤ length items.now }
    ensures found { IfOk result (λ x. (mode : mode_of) → IsRunTree mode items.now level from x.0 x.1) }
    ensures only { (mode : mode_of) (n : node) (to : ℕ) → AreOf mode items.now → IsRunTree mode items.now level from n to → Gives (λ x. x) result (Some (n, to)) }
{
    let shallow = &items[..shallow_end(items, from)];
    let (node, end) = read_level(alloc, shallow, level, ROOM, from)?;
    if !is_shallow(&node, MOST_DEEP) {
        return Err(ReadFault::NoTree);
    }
    Ok((node, end))
}

/// The expression that all the items are, if they are one.
pub fn whole(alloc: Global, items: &[Item<'_>]) -> Result<Option<Node>, Memory>
    ensures { IfOk result (Finds (IsWhole items.now)) }
{
    if shallow_end(items, 0) < items.len() {
        return Ok(None);
    }
    match read_level(alloc, items, PyLevel::Exprs, ROOM, 0) {
        Ok((node, end)) => {
            if end < items.len() {
                return Ok(None);
            }
            if !is_shallow(&node, MOST_DEEP) {
                return Ok(None);
            }
            Ok(Some(node))
        }
        Err(ReadFault::NoTree) => Ok(None),
        Err(ReadFault::Memory) => Err(Memory),
    }
}

/// Reads the closed run of a level of Python's expressions that begins at the token `from`: its tree, and the number of the
/// token behind it.
///
/// The levels are those of the Python reference, section "Expressions", in the profile that docs/PYTHON.md tells. A run is
/// closed where the token behind it cannot go on with it. In a pattern `...` (`Dots`), `$...NAME` (`MetaDots`), `$NAME`
/// (`Meta`) and `<... exprs ...>` (`Deep`) are atoms, and the string `"..."` is a `StrAny`. Spans are in bytes, from 0.
///
/// NoTree comes exactly where no closed run of the level begins at `from` whose tree is at most 500 deep and none of whose
/// tokens stands inside more than 500 open brackets of the run.
/// The expression in a field of an f-string is read by itself, within the same limits; an f-string with a field that has no
/// tree stands in no expression.
pub fn read_py(
    alloc: Global,
    tokens: &List<PyToken>,
    from: u32,
    level: PyLevel,
    mode: Mode,
) -> Result<(Node, u32), ReadFault>
    requires { from < length tokens.now }
    // What is read is the closed run.
    ensures found { IfOk result (λ x. IsTree mode tokens.now level from x.0 x.1) }
    // Its spans lie in each text in which the tokens lie.
    ensures placed { (text : list ℕ) → AreTokensIn text tokens.now → IfOk result (λ x. SpansLieIn text x.0) }
    // Each closed run is what is read, unless memory runs out. So there is at most one.
    ensures only { (n : node) (to : ℕ) → IsTree mode tokens.now level from n to → Gives (λ x. x) result (Some (n, to)) }
{
    let items = items(alloc, mode, tokens.as_slice(), MOST_DEEP)?;
    let (node, end) = read_items(alloc, items.as_slice(), from as usize, level)?;
    let Ok(end) = u32::try_from(end) else {
        return Err(ReadFault::Memory);
    };
    Ok((node, end))
}
