//! Steps of a search from one part of the pattern to the next.

ghost use Rattle.std.specs.Prelude.{◌≡◌, ◌↔◌, ◌<◌, ◌+◌, ◌∷◌, length, IfOk, IsTrue, MatchOption, Some};
ghost use Rattle.node_tree.specs.Tree.{kids_of};
ghost use Rattle.node_match.specs.Fronts.{End};
ghost use Rattle.node_search.specs.Kids.{line};
ghost use Rattle.node_search.specs.States.{AnyFrom};
ghost use Rattle.tree_match.specs.Aims.{left_of};

use crate::aim::Search;
use node_match::{is_named, part_at};
use node_search::{State, step_at, step_unnamed};
use node_tree::{List, Memory, Node};
use std::alloc::Global;

/// Whether the search passes over the part at this place, because that has a name.
pub fn is_passed(search: Search<'_, '_, '_, '_>, at: usize) -> bool
    requires { at < length (kids_of search.pattern.now) }
    ensures { IsTrue result → left_of search.entry at ≡ left_of search.entry (at + 1) }
{
    if !search.unnamed {
        return false;
    }
    is_named(&search.pattern.kids.as_slice()[at])
}

/// The part at this place, if the search asks for one there.
pub fn asked_at<'t>(search: Search<'_, '_, '_, 't>, at: usize) -> Option<&'t Node>
    requires { at < length (kids_of search.pattern.now) }
    ensures { MatchOption result (Unit {0}) (λ part. left_of search.entry at ≡ Some part.now ∷ left_of search.entry (at + 1)) }
{
    if search.unnamed {
        let part = &search.pattern.kids.as_slice()[at];
        if is_named(part) {
            return None;
        }
        return Some(part);
    }
    part_at(search.pattern, at)
}

/// Where the part at this place leads from these states.
pub fn stepped<'t>(
    alloc: Global,
    search: Search<'_, '_, '_, 't>,
    at: usize,
    states: List<State<'t>>,
) -> Result<List<State<'t>>, Memory>
    requires { at < length (kids_of search.pattern.now) }
    ensures { IfOk result (λ next. (c : End) →
        AnyFrom search.entry.known.names.now (line search.entry.holder) (left_of search.entry (at + 1)) next c ↔
        AnyFrom search.entry.known.names.now (line search.entry.holder) (left_of search.entry at) states.entry c) }
{
    if search.unnamed {
        let part = &search.pattern.kids.as_slice()[at];
        let next = step_unnamed(alloc, search.known, part, search.holder, states)?;
        return Ok(next);
    }
    let next = step_at(
        alloc,
        search.known,
        search.pattern,
        at,
        search.holder,
        &states,
    )?;
    Ok(next)
}
