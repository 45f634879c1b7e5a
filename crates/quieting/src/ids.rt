//! The ids that a comment names.

ghost use Rattle.std.specs.Prelude.{◌≡◌, [], MatchOption, IfOk};
ghost use Rattle.quieting.specs.Ids as spec;

use crate::words::first_word;
use node_tree::{List, Memory, Text};
use std::alloc::Global;

// The first of the pieces that are left, and what is left after it.
fn first_piece<'t>(left: Option<&'t str>) -> Option<(&'t str, Option<&'t str>)>
    ensures { MatchOption result (spec.pieces_left left.entry ≡ []) (spec.IsFirst left.entry) }
{
    let text = left?;
    match text.split_once(',') {
        Some((piece, rest)) => Some((piece, Some(rest))),
        None => Some((text, None)),
    }
}

/// The ids of a list with commas: the first word of each piece that has one.
pub fn ids_in(alloc: Global, list: &str) -> Result<List<Text>, Memory>
    ensures { IfOk result (λ ids. ids ≡ spec.ids_in list.now) }
{
    let mut ids = List::new(alloc);
    let mut left = Some(list);
    'pieces: while let Some((piece, rest)) = first_piece(left) {
        left = rest;
        let id = first_word(piece);
        if id.is_empty() {
            continue;
        }
        ids.push(Text::from_str(alloc, id)?)?;
    }
    Ok(ids)
}
