//! Dotted names and their parts.

ghost use Rattle.std.specs.Prelude.{◌≡◌, ◌++◌, [], MatchOption, OnOk};
ghost use Rattle.assignments.specs.Assignments.{first_part as first_part_spec};
ghost use Rattle.import_names.specs.Claims as spec;
ghost use Rattle.import_names.specs.Pieces.{parts_left, IsFirst};

use node_tree::{List, Memory, Written};

/// What stands before the first dot of a text.
pub fn first_part(text: &str) -> &str
    ensures { result.now ≡ first_part_spec text.now }
{
    match text.split_once('.') {
        Some((first, _)) => first,
        None => text,
    }
}

// The first of the parts that are left, and what is left after it.
fn next_part<'t>(left: Option<&'t str>) -> Option<(&'t str, Option<&'t str>)>
    ensures { MatchOption result (parts_left left.entry ≡ []) (IsFirst left.entry) }
{
    let text = left?;
    match text.split_once('.') {
        Some((part, rest)) => Some((part, Some(rest))),
        None => Some((text, None)),
    }
}

/// Adds the parts of a dotted name.
pub fn add_dotted<'t>(text: &'t str, into: &mut List<Written<'t>>) -> Result<(), Memory>
    ensures { OnOk result (into.new ≡ into.old ++ spec.dotted text.now) }
{
    let mut left = Some(text);
    while let Some((part, rest)) = next_part(left) {
        left = rest;
        into.push(Written::new(part))?;
    }
    Ok(())
}
