//! The names of targets.

ghost use Rattle.std.specs.Prelude.{◌≡◌, ◌++◌, OnOk};
ghost use Rattle.node_pool.specs.Spots.{seen, all_seen};
ghost use Rattle.assignments.specs.Seen.{seen_target, all_targets};
ghost use Rattle.assignments.specs.Targets.{below as below_spec, is_name as is_name_spec, leading as leading_spec, starred as starred_spec, unless_base as unless_base_spec, targets, name_here};

use crate::assignment::{Reach, Target};
use crate::marks::is_mark;
use crate::parts::{none, part};
use node_pool::Spot;
use node_tree::{Kind, List, Memory, Text};
use std::alloc::Global;

// The parts of a target that is no object.
fn unless_base<'s, 'p, 't>(reach: Reach, kids: &'s [Spot<'p, 't>]) -> &'s [Spot<'p, 't>]
    ensures { all_seen result.now ≡ unless_base_spec reach (all_seen kids.now) }
{
    if reach == Reach::Base {
        return none(kids);
    }
    kids
}

// The operand of `*`.
fn starred<'s, 'p, 't>(mark: &Text, kids: &'s [Spot<'p, 't>]) -> &'s [Spot<'p, 't>]
    ensures { all_seen result.now ≡ starred_spec mark.now (all_seen kids.now) }
{
    if is_mark(mark, b"*") {
        return part(kids, 0);
    }
    none(kids)
}

// The kids of a target that lead to names.
fn leading<'s, 'p, 't>(
    reach: Reach,
    kind: Kind,
    text: &Text,
    kids: &'s [Spot<'p, 't>],
) -> &'s [Spot<'p, 't>]
    ensures { all_seen result.now ≡ leading_spec reach kind text.now (all_seen kids.now) }
{
    match kind {
        Kind::Tuple => unless_base(reach, kids),
        Kind::ListLit => unless_base(reach, kids),
        Kind::Star => unless_base(reach, kids),
        Kind::Attr => part(kids, 0),
        Kind::Sub => part(kids, 0),
        Kind::Unary => starred(text, kids),
        Kind::Cast => part(kids, 1),
        _ => none(kids),
    }
}

// How much of a target a name below a node of that kind is.
fn below(kind: Kind) -> Reach
    ensures { result ≡ below_spec kind }
{
    match kind {
        Kind::Tuple => Reach::Part,
        Kind::ListLit => Reach::Part,
        Kind::Star => Reach::Part,
        _ => Reach::Base,
    }
}

// Whether it is a name.
fn is_name(kind: Kind) -> bool
    ensures { result ≡ is_name_spec kind }
{
    match kind {
        Kind::Name => true,
        _ => false,
    }
}

/// The name that a node writes, as this much of a target.
pub fn target<'t>(reach: Reach, spot: Spot<'_, 't>) -> Target<'t>
    ensures { seen_target result ≡ name_here reach (seen spot.entry) }
{
    Target {
        at: spot.at,
        name: spot.node.text.as_str(),
        reach,
    }
}

/// Adds the names of a target, or of what is this much of one.
pub fn add_targets<'t>(
    alloc: Global,
    reach: Reach,
    spot: Spot<'_, 't>,
    into: &mut List<Target<'t>>,
) -> Result<(), Memory>
    ensures { OnOk result (all_targets into.new ≡
        all_targets into.old ++ targets reach (seen spot.entry)) }
{
    let kind = spot.node.kind;
    if is_name(kind) {
        into.push(target(reach, spot))?;
        return Ok(());
    }
    let kids = spot.kids(alloc)?;
    for kid in leading(reach, kind, &spot.node.text, kids.as_slice()) {
        add_targets(alloc, below(kind), *kid, into)?;
    }
    Ok(())
}
