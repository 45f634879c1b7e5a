//! What one node assigns.

ghost use Rattle.std.specs.Prelude.{◌≡◌, ◌++◌, [], false, IfOk, OnOk};
ghost use Rattle.std.specs.List.{flat_map};
ghost use Rattle.node_tree.specs.declared.kind.Kind.TheVariants as kinds;
ghost use Rattle.node_tree.specs.Tree.{kind_of, text_of};
ghost use Rattle.node_pool.specs.Spots.{seen, all_seen};
ghost use Rattle.assignments.specs.Seen.{seen_value, all_targets, all_assignments};
ghost use Rattle.assignments.specs.Declarators.{id_of, declared};
ghost use Rattle.assignments.specs.Assignments as spec;

use crate::assignment::{Assignment, Manner, Reach, Target};
use crate::declarator::{add_all_declared, add_ids};
use crate::marks::{is_mark, steps};
use crate::parts::part;
use crate::target_names::{add_targets, target};
use node_pool::Spot;
use node_tree::{Kind, List, Memory, Node, Text};
use std::alloc::Global;

// The node, unless it stands for a part that is left out.
fn present<'t>(node: &'t Node) -> Option<&'t Node>
    ensures { seen_value result ≡ spec.present_by (kind_of node.now) node.now }
{
    match node.kind {
        Kind::Absent => None,
        _ => Some(node),
    }
}

// The value that the first of these is, unless it is left out.
fn value<'t>(nodes: &[Spot<'_, 't>]) -> Option<&'t Node>
    ensures { seen_value result ≡ spec.value_of (all_seen nodes.now) }
{
    let first = nodes.first()?;
    present(first.node)
}

// The names of these targets.
fn names<'t>(alloc: Global, nodes: &[Spot<'_, 't>]) -> Result<List<Target<'t>>, Memory>
    ensures { IfOk result (λ names. all_targets names ≡ spec.names_in (all_seen nodes.now)) }
{
    let mut names = List::new(alloc);
    for node in nodes {
        add_targets(alloc, Reach::Whole, *node, &mut names)?;
    }
    Ok(names)
}

// These names as whole targets.
fn whole_names<'t>(alloc: Global, nodes: &[Spot<'_, 't>]) -> Result<List<Target<'t>>, Memory>
    ensures { IfOk result (λ names. all_targets names ≡ spec.whole_names (all_seen nodes.now)) }
{
    let mut names = List::new(alloc);
    for node in nodes {
        names.push(target(Reach::Whole, *node))?;
    }
    Ok(names)
}

// Those of these nodes that are names and no expressions, as whole targets.
fn ids<'t>(alloc: Global, nodes: &[Spot<'_, 't>]) -> Result<List<Target<'t>>, Memory>
    ensures { IfOk result (λ names. all_targets names ≡
        spec.whole_names (flat_map id_of (all_seen nodes.now))) }
{
    let mut ids = List::new(alloc);
    add_ids(nodes, &mut ids)?;
    whole_names(alloc, ids.as_slice())
}

// What these declarators declare, as whole targets.
fn declared_names<'t>(
    alloc: Global,
    declarators: &[Spot<'_, 't>],
) -> Result<List<Target<'t>>, Memory>
    ensures { IfOk result (λ names. all_targets names ≡
        spec.whole_names (flat_map declared (all_seen declarators.now))) }
{
    let mut names = List::new(alloc);
    add_all_declared(alloc, declarators, &mut names)?;
    whole_names(alloc, names.as_slice())
}

// What stands before the first dot of a text.
fn first_part(text: &str) -> &str
    ensures { result.now ≡ spec.first_part text.now }
{
    match text.split_once('.') {
        Some((first, _)) => first,
        None => text,
    }
}

// Adds the name that an import of this binds without `as`.
fn add_unnamed<'t>(spot: Spot<'_, 't>, into: &mut List<Target<'t>>) -> Result<(), Memory>
    ensures { OnOk result (all_targets into.new ≡
        all_targets into.old ++ spec.unnamed (seen spot.entry)) }
{
    let text = &spot.node.text;
    if is_mark(text, b"*") {
        return Ok(());
    }
    into.push(Target {
        at: spot.at,
        name: first_part(text.as_str()),
        reach: Reach::Whole,
    })
}

// The name that an import binds: the one behind `as`, or that of what is imported.
fn imported<'t>(
    alloc: Global,
    names: &[Spot<'_, 't>],
    dotted: &[Spot<'_, 't>],
) -> Result<List<Target<'t>>, Memory>
    ensures { IfOk result (λ targets. all_targets targets ≡
        spec.imported (all_seen names.now) (all_seen dotted.now)) }
{
    if !names.is_empty() {
        return whole_names(alloc, names);
    }
    let mut targets = List::new(alloc);
    for one in dotted {
        add_unnamed(*one, &mut targets)?;
    }
    Ok(targets)
}

// The name that an alias with these kids binds.
fn alias<'t>(alloc: Global, kids: &[Spot<'_, 't>]) -> Result<List<Target<'t>>, Memory>
    ensures { IfOk result (λ targets. all_targets targets ≡ spec.alias_names (all_seen kids.now)) }
{
    let mut names = List::new(alloc);
    add_ids(part(kids, 1), &mut names)?;
    let mut dotted = List::new(alloc);
    add_ids(part(kids, 0), &mut dotted)?;
    imported(alloc, names.as_slice(), dotted.as_slice())
}

// Adds an assignment of these targets, if there are any.
fn add_assigned<'t>(
    manner: Manner,
    value: Option<&'t Node>,
    targets: List<Target<'t>>,
    into: &mut List<Assignment<'t>>,
) -> Result<(), Memory>
    ensures { OnOk result (all_assignments into.new ≡
        all_assignments into.old ++
        spec.assigned manner (seen_value value.entry) (all_targets targets.entry)) }
{
    if targets.is_empty() {
        return Ok(());
    }
    into.push(Assignment {
        manner,
        value,
        targets,
    })
}

// What an annotated name assigns.
fn add_annotated<'t>(
    alloc: Global,
    kids: &[Spot<'_, 't>],
    into: &mut List<Assignment<'t>>,
) -> Result<(), Memory>
    ensures { OnOk result (all_assignments into.new ≡
        all_assignments into.old ++ spec.assigned_by false kinds.AnnAssign [] (all_seen kids.now)) }
{
    match value(part(kids, 2)) {
        None => Ok(()),
        Some(value) => add_assigned(
            Manner::Statement,
            Some(value),
            names(alloc, part(kids, 0))?,
            into,
        ),
    }
}

// What a variable assigns.
fn add_variable<'t>(
    alloc: Global,
    kids: &[Spot<'_, 't>],
    into: &mut List<Assignment<'t>>,
) -> Result<(), Memory>
    ensures { OnOk result (all_assignments into.new ≡
        all_assignments into.old ++ spec.assigned_by false kinds.Var [] (all_seen kids.now)) }
{
    let names = declared_names(alloc, part(kids, 0))?;
    match value(part(kids, 1)) {
        None => add_assigned(Manner::Declared, None, names, into),
        Some(value) => add_assigned(Manner::Statement, Some(value), names, into),
    }
}

// What a statement with several targets assigns.
fn add_chain<'t>(
    alloc: Global,
    kids: &[Spot<'_, 't>],
    into: &mut List<Assignment<'t>>,
) -> Result<(), Memory>
    ensures { OnOk result (all_assignments into.new ≡
        all_assignments into.old ++ spec.assigned_by false kinds.Assign [] (all_seen kids.now)) }
{
    let last = kids.len().saturating_sub(1);
    add_assigned(
        Manner::Statement,
        value(&kids[last..]),
        names(alloc, &kids[..last])?,
        into,
    )?;
    Ok(())
}

// How an operator of an expression assigns.
fn operated(mark: &Text) -> Manner
    ensures { result ≡ spec.operated mark.now }
{
    if is_mark(mark, b"=") {
        return Manner::Expression;
    }
    Manner::Augmented
}

// What a node of that kind assigns that says no value.
fn add_unvalued<'t>(
    alloc: Global,
    kind: Kind,
    text: &Text,
    kids: &[Spot<'_, 't>],
    into: &mut List<Assignment<'t>>,
) -> Result<(), Memory>
    ensures { OnOk result (all_assignments into.new ≡
        all_assignments into.old ++ spec.unvalued_by kind text.now (all_seen kids.now)) }
{
    match kind {
        Kind::Unary => add_stepped(alloc, text, kids, into),
        Kind::Postfix => add_stepped(alloc, text, kids, into),
        Kind::Del => add_assigned(Manner::Deleted, None, names(alloc, part(kids, 0))?, into),
        Kind::Alias => add_assigned(Manner::Imported, None, alias(alloc, kids)?, into),
        Kind::Handler => add_assigned(Manner::Caught, None, ids(alloc, part(kids, 1))?, into),
        Kind::FunctionDef => add_assigned(Manner::Defined, None, ids(alloc, part(kids, 1))?, into),
        Kind::ClassDef => add_assigned(Manner::Defined, None, ids(alloc, part(kids, 1))?, into),
        Kind::FuncDef => add_assigned(
            Manner::Defined,
            None,
            declared_names(alloc, part(kids, 1))?,
            into,
        ),
        _ => Ok(()),
    }
}

// What an operator assigns that may count up or down.
fn add_stepped<'t>(
    alloc: Global,
    mark: &Text,
    kids: &[Spot<'_, 't>],
    into: &mut List<Assignment<'t>>,
) -> Result<(), Memory>
    ensures { OnOk result (all_assignments into.new ≡
        all_assignments into.old ++ spec.unvalued_by kinds.Unary mark.now (all_seen kids.now)) }
{
    if !steps(mark) {
        return Ok(());
    }
    add_assigned(Manner::Stepped, None, names(alloc, part(kids, 0))?, into)
}

// What a node of that kind assigns.
fn add_by_kind<'t>(
    alloc: Global,
    field: bool,
    kind: Kind,
    text: &Text,
    kids: &[Spot<'_, 't>],
    into: &mut List<Assignment<'t>>,
) -> Result<(), Memory>
    ensures { OnOk result (all_assignments into.new ≡
        all_assignments into.old ++ spec.assigned_by field kind text.now (all_seen kids.now)) }
{
    match kind {
        Kind::Assign => add_chain(alloc, kids, into),
        Kind::AnnAssign => add_annotated(alloc, kids, into),
        Kind::AugAssign => add_assigned(
            Manner::Augmented,
            value(part(kids, 1)),
            names(alloc, part(kids, 0))?,
            into,
        ),
        Kind::AssignE => add_assigned(
            operated(text),
            value(part(kids, 1)),
            names(alloc, part(kids, 0))?,
            into,
        ),
        Kind::Walrus => add_assigned(
            Manner::Expression,
            value(part(kids, 1)),
            ids(alloc, part(kids, 0))?,
            into,
        ),
        Kind::Var => {
            if field {
                return Ok(());
            }
            add_variable(alloc, kids, into)
        }
        Kind::For => add_assigned(
            Manner::Drawn,
            value(part(kids, 1)),
            names(alloc, part(kids, 0))?,
            into,
        ),
        Kind::WithItem => add_assigned(
            Manner::Drawn,
            value(part(kids, 0)),
            names(alloc, part(kids, 1))?,
            into,
        ),
        kind => add_unvalued(alloc, kind, text, kids, into),
    }
}

/// Adds what a node with these kids assigns itself, where a variable that is a field of a type assigns nothing.
pub fn add_own<'t>(
    alloc: Global,
    field: bool,
    node: &Node,
    kids: &[Spot<'_, 't>],
    into: &mut List<Assignment<'t>>,
) -> Result<(), Memory>
    ensures { OnOk result (all_assignments into.new ≡
        all_assignments into.old ++
        spec.assigned_by field (kind_of node.now) (text_of node.now) (all_seen kids.now)) }
{
    add_by_kind(alloc, field, node.kind, &node.text, kids, into)
}
