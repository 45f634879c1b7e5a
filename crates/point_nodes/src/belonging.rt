//! The tops of points.

ghost use Rattle.std.specs.Prelude.{◌≡◌, ◌++◌, IfOk, OnOk};
ghost use Rattle.std.specs.List.{flat_map};
ghost use Rattle.node_tree.specs.Tree.{kind_of};
ghost use Rattle.node_tree.specs.Numbers.{kids_at, pre_at};
ghost use Rattle.node_pool.specs.Spots.{seen, all_seen};
ghost use Rattle.graph_form.specs.declared.graph.Role.TheVariants as roles;
ghost use Rattle.point_nodes.specs.Tops.{part, defaults_of, head_by, holds_statements as holds_statements_spec, nodes_of, tops_by, tops_of};

use crate::indexed::IndexedTree;
use graph_form::{Point, Role};
use node_pool::Spot;
use node_tree::{Kind, List, Memory};
use std::alloc::Global;

// Adds the node at that place, if there is one.
fn add_part<'p, 't>(
    nodes: &[Spot<'p, 't>],
    place: usize,
    into: &mut List<Spot<'p, 't>>,
) -> Result<(), Memory>
    ensures { OnOk result (all_seen into.new ≡
        all_seen into.old ++ part place (all_seen nodes.now)) }
{
    if let Some(node) = nodes.get(place) {
        into.push(*node)?;
    }
    Ok(())
}

// Adds the defaults of these parameters.
fn add_defaults<'p, 't>(
    alloc: Global,
    parameters: &[Spot<'p, 't>],
    into: &mut List<Spot<'p, 't>>,
) -> Result<(), Memory>
    ensures { OnOk result (all_seen into.new ≡
        all_seen into.old ++
        flat_map (λ parameter. part 2 (kids_at parameter)) (all_seen parameters.now)) }
{
    for parameter in parameters {
        let kids = parameter.kids(alloc)?;
        add_part(kids.as_slice(), 2, into)?;
    }
    Ok(())
}

// Adds the defaults of a function with these kids.
fn add_defaults_of<'p, 't>(
    alloc: Global,
    kids: &[Spot<'p, 't>],
    into: &mut List<Spot<'p, 't>>,
) -> Result<(), Memory>
    ensures { OnOk result (all_seen into.new ≡
        all_seen into.old ++ defaults_of (all_seen kids.now)) }
{
    if let Some(parameters) = kids.get(2) {
        let list = parameters.kids(alloc)?;
        add_defaults(alloc, list.as_slice(), into)?;
    }
    Ok(())
}

// Adds what a statement or a handler with these kids does itself.
fn add_head_by<'p, 't>(
    alloc: Global,
    statement: Spot<'p, 't>,
    kids: &[Spot<'p, 't>],
    into: &mut List<Spot<'p, 't>>,
) -> Result<(), Memory>
    ensures { OnOk result (all_seen into.new ≡
        all_seen into.old ++
        head_by (kind_of statement.entry.node.now) (seen statement.entry) (all_seen kids.now)) }
{
    match statement.node.kind {
        Kind::If => add_part(kids, 0, into)?,
        Kind::While => add_part(kids, 0, into)?,
        Kind::DoWhile => add_part(kids, 1, into)?,
        Kind::For => {
            add_part(kids, 0, into)?;
            add_part(kids, 1, into)?;
        }
        Kind::ForC => {}
        Kind::Switch => add_part(kids, 0, into)?,
        Kind::With => add_part(kids, 0, into)?,
        Kind::Try => {}
        Kind::Handler => {
            add_part(kids, 0, into)?;
            add_part(kids, 1, into)?;
        }
        Kind::ClassDef => {
            add_part(kids, 0, into)?;
            add_part(kids, 2, into)?;
        }
        Kind::FunctionDef => {
            add_part(kids, 0, into)?;
            add_defaults_of(alloc, kids, into)?;
        }
        Kind::FuncDef => {}
        _ => into.push(statement)?,
    }
    Ok(())
}

// Adds what a statement or a handler does itself. The kids are listed only where it holds statements.
fn add_head<'p, 't>(
    alloc: Global,
    statement: Spot<'p, 't>,
    into: &mut List<Spot<'p, 't>>,
) -> Result<(), Memory>
    ensures { OnOk result (all_seen into.new ≡
        all_seen into.old ++ tops_by roles.Head (seen statement.entry)) }
{
    if !holds_statements(statement.node.kind) {
        into.push(statement)?;
        return Ok(());
    }
    let kids = statement.kids(alloc)?;
    add_head_by(alloc, statement, kids.as_slice(), into)
}

// Adds the kid at that place, if there is one.
fn add_kid<'p, 't>(
    alloc: Global,
    statement: Spot<'p, 't>,
    place: usize,
    into: &mut List<Spot<'p, 't>>,
) -> Result<(), Memory>
    ensures { OnOk result (all_seen into.new ≡
        all_seen into.old ++ part place (kids_at (seen statement.entry))) }
{
    let kids = statement.kids(alloc)?;
    add_part(kids.as_slice(), place, into)
}

// Adds the tops of a point with that role.
fn add_tops<'p, 't>(
    alloc: Global,
    role: Role,
    statement: Spot<'p, 't>,
    into: &mut List<Spot<'p, 't>>,
) -> Result<(), Memory>
    ensures { OnOk result (all_seen into.new ≡
        all_seen into.old ++ tops_by role (seen statement.entry)) }
{
    match role {
        Role::Entry => Ok(()),
        Role::Exit => Ok(()),
        Role::Head => add_head(alloc, statement, into),
        Role::Init => add_kid(alloc, statement, 0, into),
        Role::Test => add_kid(alloc, statement, 1, into),
        Role::Step => add_kid(alloc, statement, 2, into),
    }
}

/// The tops of a point: it has these nodes and all that is below them.
pub fn tops<'p, 't>(
    alloc: Global,
    tree: &'p IndexedTree<'t>,
    point: Point,
) -> Result<List<Spot<'p, 't>>, Memory>
    ensures { IfOk result (λ tops. all_seen tops ≡ tops_of tree.now point) }
{
    let mut tops = List::new(alloc);
    if let Some(statement) = tree.node(point.node) {
        add_tops(alloc, point.role, statement, &mut tops)?;
    }
    Ok(tops)
}

// Adds a node and all that is below it.
fn add_tree<'p, 't>(top: Spot<'p, 't>, into: &mut List<Spot<'p, 't>>) -> Result<(), Memory>
    ensures { OnOk result (all_seen into.new ≡ all_seen into.old ++ pre_at (seen top.entry)) }
{
    for further in 0..top.size() {
        into.push(top.below(further))?;
    }
    Ok(())
}

/// The nodes that belong to a point, each with its number: each top before what is below it, in preorder.
pub fn nodes<'p, 't>(
    alloc: Global,
    tree: &'p IndexedTree<'t>,
    point: Point,
) -> Result<List<Spot<'p, 't>>, Memory>
    ensures { IfOk result (λ nodes. all_seen nodes ≡ nodes_of tree.now point) }
{
    let mut nodes = List::new(alloc);
    let heads = tops(alloc, tree, point)?;
    for top in heads.as_slice() {
        add_tree(*top, &mut nodes)?;
    }
    Ok(nodes)
}

/// Whether it is a statement or a handler that holds statements, and so isn't among its own tops.
pub fn holds_statements(kind: Kind) -> bool
    ensures { result ≡ holds_statements_spec kind }
{
    match kind {
        Kind::If => true,
        Kind::While => true,
        Kind::DoWhile => true,
        Kind::For => true,
        Kind::ForC => true,
        Kind::Switch => true,
        Kind::With => true,
        Kind::Try => true,
        Kind::Handler => true,
        Kind::ClassDef => true,
        Kind::FunctionDef => true,
        Kind::FuncDef => true,
        _ => false,
    }
}
