//! The parameters of functions.

ghost use Rattle.std.specs.Prelude.{◌≡◌, ◌++◌, IfOk, OnOk};
ghost use Rattle.std.specs.List.{flat_map};
ghost use Rattle.node_tree.specs.Numbers.{kids_at};
ghost use Rattle.node_pool.specs.Spots.{all_seen};
ghost use Rattle.assignments.specs.Declarators.{signature, python_names, c_names, parameters_by, parameters_of};

use crate::declarator::{add_all, add_all_declared, add_ids, add_signature};
use crate::parts::part;
use node_pool::Spot;
use node_tree::{Kind, List, Memory};
use point_nodes::IndexedTree;
use std::alloc::Global;

// The kids of these nodes.
fn kids_of_all<'p, 't>(alloc: Global, nodes: &[Spot<'p, 't>]) -> Result<List<Spot<'p, 't>>, Memory>
    ensures { IfOk result (λ kids. all_seen kids ≡ flat_map kids_at (all_seen nodes.now)) }
{
    let mut all = List::new(alloc);
    for node in nodes {
        let kids = node.kids(alloc)?;
        add_all(kids.as_slice(), &mut all)?;
    }
    Ok(all)
}

// The names of parameters in Python.
fn python_parameters<'p, 't>(
    alloc: Global,
    parameters: &[Spot<'p, 't>],
) -> Result<List<Spot<'p, 't>>, Memory>
    ensures { IfOk result (λ names. all_seen names ≡ python_names (all_seen parameters.now)) }
{
    let mut names = List::new(alloc);
    for parameter in parameters {
        let kids = parameter.kids(alloc)?;
        add_ids(part(kids.as_slice(), 0), &mut names)?;
    }
    Ok(names)
}

// The names of parameters in C.
fn c_parameters<'p, 't>(
    alloc: Global,
    parameters: &[Spot<'p, 't>],
) -> Result<List<Spot<'p, 't>>, Memory>
    ensures { IfOk result (λ names. all_seen names ≡ c_names (all_seen parameters.now)) }
{
    let mut names = List::new(alloc);
    for parameter in parameters {
        let kids = parameter.kids(alloc)?;
        add_all_declared(alloc, part(kids.as_slice(), 1), &mut names)?;
    }
    Ok(names)
}

// The parameter lists of these declarators.
fn signatures<'p, 't>(
    alloc: Global,
    declarators: &[Spot<'p, 't>],
) -> Result<List<Spot<'p, 't>>, Memory>
    ensures { IfOk result (λ lists. all_seen lists ≡
        flat_map signature (all_seen declarators.now)) }
{
    let mut lists = List::new(alloc);
    for declarator in declarators {
        add_signature(alloc, *declarator, &mut lists)?;
    }
    Ok(lists)
}

// The names of the parameters of what is of that kind and has these kids.
fn parameters_in<'p, 't>(
    alloc: Global,
    kind: Kind,
    kids: &[Spot<'p, 't>],
) -> Result<List<Spot<'p, 't>>, Memory>
    ensures { IfOk result (λ names. all_seen names ≡ parameters_by kind (all_seen kids.now)) }
{
    match kind {
        Kind::FunctionDef => {
            let parameters = kids_of_all(alloc, part(kids, 2))?;
            python_parameters(alloc, parameters.as_slice())
        }
        Kind::FuncDef => {
            let lists = signatures(alloc, part(kids, 1))?;
            let parameters = kids_of_all(alloc, lists.as_slice())?;
            c_parameters(alloc, parameters.as_slice())
        }
        _ => Ok(List::new(alloc)),
    }
}

/// The names of the parameters of a unit, in order. What is no function has none.
pub fn parameters<'p, 't>(
    alloc: Global,
    tree: &'p IndexedTree<'t>,
    unit: u32,
) -> Result<List<Spot<'p, 't>>, Memory>
    ensures { IfOk result (λ names. all_seen names ≡ parameters_of tree.now unit) }
{
    let Some(node) = tree.node(unit) else {
        return Ok(List::new(alloc));
    };
    let kids = node.kids(alloc)?;
    parameters_in(alloc, node.node.kind, kids.as_slice())
}
