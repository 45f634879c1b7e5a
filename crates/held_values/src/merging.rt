//! The nodes of a point, taken together.

ghost use Rattle.std.specs.Prelude.{◌≡◌, ◌⊎◌, ◌↔◌, ◌<◌, ◌^◌, ℕ, List as list, length, map, IfOk, OnOk, slice_index_or};
ghost use Rattle.graph_form.specs.Sets.{Among};
ghost use Rattle.held_values.specs.declared.assign.Assign.{Assign as assignment};
ghost use Rattle.held_values.specs.declared.assign.Source.TheVariants.{Sets as sets, Copies as copies};
ghost use Rattle.held_values.specs.Holding.{AreInside, AreAllInside};
ghost use Rattle.held_values.specs.Merged.{source_before, assign_before, put_all, assign_to, Assigns, AreOwn, AddsNode, IsMerged, AreMerged};

use crate::assign::{Assign, Effects, Source};
use crate::index::index_of;
use crate::merged::Merged;
use node_tree::{List, Memory};
use std::alloc::Global;

// What a source is in terms of the state before the point, where the names got these since.
fn resolved(sources: &[Source], source: Source) -> Source
    requires { (name : ℕ) → source ≡ copies name → name < length sources.now }
    ensures { result ≡ source_before sources.now source }
{
    match source {
        Source::Sets(value) => Source::Sets(value),
        Source::Copies(name) => sources[name as usize],
    }
}

// The assignments of a node in terms of the state before the point.
fn resolve(sources: &[Source], node: &[Assign], taken: &mut Vec<Assign>) -> Result<(), Memory>
    requires { AreInside (length sources.now) node.now }
    ensures { OnOk result (taken.new.items ≡ map (assign_before sources.now) node.now) }
{
    taken.clear();
    for assign in node {
        taken.push(Assign {
            name: assign.name,
            source: resolved(sources, assign.source),
        })?;
    }
    Ok(())
}

// The names get these sources, one after the other.
fn put(sources: &mut Vec<Source>, taken: &[Assign])
    requires { (assign : assignment) → Among taken.now assign → assign.name < length sources.old.items }
    ensures { sources.new.items ≡ put_all sources.old.items taken.now }
{
    for assign in taken {
        sources[assign.name as usize] = assign.source;
    }
}

// Lists the names that a node assigns.
fn list_names(node: &[Assign], names: &mut Vec<u32>) -> Result<(), Memory>
    ensures { OnOk result ((name : ℕ) → Among names.new.items name ↔ (Among names.old.items name ⊎ Assigns node.now name)) }
{
    for assign in node {
        names.push(assign.name)?;
    }
    Ok(())
}

// One node more: what the names come from, and which names are assigned.
fn add_node(
    sources: &mut Vec<Source>,
    node: &[Assign],
    taken: &mut Vec<Assign>,
    names: &mut Vec<u32>,
) -> Result<(), Memory>
    requires { AreInside (length sources.old.items) node.now }
    ensures { OnOk result (AddsNode node.now sources.old.items sources.new.items names.old.items names.new.items) }
{
    resolve(sources, node, taken)?;
    put(sources, taken);
    list_names(node, names)?;
    Ok(())
}

// Each name comes from itself.
fn own(alloc: Global, names: usize) -> Result<Vec<Source>, Memory>
    requires { names < 2 ^ 32 }
    ensures size { IfOk result (λ sources. length sources.items ≡ names) }
    ensures own { IfOk result (λ sources. AreOwn sources.items) }
{
    let mut sources = Vec::new(alloc);
    for name in 0..names {
        sources.push(Source::Copies(name as u32))?;
    }
    Ok(sources)
}

// The assignments to these names, by what they come from.
fn gather(alloc: Global, sources: &[Source], names: &[u32]) -> Result<Vec<Assign>, Memory>
    requires { (name : ℕ) → Among names.now name → name < length sources.now }
    ensures { IfOk result (λ assigns. assigns.items ≡ map (assign_to sources.now) names.now) }
{
    let mut assigns = Vec::new(alloc);
    for name in names {
        assigns.push(Assign {
            name: *name,
            source: sources[*name as usize],
        })?;
    }
    Ok(assigns)
}

// These names come from themselves again.
fn reset(sources: &mut Vec<Source>, names: &[u32])
    requires inside { (name : ℕ) → Among names.now name → name < length sources.old.items }
    requires others { (name : ℕ) → name < length sources.old.items → (Among names.now name → ⊥) →
        slice_index_or sources.old.items name (sets 0) ≡ copies name }
    ensures size { length sources.new.items ≡ length sources.old.items }
    ensures own { AreOwn sources.new.items }
{
    for name in names {
        sources[*name as usize] = Source::Copies(*name);
    }
}

// The nodes of a point as assignments that all take the values before it. Sources are lent as room.
fn merge(
    alloc: Global,
    sources: &mut Vec<Source>,
    nodes: &[List<Assign>],
) -> Result<Vec<Assign>, Memory>
    requires own { AreOwn sources.old.items }
    requires inside { AreAllInside (length sources.old.items) nodes.now }
    ensures size { OnOk result (length sources.new.items ≡ length sources.old.items) }
    ensures own { OnOk result (AreOwn sources.new.items) }
    ensures merged { IfOk result (λ assigns. IsMerged (length sources.old.items) nodes.now assigns.items) }
{
    let mut names = Vec::new(alloc);
    let mut taken = Vec::new(alloc);
    for node in nodes {
        add_node(sources, node.as_slice(), &mut taken, &mut names)?;
    }
    let assigns = gather(alloc, sources, &names)?;
    reset(sources, &names);
    Ok(assigns)
}

/// What each point does, ready to be looked up.
pub fn merge_all(alloc: Global, effects: &Effects) -> Result<Vec<Merged>, Memory>
    requires names { length effects.now.start < 2 ^ 32 }
    requires inside { (nodes : list (list assignment)) → Among effects.now.points nodes →
        AreAllInside (length effects.now.start) nodes }
    ensures { IfOk result (λ merged. AreMerged effects.now merged.items) }
{
    let mut sources = own(alloc, effects.start.len())?;
    let mut all = Vec::new(alloc);
    for nodes in effects.points.as_slice() {
        let assigns = merge(alloc, &mut sources, nodes.as_slice())?;
        let index = index_of(alloc, &assigns)?;
        all.push(Merged { assigns, index })?;
    }
    Ok(all)
}
