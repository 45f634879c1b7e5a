//! Facts: those of sources, then those of names.

ghost use Rattle.std.specs.Prelude.{◌≡◌, ◌⊎◌, ◌↔◌, ◌+◌, ℕ, List as list, None, Some, IfOk, OnOk, MatchOption};
ghost use Rattle.node_tree.specs.declared.span.Span.{Span as a_span};
ghost use Rattle.graph_form.specs.Sets.{Among};
ghost use Rattle.taint_form.specs.Expressions.{nodes_now};
ghost use Rattle.taint_form.specs.Tables.{Holds};
ghost use Rattle.taint_tables.specs.Taints.{Denotes, DenotesAny, DenotesName, IsFactOf, Taints};
ghost use Rattle.taint_tables.specs.Numbers.{numbers_of};

use crate::census::Census;
use node_tree::{List, Memory, Node, Span};
use std::alloc::Global;
use taint_form::{SpanSet, add_exposed, is_name, ordered};

/// Adds these numbers.
pub fn push_all(numbers: &[u32], into: &mut Vec<u32>) -> Result<(), Memory>
    ensures { OnOk result ((x : ℕ) → Among into.new.items x ↔
        (Among into.old.items x ⊎ Among numbers.now x)) }
{
    for number in numbers {
        into.push(*number)?;
    }
    Ok(())
}

/// The names and the sources of a unit, and what is clean.
#[derive(Clone, Copy)]
pub struct Look<'l, 't> {
    pub census: &'l Census<'t>,
    pub sanitizers: &'l SpanSet,
}

impl<'l, 't> Look<'l, 't> {
    /// The fact of a name.
    pub fn fact(self, name: &'t str) -> Result<Option<u32>, Memory>
        ensures { IfOk result (λ found. MatchOption found
            ((fact : ℕ) → IsFactOf (numbers_of self.entry.census.now) name.now fact → ⊥)
            (λ fact. (other : ℕ) →
            IsFactOf (numbers_of self.entry.census.now) name.now other ↔ (fact ≡ other))) }
    {
        let Some(number) = self.census.names.find(name) else {
            return Ok(None);
        };
        let sources = self.census.sources.len();
        if sources > 4294967295 {
            return Err(Memory);
        }
        let Some(fact) = number.checked_add(sources as u32) else {
            return Err(Memory);
        };
        Ok(Some(fact))
    }

    // Adds the facts of an expression: it is a source, or a name.
    fn add_facts(self, node: &'t Node, into: &mut Vec<u32>) -> Result<(), Memory>
        ensures { OnOk result ((fact : ℕ) → Among into.new.items fact ↔
            (Among into.old.items fact ⊎
            Denotes (numbers_of self.entry.census.now) node.now fact)) }
    {
        self.add_source(node.span, into)?;
        self.add_name(node, into)?;
        Ok(())
    }

    // Adds the fact of a source, if the span is one.
    fn add_source(self, span: Span, into: &mut Vec<u32>) -> Result<(), Memory>
        ensures { OnOk result ((fact : ℕ) → Among into.new.items fact ↔
            (Among into.old.items fact ⊎ ((numbers_of self.entry.census.now).source span ≡
            Some fact))) }
    {
        match self.census.sources.find(span) {
            None => Ok(()),
            Some(source) => {
                into.push(source)?;
                Ok(())
            }
        }
    }

    // Adds the fact of an expression that is a name.
    fn add_name(self, node: &'t Node, into: &mut Vec<u32>) -> Result<(), Memory>
        ensures { OnOk result ((fact : ℕ) → Among into.new.items fact ↔
            (Among into.old.items fact ⊎
            DenotesName (numbers_of self.entry.census.now) node.now fact)) }
    {
        if !is_name(node.kind) {
            return Ok(());
        }
        self.add_fact(node.text.as_str(), into)?;
        Ok(())
    }

    /// Adds the fact of a name, if it has one.
    pub fn add_fact(self, name: &'t str, into: &mut Vec<u32>) -> Result<(), Memory>
        ensures { OnOk result ((fact : ℕ) → Among into.new.items fact ↔
            (Among into.old.items fact ⊎
            IsFactOf (numbers_of self.entry.census.now) name.now fact)) }
    {
        match self.fact(name)? {
            None => Ok(()),
            Some(fact) => {
                into.push(fact)?;
                Ok(())
            }
        }
    }

    // The facts of these expressions.
    fn facts_of(self, alloc: Global, nodes: &[&'t Node]) -> Result<Vec<u32>, Memory>
        ensures { IfOk result (λ facts. (fact : ℕ) → Among facts.items fact ↔
            DenotesAny (numbers_of self.entry.census.now) (nodes_now nodes.now) fact) }
    {
        let mut facts = Vec::new(alloc);
        for one in nodes {
            self.add_facts(*one, &mut facts)?;
        }
        Ok(facts)
    }

    /// The facts that taint a node, in order, each once.
    pub fn facts(self, alloc: Global, node: &'t Node) -> Result<Vec<u32>, Memory>
        ensures { (spans : list a_span) → Holds self.entry.sanitizers.now spans →
            IfOk result (λ facts. (fact : ℕ) →
            Among facts.items fact ↔
            Taints spans (numbers_of self.entry.census.now) node.now fact) }
    {
        let mut shown = List::new(alloc);
        add_exposed(self.sanitizers, node, &mut shown)?;
        let facts = self.facts_of(alloc, shown.as_slice())?;
        let facts = ordered(facts)?;
        Ok(facts)
    }
}
