//! What a unit does to its names, by numbers.

ghost use Rattle.std.specs.Prelude.{◌≡◌, ◌++◌, map, IfOk, OnOk, option_map};
ghost use Rattle.assignments.specs.Seen.{seen_assignment, seen_target, seen_value};
ghost use Rattle.assignments.specs.Assignments.{assigned_of};
ghost use Rattle.unit_names.specs.Seen.{seen_word};
ghost use Rattle.unit_names.specs.Words.{Word as word, place_of};
ghost use Rattle.unit_effects.specs.Numbering as spec;

use crate::entry::Entry;
use assignments::{Assignment, Manner, Reach, Target, assignments};
use flow_graph::Point;
use held_values::{Assign, Effects, Source};
use node_tree::{List, Memory, Node};
use point_nodes::IndexedTree;
use std::alloc::Global;
use unit_names::{Scope, Word, Words, is_assigned, is_literal, is_name, name_word, word_of};

/// The names and the literals of a unit, each with its number.
#[derive(Clone, Copy)]
pub struct Tables<'e, 't> {
    pub names: &'e Words<'t>,
    pub literals: &'e Words<'t>,
}

impl<'e, 't> Tables<'e, 't> {
    // The number of a literal, from 1; that of none is 0.
    fn value(&self, literal: Option<Word<'t>>) -> u32
        ensures { result ≡ spec.number_of self.now.literals.now (option_map seen_word literal.entry) }
    {
        let Some(literal) = literal else {
            return 0;
        };
        match self.literals.place(literal) {
            Some(place) => place + 1,
            None => 0,
        }
    }

    // What a name holds.
    fn copied(&self, name: Word<'t>) -> Source
        ensures { result ≡ spec.copied (place_of self.now.names.now (seen_word name.entry)) }
    {
        match self.names.place(name) {
            Some(place) => Source::Copies(place),
            None => Source::Sets(0),
        }
    }

    // What a node gives.
    fn source_of(&self, node: &'t Node) -> Source
        ensures { result ≡ spec.source_of self.now.names.now self.now.literals.now node.now }
    {
        if is_literal(node.kind) {
            return Source::Sets(self.value(Some(word_of(node))));
        }
        if is_name(node.kind) {
            return self.copied(word_of(node));
        }
        Source::Sets(0)
    }

    // What an assignment gives.
    fn given(&self, manner: Manner, value: Option<&'t Node>) -> Source
        ensures { result ≡ spec.source_given self.now.names.now self.now.literals.now manner (seen_value value.entry) }
    {
        let Some(node) = value else {
            return Source::Sets(0);
        };
        match manner {
            Manner::Statement => self.source_of(node),
            Manner::Expression => self.source_of(node),
            _ => Source::Sets(0),
        }
    }

    // What a target gets.
    fn gets(&self, entry: &Entry<'_, 't>, source: Source, target: Target<'t>) -> Source
        ensures { result ≡ spec.source_gets (spec.hides entry.now target.entry.name.now) target.entry.reach source }
    {
        if entry.hides(target.name) {
            return Source::Sets(0);
        }
        match target.reach {
            Reach::Whole => source,
            _ => Source::Sets(0),
        }
    }

    // Adds what is assigned to a target.
    fn add_target(
        &self,
        entry: &Entry<'_, 't>,
        source: Source,
        target: Target<'t>,
        into: &mut List<Assign>,
    ) -> Result<(), Memory>
        ensures { OnOk result (into.new ≡ into.old ++ spec.target_assigns self.now.names.now (spec.hides entry.now) source (seen_target target.entry)) }
    {
        if !is_assigned(target.reach) {
            return Ok(());
        }
        let Some(name) = self.names.place(name_word(target.name)) else {
            return Ok(());
        };
        into.push(Assign {
            name,
            source: self.gets(entry, source, target),
        })
    }

    // What an assignment does.
    fn assigns(
        &self,
        alloc: Global,
        entry: &Entry<'_, 't>,
        one: &Assignment<'t>,
    ) -> Result<List<Assign>, Memory>
        ensures { IfOk result (λ l. l ≡ spec.one_assigns self.now.names.now self.now.literals.now (spec.hides entry.now) (seen_assignment one.now)) }
    {
        let source = self.given(one.manner, one.value);
        let mut assigns = List::new(alloc);
        for target in one.targets.as_slice() {
            self.add_target(entry, source, *target, &mut assigns)?;
        }
        Ok(assigns)
    }

    // What a point does.
    fn point(
        &self,
        alloc: Global,
        tree: &IndexedTree<'t>,
        entry: &Entry<'_, 't>,
        point: Point,
    ) -> Result<List<List<Assign>>, Memory>
        ensures { IfOk result (λ l. l ≡ map (spec.one_assigns self.now.names.now self.now.literals.now (spec.hides entry.now)) (assigned_of tree.now point)) }
    {
        let mut nodes = List::new(alloc);
        for one in assignments(alloc, tree, point)?.as_slice() {
            nodes.push(self.assigns(alloc, entry, one)?)?;
        }
        Ok(nodes)
    }

    // What the names hold at the entry.
    fn start(&self, alloc: Global, entry: &Entry<'_, 't>) -> Result<List<u32>, Memory>
        ensures { IfOk result (λ l. l ≡ map (λ (w : word). spec.number_of self.now.literals.now (spec.entry_value entry.now w.text)) self.now.names.now) }
    {
        let mut start = List::new(alloc);
        for name in self.names.as_slice() {
            start.push(self.value(entry.value(name.text)))?;
        }
        Ok(start)
    }

    /// What a unit does to its names.
    pub fn effects(
        &self,
        alloc: Global,
        tree: &IndexedTree<'t>,
        entry: &Entry<'_, 't>,
        scope: &Scope,
    ) -> Result<Effects, Memory>
        ensures { IfOk result (λ e. e ≡ spec.effects_of tree.now self.now.names.now self.now.literals.now (spec.hides entry.now) (spec.entry_value entry.now) scope.now) }
    {
        let literals = self.literals.len();
        let mut points = List::new(alloc);
        for point in scope.graph.points.as_slice() {
            points.push(self.point(alloc, tree, entry, *point)?)?;
        }
        Ok(Effects {
            literals,
            start: self.start(alloc, entry)?,
            points,
        })
    }
}
