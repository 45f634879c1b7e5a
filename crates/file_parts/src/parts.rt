//! The parts of a file.

ghost use Rattle.std.specs.Prelude.{◌≡◌, ◌++◌, map, IfOk, OnOk};
ghost use Rattle.file_parts.specs.Parts.{seen_part, is_needed as needs, is_run as runs, ArePartsOf, made_part};
ghost use Rattle.piece_match.specs.Pieces.{is_root as is_file};

use crate::cut::{Cut, cut_further, cut_written};
use node_tree::{FileView, Kind, List, Memory, Pattern, Shape};
use piece_form::Placed;
use std::alloc::Global;
use std::marker::Model;

/// The parts of a file. Contracts see the file.
#[derive(Drop)]
pub struct Parts<'v> {
    view: &'v FileView,
    written: Cut,
    further: Option<Cut>,
}

impl<'v> Model for Parts<'v> {
    ghost use Rattle.node_tree.specs.declared.view.FileView.{FileView as file_view};
    ghost use Rattle.node_tree.specs.contracts.view.FileView as file_views;

    ghost Value = { file_view };

    ghost coded = { file_views.the_row.coded };

    ghost use Rattle.file_parts.specs.Held.{IsCut, IsFurther};

    ghost view = { λ p. p.view.now };

    ghost invariant = { λ p. IsCut p.view.now p.written × IsFurther p.view.now p.further };
}

/// A part of a file: a statement or the whole, of the file as it is written or with its names resolved, and whether the
/// statements of that can each be a piece.
#[derive(Clone, Copy)]
pub struct Part<'p> {
    pub placed: &'p Placed,
    pub whole: bool,
    pub resolved: bool,
    pub apart: bool,
}

// Whether the pattern is one of runs.
fn is_run(shape: Shape) -> bool
    ensures { result ≡ runs shape }
{
    match shape {
        Shape::Expr => false,
        Shape::Run => true,
    }
}

// Whether it is the kind of a whole file.
fn is_root(kind: Kind) -> bool
    ensures { result ≡ is_file kind }
{
    match kind {
        Kind::Root => true,
        _ => false,
    }
}

impl<'p> Part<'p> {
    /// Whether a pattern is matched in the part. An expression's pattern is matched in the statements, a pattern of statements
    /// in the whole too, for the runs at the top level.
    pub fn is_needed(&self, pattern: &Pattern) -> bool
        ensures { result ≡ needs pattern.now (seen_part self.now) }
    {
        let cut = !is_root(pattern.tree.kind) && self.apart;
        if self.whole {
            is_run(pattern.shape) || !cut
        } else {
            cut
        }
    }
}

// Adds the parts of a file that is cut.
fn add_parts<'p>(cut: &'p Cut, resolved: bool, into: &mut List<Part<'p>>) -> Result<(), Memory>
    ensures { OnOk result (map seen_part into.new ≡
        map seen_part into.old ++ made_part resolved cut.now) }
{
    for placed in cut.statements.as_slice() {
        into.push(Part {
            placed,
            whole: false,
            resolved,
            apart: cut.apart,
        })?;
    }
    into.push(Part {
        placed: &cut.whole,
        whole: true,
        resolved,
        apart: cut.apart,
    })
}

/// Cuts a file into its parts.
pub fn parts_of(view: &FileView) -> Result<Parts<'_>, Memory>
    ensures { IfOk result (λ parts. parts ≡ view.now) }
{
    Ok(Parts {
        view,
        written: cut_written(view)?,
        further: cut_further(view)?,
    })
}

impl<'v> Parts<'v> {
    /// The file.
    pub fn view(&self) -> &'v FileView
        ensures { result.now ≡ self.now }
    {
        self.view
    }

    /// The parts in order: the statements and the whole of the file as it is written, then of a file in Python the same with
    /// its names resolved, unless that changes nothing.
    pub fn all(&self, alloc: Global) -> Result<List<Part<'_>>, Memory>
        ensures { IfOk result (λ all. ArePartsOf self.now (map seen_part all)) }
    {
        let mut all = List::new(alloc);
        add_parts(&self.written, false, &mut all)?;
        if let Some(cut) = &self.further {
            add_parts(cut, true, &mut all)?;
        }
        Ok(all)
    }
}
