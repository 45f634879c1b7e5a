//! A file that is cut into pieces.

ghost use Rattle.std.specs.Prelude.{◌≡◌, true, IfOk};
ghost use Rattle.node_tree.specs.declared.view.Lang.TheVariants.{Python};
ghost use Rattle.piece_form.specs.Cut.{root_piece_of};
ghost use Rattle.tree_match.specs.Members.{known_tree};
ghost use Rattle.file_parts.specs.Held.{IsCut, IsFurther};

use import_names::resolved_beside;
use node_tree::{FileView, Known, Lang, List, Memory};
use piece_form::{KnownNames, Piece, Placed};
use piece_match::{falls_apart, pieces, root_piece};

/// The pieces of a file, the whole of it, and whether its statements can each be a piece.
#[derive(Drop)]
pub struct Cut {
    pub statements: List<Placed>,
    pub whole: Placed,
    pub apart: bool,
}

/// The file as it is written.
pub fn cut_written(view: &FileView) -> Result<Cut, Memory>
    ensures { IfOk result (IsCut view.now) }
{
    Ok(Cut {
        statements: pieces(view)?,
        whole: Placed {
            start: 0,
            piece: root_piece(view)?,
        },
        apart: falls_apart(&view.tree)?,
    })
}

// The whole of a file, which becomes a piece.
fn whole_of(view: FileView) -> Piece
    ensures { result ≡ root_piece_of view }
{
    Piece {
        lang: view.lang,
        bytes: view.bytes,
        tree: view.tree,
        known: KnownNames::of(view.known),
    }
}

// The same of a file that is not needed any more.
fn cut_up(view: FileView) -> Result<Cut, Memory>
    ensures { IfOk result (IsCut view) }
{
    let statements = pieces(&view)?;
    let apart = falls_apart(&view.tree)?;
    Ok(Cut {
        statements,
        whole: Placed {
            start: 0,
            piece: whole_of(view),
        },
        apart,
    })
}

// Whether the same names are known to hold the same literals.
fn same_known(a: &[Known], b: &[Known]) -> bool
    ensures { result ≡ true → a.now ≡ b.now }
{
    if a.len() != b.len() {
        return false;
    }
    for (i, one) in a.iter().enumerate() {
        if !one.same(&b[i]) {
            return false;
        }
    }
    true
}

/// Whether both files have the same tree, with the same known names.
pub fn same_tree(a: &FileView, b: &FileView) -> bool
    ensures { result ≡ true → known_tree a.now ≡ known_tree b.now }
{
    if !a.tree.same(&b.tree) {
        return false;
    }
    same_known(a.known.as_slice(), b.known.as_slice())
}

// The file with its names resolved, unless it is the same.
#[tactic(auto, using(crate::proofs::Resolving::tree_is))]
fn cut_resolved(view: &FileView) -> Result<Option<Cut>, Memory>
    requires { view.now.lang ≡ Python }
    ensures { IfOk result (IsFurther view.now) }
{
    let Some(resolved) = resolved_beside(view.tree.kids.alloc(), view)? else {
        return Ok(None);
    };
    if same_tree(&resolved, view) {
        return Ok(None);
    }
    Ok(Some(cut_up(resolved)?))
}

/// The file with its names resolved, where it is in Python and that changes it.
pub fn cut_further(view: &FileView) -> Result<Option<Cut>, Memory>
    ensures { IfOk result (IsFurther view.now) }
{
    match view.lang {
        Lang::Python => cut_resolved(view),
        _ => Ok(None),
    }
}
