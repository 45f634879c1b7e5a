//! Whether a whole file may have members of a pattern.

ghost use Rattle.std.specs.Prelude.{◌≡◌, ◌↔◌, false, IsTrue, IfOk, MatchOption};
ghost use Rattle.node_tree.specs.declared.view.Lang.TheVariants.{Python as python};
ghost use Rattle.import_names.specs.Resolved.{IsResolved};
ghost use Rattle.file_search.specs.Whole.{IsBeside, HasNone, MayHaveIn};

use file_match::ReadyFile;
use file_parts::same_tree;
use node_tree::{FileView, Lang, Memory, Pattern};
use std::alloc::Global;
use std::marker::Model;

/// A file as it is written, and in Python beside it the file with its names resolved, where that changes it. Contracts see the
/// file.
#[derive(Drop)]
pub struct WholeFile<'v> {
    written: ReadyFile<'v>,
    resolved: Option<ReadyFile<'v>>,
}

impl<'v> Model for WholeFile<'v> {
    ghost use Rattle.node_tree.specs.declared.view.FileView.{FileView as file_view};
    ghost use Rattle.node_tree.specs.contracts.view.FileView as file_views;

    ghost Value = { file_view };

    ghost coded = { file_views.the_row.coded };

    ghost use Rattle.file_search.specs.Whole.{IsBeside};

    ghost view = { λ f. f.written };

    ghost invariant = { λ f. IsBeside f.written f.resolved };
}

// The file in Python with its names resolved, made ready, unless it is the same.
fn beside_python<'v>(
    alloc: Global,
    view: &FileView,
    resolved: &'v FileView,
) -> Result<Option<ReadyFile<'v>>, Memory>
    requires python { view.now.lang ≡ python }
    requires resolved { IsResolved view.now resolved.now }
    ensures { IfOk result (IsBeside view.now) }
{
    if same_tree(resolved, view) {
        return Ok(None);
    }
    Ok(Some(ReadyFile::of(alloc, resolved)?))
}

// The same of a file in any language.
fn beside_resolved<'v>(
    alloc: Global,
    view: &FileView,
    resolved: &'v FileView,
) -> Result<Option<ReadyFile<'v>>, Memory>
    requires { IsResolved view.now resolved.now }
    ensures { IfOk result (IsBeside view.now) }
{
    match view.lang {
        Lang::Python => beside_python(alloc, view, resolved),
        _ => Ok(None),
    }
}

// The same of a file that has another one beside it, or resolves to itself.
fn beside<'v>(
    alloc: Global,
    view: &FileView,
    resolved: &'v Option<FileView>,
) -> Result<Option<ReadyFile<'v>>, Memory>
    requires { MatchOption resolved.now (IsResolved view.now view.now) (IsResolved view.now) }
    ensures { IfOk result (IsBeside view.now) }
{
    match resolved {
        None => Ok(None),
        Some(resolved) => beside_resolved(alloc, view, resolved),
    }
}

impl<'v> WholeFile<'v> {
    /// The whole of a file that is ready as it is written. The other is the file with its names resolved, where None says that it
    /// resolves to itself, and costs nothing. In another language than Python the other isn't looked at.
    pub fn with(
        alloc: Global,
        written: ReadyFile<'v>,
        resolved: &'v Option<FileView>,
    ) -> Result<WholeFile<'v>, Memory>
        requires { MatchOption resolved.now (IsResolved written written) (IsResolved written) }
        ensures { IfOk result (λ file. file ≡ written.entry) }
    {
        let resolved = beside(alloc, written.view(), resolved)?;
        Ok(WholeFile { written, resolved })
    }

    /// Whether the file may have members of the pattern: as it is written, or with its names resolved, it has each word that the
    /// pattern needs, whatever names are known to hold literals, or one that counts as that. Where not, the pattern has no member
    /// in it.
    pub fn may_have(&self, alloc: Global, pattern: &Pattern) -> Result<bool, Memory>
        ensures exact { IfOk result (λ may. IsTrue may ↔ MayHaveIn self.now.lang self.now.tree pattern.now) }
        ensures lacks { IfOk result (λ may. may ≡ false → HasNone self.now.lang self.now.tree pattern.now) }
    {
        if self.written.may_have(alloc, pattern)? {
            return Ok(true);
        }
        match &self.resolved {
            None => Ok(false),
            Some(resolved) => resolved.may_have(alloc, pattern),
        }
    }
}
