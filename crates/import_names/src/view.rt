//! Resolved views of files.

ghost use Rattle.std.specs.Prelude.{◌≡◌, ◌≤◌, length, IfOk, MatchOption, true};
ghost use Rattle.std.specs.Str.{IsUtf8};
ghost use Rattle.node_tree.specs.KnownNames.{AreNames, AreInOrder as AreKnownInOrder};
ghost use Rattle.node_tree.specs.Spans.{SpansLieIn};
ghost use Rattle.node_tree.specs.declared.view.Lang.TheVariants.{Python};
ghost use Rattle.import_names.specs.Claims.{meaning, claims_of as said_in};
ghost use Rattle.import_names.specs.Ordered.{AreInOrder};
ghost use Rattle.import_names.specs.Resolved.{IsResolved};

use crate::claim::{Claim, are_themselves};
use crate::known::kept;
use crate::meanings::{in_order, telling};
use crate::replace::replaced;
use crate::say::{claims_of, own_claims};
use node_tree::{Bytes, FileView, Known, Lang, List, MOST_BYTES, Memory, Node, Twin, copy_all};
use std::alloc::Global;

// A view with these parts.
fn view_of(lang: Lang, bytes: Bytes, tree: Node, known: List<Known>) -> FileView
    requires utf8 { ∥ IsUtf8 bytes ∥₁ }
    requires small { length bytes ≤ MOST_BYTES }
    requires placed { SpansLieIn bytes tree }
    requires names { AreNames tree known }
    requires in_order { AreKnownInOrder known }
    ensures lang { result.lang ≡ lang }
    ensures bytes { result.bytes ≡ bytes }
    ensures tree { result.tree ≡ tree }
    ensures known { result.known ≡ known }
{
    FileView {
        lang,
        bytes,
        tree,
        known,
    }
}

// The claims of a tree by which names stand for others.
fn told_of<'t>(alloc: Global, tree: &'t Node) -> Result<Vec<Claim<'t>>, Memory>
    ensures ordered { IfOk result (λ claims. AreInOrder claims.items) }
    ensures same { IfOk result (λ claims. meaning claims.items ≡ meaning (said_in tree.now)) }
{
    let all = in_order(claims_of(alloc, tree)?)?;
    telling(alloc, all.as_slice())
}

// The view of a file in Python.
fn resolve_python(alloc: Global, view: &FileView) -> Result<FileView, Memory>
    requires { view.now.lang ≡ Python }
    ensures { IfOk result (IsResolved view.now) }
{
    let claims = told_of(alloc, &view.tree)?;
    let tree = replaced(alloc, claims.as_slice(), &view.tree)?;
    let known = kept(alloc, claims.as_slice(), &view.tree, view.known.as_slice())?;
    let bytes = view.bytes.copy()?;
    Ok(view_of(view.lang, bytes, tree, known))
}

// The same file.
fn copied(alloc: Global, view: &FileView) -> Result<FileView, Memory>
    ensures lang { IfOk result (λ same. same.lang ≡ view.now.lang) }
    ensures bytes { IfOk result (λ same. same.bytes ≡ view.now.bytes) }
    ensures tree { IfOk result (λ same. same.tree ≡ view.now.tree) }
    ensures known { IfOk result (λ same. same.known ≡ view.now.known) }
{
    let bytes = view.bytes.copy()?;
    let tree = view.tree.copy()?;
    let known = copy_all(alloc, view.known.as_slice())?;
    Ok(view_of(view.lang, bytes, tree, known))
}

/// The view of a file in which each name that stands for a dotted name is replaced by that name, with the range of the name. The
/// rest of the tree and the bytes are the same. What is known of names is kept under their new numbers, but for the names in whose
/// place an attribute stands. Files in other languages than Python stay as they are. Numbers of nodes that don't fit count as
/// want of memory; they do in each file whose tree has fewer than 2^25 nodes.
pub fn resolve(alloc: Global, view: &FileView) -> Result<FileView, Memory>
    ensures { IfOk result (IsResolved view.now) }
{
    match view.lang {
        Lang::Python => resolve_python(alloc, view),
        _ => copied(alloc, view),
    }
}

// Whether the file in Python surely resolves to itself. That costs a look at its nodes, and no copy of them.
fn stays(alloc: Global, view: &FileView) -> Result<bool, Memory>
    requires { view.now.lang ≡ Python }
    ensures { IfOk result (λ same. same ≡ true → IsResolved view.now view.now) }
{
    let own = own_claims(alloc, &view.tree)?;
    Ok(are_themselves(own.as_slice()))
}

// The same as `resolved_beside` of a file in Python.
fn python_beside(alloc: Global, view: &FileView) -> Result<Option<FileView>, Memory>
    requires { view.now.lang ≡ Python }
    ensures { IfOk result (λ beside. MatchOption beside (IsResolved view.now view.now) (IsResolved view.now)) }
{
    if stays(alloc, view)? {
        return Ok(None);
    }
    Ok(Some(resolve_python(alloc, view)?))
}

/// The view of a file with names replaced, as `resolve` gives it. None where no name may stand for another, so that the file
/// resolves to itself: in another language than Python, and where no import binds a name to another one.
pub fn resolved_beside(alloc: Global, view: &FileView) -> Result<Option<FileView>, Memory>
    ensures { IfOk result (λ beside. MatchOption beside (IsResolved view.now view.now) (IsResolved view.now)) }
{
    match view.lang {
        Lang::Python => python_beside(alloc, view),
        _ => Ok(None),
    }
}
