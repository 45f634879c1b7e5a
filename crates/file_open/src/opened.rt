//! From bytes to files.

ghost use Rattle.std.specs.Prelude.{◌≡◌, ◌+◌, ◌≤◌, length, IfOk};
ghost use Rattle.std.specs.Str.{IsUtf8};
ghost use Rattle.node_tree.specs.Spans.{SpansLieIn};
ghost use Rattle.file_open.specs.Opening.{IsView, IsTextTree, HasOnlyTextTree, IsPlaced, IsOpened, HasOnlyTree};

use crate::reading::{plain_tree, tree_in};
use code_reader::TreeReader;
use node_tree::{Bytes, FileView, Lang, List, MOST_BYTES, Memory, Node, ReadFault, Steps};
use std::alloc::Global;
use std::str;
use std::sync::ledger::Ledger;

/// What the bytes of a file are in a language.
#[derive(Drop)]
pub enum Opened {
    /// There are more than 1,000,000 bytes.
    TooLarge,
    /// The bytes are no UTF-8.
    NotUtf8,
    /// The text has no tree in the language. It can still be searched: the file is one of the language `Regex`.
    NoTree(FileView),
    /// The file.
    Read(FileView),
}

// The tree of a text.
#[derive(Drop)]
enum TextTree {
    // The text has this one in the language.
    Read(Node),
    // It has none. This is that of a text that is only searched.
    Plain(Node),
}

// The tree of a text in the language, or else the one by which it can be searched.
fn tree_of<R: TreeReader>(
    alloc: Global,
    reader: &R,
    lang: Lang,
    text: &str,
) -> Result<TextTree, Memory>
    requires { length text.now ≤ MOST_BYTES }
    ensures tree { IfOk result (IsTextTree (R.spells reader.now) lang text.now) }
    ensures only { IfOk result (HasOnlyTextTree (R.spells reader.now) lang text.now) }
    ensures placed { IfOk result (IsPlaced text.now) }
{
    match tree_in(alloc, reader, lang, text) {
        Ok(tree) => Ok(TextTree::Read(tree)),
        Err(ReadFault::NoTree) => Ok(TextTree::Plain(plain_tree(alloc, text))),
        Err(ReadFault::Memory) => Err(Memory),
    }
}

// The file of these bytes and a tree.
fn view_of(alloc: Global, lang: Lang, bytes: Bytes, tree: Node) -> FileView
    requires utf8 { ∥ IsUtf8 bytes ∥₁ }
    requires small { length bytes ≤ MOST_BYTES }
    requires placed { SpansLieIn bytes tree }
    ensures { IsView lang bytes tree result }
{
    FileView {
        lang,
        bytes,
        tree,
        known: List::new(alloc),
    }
}

// What bytes are that aren't too many.
fn open_bytes<R: TreeReader>(
    alloc: Global,
    reader: &R,
    lang: Lang,
    bytes: Bytes,
) -> Result<Opened, Memory>
    requires { length bytes ≤ MOST_BYTES }
    ensures opened { IfOk result (IsOpened (R.spells reader.now) lang bytes) }
    ensures only { IfOk result (HasOnlyTree (R.spells reader.now) lang bytes) }
{
    let tree = match str::from_utf8(bytes.as_slice()) {
        Ok(text) => tree_of(alloc, reader, lang, text)?,
        Err(_) => return Ok(Opened::NotUtf8),
    };
    match tree {
        TextTree::Read(tree) => Ok(Opened::Read(view_of(alloc, lang, bytes, tree))),
        TextTree::Plain(tree) => Ok(Opened::NoTree(view_of(alloc, Lang::Regex, bytes, tree))),
    }
}

/// What the bytes of a file are in the language, by a reader of trees. TooLarge comes exactly where there are more than
/// 1,000,000, else NotUtf8 exactly where they are no UTF-8, else NoTree exactly where the text has no tree in the language. A
/// text of the language `Regex` always has one: a `Root` without kids that spans all of it. It is one step, whatever it answers.
/// The bytes become those of the file, so none is copied. No name of the file
/// is known to hold a literal: `with_names` finds those.
pub fn open_file<R: TreeReader, L: Ledger>(
    alloc: Global,
    reader: &R,
    lang: Lang,
    bytes: Bytes,
    steps: &mut Steps<L>,
) -> Result<Opened, Memory>
    ensures opened { IfOk result (IsOpened (R.spells reader.now) lang bytes) }
    ensures only { IfOk result (HasOnlyTree (R.spells reader.now) lang bytes) }
    ensures one_step { steps.new ≡ steps.old + 1 }
{
    steps.tick();
    if bytes.len() > MOST_BYTES {
        return Ok(Opened::TooLarge);
    }
    open_bytes(alloc, reader, lang, bytes)
}
