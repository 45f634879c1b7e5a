//! Lines and their columns.

ghost use Rattle.std.specs.Prelude.{◌≡◌, ◌≤◌, ◌+◌, ◌*◌, ◌<◌, ℕ, List, [], ◌∷◌, ◌++◌, length, drop, map, OnOk, reverse, Some, Err, ◌≢◌};
ghost use Rattle.node_tree.specs.declared.fault.LexFault.TheVariants.{NoTokens};
ghost use Rattle.py_lex.specs.Layout as spec;
ghost use Rattle.py_lex.specs.declared.token.PyToken.{PyToken};

use crate::class::{Class, class_at};
use crate::columns::Columns;
use crate::keyword::is_keyword;
use crate::token::{FPart, PyToken, PyWord, push_closely};
use node_tree::{LexFault, List, MOST_BYTES, Span, Text};
use std::alloc::Global;

/// What of a line was read.
#[derive(Clone, Copy, Debug, PartialEq, Eq)]
pub enum Line {
    /// Blanks, which say its column.
    Start,
    /// Blanks and a backslash, which fixed its column.
    Fixed,
    /// A token.
    Inside,
}

/// Where reading stands.
#[derive(Drop)]
pub struct Layout {
    pub at: usize,
    pub columns: Columns,
    pub depth: usize,
    pub column: usize,
    pub line: Line,
    pub first: bool,
}

impl Layout {
    /// The start of a text's first line.
    pub fn first(alloc: Global, at: usize) -> Layout
        ensures { result ≡ spec.begins_at at }
    {
        Layout {
            at,
            columns: Columns::new(alloc),
            depth: 0,
            column: 0,
            line: Line::Start,
            first: true,
        }
    }
}

/// Pushes a token without text.
fn push_sign(
    alloc: Global,
    all: &mut List<PyToken>,
    word: PyWord,
    from: usize,
    len: usize,
) -> Result<(), LexFault>
    requires { from + len ≤ MOST_BYTES }
    ensures ok { OnOk result (all.new ≡ all.old ++ spec.sign word from len ∷ []) }
    ensures memory { result ≢ Err NoTokens }
{
    all.push(PyToken {
        word,
        text: Text::new(alloc),
        span: Span {
            from: from as u32,
            to: (from + len) as u32,
        },
        parts: List::new(alloc),
    })?;
    Ok(())
}

/// Pushes a token that is written, with the parts of an f-string.
pub fn push_written(
    alloc: Global,
    all: &mut List<PyToken>,
    word: PyWord,
    text: &str,
    from: usize,
    parts: List<FPart>,
) -> Result<(), LexFault>
    requires { from + length text.now ≤ MOST_BYTES }
    ensures ok { OnOk result (all.new ≡ all.old ++ spec.written word text.now from parts ∷ []) }
    ensures memory { result ≢ Err NoTokens }
{
    let token = PyToken {
        word,
        text: Text::from_str(alloc, text)?,
        span: Span {
            from: from as u32,
            to: (from + text.len()) as u32,
        },
        parts,
    };
    push_closely(alloc, all, token)?;
    Ok(())
}

/// Closes the blocks that are deeper than a column.
fn close(
    alloc: Global,
    all: &mut List<PyToken>,
    columns: &mut Columns,
    at: usize,
    column: usize,
) -> Result<(), LexFault>
    requires { at ≤ MOST_BYTES }
    ensures { spec.Turns (spec.close at columns.old column) all.old all.new columns.new result }
{
    'deeper: while column < columns.top() {
        columns.pop();
        push_sign(alloc, all, PyWord::Dedent, at, 0)?;
    }
    if columns.top() == column {
        Ok(())
    } else {
        Err(LexFault::NoTokens)
    }
}

/// Opens a block or closes some, as the column of a line says.
fn open_line(
    alloc: Global,
    all: &mut List<PyToken>,
    columns: &mut Columns,
    at: usize,
    column: usize,
) -> Result<(), LexFault>
    requires { at ≤ MOST_BYTES }
    ensures { spec.Turns (spec.open_line at columns.old column) all.old all.new columns.new result }
{
    if columns.top() < column {
        columns.push(column)?;
        push_sign(alloc, all, PyWord::Indent, at, 0)
    } else {
        close(alloc, all, columns, at, column)
    }
}

/// How deep blanks lead from a column.
fn column_after(column: usize, blanks: &[u8]) -> usize
    requires { column + 8 * length blanks.now ≤ 100000000 }
    ensures value { result ≡ spec.column_after column blanks.now }
    ensures bound { result ≤ column + 8 * length blanks.now }
{
    let mut column = column;
    for b in blanks {
        column = match *b {
            b'\t' => (column / 8 + 1) * 8,
            0x0c => 0,
            _ => column + 1,
        };
    }
    column
}

/// Opens or closes blocks at the first token of a line.
fn begin(alloc: Global, all: &mut List<PyToken>, layout: &mut Layout) -> Result<(), LexFault>
    requires { layout.old.at ≤ MOST_BYTES }
    ensures turns { spec.Turns (spec.begin layout.old) all.old all.new layout.new result }
    ensures same { OnOk result (layout.new.at ≡ layout.old.at) }
    ensures depth { OnOk result (layout.new.depth ≡ layout.old.depth) }
    ensures column { OnOk result (layout.new.column ≡ layout.old.column) }
{
    if layout.line == Line::Inside {
        return Ok(());
    }
    let column = if layout.first { 0 } else { layout.column };
    open_line(alloc, all, &mut layout.columns, layout.at, column)?;
    layout.line = Line::Inside;
    layout.first = false;
    Ok(())
}

/// The word of a token, or `None` for what stands between tokens.
pub fn word_of(class: Class, text: &str) -> Option<PyWord>
    ensures { result ≡ spec.word_of class text.now }
{
    match class {
        Class::Name => Some(if is_keyword(text) {
            PyWord::Keyword
        } else {
            PyWord::Name
        }),
        Class::Number => Some(PyWord::Number),
        Class::Str => Some(PyWord::Str),
        Class::FShort | Class::FLong => Some(PyWord::FStr),
        Class::Mark | Class::Opening | Class::Closing => Some(PyWord::Op),
        Class::Meta => Some(PyWord::Meta),
        Class::MetaDots => Some(PyWord::MetaDots),
        _ => None,
    }
}

/// The brackets that are open after a token.
pub fn depth_after(class: Class, depth: usize) -> usize
    requires { depth ≤ MOST_BYTES }
    ensures value { result ≡ spec.depth_after class depth }
    ensures bound { result ≤ depth + 1 }
{
    match class {
        Class::Opening => depth + 1,
        Class::Closing => depth.saturating_sub(1),
        _ => depth,
    }
}

/// A token of a line.
#[tactic(auto, unfolding(crate::specs::Layout::token_step))]
fn token_step(
    alloc: Global,
    all: &mut List<PyToken>,
    layout: &mut Layout,
    class: Class,
    word: PyWord,
    text: &str,
    parts: List<FPart>,
) -> Result<(), LexFault>
    requires room { layout.old.at + length text.now ≤ MOST_BYTES }
    requires bounded { spec.IsBounded layout.old }
    requires some { 0 < length text.now }
    ensures turns { spec.Turns (spec.token_step layout.old class word text.now parts) all.old all.new layout.new result }
    ensures bounded { OnOk result (spec.IsBounded layout.new) }
    ensures moves { OnOk result (layout.new.at ≡ layout.old.at + length text.now) }
{
    begin(alloc, all, layout)?;
    push_written(alloc, all, word, text, layout.at, parts)?;
    layout.depth = depth_after(class, layout.depth);
    layout.at += text.len();
    Ok(())
}

/// What stands between tokens.
fn gap_step(
    alloc: Global,
    all: &mut List<PyToken>,
    layout: &mut Layout,
    class: Class,
    text: &str,
) -> Result<(), LexFault>
    requires room { layout.old.at + length text.now ≤ MOST_BYTES }
    requires bounded { spec.IsBounded layout.old }
    ensures turns { spec.Turns (Some (spec.gap_step layout.old class text.now)) all.old all.new layout.new result }
    ensures bounded { OnOk result (spec.IsBounded layout.new) }
    ensures moves { OnOk result (layout.new.at ≡ layout.old.at + length text.now) }
{
    match (class, layout.line) {
        (Class::Blank, Line::Start) => layout.column = column_after(layout.column, text.as_bytes()),
        (Class::LineEnd, Line::Inside) => {
            if layout.depth == 0 {
                push_sign(alloc, all, PyWord::Newline, layout.at, text.len())?;
                layout.line = Line::Start;
                layout.column = 0;
            }
        }
        (Class::LineEnd, _) => {
            layout.line = Line::Start;
            layout.column = 0;
        }
        (Class::Splice, Line::Start) => layout.line = Line::Fixed,
        _ => {}
    }
    layout.at += text.len();
    Ok(())
}

/// Reads one lexeme of the class that has the number; an f-string comes with its parts.
pub fn step(
    alloc: Global,
    all: &mut List<PyToken>,
    layout: &mut Layout,
    number: u16,
    text: &str,
    parts: List<FPart>,
) -> Result<(), LexFault>
    requires room { layout.old.at + length text.now ≤ MOST_BYTES }
    requires bounded { spec.IsBounded layout.old }
    requires some { 0 < length text.now }
    ensures turns { spec.Turns (spec.step layout.old number text.now parts) all.old all.new layout.new result }
    ensures bounded { OnOk result (spec.IsBounded layout.new) }
    ensures moves { OnOk result (layout.new.at ≡ layout.old.at + length text.now) }
{
    let class = class_at(number);
    match word_of(class, text) {
        Some(word) => token_step(alloc, all, layout, class, word, text, parts),
        None => gap_step(alloc, all, layout, class, text),
    }
}

/// The last tokens.
pub fn finish(alloc: Global, all: &mut List<PyToken>, layout: &mut Layout) -> Result<(), LexFault>
    requires { layout.old.at ≤ MOST_BYTES }
    ensures { spec.Ends (spec.finish layout.old) all.old all.new result }
{
    if layout.line == Line::Inside && layout.depth == 0 {
        push_sign(alloc, all, PyWord::Newline, layout.at, 0)?;
    }
    close(alloc, all, &mut layout.columns, layout.at, 0)?;
    push_sign(alloc, all, PyWord::End, layout.at, 0)
}
