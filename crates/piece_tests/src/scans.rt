//! Files one after the other, where what a pattern has in a piece is kept.

ghost use Rattle.std.specs.Prelude.{◌≡◌, ◌+◌, ◌<◌, IfOk};

use code_reader::PatternReader;
use file_open::{Opened, open_file, with_names};
use file_parts::{Part, PartLeaf, join, parts_of};
use languages::Languages;
use node_tree::{Bytes, Lang, List, Memory, Pattern, Steps, Twin};
use piece_form::Piece;
use piece_match::match_piece;
use shown::{parted, same};
use std::alloc::Global;
use std::fmt::Write;
use std::marker::Brand;
use std::sync::ledger::{Blank, Ledger};
use std::test::Fail;
use tree_match::Leaf;

// A piece, and what the pattern has in it.
#[derive(Drop)]
struct Kept {
    piece: Piece,
    leaf: Leaf,
}

// Where what the pattern has in that piece is kept, or how many are kept where it isn't.
fn place_of(kept: &[Kept], piece: &Piece) -> usize {
    for (at, one) in kept.iter().enumerate() {
        if one.piece.same(piece) {
            return at;
        }
    }
    kept.len()
}

// Matches the pattern in a piece where it wasn't yet, and tells how many steps that took.
fn match_new<L: Ledger>(
    alloc: Global,
    kept: &mut List<Kept>,
    piece: &Piece,
    pattern: &Pattern,
    steps: &mut Steps<L>,
) -> Result<u64, Memory>
    ensures { IfOk result (λ taken. steps.new ≡ steps.old + taken) }
{
    if place_of(kept.as_slice(), piece) < kept.len() {
        return Ok(0);
    }
    let leaf = match_piece(alloc, piece, pattern, steps)?;
    let piece = piece.copy()?;
    kept.push(Kept { piece, leaf })?;
    Ok(1)
}

// Matches the pattern in the parts that it needs, and tells how many steps that took.
fn match_parts<L: Ledger>(
    alloc: Global,
    kept: &mut List<Kept>,
    parts: &[Part<'_>],
    pattern: &Pattern,
    steps: &mut Steps<L>,
) -> Result<u64, Memory> {
    let mut taken: u64 = 0;
    for part in parts {
        if part.is_needed(pattern) {
            let more = match_new(alloc, kept, &part.placed.piece, pattern, steps)?;
            taken = taken.saturating_add(more);
        }
    }
    Ok(taken)
}

// What the pattern has in the file with these parts.
fn joined(
    alloc: Global,
    kept: &[Kept],
    parts: &[Part<'_>],
    pattern: &Pattern,
) -> Result<Leaf, Memory> {
    let mut leaves = List::new(alloc);
    for part in parts {
        if part.is_needed(pattern) {
            if let Some(one) = kept.get(place_of(kept, &part.placed.piece)) {
                leaves.push(PartLeaf {
                    part: *part,
                    leaf: &one.leaf,
                })?;
            }
        }
    }
    join(alloc, leaves.as_slice())
}

// Writes the members, a line each.
fn write_leaf(lines: &mut String, leaf: &Leaf) -> Result<(), Memory> {
    let Leaf::Full(set) = leaf else {
        lines.push_str("crowded\n")?;
        return Ok(());
    };
    for (range, binding) in set.members() {
        write!(lines, "{}..{}", range.from, range.to)?;
        for bound in binding.bounds() {
            let (name, span) = (bound.name.as_str(), bound.span);
            write!(lines, " {name}={}..{}", span.from, span.to)?;
        }
        lines.push_str("\n")?;
    }
    Ok(())
}

// Opens the text, matches the pattern in its parts by what is kept of other texts, and writes how many steps that took and what
// was found.
fn scan<L: Ledger>(
    alloc: Global,
    kept: &mut List<Kept>,
    text: &[u8],
    pattern: &Pattern,
    lines: &mut String,
    steps: &mut Steps<L>,
) -> Result<(), Memory> {
    let bytes = Bytes::from_slice(alloc, text)?;
    let Opened::Read(view) = open_file(alloc, &Languages, pattern.lang, bytes, steps)? else {
        lines.push_str("no tree\n")?;
        return Ok(());
    };
    let view = with_names(alloc, &Languages, view)?;
    let parts = parts_of(&view)?;
    let all = parts.all(alloc)?;
    let taken = match_parts(alloc, kept, all.as_slice(), pattern, steps)?;
    write!(lines, "{} steps\n", taken.saturating_add(1))?;
    let leaf = joined(alloc, kept.as_slice(), all.as_slice(), pattern)?;
    write_leaf(lines, &leaf)
}

// What is found in two texts, the second by what was kept of the first.
fn scanned<L: Ledger>(
    alloc: Global,
    blank: Blank,
    pattern: &Pattern,
    first: &[u8],
    second: &[u8],
) -> Result<String, Memory>
    requires name { blank.name ≡ L.name }
    requires parts { blank.parts ≡ L.parts }
    requires some { 0 < L.parts }
{
    let mut steps = Steps::<L>::new(blank);
    let mut kept = List::new(alloc);
    let mut lines = String::new(alloc);
    scan(alloc, &mut kept, first, pattern, &mut lines, &mut steps)?;
    scan(alloc, &mut kept, second, pattern, &mut lines, &mut steps)?;
    Ok(lines)
}

// The same with a counter of its own.
fn scanned_alone(
    alloc: Global,
    pattern: &Pattern,
    first: &str,
    second: &str,
) -> Result<String, Memory> {
    scanned::<Brand>(
        alloc,
        Blank::new(1),
        pattern,
        first.as_bytes(),
        second.as_bytes(),
    )
}

// The pattern of a language, if it is one.
fn pattern_of(alloc: Global, lang: Lang, text: &str) -> Result<Pattern, Fail> {
    Ok(
        Languages
            .read_pattern(alloc, lang, text)
            .ok()
            .ok_or("no pattern")?,
    )
}

// The pattern, a text, an edit of it, and what is found in both with the steps that each took.
fn check(alloc: Global, lang: Lang, rows: &[&str]) -> Result<(), Fail> {
    for row in rows {
        let (pattern, rest) = parted(row);
        let (first, rest) = parted(rest);
        let (second, wanted) = parted(rest);
        let pattern = pattern_of(alloc, lang, pattern)?;
        let found = scanned_alone(alloc, &pattern, first, second)?;
        same(row, found.as_str(), wanted)?;
    }
    Ok(())
}

#[test]
fn matches_what_changed(rt: HostRuntime) -> Result<(), Fail> {
    let rows = [
        // Equal statements are one, and a statement that moved is the same.
        "f($X) ⇒ f(1)\nf(1)\n ⇒ g\nf(1)\n ⇒ 2 steps\n0..4 $X=2..3\n5..9 $X=7..8\n2 steps\n2..6 $X=4..5\n",
        "f($X) ⇒ def a():\n    f(1)\ndef b():\n    f(2)\n ⇒ \ndef a():\n    f(1)\ndef b():\n    f(3)\n ⇒ 3 steps\n13..17 $X=15..16\n31..35 $X=33..34\n2 steps\n14..18 $X=16..17\n32..36 $X=34..35\n",
        // A pattern of statements needs the whole file too, for its runs at the top level.
        "a()\nb() ⇒ a()\nb()\na()\n ⇒ a()\nb()\na()\n ⇒ 4 steps\n0..7\n1 steps\n0..7\n",
        "a()\nb() ⇒ if c:\n    a()\n    b()\na()\nb()\n ⇒ \nif c:\n    a()\n    b()\n ⇒ 5 steps\n10..21\n22..29\n2 steps\n11..22\n",
        // A comment is no part of a statement.
        "f($X) ⇒ f(1)  # nosemgrep\nf(2)\nf(3)\n ⇒ f(1)  # nosemgrep: q\nf(2)\nf(3)\n ⇒ 4 steps\n0..4 $X=2..3\n18..22 $X=20..21\n23..27 $X=25..26\n1 steps\n0..4 $X=2..3\n21..25 $X=23..24\n26..30 $X=28..29\n",
        // A function in which a name holds another literal is another one.
        "f(\"a\") ⇒ K = \"a\"\ndef g():\n    f(K)\n ⇒ K = \"b\"\ndef g():\n    f(K)\n ⇒ 3 steps\n21..25\n3 steps\n",
        // The first file of a drill and its edit, by each of the four patterns of its rules. Beside the step that opens the file each
        // takes one, so a drill of 1,000 files takes 1,000 times five steps, and then five.
        "run($X) ⇒ def f0(q):\n    s = read()\n    run(s)\n ⇒ def f0(q):\n    s = clean(read())\n    run(s)\n ⇒ 2 steps\n30..36 $X=34..35\n2 steps\n37..43 $X=41..42\n",
        "read() ⇒ def f0(q):\n    s = read()\n    run(s)\n ⇒ def f0(q):\n    s = clean(read())\n    run(s)\n ⇒ 2 steps\n19..25\n2 steps\n25..31\n",
        "run(...) ⇒ def f0(q):\n    s = read()\n    run(s)\n ⇒ def f0(q):\n    s = clean(read())\n    run(s)\n ⇒ 2 steps\n30..36\n2 steps\n37..43\n",
        "clean(...) ⇒ def f0(q):\n    s = read()\n    run(s)\n ⇒ def f0(q):\n    s = clean(read())\n    run(s)\n ⇒ 2 steps\n2 steps\n19..32\n",
        // A file without statements.
        "a()\nb() ⇒  ⇒ # c\n ⇒ 2 steps\n2 steps\n",
    ];
    check(rt.alloc(), Lang::Python, &rows)?;
    let rows = [
        "[..., $X, ...] ⇒ [1,2] ⇒  [1,2] ⇒ 2 steps\n0..5 $X=1..2\n0..5 $X=3..4\n1 steps\n1..6 $X=2..3\n1..6 $X=4..5\n",
    ];
    check(rt.alloc(), Lang::Json, &rows)
}

#[test]
fn sees_through_imports(rt: HostRuntime) -> Result<(), Fail> {
    let rows = [
        // The import, the call as it is written, and the call with its name resolved; then all of them moved.
        "os.system($C) ⇒ from os import system as s\ns(c)\n ⇒ \nfrom os import system as s\ns(c)\n ⇒ 4 steps\n27..31 $C=29..30\n1 steps\n28..32 $C=30..31\n",
        // An assignment makes it an ordinary name, and then no other call is matched again.
        "os.system($C) ⇒ from os import system as s\ns(c)\n ⇒ from os import system as s\ns(c)\ns = 1\n ⇒ 4 steps\n27..31 $C=29..30\n2 steps\n",
        "numpy.load(...) ⇒ import numpy as np\nnp.load(x)\n ⇒  ⇒ 4 steps\n19..29\n1 steps\n",
        // What is found as it is written stands once, with the names that it has there.
        "np.load(...) ⇒ import numpy as np\nnp.load(x)\n ⇒  ⇒ 4 steps\n19..29\n1 steps\n",
        "$F($X) ⇒ import numpy as np\nnp.load(np.x)\n ⇒  ⇒ 4 steps\n19..32 $F=19..26 $X=27..31\n1 steps\n",
    ];
    check(rt.alloc(), Lang::Python, &rows)
}
