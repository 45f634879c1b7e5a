//! Where the lines of a text are.

ghost use Rattle.std.specs.Prelude.{◌≡◌, ◌+◌, ◌≤◌, ◌++◌, ℕ, List as list, length, IfOk};
ghost use Rattle.node_tree.specs.Places.{place_of};
ghost use Rattle.node_tree.specs.Marks.{mark_of};

use crate::limits::MOST_BYTES;
use crate::mark::Mark;
use crate::memory::Memory;
use crate::place::Place;
use memchr::{memchr_iter, memrchr};
use std::alloc::Global;
use std::marker::Model;

/// The places of a text, which contracts see as the text. It keeps what stands before each part of 1,024 bytes, so that
/// a place is found by a look at the part before it.
#[derive(Drop)]
pub struct Places<'t> {
    text: &'t [u8],
    marks: Vec<Mark>,
}

impl<'t> Model for Places<'t> {
    ghost use Rattle.std.specs.Prelude.{◌≤◌, ◌<◌, ◌*◌, ℕ, List, length};
    ghost use Rattle.node_tree.specs.declared.limits.TheConstants.{MOST_BYTES};
    ghost use Rattle.node_tree.specs.Marks.{AreMarks};

    ghost Value = { List ℕ };

    ghost view = { λ p. p.text.now };

    ghost invariant = { λ p. (length p.text.now ≤ MOST_BYTES) × (length p.text.now < 1024 * length p.marks.items) × AreMarks p.text.now 0 p.marks.items };
}

// The mark after one more piece of the text.
fn after(mark: Mark, piece: &[u8]) -> Mark
    requires lines { mark.lines + length piece.now ≤ MOST_BYTES }
    requires bytes { mark.bytes + length piece.now ≤ MOST_BYTES }
    ensures { (front : list ℕ) → mark ≡ mark_of front → result ≡ mark_of (front ++ piece.now) }
{
    let lines = mark.lines + memchr_iter(b'\n', piece).count() as u32;
    let bytes = match memrchr(b'\n', piece) {
        Some(last) => (piece.len() - last - 1) as u32,
        None => mark.bytes + piece.len() as u32,
    };
    Mark { lines, bytes }
}

impl<'t> Places<'t> {
    /// The places of a text of at most 1,000,000 bytes.
    pub fn of(alloc: Global, text: &'t [u8]) -> Result<Places<'t>, Memory>
        requires { length text.now ≤ MOST_BYTES }
        ensures { IfOk result (λ p. p ≡ text.now) }
    {
        let mut marks = Vec::new(alloc);
        let mut mark = Mark { lines: 0, bytes: 0 };
        let mut from: usize = 0;
        while text.len() - from >= 1024 {
            marks.push(mark)?;
            mark = after(mark, &text[from..from + 1024]);
            from += 1024;
        }
        marks.push(mark)?;
        Ok(Places { text, marks })
    }

    /// The place of a byte, or of the end of the text. It takes no memory.
    pub fn place(&self, at: u32) -> Place
        requires { at ≤ length self.now }
        ensures { result ≡ place_of self.now at }
    {
        let part = at as usize / 1024;
        let before = self.marks[part];
        let mark = after(before, &self.text[part * 1024..at as usize]);
        Place {
            line: mark.lines + 1,
            col: mark.bytes + 1,
            offset: at,
        }
    }
}
