//! How the lines of plain and quoted scalars fold.

ghost use Rattle.std.specs.Prelude.{◌≡◌, ◌++◌, IfOk, OnOk};
ghost use Rattle.yaml_cells.specs.Fold as spec;

use node_tree::{Memory, Text};
use std::alloc::Global;

/// A line of a scalar.
#[derive(Drop)]
pub enum Line {
    /// Nothing but blanks.
    Blank,
    /// What the line says.
    Text(Text),
    /// What the line says before a backslash at its end, which joins it to the next one.
    Joined(Text),
}

/// Adds so many line feeds.
pub fn push_breaks(content: &mut Text, count: usize) -> Result<(), Memory>
    ensures { OnOk result (content.new ≡ content.old ++ spec.breaks count) }
{
    for turn in 0..count {
        content.push("\n")?;
    }
    Ok(())
}

/// Adds what stands between two lines with so many blank ones between them: where there is none, a space or nothing.
fn push_between(content: &mut Text, gap: usize, spaced: bool) -> Result<(), Memory>
    ensures { OnOk result (content.new ≡ content.old ++ spec.between gap spaced) }
{
    if gap == 0 {
        content.push(if spaced { " " } else { "" })
    } else {
        push_breaks(content, gap)
    }
}

/// Adds a line's text behind so many blank lines.
fn push_line(content: &mut Text, gap: usize, spaced: bool, text: &Text) -> Result<(), Memory>
    ensures { OnOk result (content.new ≡ content.old ++ (spec.between gap spaced ++ text.now)) }
{
    push_between(content, gap, spaced)?;
    content.push(text.as_str())
}

/// What the lines of a scalar say: one line end is a space, and n blank lines are n line feeds.
pub fn fold(alloc: Global, lines: &[Line]) -> Result<Text, Memory>
    ensures { IfOk result (λ t. t ≡ spec.folded lines.now) }
{
    let mut content = Text::new(alloc);
    let mut gap = 0;
    let mut spaced = false;
    for (at, line) in lines.iter().enumerate() {
        match line {
            Line::Blank => gap += 1,
            Line::Text(text) => {
                push_line(&mut content, gap, spaced, text)?;
                gap = 0;
                spaced = true;
            }
            Line::Joined(text) => {
                push_line(&mut content, gap, spaced, text)?;
                gap = 0;
                spaced = false;
            }
        }
    }
    Ok(content)
}
