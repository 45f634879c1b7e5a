//! Whether a finding is quieted.

ghost use Rattle.std.specs.Prelude.{◌≡◌, List as list, IfOk, OnOk};
ghost use Rattle.quieting.specs.declared.quiet.Quiet.{Quiet as a_quiet};
ghost use Rattle.quieting.specs.Lines.{Adds, HasJust, all_key, ids_key, has_key, is_quiet_on, is_quieted as is_quiet_near};

use crate::quiet::Quiet;
use node_tree::{Memory, Text};
use std::alloc::Global;
use std::collections::BTreeSet;

/// Lines, each with an id that a comment there names, or with none where a comment there quiets all.
pub type QuietLines<'q> = BTreeSet<(u32, Option<&'q str>)>;

// Adds the line of a comment that quiets all.
fn add_all<'q>(lines: &mut QuietLines<'q>, quiet: &'q Quiet) -> Result<(), Memory>
    ensures { OnOk result (Adds lines.old lines.new (all_key quiet.now)) }
{
    if !quiet.all {
        return Ok(());
    }
    lines.insert((quiet.line, None))?;
    Ok(())
}

// Adds the line with each of these ids.
fn add_ids<'q>(lines: &mut QuietLines<'q>, line: u32, ids: &'q [Text]) -> Result<(), Memory>
    ensures { OnOk result (Adds lines.old lines.new (ids_key line ids.now)) }
{
    for id in ids {
        lines.insert((line, Some(id.as_str())))?;
    }
    Ok(())
}

// Adds what a comment quiets.
fn add_quiet<'q>(lines: &mut QuietLines<'q>, quiet: &'q Quiet) -> Result<(), Memory>
    ensures { OnOk result (Adds lines.old lines.new (λ key. has_key key quiet.now)) }
{
    add_all(lines, quiet)?;
    add_ids(lines, quiet.line, quiet.ids.as_slice())
}

/// What comments quiet, by line, so that a finding is looked up and not compared with each comment.
pub fn quiet_lines<'q>(alloc: Global, quiets: &'q [Quiet]) -> Result<QuietLines<'q>, Memory>
    ensures { IfOk result (λ lines. HasJust lines quiets.now) }
{
    let mut lines = BTreeSet::new(alloc);
    for quiet in quiets {
        add_quiet(&mut lines, quiet)?;
    }
    Ok(lines)
}

// Whether a comment on the line quiets the id.
fn is_quiet<'q>(lines: &QuietLines<'q>, line: u32, id: &'q str) -> bool
    ensures { (quiets : list a_quiet) → HasJust lines.now quiets → result ≡ is_quiet_on quiets line id.now }
{
    if lines.contains(&(line, None)) {
        return true;
    }
    lines.contains(&(line, Some(id)))
}

/// Whether some comment quiets findings of the rule with that id that begin on the line.
pub fn is_quieted<'q>(lines: &QuietLines<'q>, line: u32, id: &'q str) -> bool
    ensures { (quiets : list a_quiet) → HasJust lines.now quiets → result ≡ is_quiet_near quiets line id.now }
{
    if is_quiet(lines, line, id) {
        return true;
    }
    if line == 0 {
        return false;
    }
    is_quiet(lines, line - 1, id)
}
