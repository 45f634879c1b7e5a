//! Numbers as a text.

ghost use Rattle.std.specs.Prelude.{◌≡◌, ◌++◌, IfOk, OnOk};
ghost use Rattle.std.specs.List.{flat_map};
ghost use Rattle.part_judge.specs.Findings.{after_dot, dotted as dotted_text, named as named_text};

use node_tree::{Memory, Text};
use std::alloc::Global;

// Adds the numbers, with a `.` before each.
fn add_dotted(alloc: Global, text: &mut Text, numbers: &[u64]) -> Result<(), Memory>
    ensures { OnOk result (text.new ≡ text.old ++ flat_map after_dot numbers.now) }
{
    for number in numbers {
        text.push(format!(in alloc; ".{number}")?.as_str())?;
    }
    Ok(())
}

/// The numbers, with a `.` between each two.
pub fn dotted(alloc: Global, numbers: &[u64]) -> Result<Text, Memory>
    ensures { IfOk result (λ text. text ≡ dotted_text numbers.now) }
{
    let mut text = Text::new(alloc);
    let Some((first, rest)) = numbers.split_first() else {
        return Ok(text);
    };
    text.push(format!(in alloc; "{first}")?.as_str())?;
    add_dotted(alloc, &mut text, rest)?;
    Ok(text)
}

/// The word, and then each number after a `.`.
pub fn named(alloc: Global, word: &str, numbers: &[u64]) -> Result<Text, Memory>
    ensures { IfOk result (λ text. text ≡ named_text word.now numbers.now) }
{
    let mut text = Text::from_str(alloc, word)?;
    add_dotted(alloc, &mut text, numbers)?;
    Ok(text)
}
