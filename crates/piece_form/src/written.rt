//! Known names written as bytes.

ghost use Rattle.std.specs.Prelude.{◌≡◌, ◌++◌, length, OnOk};
ghost use Rattle.tree_code.specs.Code.{number_code};
ghost use Rattle.piece_form.specs.Code.{known_code};
ghost use Rattle.piece_form.specs.Identity.{known_contents};

use node_tree::{Known, Memory};
use tree_code::{Look, add_length, add_number, add_tree};

/// Adds known names behind their number.
pub fn add_known(code: &mut Vec<u8>, known: &[Known]) -> Result<(), Memory>
    ensures { OnOk result (code.new.items ≡ code.old.items ++
        (number_code (length known.now) ++ known_code (known_contents known.now))) }
{
    add_length(code, known.len())?;
    for one in known {
        add_number(code, one.at)?;
        add_tree(code, &one.literal, Look::Content)?;
    }
    Ok(())
}
