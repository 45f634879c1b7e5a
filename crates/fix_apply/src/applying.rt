//! Edits applied.

ghost use Rattle.std.specs.Prelude.{◌≡◌, length, IfOk};
ghost use Rattle.fix_apply.specs.Applied.{LieIn, applied};

use node_tree::{Bytes, List, Memory};
use report_form::Edit;
use std::alloc::Global;

/// The bytes with the range of each edit replaced by its text. Each edit ends at or before the start of the next.
pub fn apply(alloc: Global, bytes: &[u8], edits: &List<Edit>) -> Result<Bytes, Memory>
    requires { LieIn 0 (length bytes.now) edits.now }
    ensures { IfOk result (λ whole. whole ≡ applied bytes.now edits.now) }
{
    let edits = edits.as_slice();
    let mut whole = Bytes::new(alloc);
    let mut at = 0;
    for edit in edits {
        whole.extend(&bytes[at..edit.span.from as usize])?;
        whole.extend(edit.text.as_str().as_bytes())?;
        at = edit.span.to as usize;
    }
    whole.extend(&bytes[at..])?;
    Ok(whole)
}
