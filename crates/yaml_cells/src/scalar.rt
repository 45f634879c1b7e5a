//! Plain and quoted scalars.

ghost use Rattle.std.specs.Prelude.{◌≡◌, IfOk};
ghost use Rattle.yaml_lines.specs.Body.{texts};
ghost use Rattle.yaml_cells.specs.Scalar as spec;

use crate::quoted::quoted;
use crate::value::YValue;
use crate::word::word;
use node_tree::Memory;
use std::alloc::Global;
use yaml_lines::head::past_blanks;

/// The plain scalar on these lines.
fn plain_of(alloc: Global, lines: &[&[u8]], closed: bool) -> Result<Option<YValue>, Memory>
    ensures { IfOk result (λ v. v ≡ spec.plain_of closed (texts lines.now)) }
{
    match word(alloc, lines, closed)? {
        Some(text) => Ok(Some(YValue::Word(text))),
        None => Ok(None),
    }
}

/// The quoted scalar on these lines.
fn quoted_of(alloc: Global, quote: u8, lines: &[&[u8]]) -> Result<Option<YValue>, Memory>
    ensures { IfOk result (λ v. v ≡ spec.quoted_of quote (texts lines.now)) }
{
    match quoted(alloc, quote, lines)? {
        Some(text) => Ok(Some(YValue::Quoted(text))),
        None => Ok(None),
    }
}

/// The plain or quoted scalar on these lines, if they say one. `closed` says that `,` or `]` of a flow sequence follows.
pub fn scalar_of(alloc: Global, lines: &[&[u8]], closed: bool) -> Result<Option<YValue>, Memory>
    ensures { IfOk result (λ v. v ≡ spec.scalar_of closed (texts lines.now)) }
{
    let Some(line) = lines.first() else {
        return Ok(None);
    };
    match past_blanks(*line).first() {
        None => plain_of(alloc, lines, closed),
        Some(byte) => {
            if *byte == b'\'' {
                quoted_of(alloc, b'\'', lines)
            } else if *byte == b'"' {
                quoted_of(alloc, b'"', lines)
            } else {
                plain_of(alloc, lines, closed)
            }
        }
    }
}
