//! The first bytes of names that may be fixed, by which most names are known not to be.

ghost use Rattle.std.specs.Prelude.{◌≡◌, IfOk};
ghost use Rattle.unit_effects.specs.Firsts as spec;

use crate::fixed::Once;
use node_tree::Memory;
use std::alloc::Global;

// How many bytes there are.
const BYTES: usize = 256;

/// Whether a name may be one of those whose first bytes are marked.
pub fn may_be(firsts: &[bool], name: &str) -> bool
    ensures { result ≡ spec.may_be firsts.now name.now }
{
    let Some(first) = name.as_bytes().first() else {
        return true;
    };
    let at = *first as usize;
    if at < firsts.len() {
        return firsts[at];
    }
    true
}

// Marks the first byte of a name.
fn mark(firsts: &mut Vec<bool>, name: &str)
    ensures { spec.Marks firsts.old.items name.now firsts.new.items }
{
    let Some(first) = name.as_bytes().first() else {
        return;
    };
    let at = *first as usize;
    if at < firsts.len() {
        firsts[at] = true;
    }
}

// A mark for each byte, of which none is set.
fn unmarked(alloc: Global) -> Result<Vec<bool>, Memory> {
    let mut firsts = Vec::new(alloc);
    for _at in 0..BYTES {
        firsts.push(false)?;
    }
    Ok(firsts)
}

/// The first bytes of the names that get a literal as a constant does.
pub fn firsts_of(alloc: Global, once: &Once<'_>) -> Result<Vec<bool>, Memory>
    ensures { IfOk result (λ firsts. spec.TellsFirsts firsts.items once.now) }
{
    let mut firsts = unmarked(alloc)?;
    for (name, literal) in once.iter() {
        if literal.is_some() {
            mark(&mut firsts, name);
        }
    }
    Ok(firsts)
}
