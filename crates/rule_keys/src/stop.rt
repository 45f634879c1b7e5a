//! Why a value was not read.

ghost use Rattle.std.specs.Prelude.{◌≡◌};
ghost use Rattle.std.specs.Fmt.{decimal};
ghost use Rattle.rule_keys.specs.declared.stop.Stop.TheVariants.{Memory as out_of_memory, Bad as a_bad};
ghost use Rattle.rule_keys.specs.Misfits as spec;

use crate::fault::RuleFaultKind;
use node_tree::{List, Memory, Text};
use std::alloc::{AllocError, AllocFailed, Global};

/// What is wrong with a value: the kind of fault, and the keys and places down to it, the last one first.
#[derive(Drop)]
pub struct Misfit {
    pub kind: RuleFaultKind,
    pub path: List<Text>,
}

/// Why a value was not read.
#[derive(Drop)]
pub enum Stop {
    Memory,
    Bad(Misfit),
}

impl From<Memory> for Stop {
    ghost from_gives = { λ _ e. e ≡ out_of_memory };

    fn from(_e: Memory) -> Stop {
        Stop::Memory
    }
}

impl From<AllocError> for Stop {
    ghost from_gives = { λ _ e. e ≡ out_of_memory };

    fn from(_e: AllocError) -> Stop {
        Stop::Memory
    }
}

/// The value itself is wrong.
pub fn here(alloc: Global, kind: RuleFaultKind) -> Stop
    ensures { result ≡ a_bad (spec.here kind) }
{
    Stop::Bad(Misfit {
        kind,
        path: List::new(alloc),
    })
}

/// Puts a key, or the number of a place, on top of the path to what is wrong.
fn below(alloc: Global, part: &str, stop: Stop) -> Stop
    ensures { spec.IsBelow part.now stop result }
{
    match stop {
        Stop::Memory => Stop::Memory,
        Stop::Bad(misfit) => {
            let Misfit { kind, mut path } = misfit;
            let Ok(part) = Text::from_str(alloc, part) else {
                return Stop::Memory;
            };
            if path.push(part).is_err() {
                return Stop::Memory;
            }
            Stop::Bad(Misfit { kind, path })
        }
    }
}

/// The value of a key is wrong, or the key itself.
pub fn at(alloc: Global, kind: RuleFaultKind, key: &str) -> Stop
    ensures { spec.IsStop (spec.at key.now kind) result }
{
    below(alloc, key, here(alloc, kind))
}

/// What was read below a key.
pub fn within<X: Drop>(alloc: Global, key: &str, read: Result<X, Stop>) -> Result<X, Stop>
    ensures { spec.IsUnder key.now read result }
{
    match read {
        Ok(found) => Ok(found),
        Err(stop) => Err(below(alloc, key, stop)),
    }
}

/// What was read at a place in a list, counted from 0.
pub fn within_item<X: Drop>(alloc: Global, place: usize, read: Result<X, Stop>) -> Result<X, Stop>
    ensures { spec.IsUnder (decimal place) read result }
{
    match read {
        Ok(found) => Ok(found),
        Err(stop) => {
            let part = format!(in alloc; "{place}")?;
            Err(below(alloc, part.as_str(), stop))
        }
    }
}
