//! Copies that may fail.

ghost use Rattle.std.specs.Prelude.{◌≡◌, IfOk};

use crate::list::List;
use crate::memory::Memory;
use std::alloc::Global;

/// A value of which a further, equal one can be made.
pub trait Twin: Sized {
    /// An equal value, which shares no memory with this one.
    fn copy(&self) -> Result<Self, Memory>
        ensures { IfOk result (λ twin. twin ≡ self.now) };
}

/// Equal values in the same order.
pub fn copy_all<T: Twin + Drop>(alloc: Global, items: &[T]) -> Result<List<T>, Memory>
    ensures { IfOk result (λ copies. copies ≡ items.now) }
{
    let mut copies = List::new(alloc);
    for item in items {
        copies.push(item.copy()?)?;
    }
    Ok(copies)
}

impl<T: Twin + Drop> Twin for List<T> {
    fn copy(&self) -> Result<List<T>, Memory> {
        copy_all(self.alloc(), self.as_slice())
    }
}
