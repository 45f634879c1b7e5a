//! A value of a place of its own, which contracts see as the value alone.

ghost use Rattle.std.specs.Prelude.{◌≡◌, IfOk};

use node_tree::Memory;
use std::alloc::Global;
use std::marker::Model;

/// A `Box` that contracts see as its value. So two of them are equal in a contract wherever their values are, though a `Box`
/// also has its place there.
#[derive(Drop)]
pub struct Boxed<T> {
    inner: Box<T>,
}

impl<T> Model for Boxed<T> {
    ghost Value = { T };

    ghost coded = { T.code };

    ghost view = { λ b. b.inner.value };
}

impl<T> Boxed<T> {
    /// The value.
    pub fn get(&self) -> &T
        ensures { result.now ≡ self.now }
    {
        &self.inner
    }

    /// Where the place comes from.
    pub fn alloc(&self) -> Global {
        *Box::allocator(&self.inner)
    }
}

impl<T: Drop> Boxed<T> {
    /// Puts a value in a place of its own.
    pub fn new(alloc: Global, value: T) -> Result<Boxed<T>, Memory>
        ensures { IfOk result (λ b. b ≡ value) }
    {
        Ok(Boxed {
            inner: Box::new(alloc, value)?,
        })
    }
}
