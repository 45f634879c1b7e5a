//! Questions to the answer.

ghost use Rattle.std.specs.Prelude.{◌≡◌, ◌<◌, ◌↔◌, ℕ, Some};
ghost use Rattle.held_values.specs.Told.{Tells};

use crate::held::HeldValues;
use crate::slots::UNSEEN;

impl HeldValues {
    /// The literal that the name holds just before the point on every route to it, where there is a route.
    pub fn value(&self, point: u32, name: u32) -> Option<u32>
        requires point { point < self.now.points }
        requires name { name < self.now.names }
        ensures { (literal : ℕ) → (result ≡ Some literal) ↔ Tells self.now point name literal }
    {
        let value = self.values[name as usize * self.points as usize + point as usize];
        if value == 0 {
            return None;
        }
        if value == UNSEEN {
            return None;
        }
        Some(value)
    }
}
