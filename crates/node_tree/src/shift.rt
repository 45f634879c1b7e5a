//! Copies of trees that stand elsewhere.

ghost use Rattle.std.specs.Prelude.{◌≡◌, IfOk};
ghost use Rattle.node_tree.specs.Shifts.{shifted_span, shifted};

use crate::list::List;
use crate::memory::Memory;
use crate::node::Node;
use crate::span::Span;
use crate::twin::Twin;

/// Where a range goes.
#[derive(Clone, Copy, Debug, PartialEq, Eq)]
pub enum Shift {
    /// So many bytes earlier. What stands before the new start counts as there.
    Earlier(u32),
    /// So many bytes later.
    Later(u32),
}

impl Span {
    /// The range, elsewhere. It takes no memory: `Memory` means that the new numbers don't fit.
    pub fn shifted(self, shift: Shift) -> Result<Span, Memory>
        ensures { IfOk result (λ span. span ≡ shifted_span shift self) }
    {
        let by = match shift {
            Shift::Earlier(by) => {
                return Ok(Span {
                    from: self.from.saturating_sub(by),
                    to: self.to.saturating_sub(by),
                });
            }
            Shift::Later(by) => by,
        };
        let Some(from) = self.from.checked_add(by) else {
            return Err(Memory);
        };
        let Some(to) = self.to.checked_add(by) else {
            return Err(Memory);
        };
        Ok(Span { from, to })
    }
}

impl Node {
    /// A copy that stands elsewhere, with each range.
    pub fn copy_shifted(&self, shift: Shift) -> Result<Node, Memory>
        ensures { IfOk result (λ node. node ≡ shifted shift self.now) }
    {
        let span = self.span.shifted(shift)?;
        let text = self.text.copy()?;
        let mut kids = List::new(self.kids.alloc());
        for kid in self.kids.as_slice() {
            kids.push(kid.copy_shifted(shift)?)?;
        }
        Ok(Node {
            kind: self.kind,
            text,
            kids,
            span,
        })
    }
}
