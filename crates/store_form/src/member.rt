//! Members that are read.

ghost use Rattle.std.specs.Prelude.{◌≡◌};
ghost use Rattle.store_form.specs.Form.{member_bytes, members_bytes, IsMember, AreMembers};
ghost use Rattle.store_form.specs.Takes.{Gives, Finds};

use crate::fault::FormFault;
use crate::front::Front;
use crate::node::room_for;
use meta_bind::Binding;
use node_tree::{List, Span};
use std::alloc::Global;

impl Front<'_> {
    // Takes a member off the front.
    fn member(&mut self, alloc: Global) -> Result<(Span, Binding), FormFault>
        ensures given { Gives IsMember member_bytes self.old.rest.now result self.new.rest.now }
        ensures found { Finds IsMember member_bytes self.old.rest.now result self.new.rest.now }
    {
        let span = self.span()?;
        let binding = self.binding(alloc)?;
        Ok((span, binding))
    }

    /// Takes so many members off the front, in any order.
    pub fn members(&mut self, alloc: Global, count: u32) -> Result<List<(Span, Binding)>, FormFault>
        ensures given { Gives (AreMembers count) members_bytes
            self.old.rest.now result self.new.rest.now }
        ensures found { Finds (AreMembers count) members_bytes
            self.old.rest.now result self.new.rest.now }
    {
        let mut members = room_for(alloc, count)?;
        for _i in 0..count {
            let member = self.member(alloc)?;
            members.push(member)?;
        }
        members.shrink_to_fit();
        Ok(List::from_vec(members))
    }
}
