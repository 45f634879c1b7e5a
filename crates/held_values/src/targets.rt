//! What the value of a name before a point gives to names after it.

ghost use Rattle.std.specs.Prelude.{◌≡◌, ◌⊎◌, ◌↔◌, ◌<◌, ◌^◌, ℕ, Some, IfOk, OnOk, IsTrue};
ghost use Rattle.graph_form.specs.Sets.{Among};
ghost use Rattle.held_values.specs.declared.targets.Target.{Target as target_of};
ghost use Rattle.held_values.specs.Merged.{IsIndex, Concerns, Gives, Turns, GivesAt, IsToAt};

use crate::assign::{Assign, Source};
use crate::merged::Merged;
use flow_reach::only_seconds;
use node_tree::Memory;

/// A name, and a value that it gets.
#[derive(Clone, Copy)]
pub struct Target {
    pub name: u32,
    pub value: u32,
}

// What an assignment gives, where the name has this value.
fn given(assign: Assign, name: u32, value: u32) -> Option<Target>
    ensures { (target : target_of) → (result ≡ Some target) ↔ Gives assign name value target.name target.value }
{
    match assign.source {
        Source::Sets(set) => {
            if assign.name != name {
                return None;
            }
            Some(Target { name, value: set })
        }
        Source::Copies(other) => {
            if other != name {
                return None;
            }
            Some(Target {
                name: assign.name,
                value,
            })
        }
    }
}

// Lists what an assignment gives, where the name has this value.
fn push_given(
    assign: Assign,
    name: u32,
    value: u32,
    targets: &mut Vec<Target>,
) -> Result<(), Memory>
    ensures { OnOk result ((target : target_of) → Among targets.new.items target ↔
        (Among targets.old.items target ⊎ Gives assign name value target.name target.value)) }
{
    if let Some(target) = given(assign, name, value) {
        targets.push(target)?;
    }
    Ok(())
}

impl Merged {
    // Lists what the assignments at these places give, where the name has this value.
    fn give(
        &self,
        name: u32,
        value: u32,
        places: &[u32],
        targets: &mut Vec<Target>,
    ) -> Result<(), Memory>
        requires { (place : ℕ) → Among places.now place → Concerns self.now.assigns.items name place }
        ensures { OnOk result ((target : target_of) → Among targets.new.items target ↔
            (Among targets.old.items target ⊎ GivesAt self.now.assigns.items places.now name value target.name target.value)) }
    {
        for place in places {
            push_given(self.assigns[*place as usize], name, value, targets)?;
        }
        Ok(())
    }

    // Whether one of the assignments at these places is to the name.
    fn assigns_to(&self, name: u32, places: &[u32]) -> bool
        requires { (place : ℕ) → Among places.now place → Concerns self.now.assigns.items name place }
        ensures { IsTrue result ↔ IsToAt self.now.assigns.items places.now name }
    {
        for place in places {
            if self.assigns[*place as usize].name == name {
                return true;
            }
        }
        false
    }

    /// The names that get a value where the name has this one before the point, with their values, and no others.
    pub fn targets(
        &self,
        name: u32,
        value: u32,
        places: &mut Vec<u32>,
        targets: &mut Vec<Target>,
    ) -> Result<(), Memory>
        requires { IsIndex self.now.assigns.items self.now.index.items }
        ensures { OnOk result ((target : target_of) → Among targets.new.items target ↔
            Turns self.now.assigns.items name value target.name target.value) }
    {
        targets.clear();
        only_seconds(&self.index, name as u64, places)?;
        self.give(name, value, places, targets)?;
        if !self.assigns_to(name, places) {
            targets.push(Target { name, value })?;
        }
        Ok(())
    }
}
