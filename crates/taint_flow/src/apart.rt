//! Goals of sources' own facts, and goals of names.

ghost use Rattle.std.specs.Prelude.{◌≡◌, ◌⊎◌, ◌↔◌, ◌<◌, IfOk, OnOk};
ghost use Rattle.graph_form.specs.Sets.{Among};
ghost use Rattle.taint_plan.specs.declared.goal.Goal.{Goal as a_goal};
ghost use Rattle.taint_flow.specs.Found.{of_name, AreOwn, AreNamed};

use node_tree::Memory;
use std::alloc::Global;
use taint_plan::Goal;

// Adds the goal, if it is one of the fact of a source, of which there are so many.
fn add_own(sources: u32, goal: Goal, into: &mut Vec<Goal>) -> Result<(), Memory>
    ensures { OnOk result ((g : a_goal) → Among into.new.items g ↔
        (Among into.old.items g ⊎ ((goal ≡ g) × (g.fact < sources)))) }
{
    if goal.fact >= sources {
        return Ok(());
    }
    into.push(goal)?;
    Ok(())
}

/// The goals of the facts of so many sources.
pub fn own_goals(alloc: Global, sources: u32, goals: &[Goal]) -> Result<Vec<Goal>, Memory>
    ensures { IfOk result (λ own. AreOwn sources goals.now own.items) }
{
    let mut own = Vec::new(alloc);
    for goal in goals {
        add_own(sources, *goal, &mut own)?;
    }
    Ok(own)
}

// Adds the goal with the number of its name, if its fact is that of a name.
fn add_named(sources: u32, goal: Goal, into: &mut Vec<Goal>) -> Result<(), Memory>
    ensures { OnOk result ((g : a_goal) → Among into.new.items g ↔
        (Among into.old.items g ⊎ (goal ≡ of_name sources g))) }
{
    if goal.fact < sources {
        return Ok(());
    }
    into.push(Goal {
        sink: goal.sink,
        point: goal.point,
        fact: goal.fact - sources,
    })?;
    Ok(())
}

/// The goals of names, each with the number of its name. The facts of names come after those of so many sources.
pub fn named_goals(alloc: Global, sources: u32, goals: &[Goal]) -> Result<Vec<Goal>, Memory>
    ensures { IfOk result (λ named. AreNamed sources goals.now named.items) }
{
    let mut named = Vec::new(alloc);
    for goal in goals {
        add_named(sources, *goal, &mut named)?;
    }
    Ok(named)
}
