//! The operands of `All`.

ghost use Rattle.std.specs.Prelude.{◌≡◌, ℕ, List as list, map, not, length, ◌||◌, IfOk, OnOk};
ghost use Rattle.tree_match.specs.declared.leaf.Leaf.{Leaf as leaf};
ghost use Rattle.range_algebra.specs.Trees.{branch_of, branches_of, has, is_positive, is_inside as inside};
ghost use Rattle.range_algebra.specs.Crowds.{is_operand};
ghost use Rattle.range_algebra.specs.Parts.{AreParts};
ghost use Rattle.range_algebra.specs.Operands.{AddsChild, AreOperands};

use crate::part::Part;
use member_join::{Operand, Role};
use node_tree::Memory;
use rule_form::Child;
use std::alloc::Global;

/// Whether the child is a formula of which the range is one.
#[tactic(auto, using(crate::proofs::Layers::branch_layers))]
pub fn is_plain(child: &Child) -> bool
    ensures { result ≡ is_positive (branch_of child.now) }
{
    match child {
        Child::Positive(_) => true,
        _ => false,
    }
}

/// Whether the child is a formula in which the range lies.
#[tactic(auto, using(crate::proofs::Layers::branch_layers))]
pub fn is_inside(child: &Child) -> bool
    ensures { result ≡ inside (branch_of child.now) }
{
    match child {
        Child::Inside(_) => true,
        _ => false,
    }
}

// Whether the child is an operand with that role.
fn has_role(role: Role, child: &Child) -> bool
    ensures { result ≡ is_operand role (branch_of child.now) }
{
    match role {
        Role::Plain => is_plain(child),
        Role::Inside => is_inside(child),
    }
}

/// Whether there is no operand among the children.
pub fn is_bare(children: &[Child]) -> bool
    ensures { result ≡ not (has is_positive (branches_of (map branch_of children.now)) || has inside (branches_of (map branch_of children.now))) }
{
    for child in children {
        if is_plain(child) || is_inside(child) {
            return false;
        }
    }
    true
}

// Adds the operand of a child with that role.
fn add_operand<'s, 't>(
    role: Role,
    number: usize,
    child: &Child,
    part: &'s Part<'t>,
    operands: &mut Vec<Operand<'s, 't>>,
) -> Result<(), Memory>
    ensures { OnOk result (AddsChild role number (branch_of child.now) part.now operands.old.items operands.new.items) }
{
    if !has_role(role, child) {
        return Ok(());
    }
    if let Part::Members(members) = part {
        operands.push(Operand {
            number,
            members: members.as_slice(),
        })?;
    }
    Ok(())
}

/// The operands with that role among the children, in order.
pub fn operands<'s, 't>(
    alloc: Global,
    role: Role,
    children: &[Child],
    parts: &'s [Part<'t>],
) -> Result<Vec<Operand<'s, 't>>, Memory>
    requires { length parts.now ≡ length children.now }
    ensures { IfOk result (λ v. (leaves : list leaf) (texts : list (list ℕ)) (bytes : list ℕ) → AreParts leaves texts bytes (branches_of (map branch_of children.now)) parts.now → AreOperands leaves texts bytes role 0 (branches_of (map branch_of children.now)) v.items) }
{
    let mut operands = Vec::new(alloc);
    for (number, child) in children.iter().enumerate() {
        add_operand(role, number, child, &parts[number], &mut operands)?;
    }
    Ok(operands)
}
