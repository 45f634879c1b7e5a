//! The formulas of a list.

ghost use Rattle.std.specs.Prelude.{◌≡◌, map, IfOk};
ghost use Rattle.taint_judge.specs.Lists.{lent, formula_of};

use node_tree::Memory;
use rule_form::{Formula, Propagator};
use std::alloc::Global;

/// The formulas, lent.
pub fn lent_formulas<'t>(alloc: Global, formulas: &'t [Formula]) -> Result<Vec<&'t Formula>, Memory>
    ensures { IfOk result (λ v. lent v.items ≡ formulas.now) }
{
    let mut all = Vec::new(alloc);
    for formula in formulas {
        all.push(formula)?;
    }
    Ok(all)
}

/// The formulas of propagators, lent.
pub fn carrying_formulas<'t>(
    alloc: Global,
    propagators: &'t [Propagator],
) -> Result<Vec<&'t Formula>, Memory>
    ensures { IfOk result (λ v. lent v.items ≡ map formula_of propagators.now) }
{
    let mut all = Vec::new(alloc);
    for propagator in propagators {
        all.push(&propagator.formula)?;
    }
    Ok(all)
}
