//! The names on which a rule focuses.

ghost use Rattle.rule_keys.specs.Misfits.{Fits};
ghost use Rattle.rule_keys.specs.Values as values;
ghost use Rattle.rule_keys.specs.Focus as spec;

use crate::stop::{Stop, within_item};
use crate::value::{list_of, some_items, whole_name};
use node_tree::{List, Text};
use std::alloc::Global;
use yaml_cells::YValue;

/// The name that a value must be, as a text of its own.
fn name(alloc: Global, value: &YValue) -> Result<Text, Stop>
    ensures { Fits (λ t. t) (values.whole_name value.now) result }
{
    let name = whole_name(alloc, value)?;
    let name = Text::from_str(alloc, name)?;
    Ok(name)
}

/// The names that the items of a list must be.
fn names(alloc: Global, items: &[YValue]) -> Result<List<Text>, Stop>
    ensures { Fits (λ l. l) (spec.names_from 0 items.now) result }
{
    let mut all = List::new(alloc);
    for (place, item) in items.iter().enumerate() {
        let name = within_item(alloc, place, name(alloc, item))?;
        all.push(name)?;
    }
    Ok(all)
}

/// The value of `focus-metavariable`: a name, or a list of some.
pub fn focus(alloc: Global, value: &YValue) -> Result<List<Text>, Stop>
    ensures { Fits (λ l. l) (spec.focus value.now) result }
{
    if let Some(items) = list_of(value) {
        let items = some_items(alloc, items)?;
        return names(alloc, items);
    }
    let name = name(alloc, value)?;
    let mut all = List::new(alloc);
    all.push(name)?;
    Ok(all)
}
