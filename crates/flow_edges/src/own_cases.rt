//! The cases of a switch.

ghost use Rattle.std.specs.Prelude.{OnOk};
ghost use Rattle.std.specs.List.{flat_map};
ghost use Rattle.flow_edges.specs.Flow.{kids_of, form_of, cases, cases_by};
ghost use Rattle.flow_edges.specs.Grows.{AddsCases};

use crate::parts::head_of;
use crate::statement::{Form, Statement};
use graph_form::Point;
use node_tree::{List, Memory};

/// The points of Case and Default, and whether there is a Default.
#[derive(Drop)]
pub struct Cases {
    pub heads: List<Point>,
    pub default: bool,
}

// The Case and Default of a Switch's own, in a statement.
#[cycle(cases)]
fn cases_of(depth: u32, statement: &Statement, found: &mut Cases) -> Result<(), Memory>
    ensures { OnOk result (AddsCases found.old found.new (cases depth statement.now)) }
{
    if depth == 0 {
        return Ok(());
    }
    cases_over(depth - 1, statement, found)
}

#[cycle(cases)]
fn cases_over(depth: u32, statement: &Statement, found: &mut Cases) -> Result<(), Memory>
    ensures { OnOk result (AddsCases found.old found.new (cases_by (flat_map (cases depth) (kids_of statement.now)) statement.now (form_of statement.now))) }
{
    match statement.form {
        Form::Case => found.heads.push(head_of(statement)),
        Form::Default => {
            found.heads.push(head_of(statement))?;
            found.default = true;
            Ok(())
        }
        Form::Switch => Ok(()),
        _ => cases_each(depth, statement.kids.as_slice(), found),
    }
}

#[cycle(cases)]
pub fn cases_each(depth: u32, statements: &[Statement], found: &mut Cases) -> Result<(), Memory>
    ensures { OnOk result (AddsCases found.old found.new (flat_map (cases depth) statements.now)) }
{
    for statement in statements {
        cases_of(depth, statement, found)?;
    }
    Ok(())
}
