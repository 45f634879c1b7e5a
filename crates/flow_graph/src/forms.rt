//! How the flow goes through nodes, by their kinds.

ghost use Rattle.std.specs.Prelude.{◌≡◌};
ghost use Rattle.flow_graph.specs.Outline.{form_by, simple_by, is_row, first_part, part_count};

use flow_edges::Form;
use node_tree::Kind;

/// How the flow goes through a node of a kind.
pub fn form_of(kind: Kind) -> Form
    ensures { result ≡ form_by kind }
{
    match kind {
        Kind::Root => Form::Row,
        Kind::Block => Form::Row,
        Kind::List => Form::Row,
        Kind::If => Form::If,
        Kind::While => Form::Loop,
        Kind::For => Form::Loop,
        Kind::DoWhile => Form::DoWhile,
        Kind::ForC => Form::ForC,
        Kind::With => Form::With,
        Kind::ClassDef => Form::With,
        Kind::Try => Form::Try,
        Kind::Handler => Form::Handler,
        Kind::Switch => Form::Switch,
        Kind::Case => Form::Case,
        Kind::Default => Form::Default,
        Kind::Return => Form::Return,
        Kind::Raise => Form::Raise,
        Kind::Break => Form::Break,
        Kind::Continue => Form::Continue,
        Kind::Goto => Form::Goto,
        kind => simple_form(kind),
    }
}

// The form of what holds no statements and is no jump.
fn simple_form(kind: Kind) -> Form
    ensures { result ≡ simple_by kind }
{
    if kind.is_statement() {
        return Form::Plain;
    }
    Form::Absent
}

/// Whether all kids of a node of a kind are parts.
pub fn is_row(kind: Kind) -> bool
    ensures { result ≡ is_row kind }
{
    match kind {
        Kind::Root => true,
        Kind::Block => true,
        Kind::List => true,
        _ => false,
    }
}

/// The place of the first kid that is a part.
pub fn first_part(kind: Kind) -> usize
    ensures { result ≡ first_part kind }
{
    match kind {
        Kind::If => 1,
        Kind::While => 1,
        Kind::For => 2,
        Kind::With => 1,
        Kind::ClassDef => 3,
        Kind::ForC => 3,
        Kind::Handler => 2,
        Kind::Switch => 1,
        _ => 0,
    }
}

/// How many kids are parts.
pub fn part_count(kind: Kind) -> usize
    ensures { result ≡ part_count kind }
{
    match kind {
        Kind::If => 2,
        Kind::While => 2,
        Kind::For => 2,
        Kind::Try => 4,
        Kind::With => 1,
        Kind::ClassDef => 1,
        Kind::DoWhile => 1,
        Kind::ForC => 1,
        Kind::Handler => 1,
        Kind::Switch => 1,
        _ => 0,
    }
}
