//! What the table of C means in the words of the standard.

ghost use Rattle.c_expr.specs.declared.operators.Precedence.{Precedence as a_precedence};
ghost use Rattle.c_expr.specs.Standard.{IsLine};

/// The row of each of the ten levels of binary operators says just what the standard's line `l = next {op next}` says, with
/// operands taken from the left (C11 6.5.5 to 6.5.14).
pub fn levels_are_lines()
    ensures { (k : a_precedence) → IsLine k }
{}
