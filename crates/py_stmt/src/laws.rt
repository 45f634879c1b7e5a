//! What the table of Python means in the words of the reference.

ghost use Rattle.std.specs.Prelude.{ℕ, List as list};
ghost use Rattle.py_expr.specs.declared.item.Item.{Item as an_item};
ghost use Rattle.py_stmt.specs.Braces.{AreLines};

/// What the table has in braces, going by one token in hand, spells the same tokens as the reference's lines for dictionaries,
/// sets and their comprehensions in braces (Python reference, 6.2.4 to 6.2.7). It doesn't say which nodes they become.
pub fn braces_are_lines()
    ensures { (tokens : list an_item) (from to : ℕ) → AreLines tokens from to }
{}
