//! The levels of the grammar that functions of the reader are told.

/// A level of the grammar of expressions, from which a run is read.
#[derive(Clone, Copy, Debug, PartialEq, Eq)]
pub enum PyLevel {
    Exprs,
    Star,
    Named,
    Test,
    Or,
    And,
    Not,
    Cmp,
    Bor,
    Unary,
    Power,
    Await,
    Prim,
    Atom,
    Yield,
    /// Targets of an assignment or a loop, as `Exprs` without tests.
    Targs,
    /// One item of `Targs`.
    Target,
    /// Parameters with their annotations.
    Params,
    /// Arguments, of which there is at least one.
    Args,
}

/// The levels of operators with two operands that are read from the left.
#[derive(Clone, Copy, Debug, PartialEq, Eq)]
pub enum Binary {
    Or,
    And,
    Bar,
    Caret,
    Ampersand,
    Shift,
    Sign,
    Factor,
}

/// Where an item with commas stands.
#[derive(Clone, Copy, Debug, PartialEq, Eq)]
pub enum Place {
    /// In a tuple without parentheses, or behind a starred item.
    Star,
    /// In parentheses or brackets, where a comprehension may begin.
    Item,
    Target,
    /// In the brackets of a subscript.
    Piece,
    Arg,
    /// The first argument, behind which a comprehension may begin.
    FirstArg,
    Param,
    LambdaParam,
}
