//! Comparisons of numbers, which a condition puts on metavariables.

use crate::boxed::Boxed;
use crate::same::Same;
use node_tree::{List, Memory, Text, Twin};

/// How two neighbours in a chain compare.
#[derive(Clone, Copy, Debug, PartialEq, Eq)]
pub enum CompareOp {
    Less,
    LessEqual,
    Greater,
    GreaterEqual,
    Equal,
    NotEqual,
}

/// An operation on two numbers. `Divide` and `Remainder` round down.
#[derive(Clone, Copy, Debug, PartialEq, Eq)]
pub enum ArithOp {
    Plus,
    Minus,
    Times,
    Divide,
    Remainder,
}

/// What stands for a number in a comparison.
#[derive(Drop)]
pub enum Amount {
    /// A number as written.
    Number(i128),
    /// `$NAME`: the number that the bound text writes. The name has its `$`.
    Value(Text),
    /// `int($NAME)`: the number that the content of the bound string writes. The name has its `$`.
    Content(Text),
    /// An amount with the other sign.
    Negated(Boxed<Amount>),
    /// An operation on two amounts, the left one first.
    Arith(ArithOp, Boxed<Amount>, Boxed<Amount>),
}

/// A truth about numbers.
#[derive(Drop)]
pub enum Comparison {
    Or(Boxed<Comparison>, Boxed<Comparison>),
    And(Boxed<Comparison>, Boxed<Comparison>),
    Not(Boxed<Comparison>),
    /// Amounts with an operator between each two neighbours. A chain that was read has at least one operator, and one amount
    /// more than operators. A chain of another shape is false.
    Chain(List<Amount>, List<CompareOp>),
}

impl Same for CompareOp {
    fn same(&self, other: &CompareOp) -> bool {
        *self == *other
    }
}

impl Twin for CompareOp {
    fn copy(&self) -> Result<CompareOp, Memory> {
        Ok(*self)
    }
}

impl Same for Amount {
    fn same(&self, other: &Amount) -> bool {
        match (self, other) {
            (Amount::Number(a), Amount::Number(b)) => *a == *b,
            (Amount::Value(a), Amount::Value(b)) => a.is_same(b),
            (Amount::Content(a), Amount::Content(b)) => a.is_same(b),
            (Amount::Negated(a), Amount::Negated(b)) => a.get().same(b.get()),
            (Amount::Arith(f, a, b), Amount::Arith(g, c, d)) => {
                *f == *g && a.get().same(c.get()) && b.get().same(d.get())
            }
            _ => false,
        }
    }
}

impl Twin for Amount {
    fn copy(&self) -> Result<Amount, Memory> {
        match self {
            Amount::Number(number) => Ok(Amount::Number(*number)),
            Amount::Value(name) => Ok(Amount::Value(name.copy()?)),
            Amount::Content(name) => Ok(Amount::Content(name.copy()?)),
            Amount::Negated(a) => Ok(Amount::Negated(Boxed::new(a.alloc(), a.get().copy()?)?)),
            Amount::Arith(op, a, b) => {
                let left = Boxed::new(a.alloc(), a.get().copy()?)?;
                let right = Boxed::new(b.alloc(), b.get().copy()?)?;
                Ok(Amount::Arith(*op, left, right))
            }
        }
    }
}

impl Same for Comparison {
    fn same(&self, other: &Comparison) -> bool {
        match (self, other) {
            (Comparison::Or(a, b), Comparison::Or(c, d)) => {
                a.get().same(c.get()) && b.get().same(d.get())
            }
            (Comparison::And(a, b), Comparison::And(c, d)) => {
                a.get().same(c.get()) && b.get().same(d.get())
            }
            (Comparison::Not(a), Comparison::Not(b)) => a.get().same(b.get()),
            (Comparison::Chain(amounts, ops), Comparison::Chain(others, more)) => {
                amounts.same(others) && ops.same(more)
            }
            _ => false,
        }
    }
}

impl Twin for Comparison {
    fn copy(&self) -> Result<Comparison, Memory> {
        match self {
            Comparison::Or(a, b) => {
                let left = Boxed::new(a.alloc(), a.get().copy()?)?;
                let right = Boxed::new(b.alloc(), b.get().copy()?)?;
                Ok(Comparison::Or(left, right))
            }
            Comparison::And(a, b) => {
                let left = Boxed::new(a.alloc(), a.get().copy()?)?;
                let right = Boxed::new(b.alloc(), b.get().copy()?)?;
                Ok(Comparison::And(left, right))
            }
            Comparison::Not(a) => Ok(Comparison::Not(Boxed::new(a.alloc(), a.get().copy()?)?)),
            Comparison::Chain(amounts, ops) => Ok(Comparison::Chain(amounts.copy()?, ops.copy()?)),
        }
    }
}
