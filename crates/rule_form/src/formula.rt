//! Formulas over patterns and regular expressions.

ghost use Rattle.std.specs.Prelude.{◌≡◌, ◌↔◌, IsTrue, IfOk};

use crate::comparison::Comparison;
use crate::same::Same;
use node_tree::{List, Memory, Text, Twin};

/// Which ranges of a file match, and with which bindings.
#[cycle(formula)]
#[derive(Drop)]
pub enum Formula {
    /// What the pattern with that number in the part matches, counted from 0.
    Leaf(u32),
    /// The matches of the regular expression with that number in the rule's `texts`, counted from 0.
    Regex(u32),
    /// What some of the formulas match.
    Any(List<Formula>),
    /// What all the children allow.
    All(List<Child>),
}

/// A child of `All`: an operand, what is taken away, a condition, or what is shown in place of the whole range.
#[cycle(formula)]
#[derive(Drop)]
pub enum Child {
    /// The range is one of the formula's.
    Positive(Formula),
    /// The range lies in one of the formula's.
    Inside(Formula),
    /// The range is none of the formula's.
    Not(Formula),
    /// The range lies in none of the formula's.
    NotInside(Formula),
    /// The range shares no byte with a match of the regular expression with that number in `texts`.
    NotRegex(u32),
    /// The text bound to the name has, at its start, a match of the regular expression with that number in `texts`.
    MetaRegex(Text, u32),
    /// The comparison holds.
    MetaCompare(Comparison),
    /// What is bound to the name matches the formula.
    MetaPattern(Text, Formula),
    /// The ranges of the names stand in place of the whole.
    Focus(List<Text>),
}

impl Same for Formula {
    #[cycle(same_formula)]
    fn same(&self, other: &Formula) -> bool {
        match (self, other) {
            (Formula::Leaf(a), Formula::Leaf(b)) => *a == *b,
            (Formula::Regex(a), Formula::Regex(b)) => *a == *b,
            (Formula::Any(a), Formula::Any(b)) => same_formulas(a.as_slice(), b.as_slice()),
            (Formula::All(a), Formula::All(b)) => same_children(a.as_slice(), b.as_slice()),
            _ => false,
        }
    }
}

impl Same for Child {
    #[cycle(same_formula)]
    fn same(&self, other: &Child) -> bool {
        match (self, other) {
            (Child::Positive(a), Child::Positive(b)) => a.same(b),
            (Child::Inside(a), Child::Inside(b)) => a.same(b),
            (Child::Not(a), Child::Not(b)) => a.same(b),
            (Child::NotInside(a), Child::NotInside(b)) => a.same(b),
            (Child::NotRegex(a), Child::NotRegex(b)) => *a == *b,
            (Child::MetaRegex(a, i), Child::MetaRegex(b, j)) => a.is_same(b) && *i == *j,
            (Child::MetaCompare(a), Child::MetaCompare(b)) => a.same(b),
            (Child::MetaPattern(a, f), Child::MetaPattern(b, g)) => a.is_same(b) && f.same(g),
            (Child::Focus(a), Child::Focus(b)) => a.same(b),
            _ => false,
        }
    }
}

#[cycle(same_formula)]
fn same_formulas(a: &[Formula], b: &[Formula]) -> bool
    ensures { IsTrue result ↔ (a.now ≡ b.now) }
{
    if a.len() != b.len() {
        return false;
    }
    for (i, item) in a.iter().enumerate() {
        if !item.same(&b[i]) {
            return false;
        }
    }
    true
}

#[cycle(same_formula)]
fn same_children(a: &[Child], b: &[Child]) -> bool
    ensures { IsTrue result ↔ (a.now ≡ b.now) }
{
    if a.len() != b.len() {
        return false;
    }
    for (i, item) in a.iter().enumerate() {
        if !item.same(&b[i]) {
            return false;
        }
    }
    true
}

impl Twin for Formula {
    #[cycle(copy_formula)]
    fn copy(&self) -> Result<Formula, Memory> {
        match self {
            Formula::Leaf(number) => Ok(Formula::Leaf(*number)),
            Formula::Regex(number) => Ok(Formula::Regex(*number)),
            Formula::Any(formulas) => Ok(Formula::Any(copy_formulas(formulas)?)),
            Formula::All(children) => Ok(Formula::All(copy_children(children)?)),
        }
    }
}

impl Twin for Child {
    #[cycle(copy_formula)]
    fn copy(&self) -> Result<Child, Memory> {
        match self {
            Child::Positive(formula) => Ok(Child::Positive(formula.copy()?)),
            Child::Inside(formula) => Ok(Child::Inside(formula.copy()?)),
            Child::Not(formula) => Ok(Child::Not(formula.copy()?)),
            Child::NotInside(formula) => Ok(Child::NotInside(formula.copy()?)),
            Child::NotRegex(number) => Ok(Child::NotRegex(*number)),
            Child::MetaRegex(name, number) => Ok(Child::MetaRegex(name.copy()?, *number)),
            Child::MetaCompare(comparison) => Ok(Child::MetaCompare(comparison.copy()?)),
            Child::MetaPattern(name, formula) => {
                let name = name.copy()?;
                Ok(Child::MetaPattern(name, formula.copy()?))
            }
            Child::Focus(names) => Ok(Child::Focus(names.copy()?)),
        }
    }
}

#[cycle(copy_formula)]
fn copy_formulas(formulas: &List<Formula>) -> Result<List<Formula>, Memory>
    ensures { IfOk result (λ copies. copies ≡ formulas.now) }
{
    let mut copies = List::new(formulas.alloc());
    for formula in formulas.as_slice() {
        copies.push(formula.copy()?)?;
    }
    Ok(copies)
}

#[cycle(copy_formula)]
fn copy_children(children: &List<Child>) -> Result<List<Child>, Memory>
    ensures { IfOk result (λ copies. copies ≡ children.now) }
{
    let mut copies = List::new(children.alloc());
    for child in children.as_slice() {
        copies.push(child.copy()?)?;
    }
    Ok(copies)
}
