//! Rules.

ghost use Rattle.std.specs.Prelude.{◌≡◌, ◌↔◌, IsTrue};

use crate::formula::Formula;
use crate::same::Same;
use node_tree::{Lang, List, Memory, Pattern, Text, Twin};

/// What carries taint from one metavariable to another.
#[derive(Drop)]
pub struct Propagator {
    pub formula: Formula,
    /// The name that the taint comes from, with its `$`.
    pub source: Text,
    /// The name that the taint goes to, with its `$`.
    pub target: Text,
}

/// Where taint comes from, where it does harm, what ends it, and what carries it on.
#[derive(Drop)]
pub struct TaintRule {
    pub sources: List<Formula>,
    pub sinks: List<Formula>,
    pub sanitizers: List<Formula>,
    pub propagators: List<Propagator>,
}

/// What a part looks for.
#[derive(Drop)]
pub enum Body {
    Search(Formula),
    Taint(TaintRule),
}

/// A rule in one language: its patterns, in reading order, and the body that names them by number.
#[derive(Drop)]
pub struct Part {
    pub lang: Lang,
    pub patterns: List<Pattern>,
    pub body: Body,
}

/// How bad a finding is.
#[derive(Clone, Copy, Debug, PartialEq, Eq)]
pub enum Severity {
    Info,
    Warning,
    Error,
    Low,
    Medium,
    High,
    Critical,
}

/// A rule.
#[derive(Drop)]
pub struct Rule {
    pub id: Text,
    pub message: Text,
    pub severity: Severity,
    pub fix: Option<Text>,
    /// Globs of which one must match a path. Where there are none every path will do.
    pub include: List<Text>,
    /// Globs of which none may match a path.
    pub exclude: List<Text>,
    /// The options that have no meaning here, in written order.
    pub unread: List<Text>,
    /// The regular expressions, each once, in the order of their first uses.
    pub texts: List<Text>,
    /// One part for each language, in written order.
    pub parts: List<Part>,
}

impl Rule {
    /// Whether the two rules are equal in all their parts.
    pub fn same_rule(&self, other: &Rule) -> bool
        ensures { IsTrue result ↔ (self.now ≡ other.now) }
    {
        self.severity == other.severity
            && self.id.is_same(&other.id)
            && self.message.is_same(&other.message)
            && self.fix.same(&other.fix)
            && self.include.same(&other.include)
            && self.exclude.same(&other.exclude)
            && self.unread.same(&other.unread)
            && self.texts.same(&other.texts)
            && self.parts.same(&other.parts)
    }
}

impl Twin for Rule {
    fn copy(&self) -> Result<Rule, Memory> {
        let fix = match &self.fix {
            Some(fix) => Some(fix.copy()?),
            None => None,
        };
        Ok(Rule {
            id: self.id.copy()?,
            message: self.message.copy()?,
            severity: self.severity,
            fix,
            include: self.include.copy()?,
            exclude: self.exclude.copy()?,
            unread: self.unread.copy()?,
            texts: self.texts.copy()?,
            parts: self.parts.copy()?,
        })
    }
}

impl Same for Part {
    fn same(&self, other: &Part) -> bool {
        self.lang == other.lang
            && self.patterns.same(&other.patterns)
            && self.body.same(&other.body)
    }
}

impl Twin for Part {
    fn copy(&self) -> Result<Part, Memory> {
        Ok(Part {
            lang: self.lang,
            patterns: self.patterns.copy()?,
            body: self.body.copy()?,
        })
    }
}

impl Same for Body {
    fn same(&self, other: &Body) -> bool {
        match (self, other) {
            (Body::Search(a), Body::Search(b)) => a.same(b),
            (Body::Taint(a), Body::Taint(b)) => a.same(b),
            _ => false,
        }
    }
}

impl Twin for Body {
    fn copy(&self) -> Result<Body, Memory> {
        match self {
            Body::Search(formula) => Ok(Body::Search(formula.copy()?)),
            Body::Taint(rule) => Ok(Body::Taint(rule.copy()?)),
        }
    }
}

impl Same for TaintRule {
    fn same(&self, other: &TaintRule) -> bool {
        self.sources.same(&other.sources)
            && self.sinks.same(&other.sinks)
            && self.sanitizers.same(&other.sanitizers)
            && self.propagators.same(&other.propagators)
    }
}

impl Twin for TaintRule {
    fn copy(&self) -> Result<TaintRule, Memory> {
        Ok(TaintRule {
            sources: self.sources.copy()?,
            sinks: self.sinks.copy()?,
            sanitizers: self.sanitizers.copy()?,
            propagators: self.propagators.copy()?,
        })
    }
}

impl Same for Propagator {
    fn same(&self, other: &Propagator) -> bool {
        self.source.is_same(&other.source)
            && self.target.is_same(&other.target)
            && self.formula.same(&other.formula)
    }
}

impl Twin for Propagator {
    fn copy(&self) -> Result<Propagator, Memory> {
        Ok(Propagator {
            formula: self.formula.copy()?,
            source: self.source.copy()?,
            target: self.target.copy()?,
        })
    }
}
