//! Texts of rule files, and which rules they write, or why an entry writes none.

use node_tree::Twin;
use rule_form::{Body, Child, Formula, Rule};
use rule_read::{RuleFaultKind, RuleOutcome, read_rules};
use shown::{parted, same};
use std::alloc::{AllocError, Global};
use std::fmt::Write;
use std::test::Fail;
use yaml_read::read_yaml;

// The front of a rule file with one rule, in which more is written.
const FRONT: &str = "rules:\n- id: p\n  languages: [python]\n  severity: INFO\n  message: m\n";

// Writes a formula: `l` or `r` and a number, `any(..)` or `all(..)`.
fn write_formula(out: &mut String, formula: &Formula) -> Result<(), AllocError> {
    match formula {
        Formula::Leaf(number) => write!(out, "l{number} ")?,
        Formula::Regex(number) => write!(out, "r{number} ")?,
        Formula::Any(formulas) => {
            out.push_str("any( ")?;
            for formula in formulas.as_slice() {
                write_formula(out, formula)?;
            }
            out.push_str(") ")?;
        }
        Formula::All(children) => {
            out.push_str("all( ")?;
            for child in children.as_slice() {
                let inner = match child {
                    Child::Positive(formula) => Some(("+", formula)),
                    Child::Inside(formula) => Some(("in ", formula)),
                    Child::Not(formula) => Some(("not ", formula)),
                    Child::NotInside(formula) => Some(("notin ", formula)),
                    _ => None,
                };
                if let Some((word, formula)) = inner {
                    out.push_str(word)?;
                    write_formula(out, formula)?;
                }
                match child {
                    Child::NotRegex(number) => write!(out, "notr{number} ")?,
                    Child::MetaRegex(name, number) => write!(out, "{}=r{number} ", name.as_str())?,
                    Child::MetaCompare(_) => out.push_str("compare ")?,
                    Child::MetaPattern(name, formula) => {
                        write!(out, "{}=", name.as_str())?;
                        write_formula(out, formula)?;
                    }
                    Child::Focus(names) => {
                        for name in names.as_slice() {
                            write!(out, "{} ", name.as_str())?;
                        }
                    }
                    _ => {}
                }
            }
            out.push_str(") ")?;
        }
    }
    Ok(())
}

// Writes each formula behind a word.
fn write_all(out: &mut String, word: &str, formulas: &[Formula]) -> Result<(), AllocError> {
    for formula in formulas {
        out.push_str(word)?;
        write_formula(out, formula)?;
    }
    Ok(())
}

// Writes a rule: its id, message and severity, what else it has, and each part with the number of its patterns.
fn write_rule(out: &mut String, rule: &Rule) -> Result<(), AllocError> {
    write!(
        out,
        "{} {} {:?} ",
        rule.id.as_str(),
        rule.message.as_str(),
        rule.severity
    )?;
    if let Some(fix) = &rule.fix {
        write!(out, "fix {} ", fix.as_str())?;
    }
    let lists = [
        ("+", &rule.include, ""),
        ("-", &rule.exclude, ""),
        ("?", &rule.unread, ""),
        ("/", &rule.texts, "/"),
    ];
    for (front, texts, back) in lists {
        for text in texts.as_slice() {
            write!(out, "{front}{}{back} ", text.as_str())?;
        }
    }
    for part in rule.parts.as_slice() {
        write!(out, "{:?} {} ", part.lang, part.patterns.len())?;
        for pattern in part.patterns.as_slice() {
            if !pattern.constants {
                out.push_str("plain ")?;
            }
        }
        match &part.body {
            Body::Search(formula) => write_formula(out, formula)?,
            Body::Taint(taint) => {
                write_all(out, "source ", taint.sources.as_slice())?;
                write_all(out, "sink ", taint.sinks.as_slice())?;
                write_all(out, "sanitizer ", taint.sanitizers.as_slice())?;
                for carrier in taint.propagators.as_slice() {
                    let (source, target) = (carrier.source.as_str(), carrier.target.as_str());
                    write!(out, "{source}>{target} ")?;
                    write_formula(out, &carrier.formula)?;
                }
            }
        }
    }
    Ok(())
}

// Writes the copy of a rule, where it is the same rule.
fn write_copy(out: &mut String, rule: &Rule) -> Result<(), AllocError> {
    match rule.copy() {
        Ok(copy) => if copy.same_rule(rule) {
            write_rule(out, &copy)?;
        },
        Err(_) => return Err(AllocError),
    }
    Ok(())
}

// The outcomes of a text, with `;` after each, or why it has no rules.
fn outcomes(alloc: Global, text: &str) -> Result<String, AllocError> {
    let mut out = String::new(alloc);
    if text.len() > 1_000_000 {
        return Ok(out);
    }
    let Ok(value) = read_yaml(alloc, text.as_bytes()) else {
        out.push_str("no value")?;
        return Ok(out);
    };
    match read_rules(alloc, &value) {
        Ok(all) => {
            for outcome in all.as_slice() {
                match outcome {
                    RuleOutcome::Good(rule) => write_copy(&mut out, rule)?,
                    RuleOutcome::Bad(fault) => {
                        let (id, key) = (fault.id.as_str(), fault.key.as_str());
                        write!(out, "{:?} {id} {key}", fault.kind)?;
                    }
                }
                out.push_str(";")?;
            }
        }
        Err(fault) => write!(out, "{fault:?}")?,
    }
    Ok(out)
}

#[test]
fn reads_rules(rt: HostRuntime) -> Result<(), Fail> {
    let rows = [
        "  pattern: f($X)\n ⇒ p m Info Python 1 l0 ;",
        "  pattern: f($X)\n  fix: g($X)\n  paths:\n    include: [a, b]\n    exclude: [c]\n    else: d\n  options:\n    x: 1\n    constant_propagation: false\n    y: 2\n  metadata: z\n  requires: v\n ⇒ p m Info fix g($X) +a +b -c ?x ?y Python 1 plain l0 ;",
        "  pattern-either:\n  - pattern: a\n  - pattern-inside: b\n  - pattern-inside:\n      pattern-regex: c\n ⇒ p m Info /c/ Python 2 any( l0 l1 r0 ) ;",
        "  patterns:\n  - pattern: a\n  - pattern-inside: b\n  - pattern-not: c\n  - pattern-not-inside:\n      pattern: d\n  - pattern-not-regex: e\n ⇒ p m Info /e/ Python 4 all( +l0 in l1 not l2 notin l3 notr0 ) ;",
        "  patterns:\n  - pattern-regex: a\n  - metavariable-regex:\n      regex: b\n      metavariable: $X\n  - pattern-not-regex: a\n  - focus-metavariable: $...X\n  - focus-metavariable: [$X, $_]\n ⇒ p m Info /a/ /b/ Python 0 all( +r0 $X=r1 notr0 $...X $X $_ ) ;",
        "  patterns:\n  - pattern: f($X)\n  - metavariable-pattern:\n      metavariable: $X\n      patterns:\n      - pattern-not: g()\n ⇒ p m Info Python 2 all( +l0 $X=all( not l1 ) ) ;",
        "  mode: taint\n  pattern: (\n  pattern-sinks:\n  - pattern: b\n  pattern-sources:\n  - pattern: a\n  - pattern-either:\n    - pattern: c\n  pattern-sanitizers:\n  - pattern-regex: d\n  pattern-propagators:\n  - pattern: f($A, $B)\n    from: $A\n    to: $B\n ⇒ p m Info /d/ Python 4 source l1 source any( l2 ) sink l0 sanitizer r0 $A>$B l3 ;",
        "  mode: search\n  pattern: a\n  pattern-sources: 1\n  fix: 'b'\n ⇒ p m Info fix b Python 1 l0 ;",
        "  patterns:\n  - pattern: f($X)\n  - metavariable-comparison:\n      metavariable:\n      comparison: $X > 5\n ⇒ p m Info Python 1 all( +l0 compare ) ;",
        "  pattern-either:\n  - {}\n ⇒ no value",
    ];
    for row in rows {
        let (more, wanted) = parted(row);
        let text = format!(in rt.alloc(); "{FRONT}{more}")?;
        same(more, outcomes(rt.alloc(), text.as_str())?.as_str(), wanted)?;
    }
    Ok(())
}

#[test]
fn names_the_first_fault(rt: HostRuntime) -> Result<(), Fail> {
    let rows: [(RuleFaultKind, &[&str]); 6] = [
        (
            RuleFaultKind::MissingKey,
            &[
                "  x: 1\n ⇒ ",
                "  mode: taint\n  pattern: a\n ⇒ .pattern-sources",
                "  mode: taint\n  pattern-sources: 1\n ⇒ .pattern-sinks",
                "  mode: taint\n  pattern-sinks:\n  - pattern: a\n  pattern-sources:\n  - pattern: a\n  pattern-propagators:\n  - pattern: a\n    to: $X\n ⇒ .pattern-propagators.0.from",
                "  patterns:\n  - metavariable-regex:\n      regex: a\n ⇒ .patterns.0.metavariable-regex.metavariable",
                "  patterns:\n  - metavariable-regex:\n      metavariable: $X\n ⇒ .patterns.0.metavariable-regex.regex",
                "  patterns:\n  - metavariable-comparison:\n      metavariable: x\n ⇒ .patterns.0.metavariable-comparison.comparison",
                "  patterns:\n  - metavariable-pattern:\n      pattern: a\n ⇒ .patterns.0.metavariable-pattern.metavariable",
                "  patterns:\n  - metavariable-pattern:\n      metavariable: $X\n ⇒ .patterns.0.metavariable-pattern",
            ],
        ),
        (
            RuleFaultKind::WrongShape,
            &[
                "  pattern: a\n  patterns:\n  - pattern: b\n ⇒ ",
                "  mode: [taint]\n ⇒ .mode",
                "  mode: taint\n  pattern-sources: 1\n  pattern-sinks: 1\n ⇒ .pattern-sources",
                "  mode: taint\n  pattern-sinks: []\n  pattern-sources: 1\n ⇒ .pattern-sinks",
                "  mode: taint\n  pattern-sinks:\n  - pattern: a\n  pattern-sources:\n  - pattern: a\n  pattern-propagators:\n  - pattern: a\n    from: $X\n    to: x\n ⇒ .pattern-propagators.0.to",
                "  pattern: [a]\n ⇒ .pattern",
                "  pattern:\n ⇒ .pattern",
                "  patterns: a\n ⇒ .patterns",
                "  patterns: []\n ⇒ .patterns",
                "  patterns:\n  - pattern-not: a\n ⇒ .patterns",
                "  patterns:\n  - a\n ⇒ .patterns.0",
                "  patterns:\n  - pattern: a\n    pattern-not: b\n ⇒ .patterns.0",
                "  patterns:\n  - pattern-inside: []\n ⇒ .patterns.0.pattern-inside",
                "  patterns:\n  - pattern-not-regex:\n ⇒ .patterns.0.pattern-not-regex",
                "  patterns:\n  - metavariable-regex: a\n ⇒ .patterns.0.metavariable-regex",
                "  patterns:\n  - metavariable-regex:\n      metavariable: x\n      regex: a\n ⇒ .patterns.0.metavariable-regex.metavariable",
                "  patterns:\n  - metavariable-comparison:\n      comparison: [x]\n ⇒ .patterns.0.metavariable-comparison.comparison",
                "  patterns:\n  - metavariable-pattern:\n      metavariable: $X\n      pattern: a\n      pattern-regex: b\n ⇒ .patterns.0.metavariable-pattern",
                "  patterns:\n  - focus-metavariable: []\n ⇒ .patterns.0.focus-metavariable",
                "  patterns:\n  - focus-metavariable: [$X, $x]\n ⇒ .patterns.0.focus-metavariable.1",
                "  patterns:\n  - focus-metavariable: $\n ⇒ .patterns.0.focus-metavariable",
                "  pattern-either: []\n ⇒ .pattern-either",
                "  pattern: a\n  fix:\n ⇒ .fix",
                "  pattern: a\n  paths: []\n  fix: b\n ⇒ .paths",
                "  pattern: a\n  paths:\n    exclude: [[]]\n    include: a\n ⇒ .paths.include",
                "  pattern: a\n  paths:\n    exclude: [[]]\n ⇒ .paths.exclude",
                "  pattern: a\n  options: a\n ⇒ .options",
                "  pattern: a\n  options:\n    constant_propagation: no\n ⇒ .options.constant_propagation",
            ],
        ),
        (
            RuleFaultKind::OutsideProfile,
            &[
                "  mode: 7\n ⇒ .mode",
                "  mode: join\n ⇒ .mode",
                "  mode: taint\n  pattern-sinks:\n  - pattern: a\n    requires: b\n  pattern-sources: 1\n ⇒ .pattern-sinks.0.requires",
                "  patterns:\n  - pattern: a\n    language: b\n    pattern-foo: b\n ⇒ .patterns.0.language",
                "  patterns:\n  - metavariable-comparison:\n      base: 10\n      comparison: 1 < 2\n ⇒ .patterns.0.metavariable-comparison.base",
            ],
        ),
        (
            RuleFaultKind::UnknownKey,
            &[
                "  mode: taint\n  pattern-sinks:\n  - pattern-inside: a\n  pattern-sources: 1\n ⇒ .pattern-sinks.0.pattern-inside",
                "  patterns:\n  - pattern: a\n  - pattern-foo: b\n ⇒ .patterns.1.pattern-foo",
                "  patterns:\n  - pattern-inside:\n      pattern-inside: a\n ⇒ .patterns.0.pattern-inside.pattern-inside",
                "  pattern-either:\n  - pattern-not: a\n ⇒ .pattern-either.0.pattern-not",
            ],
        ),
        (
            RuleFaultKind::BadPattern,
            &[
                "  pattern: 'f('\n  fix: []\n ⇒ .pattern",
                "  pattern: '...'\n ⇒ .pattern",
                "  patterns:\n  - pattern-not: (\n ⇒ .patterns.0.pattern-not",
            ],
        ),
        (
            RuleFaultKind::BadComparison,
            &[
                "  patterns:\n  - pattern: f($X)\n  - metavariable-comparison:\n      comparison: 1 <\n ⇒ .patterns.1.metavariable-comparison.comparison",
            ],
        ),
    ];
    for (kind, texts) in rows {
        for row in texts {
            let (more, key) = parted(*row);
            let text = format!(in rt.alloc(); "{FRONT}{more}")?;
            let wanted = format!(in rt.alloc(); "{kind:?} p rules.0{key};")?;
            same(
                more,
                outcomes(rt.alloc(), text.as_str())?.as_str(),
                wanted.as_str(),
            )?;
        }
    }
    Ok(())
}

#[test]
fn reads_entries_apart(rt: HostRuntime) -> Result<(), Fail> {
    let rows = [
        " ⇒ NoRules",
        "rules: ⇒ NoRules",
        "- rules: [] ⇒ NoRules",
        "rules: [] ⇒ ",
        "rules:\n- a\n- []\n ⇒ WrongShape  rules.0;WrongShape  rules.1;",
        "rules:\n- message: m\n ⇒ MissingKey  rules.0.id;",
        "rules:\n- id:\n ⇒ WrongShape  rules.0.id;",
        "rules:\n- id: ''\n ⇒ WrongShape  rules.0.id;",
        "rules:\n- id: p\n ⇒ MissingKey p rules.0.message;",
        "rules:\n- id: p\n  message: m\n ⇒ MissingKey p rules.0.severity;",
        "rules:\n- id: p\n  message: m\n  severity: Error\n ⇒ WrongShape p rules.0.severity;",
        "rules:\n- id: p\n  message: m\n  severity: LOW\n ⇒ MissingKey p rules.0.languages;",
        "rules:\n- id: p\n  message: m\n  severity: LOW\n  languages: []\n ⇒ WrongShape p rules.0.languages;",
        "rules:\n- id: p\n  message: m\n  severity: LOW\n  languages: [go, go]\n ⇒ WrongShape p rules.0.languages;",
        "rules:\n- id: p\n  message: m\n  severity: LOW\n  languages: [go, []]\n ⇒ WrongShape p rules.0.languages;",
        "rules:\n- id: p\n  message: m\n  severity: LOW\n  languages: [py, c, python]\n ⇒ WrongShape p rules.0.languages;",
        "rules:\n- id: p\n  message: m\n  severity: LOW\n  languages: [py, go, rust]\n ⇒ OutsideProfile p rules.0.languages.1;",
        "rules:\n- id: p\n  message: m\n  severity: HIGH\n  languages: [regex]\n  pattern-regex: a+\n ⇒ p m High /a+/ Regex 0 r0 ;",
        "rules:\n- id: p\n  message: m\n  severity: HIGH\n  languages: [regex]\n  pattern: a\n ⇒ BadPattern p rules.0.pattern;",
        "rules:\n- id: p\n  message: m\n  severity: MEDIUM\n  languages: [py, json]\n  patterns:\n  - pattern: 1\n  - pattern-not-regex: a\n  - pattern-inside: 2\n ⇒ p m Medium /a/ Python 2 all( +l0 notr0 in l1 ) Json 2 all( +l0 notr0 in l1 ) ;",
        "rules:\n- id: p\n  message: m\n  severity: ERROR\n  languages: [json, py]\n  patterns:\n  - pattern: a\n  - pattern: 'f('\n ⇒ BadPattern p rules.0.patterns.0.pattern;",
        "rules:\n- id: p\n  message: m\n- id: p\n  message: m\n  severity: CRITICAL\n  languages: [py]\n  pattern: a\n- id: p\n  message: m\n  severity: WARNING\n  languages: [json]\n  pattern: 1\n- id: p\n  message: m\n  severity: WARNING\n  languages: [json]\n  pattern: '['\n ⇒ MissingKey p rules.0.severity;p m Critical Python 1 l0 ;DuplicateId p rules.2.id;BadPattern p rules.3.pattern;",
    ];
    for row in rows {
        let (text, wanted) = parted(row);
        same(text, outcomes(rt.alloc(), text)?.as_str(), wanted)?;
    }
    Ok(())
}
