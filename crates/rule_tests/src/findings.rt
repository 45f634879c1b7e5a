//! Rules and files, and what the rules find there.

ghost use Rattle.std.specs.Prelude.{◌≡◌, ◌<◌, All, IfOk};
ghost use Rattle.tree_match.specs.Placed.{IsLeafPlaced};

use file_match::match_leaf;
use judge_file::{FoundNotice, Opened, judge, open_file};
use node_tree::{Bytes, FileView, List, Memory, Pattern, Steps, Text};
use rule_form::Rule;
use rule_read::{RuleOutcome, read_rules};
use rx_text::{BuildFault, Patterns, RealPatterns, Rx};
use shown::{parted, repeated, same, write_trees};
use std::alloc::Global;
use std::fmt::Write;
use std::marker::Brand;
use std::slice;
use std::sync::ledger::{Blank, Ledger};
use std::test::Fail;
use tree_match::Leaf;
use yaml_read::read_yaml;

// A hundred characters.
const HUNDRED: &str =
    "####################################################################################################";

/// The rule of a language and a formula, if it is one.
pub fn rule_of(alloc: Global, lang: &str, formula: &str) -> Result<Option<Rule>, Memory> {
    let text = format!(in alloc;
        "rules:\n- id: p\n  languages: [{lang}]\n  severity: INFO\n  message: m\n{formula}"
    )?;
    if text.len() > 1_000_000 {
        return Ok(None);
    }
    let Ok(value) = read_yaml(alloc, text.as_bytes()) else {
        return Ok(None);
    };
    let Ok(mut rules) = read_rules(alloc, &value) else {
        return Ok(None);
    };
    match rules.pop() {
        Some(RuleOutcome::Good(rule)) => Ok(Some(rule)),
        _ => Ok(None),
    }
}

/// The regular expressions of these texts, but for those that are none.
pub fn built(alloc: Global, texts: &[Text]) -> Result<List<Rx>, Memory> {
    let mut patterns = RealPatterns::new(alloc);
    let mut rx = List::new(alloc);
    for text in texts {
        match patterns.build(text.as_str()) {
            Ok(one) => rx.push(one)?,
            Err(BuildFault::Memory) => return Err(Memory),
            Err(BuildFault::Refused) => {}
        }
    }
    Ok(rx)
}

/// The members of the patterns in the file.
pub fn leaves_of<L: Ledger>(
    alloc: Global,
    view: &FileView,
    patterns: &[Pattern],
    steps: &mut Steps<L>,
) -> Result<List<Leaf>, Memory>
    ensures { IfOk result (λ leaves. All (λ leaf. IsLeafPlaced view.now.bytes leaf) leaves) }
{
    let mut leaves = List::new(alloc);
    for pattern in patterns {
        leaves.push(match_leaf(alloc, view, pattern, steps)?)?;
    }
    Ok(leaves)
}

// What the first part of a rule finds in a file of its language: a line for each finding, with the range, the names and the range
// that its data comes from, or the notice. Before them comes the tree of a file that can only be searched.
fn found<L: Ledger>(
    alloc: Global,
    blank: Blank,
    rule: &Rule,
    bytes: &[u8],
) -> Result<String, Memory>
    requires name { blank.name ≡ L.name }
    requires parts { blank.parts ≡ L.parts }
    requires some { 0 < L.parts }
{
    let mut lines = String::new(alloc);
    if rule.parts.is_empty() {
        return Ok(lines);
    }
    let part = &rule.parts.as_slice()[0];
    let mut steps = Steps::<L>::new(blank);
    let bytes = Bytes::from_slice(alloc, bytes)?;
    let view = match open_file(alloc, part.lang, bytes, &mut steps)? {
        Opened::TooLarge => return Ok(String::from_str(alloc, "too large")?),
        Opened::NotUtf8 => return Ok(String::from_str(alloc, "not UTF-8")?),
        Opened::NoTree(view) => {
            write!(lines, "{:?} ", view.lang)?;
            write_trees(&mut lines, slice::from_ref(&view.tree), true)?;
            lines.push_str("\n")?;
            view
        }
        Opened::Read(view) => view,
    };
    let leaves = leaves_of(alloc, &view, part.patterns.as_slice(), &mut steps)?;
    let mut rx = built(alloc, rule.texts.as_slice())?;
    let found = judge(alloc, &view, rule, 0, &leaves, &mut rx)?;
    for finding in found.findings() {
        write!(lines, "{}..{}", finding.span.from, finding.span.to)?;
        for bound in finding.binding.bounds() {
            let (name, span) = (bound.name.as_str(), bound.span);
            write!(lines, " {name}={}..{}", span.from, span.to)?;
        }
        if let Some(source) = finding.source {
            write!(lines, " from {}..{}", source.from, source.to)?;
        }
        lines.push_str("\n")?;
    }
    match found.notice() {
        None => {}
        Some(FoundNotice::Crowded(numbers)) => write!(lines, "crowded '{numbers}'")?,
        Some(FoundNotice::FlowTooLarge(at)) => write!(lines, "too large {at}")?,
    }
    Ok(lines)
}

// What a rule of that language and formula finds in a text.
fn found_in(alloc: Global, lang: &str, formula: &str, text: &str) -> Result<String, Fail> {
    let rule = rule_of(alloc, lang, formula)?.ok_or("no rule")?;
    Ok(found::<Brand>(alloc, Blank::new(1), &rule, text.as_bytes())?)
}

// The language, the formula, the text and what is found there.
#[test]
fn finds_members(rt: HostRuntime) -> Result<(), Fail> {
    let rows = [
        // What a file is.
        "c ⇒   pattern-regex: int\n ⇒ int main( {\n ⇒ Regex Root 0..12\n0..3\n",
        "c ⇒   pattern-regex: int\n ⇒ int main(void) {}\n ⇒ 0..3\n",
        "python ⇒   pattern: f($X)\n ⇒ f(\n ⇒ Regex Root 0..3\n",
        "json ⇒   pattern: 1\n ⇒  ⇒ Regex Root 0..0\n",
        "regex ⇒   pattern-regex: f\n ⇒ f(\n ⇒ 0..1\n",
        // One pattern or regular expression.
        "python ⇒   pattern: f($X)\n ⇒ f(1)\n ⇒ 0..4 $X=2..3\n",
        "python ⇒   pattern: f($X)\n ⇒ f(f(1))\nf(2)\ng(3)\n ⇒ 0..7 $X=2..6\n2..6 $X=4..5\n8..12 $X=10..11\n",
        "regex ⇒   pattern-regex: a+\n ⇒ caab ⇒ 1..3\n",
        "json ⇒   pattern-regex: a+\n ⇒ [\"caab\"] ⇒ 3..5\n",
        "python ⇒   pattern-either:\n  - pattern: a\n  - pattern: b\n  - patterns:\n    - pattern-not: c\n    - pattern: f($X)\n ⇒ f(1)\n ⇒ 0..4 $X=2..3\n",
        // Ranges of all patterns, in whatever order.
        "json ⇒   patterns:\n  - pattern: '[..., $X, ...]'\n  - pattern: '[1, ...]'\n ⇒ [[1,2],[1]] ⇒ 1..6 $X=1..6\n1..6 $X=2..3\n1..6 $X=4..5\n1..6 $X=7..10\n7..10 $X=1..6\n7..10 $X=7..10\n7..10 $X=8..9\n",
        "json ⇒   patterns:\n  - pattern: '[1, ...]'\n  - pattern: '[..., $X, ...]'\n ⇒ [[1,2],[1]] ⇒ 1..6 $X=1..6\n1..6 $X=2..3\n1..6 $X=4..5\n1..6 $X=7..10\n7..10 $X=1..6\n7..10 $X=7..10\n7..10 $X=8..9\n",
        // What other patterns take away.
        "json ⇒   patterns:\n  - pattern: $X\n  - pattern-inside: '[..., $Y, ...]'\n ⇒ {\"k\":[1,\"s\"]} ⇒ 5..12 $X=5..12 $Y=6..7\n5..12 $X=5..12 $Y=8..11\n6..7 $X=6..7 $Y=6..7\n6..7 $X=6..7 $Y=8..11\n8..11 $X=8..11 $Y=6..7\n8..11 $X=8..11 $Y=8..11\n",
        "json ⇒   patterns:\n  - pattern: $X\n  - pattern-not: '\"...\"'\n ⇒ {\"k\":[1,\"s\"]} ⇒ 0..13 $X=0..13\n5..12 $X=5..12\n6..7 $X=6..7\n",
        "json ⇒   patterns:\n  - pattern: $X\n  - pattern-not-inside: '[..., $Y, ...]'\n ⇒ {\"k\":[1,\"s\"]} ⇒ 0..13 $X=0..13\n1..4 $X=1..4\n",
        // Conditions and the focus.
        "json ⇒   patterns:\n  - pattern: '[..., $Y, ...]'\n  - focus-metavariable: $Y\n ⇒ {\"k\":[1,\"s\"]} ⇒ 6..7 $Y=6..7\n8..11 $Y=8..11\n",
        "json ⇒   patterns:\n  - pattern: '[..., $Y, ...]'\n  - metavariable-pattern:\n      metavariable: $Y\n      pattern: '\"...\"'\n ⇒ {\"k\":[1,\"s\"]} ⇒ 5..12 $Y=8..11\n",
        "json ⇒   patterns:\n  - pattern: '[..., $Y, ...]'\n  - metavariable-pattern:\n      metavariable: $Y\n      patterns:\n      - pattern-not: '\"...\"'\n ⇒ {\"k\":[1,\"s\"]} ⇒ 5..12 $Y=6..7\n",
        "json ⇒   patterns:\n  - pattern: '[..., $Y, ...]'\n  - metavariable-comparison:\n      comparison: $Y > 0\n ⇒ {\"k\":[1,\"s\"]} ⇒ 5..12 $Y=6..7\n",
        // Regular expressions.
        "json ⇒   patterns:\n  - pattern: $X\n  - pattern-regex: '[0-9],'\n ⇒ {\"k\":[1,\"s\"]} ⇒ 6..7 $X=6..7\n6..8 $X=0..13\n6..8 $X=5..12\n",
        "json ⇒   patterns:\n  - pattern: $X\n  - pattern-inside:\n      pattern-regex: '\"[a-z]\"'\n ⇒ {\"k\":[1,\"s\"]} ⇒ 1..4 $X=1..4\n8..11 $X=8..11\n",
        "json ⇒   patterns:\n  - pattern: $X\n  - pattern-not-regex: s\n ⇒ {\"k\":[1,\"s\"]} ⇒ 1..4 $X=1..4\n6..7 $X=6..7\n",
        "json ⇒   patterns:\n  - pattern: $X\n  - pattern-not-regex: '1,|k\":'\n ⇒ {\"k\":[1,\"s\"]} ⇒ 8..11 $X=8..11\n",
        "json ⇒   patterns:\n  - pattern: '[..., $Y, ...]'\n  - metavariable-pattern:\n      metavariable: $Y\n      patterns:\n      - pattern-not-regex: '1'\n ⇒ {\"k\":[1,\"s\"]} ⇒ 5..12 $Y=8..11\n",
        "json ⇒   patterns:\n  - pattern: '[..., $Y, ...]'\n  - metavariable-regex:\n      metavariable: $Y\n      regex: '^[0-9]$'\n ⇒ {\"k\":[1,\"s\"]} ⇒ 5..12 $Y=6..7\n",
        "json ⇒   patterns:\n  - pattern: '[..., $Y, ...]'\n  - metavariable-regex:\n      metavariable: $Y\n      regex: '\"s\"$'\n ⇒ {\"k\":[1,\"s\"]} ⇒ 5..12 $Y=8..11\n",
        "json ⇒   patterns:\n  - pattern: '[..., $Y, ...]'\n  - metavariable-regex:\n      metavariable: $Y\n      regex: s\n ⇒ {\"k\":[1,\"s\"]} ⇒ ",
        "json ⇒   patterns:\n  - pattern: '[..., $Y, ...]'\n  - metavariable-regex:\n      metavariable: $Y\n      regex: ''\n ⇒ {\"k\":[1,\"s\"]} ⇒ 5..12 $Y=6..7\n5..12 $Y=8..11\n",
        "json ⇒   patterns:\n  - pattern: '[..., $Y, ...]'\n  - metavariable-regex:\n      metavariable: $X\n      regex: ''\n ⇒ {\"k\":[1,\"s\"]} ⇒ ",
        "python ⇒   patterns:\n  - pattern: f($X)\n  - pattern-not-regex: '2'\n ⇒ f(1)\nf(2)\n ⇒ 0..4 $X=2..3\n",
        // Data that is followed: one finding for each member of the sinks, with the first source.
        "python ⇒   mode: taint\n  pattern-sources:\n  - pattern: b()\n  - pattern: a()\n  pattern-sinks:\n  - pattern: f($X)\n  - pattern: f(...)\n  - pattern: f($X)\n ⇒ x = a() + b()\nf(x)\nf(y)\n ⇒ 14..18 from 4..7\n14..18 $X=16..17 from 4..7\n",
        "python ⇒   mode: taint\n  pattern-sources:\n  - pattern: $S.get\n  pattern-sinks:\n  - pattern: f($X)\n  pattern-sanitizers:\n  - pattern: int(...)\n ⇒ x = s.get\nf(int(x))\nf(x)\n ⇒ 20..24 $X=22..23 from 4..9\n",
        "regex ⇒   mode: taint\n  pattern-sources:\n  - pattern-regex: a\n  pattern-sinks:\n  - pattern-regex: b\n ⇒ ab ⇒ ",
    ];
    for row in rows {
        let (lang, rest) = parted(row);
        let (formula, rest) = parted(rest);
        let (text, wanted) = parted(rest);
        same(
            row,
            found_in(rt.alloc(), lang, formula, text)?.as_str(),
            wanted,
        )?;
    }
    Ok(())
}

// The language, the formula, what is found or how many lines are, and the text. A set of more than 10,000 members is named by
// the numbers that lead to it.
#[test]
fn keeps_to_its_limits(rt: HostRuntime) -> Result<(), Fail> {
    let rows: [(&str, &[(u32, &str)]); 12] = [
        ("regex ⇒   pattern-regex: f\n ⇒ ", &[(10_000, HUNDRED)]),
        (
            "regex ⇒   pattern-regex: f\n ⇒ too large",
            &[(10_000, HUNDRED), (1, "#")],
        ),
        (
            "python ⇒   pattern: f($X)\n ⇒ too large",
            &[(10_000, HUNDRED), (1, "#")],
        ),
        (
            "json ⇒   pattern: 0\n ⇒ 10000 lines",
            &[(1, "[0"), (9_999, ",0"), (1, "]")],
        ),
        (
            "json ⇒   pattern: 0\n ⇒ crowded ''",
            &[(1, "[0"), (10_000, ",0"), (1, "]")],
        ),
        (
            "json ⇒   pattern-either:\n  - pattern: 1\n  - pattern: 2\n  - patterns:\n    - pattern-not: 3\n    - pattern: 0\n ⇒ crowded '2.1'",
            &[(1, "[0"), (10_000, ",0"), (1, "]")],
        ),
        (
            "json ⇒   patterns:\n  - pattern: $X\n  - pattern: $Y\n ⇒ 10000 lines",
            &[(100, "["), (100, "]")],
        ),
        (
            "json ⇒   patterns:\n  - pattern: $X\n  - pattern: $Y\n ⇒ crowded '1'",
            &[(101, "["), (101, "]")],
        ),
        (
            "json ⇒   patterns:\n  - pattern: $X\n  - pattern-regex: a\n ⇒ 10000 lines",
            &[(1, "\""), (10_000, "a"), (1, "\"")],
        ),
        (
            "json ⇒   patterns:\n  - pattern: $X\n  - pattern-regex: a\n ⇒ crowded '1'",
            &[(1, "\""), (10_001, "a"), (1, "\"")],
        ),
        (
            "json ⇒   patterns:\n  - pattern: $X\n  - pattern-not-regex: a\n ⇒ ",
            &[(1, "\""), (10_001, "a"), (1, "\"")],
        ),
        (
            "json ⇒   patterns:\n  - pattern: 1\n  - pattern-inside: '[..., $Y, ...]'\n ⇒ 4970 lines",
            &[(1, "[[1]"), (69, ",[1]"), (1, "]")],
        ),
    ];
    for (row, pieces) in rows {
        let (lang, rest) = parted(row);
        let (formula, wanted) = parted(rest);
        let text = repeated(rt.alloc(), pieces)?;
        let mut found = found_in(rt.alloc(), lang, formula, text.as_str())?;
        let count = found.as_str().lines().count();
        if count > 1 {
            found = format!(in rt.alloc(); "{count} lines")?;
        }
        same(row, found.as_str(), wanted)?;
    }
    Ok(())
}

// The lists of a rule and what is found in a file of 10,001 zeros: the list and the numbers that lead to the first set of more
// than 10,000 members.
#[test]
fn names_the_list_of_a_set(rt: HostRuntime) -> Result<(), Fail> {
    let rows = [
        "  mode: taint\n  pattern-sinks:\n  - pattern: 0\n  pattern-sources:\n  - pattern: 1\n  - pattern-either:\n    - pattern: 1\n    - pattern: 0\n ⇒ crowded 'sources.1.1'",
        "  mode: taint\n  pattern-sources:\n  - pattern: 1\n  pattern-sanitizers:\n  - pattern: 0\n  pattern-sinks:\n  - pattern: 2\n  - pattern: 0\n ⇒ crowded 'sinks.1'",
        "  mode: taint\n  pattern-sources:\n  - pattern: 1\n  pattern-propagators:\n  - pattern: 0\n    from: $X\n    to: $X\n  pattern-sanitizers:\n  - pattern: 0\n  pattern-sinks:\n  - pattern: 2\n ⇒ crowded 'sanitizers.0'",
        "  mode: taint\n  pattern-sources:\n  - pattern: 1\n  pattern-propagators:\n  - pattern: 0\n    from: $X\n    to: $X\n  pattern-sinks:\n  - pattern: 2\n ⇒ crowded 'propagators.0'",
    ];
    let text = repeated(rt.alloc(), &[(1, "[0"), (10_000, ",0"), (1, "]")])?;
    for row in rows {
        let (formula, wanted) = parted(row);
        let found = found_in(rt.alloc(), "json", formula, text.as_str())?;
        same(row, found.as_str(), wanted)?;
    }
    Ok(())
}
