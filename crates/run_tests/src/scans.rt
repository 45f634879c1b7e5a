//! Runs of `scan`.

use crate::runs::{bytes_of, file_of, files_of, outcome};
use node_tree::{Bytes, List, Text};
use rx_text::{FakePatterns, RealPatterns};
use shown::{parted, same};
use std::alloc::Global;
use std::test::Fail;

// A scan of all files by the rules of a file of YAML.
const ALL: &[&str] = &["scan", "--config", "r.yaml", "."];

// The same by a rule file that is no text to search.
const OTHERS: &[&str] = &["scan", "--config", "r.rules", "."];

// A rule that finds the calls of `f`.
const CALLS: &[u8] =
    b"rules:\n- id: p\n  languages: [python]\n  severity: INFO\n  message: m\n  pattern: f($X)\n";

// Reports: of nothing, of a call with one argument in the first line, of a call in the third line, of the second command that a
// program runs, of `a+` in `caab`, and of a call of a name that is imported.
const NOTHING: &str = "{\"notices\":[],\"results\":[]}\n";

const FIRST: &str =
    "{\"notices\":[],\"results\":[{\"check_id\":\"p\",\"end\":{\"col\":5,\"line\":1,\"offset\":4},\"extra\":{\"message\":\"m\",\"metavars\":{\"$X\":[2,3]},\"severity\":\"INFO\"},\"path\":\"a.py\",\"start\":{\"col\":1,\"line\":1,\"offset\":0}}]}\n";

const THIRD: &str =
    "{\"notices\":[],\"results\":[{\"check_id\":\"p\",\"end\":{\"col\":4,\"line\":3,\"offset\":11},\"extra\":{\"message\":\"m\",\"metavars\":{},\"severity\":\"INFO\"},\"path\":\"a.py\",\"start\":{\"col\":1,\"line\":3,\"offset\":8}}]}\n";

const SECOND: &str =
    "{\"notices\":[],\"results\":[{\"check_id\":\"p\",\"end\":{\"col\":13,\"line\":2,\"offset\":28},\"extra\":{\"message\":\"m\",\"metavars\":{\"$C\":[26,27]},\"severity\":\"INFO\"},\"path\":\"a.py\",\"start\":{\"col\":1,\"line\":2,\"offset\":16}}]}\n";

const A_PLUS: &str =
    "{\"notices\":[],\"results\":[{\"check_id\":\"p\",\"end\":{\"col\":4,\"line\":1,\"offset\":3},\"extra\":{\"message\":\"m\",\"metavars\":{},\"severity\":\"INFO\"},\"path\":\"n.txt\",\"start\":{\"col\":2,\"line\":1,\"offset\":1}}]}\n";

const LOAD: &str =
    "{\"notices\":[],\"results\":[{\"check_id\":\"p\",\"end\":{\"col\":11,\"line\":2,\"offset\":29},\"extra\":{\"message\":\"m\",\"metavars\":{},\"severity\":\"INFO\"},\"path\":\"a.py\",\"start\":{\"col\":1,\"line\":2,\"offset\":19}}]}\n";

// How a scan of these files ends, of which these calls fail.
fn scanned(
    alloc: Global,
    words: &[&str],
    files: List<(Text, Bytes)>,
    failing: [u32; 3],
) -> Result<String, Fail> {
    let mut patterns = RealPatterns::new(alloc);
    outcome(
        alloc,
        words,
        files,
        Bytes::new(alloc),
        failing,
        &mut patterns,
    )
}

// The language, the formula of the rule, the path and the text of the file, and the report.
#[test]
fn prints_what_a_rule_finds(rt: HostRuntime) -> Result<(), Fail> {
    let rows = [
        // What all patterns match, whatever their order.
        (
            "python ⇒   patterns:\n  - pattern: |\n      a()\n      ...\n      c()\n  - pattern: |\n      b()\n      ...\n      d()\n  - pattern: c()\n ⇒ a.py ⇒ a()\nb()\nc()\nd()\n",
            THIRD,
        ),
        (
            "python ⇒   patterns:\n  - pattern: c()\n  - pattern: |\n      b()\n      ...\n      d()\n  - pattern: |\n      a()\n      ...\n      c()\n ⇒ a.py ⇒ a()\nb()\nc()\nd()\n",
            THIRD,
        ),
        (
            "python ⇒   patterns:\n  - pattern: |\n      a()\n      ...\n      c()\n  - pattern: |\n      b()\n      ...\n      d()\n ⇒ a.py ⇒ a()\nb()\nc()\nd()\n",
            NOTHING,
        ),
        // What conditions allow.
        (
            "python ⇒   patterns:\n  - pattern: os.system($C)\n  - pattern-not: os.system(\"...\")\n ⇒ a.py ⇒ os.system(\"ls\")\nos.system(c)\n",
            SECOND,
        ),
        (
            "python ⇒   patterns:\n  - pattern: os.system($C)\n  - metavariable-pattern:\n      metavariable: $C\n      patterns:\n      - pattern-not: '\"...\"'\n ⇒ a.py ⇒ os.system(\"ls\")\nos.system(c)\n",
            SECOND,
        ),
        (
            "python ⇒   patterns:\n  - pattern: os.system($C)\n  - metavariable-regex:\n      metavariable: $C\n      regex: '\"l'\n ⇒ a.py ⇒ os.system(\"ls\")\nos.system(c)\n",
            "{\"notices\":[],\"results\":[{\"check_id\":\"p\",\"end\":{\"col\":16,\"line\":1,\"offset\":15},\"extra\":{\"message\":\"m\",\"metavars\":{\"$C\":[10,14]},\"severity\":\"INFO\"},\"path\":\"a.py\",\"start\":{\"col\":1,\"line\":1,\"offset\":0}}]}\n",
        ),
        (
            "python ⇒   patterns:\n  - pattern: f($X)\n  - pattern-not-regex: 2\n ⇒ a.py ⇒ f(1)\nf(2)\n",
            FIRST,
        ),
        (
            "python ⇒   patterns:\n  - pattern: f($X)\n  - metavariable-comparison:\n      comparison: $X > 5\n ⇒ a.py ⇒ f(8)\nf(y)\n",
            FIRST,
        ),
        (
            "python ⇒   patterns:\n  - pattern: f($X)\n  - focus-metavariable: $X\n ⇒ a.py ⇒ f(1)\n",
            "{\"notices\":[],\"results\":[{\"check_id\":\"p\",\"end\":{\"col\":4,\"line\":1,\"offset\":3},\"extra\":{\"message\":\"m\",\"metavars\":{\"$X\":[2,3]},\"severity\":\"INFO\"},\"path\":\"a.py\",\"start\":{\"col\":3,\"line\":1,\"offset\":2}}]}\n",
        ),
        (
            "python ⇒   patterns:\n  - pattern: f($X)\n  - pattern-inside: \"def $F(...): ...\"\n ⇒ a.py ⇒ def g():\n    f(1)\nf(2)\n",
            "{\"notices\":[],\"results\":[{\"check_id\":\"p\",\"end\":{\"col\":9,\"line\":2,\"offset\":17},\"extra\":{\"message\":\"m\",\"metavars\":{\"$F\":[4,5],\"$X\":[15,16]},\"severity\":\"INFO\"},\"path\":\"a.py\",\"start\":{\"col\":5,\"line\":2,\"offset\":13}}]}\n",
        ),
        // A name that is known to hold a literal, unless the rule says that none is.
        (
            "python ⇒   pattern: f(\"a\")\n ⇒ a.py ⇒ x = \"a\"\nf(x)\n",
            "{\"notices\":[],\"results\":[{\"check_id\":\"p\",\"end\":{\"col\":5,\"line\":2,\"offset\":12},\"extra\":{\"message\":\"m\",\"metavars\":{},\"severity\":\"INFO\"},\"path\":\"a.py\",\"start\":{\"col\":1,\"line\":2,\"offset\":8}}]}\n",
        ),
        (
            "python ⇒   pattern: f(\"a\")\n  options:\n    constant_propagation: false\n ⇒ a.py ⇒ x = \"a\"\nf(x)\n",
            NOTHING,
        ),
        // Names that are imported, seen through unless another place assigns them.
        (
            "python ⇒   pattern: os.system($C)\n ⇒ a.py ⇒ from os import system as s\ns(c)\n",
            "{\"notices\":[],\"results\":[{\"check_id\":\"p\",\"end\":{\"col\":5,\"line\":2,\"offset\":31},\"extra\":{\"message\":\"m\",\"metavars\":{\"$C\":[29,30]},\"severity\":\"INFO\"},\"path\":\"a.py\",\"start\":{\"col\":1,\"line\":2,\"offset\":27}}]}\n",
        ),
        (
            "python ⇒   pattern: os.system($C)\n ⇒ a.py ⇒ from os import system as s\ns(c)\ns = 1\n",
            NOTHING,
        ),
        (
            "python ⇒   pattern: numpy.load(...)\n ⇒ a.py ⇒ import numpy as np\nnp.load(x)\n",
            LOAD,
        ),
        (
            "python ⇒   pattern: np.load(...)\n ⇒ a.py ⇒ import numpy as np\nnp.load(x)\n",
            LOAD,
        ),
        // Texts that are only searched, one of them a file without a tree.
        ("regex ⇒   pattern-regex: a+\n ⇒ n.txt ⇒ caab\n", A_PLUS),
        (
            "regex ⇒   pattern-regex: int\n ⇒ c.c ⇒ int main( {\n",
            "{\"notices\":[{\"detail\":\"\",\"kind\":\"NoTree\",\"path\":\"c.c\",\"rule\":\"\"}],\"results\":[{\"check_id\":\"p\",\"end\":{\"col\":4,\"line\":1,\"offset\":3},\"extra\":{\"message\":\"m\",\"metavars\":{},\"severity\":\"INFO\"},\"path\":\"c.c\",\"start\":{\"col\":1,\"line\":1,\"offset\":0}}]}\n",
        ),
        (
            "regex ⇒   pattern-regex: (\n ⇒ n.txt ⇒ caab\n",
            "{\"notices\":[{\"detail\":\"(\",\"kind\":\"Regex\",\"path\":\"r.rules\",\"rule\":\"p\"}],\"results\":[]}\n",
        ),
        // Comments that quiet, in files of Python and C with a tree.
        (
            "python ⇒   pattern: f($X)\n ⇒ a.py ⇒ f(1)  # nosemgrep\nf(2)\nf(3)\n",
            "{\"notices\":[],\"results\":[{\"check_id\":\"p\",\"end\":{\"col\":5,\"line\":3,\"offset\":27},\"extra\":{\"message\":\"m\",\"metavars\":{\"$X\":[25,26]},\"severity\":\"INFO\"},\"path\":\"a.py\",\"start\":{\"col\":1,\"line\":3,\"offset\":23}}]}\n",
        ),
        (
            "python ⇒   pattern: f($X)\n ⇒ a.py ⇒ f(1)  # nosemgrep: q\nf(2)\nf(3)\n",
            "{\"notices\":[],\"results\":[{\"check_id\":\"p\",\"end\":{\"col\":5,\"line\":1,\"offset\":4},\"extra\":{\"message\":\"m\",\"metavars\":{\"$X\":[2,3]},\"severity\":\"INFO\"},\"path\":\"a.py\",\"start\":{\"col\":1,\"line\":1,\"offset\":0}},{\"check_id\":\"p\",\"end\":{\"col\":5,\"line\":2,\"offset\":25},\"extra\":{\"message\":\"m\",\"metavars\":{\"$X\":[23,24]},\"severity\":\"INFO\"},\"path\":\"a.py\",\"start\":{\"col\":1,\"line\":2,\"offset\":21}},{\"check_id\":\"p\",\"end\":{\"col\":5,\"line\":3,\"offset\":30},\"extra\":{\"message\":\"m\",\"metavars\":{\"$X\":[28,29]},\"severity\":\"INFO\"},\"path\":\"a.py\",\"start\":{\"col\":1,\"line\":3,\"offset\":26}}]}\n",
        ),
        (
            "python ⇒   pattern: f($X)\n ⇒ a.py ⇒ f(\"# nosemgrep\")\n",
            "{\"notices\":[],\"results\":[{\"check_id\":\"p\",\"end\":{\"col\":17,\"line\":1,\"offset\":16},\"extra\":{\"message\":\"m\",\"metavars\":{\"$X\":[2,15]},\"severity\":\"INFO\"},\"path\":\"a.py\",\"start\":{\"col\":1,\"line\":1,\"offset\":0}}]}\n",
        ),
        (
            "c ⇒   pattern: f($X)\n ⇒ a.c ⇒ void g(void) {\n  f(1); /* nosemgrep: q, p\n*/ f(2);\n  f(3);\n}\n",
            "{\"notices\":[],\"results\":[{\"check_id\":\"p\",\"end\":{\"col\":7,\"line\":4,\"offset\":57},\"extra\":{\"message\":\"m\",\"metavars\":{\"$X\":[55,56]},\"severity\":\"INFO\"},\"path\":\"a.c\",\"start\":{\"col\":3,\"line\":4,\"offset\":53}}]}\n",
        ),
        (
            "regex ⇒   pattern-regex: a+\n ⇒ a.py ⇒ # nosemgrep\naa\n",
            NOTHING,
        ),
        (
            "regex ⇒   pattern-regex: a+\n ⇒ n.txt ⇒ caab # nosemgrep\n",
            A_PLUS,
        ),
        // The fix of each result.
        (
            "python ⇒   pattern: f($X)\n  fix: g($X)\n ⇒ a.py ⇒ f(f(1))\nf(2)\nf (  3 )\n",
            "{\"notices\":[],\"results\":[{\"check_id\":\"p\",\"end\":{\"col\":8,\"line\":1,\"offset\":7},\"extra\":{\"fix\":\"g(f(1))\",\"message\":\"m\",\"metavars\":{\"$X\":[2,6]},\"severity\":\"INFO\"},\"path\":\"a.py\",\"start\":{\"col\":1,\"line\":1,\"offset\":0}},{\"check_id\":\"p\",\"end\":{\"col\":7,\"line\":1,\"offset\":6},\"extra\":{\"fix\":\"g(1)\",\"message\":\"m\",\"metavars\":{\"$X\":[4,5]},\"severity\":\"INFO\"},\"path\":\"a.py\",\"start\":{\"col\":3,\"line\":1,\"offset\":2}},{\"check_id\":\"p\",\"end\":{\"col\":5,\"line\":2,\"offset\":12},\"extra\":{\"fix\":\"g(2)\",\"message\":\"m\",\"metavars\":{\"$X\":[10,11]},\"severity\":\"INFO\"},\"path\":\"a.py\",\"start\":{\"col\":1,\"line\":2,\"offset\":8}},{\"check_id\":\"p\",\"end\":{\"col\":9,\"line\":3,\"offset\":21},\"extra\":{\"fix\":\"g(3)\",\"message\":\"m\",\"metavars\":{\"$X\":[18,19]},\"severity\":\"INFO\"},\"path\":\"a.py\",\"start\":{\"col\":1,\"line\":3,\"offset\":13}}]}\n",
        ),
        ("python ⇒   pattern: f($X)\n ⇒ a.py ⇒ g(1)\n", NOTHING),
    ];
    for (row, wanted) in rows {
        let (lang, rest) = parted(row);
        let (formula, rest) = parted(rest);
        let (path, text) = parted(rest);
        let rule = format!(in rt.alloc();
            "rules:\n- id: p\n  languages: [{lang}]\n  severity: INFO\n  message: m\n{formula}"
        )?;
        let mut files = List::new(rt.alloc());
        files.push(file_of(rt.alloc(), "r.rules", rule.as_str())?)?;
        files.push(file_of(rt.alloc(), path, text)?)?;
        let found = scanned(rt.alloc(), OTHERS, files, [0, 0, 0])?;
        same(row, found.as_str(), wanted)?;
    }
    Ok(())
}

// The words, the files, the calls that fail, and how the run ends.
#[test]
fn ends_with_a_status(rt: HostRuntime) -> Result<(), Fail> {
    let call: &[(u32, &[u8])] = &[(1, b"f(1)\n")];
    let calls: &[(u32, &[u8])] = &[(1, CALLS)];
    let both: &[(&str, &[(u32, &[u8])])] = &[("r.yaml", calls), ("a.py", call)];
    let rows: [(&[&str], &[(&str, &[(u32, &[u8])])], [u32; 3], &str); 26] = [
        (&["match", "json"], &[], [0, 0, 0], "Usage"),
        (&["scan"], &[], [0, 0, 0], "Usage"),
        (&["scan", "json"], &[], [0, 0, 0], "Usage"),
        (ALL, &[("r.yml", calls)], [0, 0, 0], "NoSuchPath"),
        (
            ALL,
            &[("r.yaml", &[(262_145, b"#")])],
            [0, 0, 0],
            "OverLimit(RuleBytes, 262145)",
        ),
        (
            ALL,
            &[("r.yaml", &[(1, b"rules:\n"), (1_001, b"- 1\n")])],
            [0, 0, 0],
            "OverLimit(Rules, 1001)",
        ),
        (
            OTHERS,
            &[("r.rules", &[(1, b"rules: \xff\n")]), ("a.py", call)],
            [0, 0, 0],
            "{\"notices\":[{\"detail\":\"\",\"kind\":\"NotUtf8\",\"path\":\"r.rules\",\"rule\":\"\"}],\"results\":[]}\n",
        ),
        (
            OTHERS,
            &[("r.rules", &[(1, b"a: &x 1\n")]), ("a.py", call)],
            [0, 0, 0],
            "{\"notices\":[{\"detail\":\"Anchor:1\",\"kind\":\"YamlProfile\",\"path\":\"r.rules\",\"rule\":\"\"}],\"results\":[]}\n",
        ),
        (
            OTHERS,
            &[("r.rules", &[(1, b"a: 1\n  b: 2\n")]), ("a.py", call)],
            [0, 0, 0],
            "{\"notices\":[{\"detail\":\"\",\"kind\":\"YamlNoValue\",\"path\":\"r.rules\",\"rule\":\"\"}],\"results\":[]}\n",
        ),
        (
            OTHERS,
            &[("r.rules", &[(1, b"a: 1\n")]), ("a.py", call)],
            [0, 0, 0],
            "{\"notices\":[{\"detail\":\"\",\"kind\":\"NoRules\",\"path\":\"r.rules\",\"rule\":\"\"}],\"results\":[]}\n",
        ),
        // A file or a rule that is bad, between others.
        (
            &["scan", "--config", "r.yaml", "src"],
            &[
                ("src/b.py", &[(1, b"\xff")]),
                ("src/e.py", call),
                ("src/d.py", &[(1_000_001, b"#")]),
                ("src/c.c", &[(1, b"int main( {\n")]),
                (
                    "r.yaml",
                    &[
                        (1, CALLS),
                        (
                            1,
                            b"- id: q\n  languages: [python]\n  severity: INFO\n  message: m\n  patterns:\n  - pattern-foo: f($X)\n",
                        ),
                    ],
                ),
            ],
            [0, 0, 0],
            "{\"notices\":[{\"detail\":\"rules.1.patterns.0.pattern-foo\",\"kind\":\"UnknownKey\",\"path\":\"r.yaml\",\"rule\":\"q\"},{\"detail\":\"\",\"kind\":\"NotUtf8\",\"path\":\"src/b.py\",\"rule\":\"\"},{\"detail\":\"\",\"kind\":\"NoTree\",\"path\":\"src/c.c\",\"rule\":\"\"},{\"detail\":\"\",\"kind\":\"TooLarge\",\"path\":\"src/d.py\",\"rule\":\"\"}],\"results\":[{\"check_id\":\"p\",\"end\":{\"col\":5,\"line\":1,\"offset\":4},\"extra\":{\"message\":\"m\",\"metavars\":{\"$X\":[2,3]},\"severity\":\"INFO\"},\"path\":\"src/e.py\",\"start\":{\"col\":1,\"line\":1,\"offset\":0}}]}\n",
        ),
        // Files that are not taken.
        (
            ALL,
            &[
                ("r.yaml", calls),
                ("a//b.py", call),
                ("../a.py", call),
                (".git/a.py", call),
                ("src/.a.py", call),
                ("src/a.pyc", call),
            ],
            [0, 0, 0],
            NOTHING,
        ),
        (
            &["scan", "--config", "r.yaml", "src"],
            &[("r.yaml", calls), ("srca/a.py", call), ("a.py", call)],
            [0, 0, 0],
            NOTHING,
        ),
        (
            &["scan", "--max", "3", "--config", "r.yaml", "a.py"],
            &[("r.yaml", calls), ("a.py", &[(3, b"f(1)\n")])],
            [0, 0, 0],
            "{\"notices\":[],\"results\":[{\"check_id\":\"p\",\"end\":{\"col\":5,\"line\":1,\"offset\":4},\"extra\":{\"message\":\"m\",\"metavars\":{\"$X\":[2,3]},\"severity\":\"INFO\"},\"path\":\"a.py\",\"start\":{\"col\":1,\"line\":1,\"offset\":0}},{\"check_id\":\"p\",\"end\":{\"col\":5,\"line\":2,\"offset\":9},\"extra\":{\"message\":\"m\",\"metavars\":{\"$X\":[7,8]},\"severity\":\"INFO\"},\"path\":\"a.py\",\"start\":{\"col\":1,\"line\":2,\"offset\":5}},{\"check_id\":\"p\",\"end\":{\"col\":5,\"line\":3,\"offset\":14},\"extra\":{\"message\":\"m\",\"metavars\":{\"$X\":[12,13]},\"severity\":\"INFO\"},\"path\":\"a.py\",\"start\":{\"col\":1,\"line\":3,\"offset\":10}}]}\n",
        ),
        (
            &["scan", "--max", "3", "--config", "r.yaml", "a.py"],
            &[("r.yaml", calls), ("a.py", &[(4, b"f(1)\n")])],
            [0, 0, 0],
            "TooMany(3)",
        ),
        (
            &["scan", "--error", "--config", "r.yaml", "."],
            both,
            [0, 0, 0],
            "Findings{\"notices\":[],\"results\":[{\"check_id\":\"p\",\"end\":{\"col\":5,\"line\":1,\"offset\":4},\"extra\":{\"message\":\"m\",\"metavars\":{\"$X\":[2,3]},\"severity\":\"INFO\"},\"path\":\"a.py\",\"start\":{\"col\":1,\"line\":1,\"offset\":0}}]}\n",
        ),
        (
            &["scan", "--error", "--config", "r.yaml", "."],
            &[("r.yaml", calls), ("a.py", &[(1, b"g(1)\n")])],
            [0, 0, 0],
            NOTHING,
        ),
        (ALL, both, [0, 0, 0], FIRST),
        // A set of a formula that has more than 10,000 members.
        (
            OTHERS,
            &[
                (
                    "r.rules",
                    &[(
                        1,
                        b"rules:\n- id: p\n  languages: [python]\n  severity: INFO\n  message: m\n  patterns:\n  - pattern: $X\n  - pattern: $Y\n",
                    )],
                ),
                ("a.py", &[(100, b"-"), (1, b"x\n")]),
            ],
            [0, 0, 0],
            "{\"notices\":[{\"detail\":\"1\",\"kind\":\"Crowded\",\"path\":\"a.py\",\"rule\":\"p\"}],\"results\":[]}\n",
        ),
        (
            OTHERS,
            &[
                (
                    "r.rules",
                    &[(
                        1,
                        b"rules:\n- id: p\n  languages: [json]\n  severity: INFO\n  message: m\n  pattern: '0'\n",
                    )],
                ),
                ("a.json", &[(1, b"[0"), (10_000, b",0"), (1, b"]")]),
            ],
            [0, 0, 0],
            "{\"notices\":[{\"detail\":\"\",\"kind\":\"Crowded\",\"path\":\"a.json\",\"rule\":\"p\"}],\"results\":[]}\n",
        ),
        // Calls of the files and of the output that fail. There is no fifth one of the files.
        (ALL, both, [1, 0, 0], "TreeFault"),
        (ALL, both, [2, 0, 0], "TreeFault"),
        (ALL, both, [3, 0, 0], "TreeFault"),
        (ALL, both, [4, 0, 0], "TreeFault"),
        (ALL, both, [5, 0, 0], FIRST),
        (
            ALL,
            &[("r.yaml", calls)],
            [0, 0, 1],
            "OutputFault{\"notices\":[],",
        ),
    ];
    for (words, files, failing, wanted) in rows {
        let found = scanned(rt.alloc(), words, files_of(rt.alloc(), files)?, failing)?;
        same(wanted, found.as_str(), wanted)?;
    }
    Ok(())
}

#[test]
fn keeps_to_its_limits(rt: HostRuntime) -> Result<(), Fail> {
    let rows: [(u32, usize, &str); 3] = [
        (10_000, 0, NOTHING),
        (10_001, 0, "OverLimit(Files, 10001)"),
        (34, 1_000_000, "OverLimit(FileBytes, 34000000)"),
    ];
    for (count, size, wanted) in rows {
        let mut files = files_of(rt.alloc(), &[("r.rules", &[(1, CALLS)])])?;
        for number in 10_000_u32..count.saturating_add(10_000) {
            let path = format!(in rt.alloc(); "f{number}.txt")?;
            let path = Text::from_str(rt.alloc(), path.as_str())?;
            let bytes = Bytes::from_vec(vec![in rt.alloc(); b'#'; size]?);
            files.push((path, bytes))?;
        }
        let found = scanned(rt.alloc(), OTHERS, files, [0, 0, 0])?;
        same(wanted, found.as_str(), wanted)?;
    }
    let rule: &[u8] =
        b"rules:\n- id: p\n  languages: [python]\n  severity: INFO\n  message: m\n  patterns:\n  - pattern: $X\n  - pattern: $Y\n";
    let counts: [(&[(u32, &[u8])], &str, usize); 2] = [
        (&[(1, rule)], "\"check_id\"", 10_000),
        (&[(1, b"rules:\n"), (1_000, b"- 1\n")], "\"kind\"", 1_000),
    ];
    for (pieces, key, count) in counts {
        let signs: &[(u32, &[u8])] = &[(99, b"-"), (1, b"x\n")];
        let files = files_of(rt.alloc(), &[("r.rules", pieces), ("a.py", signs)])?;
        let found = scanned(rt.alloc(), OTHERS, files, [0, 0, 0])?;
        assert_eq!(rt; found.as_str().matches(key).count(), count);
    }
    Ok(())
}

// A text that is refused once is a notice in that run, and is built in the next.
#[test]
fn passes_over_rules_with_refused_texts(rt: HostRuntime) -> Result<(), Fail> {
    let refused =
        "{\"notices\":[{\"detail\":\"a+\",\"kind\":\"Regex\",\"path\":\"r.rules\",\"rule\":\"p\"}],\"results\":[]}\n";
    let mut texts = List::new(rt.alloc());
    texts.push(Text::from_str(rt.alloc(), "a+")?)?;
    let mut patterns = FakePatterns::new(texts, 1);
    let rule: &[(u32, &[u8])] = &[(
        1,
        b"rules:\n- id: p\n  languages: [regex]\n  severity: INFO\n  message: m\n  pattern-regex: a+\n",
    )];
    let text: &[(u32, &[u8])] = &[(1, b"caab\n")];
    for wanted in [refused, A_PLUS] {
        let found = outcome(
            rt.alloc(),
            OTHERS,
            files_of(rt.alloc(), &[("r.rules", rule), ("n.txt", text)])?,
            Bytes::new(rt.alloc()),
            [0, 0, 0],
            &mut patterns,
        )?;
        same(wanted, found.as_str(), wanted)?;
    }
    Ok(())
}

// A rule that follows data from requests to statements.
const STATEMENTS: &[u8] =
    b"rules:\n- id: sqli\n  mode: taint\n  languages: [python]\n  severity: ERROR\n  message: >-\n    Tainted data reaches\n    $DB.execute.\n  pattern-sources:\n  - pattern: $REQ.args.get(...)\n  pattern-sinks:\n  - pattern: $DB.execute(...)\n  pattern-sanitizers:\n  - pattern: clean(...)\n";

// One that follows it from `src` to `sink`, and the same with what carries it on.
const CALLED: &[u8] =
    b"rules:\n- id: p\n  mode: taint\n  languages: [python]\n  severity: INFO\n  message: m\n  pattern-sources:\n  - pattern: src()\n  pattern-sinks:\n  - pattern: sink(...)\n";

const CARRIED: &[u8] =
    b"  pattern-propagators:\n  - pattern: $A.add($B)\n    from: $B\n    to: $A\n";

// The words before the folder, the pieces of the rules, the file and how the run ends.
#[test]
fn follows_data(rt: HostRuntime) -> Result<(), Fail> {
    let scan: &[&str] = &["scan", "--config", "r.yaml", "src"];
    let errors: &[&str] = &["scan", "--error", "--config", "r.yaml", "src"];
    let statements: &[(u32, &[u8])] = &[(1, STATEMENTS)];
    let rows: [(&[&str], &[(u32, &[u8])], &[u8], &str); 7] = [
        (
            scan,
            statements,
            b"def show(req):\n    u = req.args.get(\"u\")\n    q = f\"select {u}\"\n    cur.execute(q)\n",
            "{\"notices\":[],\"results\":[{\"check_id\":\"sqli\",\"end\":{\"col\":19,\"line\":4,\"offset\":81},\"extra\":{\"message\":\"Tainted data reaches cur.execute.\",\"metavars\":{\"$DB\":[67,70]},\"severity\":\"ERROR\",\"source\":[23,40]},\"path\":\"src/a.py\",\"start\":{\"col\":5,\"line\":4,\"offset\":67}}]}\n",
        ),
        (
            errors,
            statements,
            b"def show(req):\n    u = req.args.get(\"u\")\n    q = f\"select {u}\"\n    cur.execute(q)\n",
            "Findings{\"notices\":[],\"results\":[{\"check_id\":\"sqli\",\"end\":{\"col\":19,\"line\":4,\"offset\":81},\"extra\":{\"message\":\"Tainted data reaches cur.execute.\",\"metavars\":{\"$DB\":[67,70]},\"severity\":\"ERROR\",\"source\":[23,40]},\"path\":\"src/a.py\",\"start\":{\"col\":5,\"line\":4,\"offset\":67}}]}\n",
        ),
        // It is made clean on one way, and then on both.
        (
            scan,
            statements,
            b"def f(req):\n    u = req.args.get(\"u\")\n    if ok:\n        u = clean(u)\n    cur.execute(u)\n",
            "{\"notices\":[],\"results\":[{\"check_id\":\"sqli\",\"end\":{\"col\":19,\"line\":5,\"offset\":88},\"extra\":{\"message\":\"Tainted data reaches cur.execute.\",\"metavars\":{\"$DB\":[74,77]},\"severity\":\"ERROR\",\"source\":[20,37]},\"path\":\"src/a.py\",\"start\":{\"col\":5,\"line\":5,\"offset\":74}}]}\n",
        ),
        (
            scan,
            statements,
            b"def f(req):\n    u = req.args.get(\"u\")\n    if ok:\n        u = clean(u)\n    else:\n        u = clean(u)\n    cur.execute(u)\n",
            NOTHING,
        ),
        // It comes round a loop.
        (
            scan,
            statements,
            b"def f(req):\n    a = 0\n    while go():\n        cur.execute(a)\n        a = req.args.get(\"u\")\n",
            "{\"notices\":[],\"results\":[{\"check_id\":\"sqli\",\"end\":{\"col\":23,\"line\":4,\"offset\":60},\"extra\":{\"message\":\"Tainted data reaches cur.execute.\",\"metavars\":{\"$DB\":[46,49]},\"severity\":\"ERROR\",\"source\":[73,90]},\"path\":\"src/a.py\",\"start\":{\"col\":9,\"line\":4,\"offset\":46}}]}\n",
        ),
        // It is carried on by a call, and isn't without that.
        (
            scan,
            &[(1, CALLED), (1, CARRIED)],
            b"u = src()\na.add(u)\nsink(a)\n",
            "{\"notices\":[],\"results\":[{\"check_id\":\"p\",\"end\":{\"col\":8,\"line\":3,\"offset\":26},\"extra\":{\"message\":\"m\",\"metavars\":{},\"severity\":\"INFO\",\"source\":[4,9]},\"path\":\"src/a.py\",\"start\":{\"col\":1,\"line\":3,\"offset\":19}}]}\n",
        ),
        (
            scan,
            &[(1, CALLED)],
            b"u = src()\na.add(u)\nsink(a)\n",
            NOTHING,
        ),
    ];
    for (words, rules, text, wanted) in rows {
        let files = files_of(rt.alloc(), &[("r.yaml", rules), ("src/a.py", &[(1, text)])])?;
        let found = scanned(rt.alloc(), words, files, [0, 0, 0])?;
        same(wanted, found.as_str(), wanted)?;
    }
    Ok(())
}

// How many lines get data from a source before the sink, and how the run ends.
#[test]
fn follows_data_in_so_much(rt: HostRuntime) -> Result<(), Fail> {
    let rows: [(u32, &str); 2] = [
        (
            300,
            "{\"notices\":[],\"results\":[{\"check_id\":\"p\",\"end\":{\"col\":9,\"line\":301,\"offset\":3798},\"extra\":{\"message\":\"m\",\"metavars\":{},\"severity\":\"INFO\",\"source\":[82,87]},\"path\":\"a.py\",\"start\":{\"col\":1,\"line\":301,\"offset\":3790}}]}\n",
        ),
        (
            400,
            "{\"notices\":[{\"detail\":\"0\",\"kind\":\"FlowTooLarge\",\"path\":\"a.py\",\"rule\":\"p\"}],\"results\":[]}\n",
        ),
    ];
    for (count, wanted) in rows {
        let mut text = String::new(rt.alloc());
        for number in 0..count {
            text.push_str(format!(in rt.alloc(); "a{number} = src()\n")?.as_str())?;
        }
        text.push_str("sink(a7)\n")?;
        let mut files = files_of(rt.alloc(), &[("r.rules", &[(1, CALLED)])])?;
        files.push(file_of(rt.alloc(), "a.py", text.as_str())?)?;
        let found = scanned(rt.alloc(), OTHERS, files, [0, 0, 0])?;
        same(wanted, found.as_str(), wanted)?;
    }
    Ok(())
}
