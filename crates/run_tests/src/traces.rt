//! Runs with `--trace`.

use crate::runs::{World, file_of, outcome_in};
use node_tree::{Bytes, List};
use rx_text::RealPatterns;
use shown::same;
use std::alloc::Global;
use std::test::Fail;

// The words of runs that show traces.
const SCAN: &[&str] = &["scan", "--trace", "--config", "r.yaml", "src"];

const ERRORS: &[&str] = &["scan", "--error", "--trace", "--config", "r.yaml", "src"];

const DRY: &[&str] = &["fix", "--dryrun", "--trace", "--config", "r.yaml", "src"];

const SESSION: &[&str] = &["session", "--trace"];

// A rule that follows data from requests to statements.
const FOLLOWS: &str =
    "rules:\n- id: sqli\n  mode: taint\n  languages: [python]\n  severity: ERROR\n  message: >-\n    Tainted data reaches\n    $DB.execute.\n  pattern-sources:\n  - pattern: $REQ.args.get(...)\n  pattern-sinks:\n  - pattern: $DB.execute(...)\n  pattern-sanitizers:\n  - pattern: clean(...)\n";

// One that finds the statements.
const FINDS: &str =
    "rules:\n- id: p\n  languages: [python]\n  severity: INFO\n  message: m\n  pattern: $DB.execute(...)\n";

// Data that is made clean on one of two ways, and data that comes round a loop.
const WAYS: &str =
    "def f(req):\n    u = req.args.get(\"u\")\n    if ok:\n        u = clean(u)\n    cur.execute(u)\n";

const LOOP: &str =
    "def f(req):\n    a = 0\n    while go():\n        cur.execute(a)\n        a = req.args.get(\"u\")\n";

// What is found: in each with its trace, and in the first by the rule that follows no data.
const IN_WAYS: &str =
    "{\"check_id\":\"sqli\",\"end\":{\"col\":19,\"line\":5,\"offset\":88},\"extra\":{\"message\":\"Tainted data reaches cur.execute.\",\"metavars\":{\"$DB\":[74,77]},\"severity\":\"ERROR\",\"source\":[20,37],\"trace\":[[16,\"Head\"],[42,\"Head\"],[74,\"Head\"]]},\"path\":\"src/a.py\",\"start\":{\"col\":5,\"line\":5,\"offset\":74}}";

const IN_LOOP: &str =
    "{\"check_id\":\"sqli\",\"end\":{\"col\":23,\"line\":4,\"offset\":60},\"extra\":{\"message\":\"Tainted data reaches cur.execute.\",\"metavars\":{\"$DB\":[46,49]},\"severity\":\"ERROR\",\"source\":[73,90],\"trace\":[[16,\"Head\"],[26,\"Head\"],[46,\"Head\"],[69,\"Head\"],[26,\"Head\"],[46,\"Head\"]]},\"path\":\"src/a.py\",\"start\":{\"col\":9,\"line\":4,\"offset\":46}}";

const UNTRACED: &str =
    "{\"check_id\":\"p\",\"end\":{\"col\":19,\"line\":5,\"offset\":88},\"extra\":{\"message\":\"m\",\"metavars\":{\"$DB\":[74,77]},\"severity\":\"INFO\"},\"path\":\"src/a.py\",\"start\":{\"col\":5,\"line\":5,\"offset\":74}}";

// How a run of these words ends over the rule and the file. The stream of a session takes both, and scans twice.
fn traced(alloc: Global, words: &[&str], rule: &str, text: &str) -> Result<String, Fail> {
    let mut files = List::new(alloc);
    files.push(file_of(alloc, "r.yaml", rule)?)?;
    files.push(file_of(alloc, "src/a.py", text)?)?;
    let size = rule.len();
    let stream = format!(in alloc; "sync src\nrule {size} r\n{rule}\nscan\nscan\nend\n")?;
    let world = World {
        files,
        input: Bytes::from_slice(alloc, stream.as_bytes())?,
        piece: 512,
        failing: [0, 0, 0],
    };
    let mut patterns = RealPatterns::new(alloc);
    Ok(outcome_in(alloc, words, world, &mut patterns)?.0)
}

// The words, the rule, the text of the file, and the line of the report: what stands before its result, and the result.
#[test]
fn shows_traces_of_data(rt: HostRuntime) -> Result<(), Fail> {
    let alloc = rt.alloc();
    let line = "{\"notices\":[],\"results\":[";
    let rows = [
        (SCAN, FOLLOWS, WAYS, line, IN_WAYS),
        (SCAN, FOLLOWS, LOOP, line, IN_LOOP),
        (SCAN, FINDS, WAYS, line, UNTRACED),
        (
            ERRORS,
            FOLLOWS,
            WAYS,
            "Findings{\"notices\":[],\"results\":[",
            IN_WAYS,
        ),
        (
            DRY,
            FOLLOWS,
            LOOP,
            "{\"fixed\":[],\"notices\":[],\"results\":[",
            IN_LOOP,
        ),
    ];
    for (words, rule, text, front, result) in rows {
        let found = traced(alloc, words, rule, text)?;
        let wanted = format!(in alloc; "{front}{result}]}}\n")?;
        same(text, found.as_str(), wanted.as_str())?;
    }
    Ok(())
}

// The rule, the text of the file, and the result in each of the two reports of a session. The second scan opens no file.
#[test]
fn shows_them_again(rt: HostRuntime) -> Result<(), Fail> {
    let alloc = rt.alloc();
    let rows = [
        (FOLLOWS, WAYS, IN_WAYS),
        (FOLLOWS, LOOP, IN_LOOP),
        (FINDS, WAYS, UNTRACED),
    ];
    for (rule, text, result) in rows {
        let found = traced(alloc, SESSION, rule, text)?;
        let line = format!(in alloc; "{{\"notices\":[],\"results\":[{result}]}}\n")?;
        let wanted = format!(in alloc; "{line}{line}")?;
        same(text, found.as_str(), wanted.as_str())?;
    }
    Ok(())
}
