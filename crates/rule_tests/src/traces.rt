//! Rules that follow data, and the shortest paths on which it gets from its source to a sink.

ghost use Rattle.std.specs.Prelude.{◌≡◌, ◌<◌, All};
ghost use Rattle.tree_match.specs.Placed.{IsLeafPlaced};

use crate::findings::{built, leaves_of, rule_of};
use graph_form::{Point, Role};
use judge_file::{Opened, open_file};
use node_tree::{Bytes, FileView, List, Memory, Node, Steps};
use rule_form::{Body, Rule, TaintRule};
use rx_text::Rx;
use shown::{parted, same};
use std::alloc::Global;
use std::fmt::Write;
use std::marker::Brand;
use std::sync::ledger::{Blank, Ledger};
use std::test::Fail;
use taint_judge::{SharedFlow, follow};
use taint_trace::trace_of;
use tree_match::Leaf;

// A rule that follows data from requests to statements.
const STATEMENTS: &str =
    "  mode: taint\n  pattern-sources:\n  - pattern: $REQ.args.get(...)\n  pattern-sinks:\n  - pattern: $DB.execute(...)\n  pattern-sanitizers:\n  - pattern: clean(...)\n";

// The points of a path after the entry: where the node of each begins, and its role.
fn path_line(alloc: Global, root: &Node, path: &[Point]) -> Result<String, Memory> {
    let mut line = String::new(alloc);
    for point in path {
        if point.role == Role::Entry {
            continue;
        }
        if let Some(node) = root.walk()?.nth(point.node as usize) {
            write!(line, "{} {:?} ", node.span.from, point.role)?;
        }
    }
    Ok(line)
}

// The path of the first finding of the rule, where `leaves` has the members of its patterns.
fn first_path(
    alloc: Global,
    view: &FileView,
    rule: &TaintRule,
    leaves: &List<Leaf>,
    rx: &mut List<Rx>,
) -> Result<List<Point>, Memory>
    requires placed { All (λ leaf. IsLeafPlaced view.now.bytes leaf) leaves.now }
{
    let mut flow = SharedFlow::of(&view.tree);
    let Ok(findings) = follow(alloc, view, &mut flow, rule, leaves, rx) else {
        return Ok(List::new(alloc));
    };
    let Some((finding, _)) = findings.as_slice().split_first() else {
        return Ok(List::new(alloc));
    };
    trace_of(alloc, view, rule, leaves, rx, finding)
}

// The line of the path of the first finding of the rule in a text.
fn traced<L: Ledger>(
    alloc: Global,
    blank: Blank,
    rule: &Rule,
    text: &[u8],
) -> Result<String, Memory>
    requires name { blank.name ≡ L.name }
    requires parts { blank.parts ≡ L.parts }
    requires some { 0 < L.parts }
{
    let [part] = rule.parts.as_slice() else {
        return Ok(String::new(alloc));
    };
    let Body::Taint(body) = &part.body else {
        return Ok(String::new(alloc));
    };
    let mut steps = Steps::<L>::new(blank);
    let bytes = Bytes::from_slice(alloc, text)?;
    let Opened::Read(view) = open_file(alloc, part.lang, bytes, &mut steps)? else {
        return Ok(String::new(alloc));
    };
    let leaves = leaves_of(alloc, &view, part.patterns.as_slice(), &mut steps)?;
    let mut rx = built(alloc, rule.texts.as_slice())?;
    let path = first_path(alloc, &view, body, &leaves, &mut rx)?;
    path_line(alloc, &view.tree, path.as_slice())
}

// The same in a text of Python.
fn traced_in(alloc: Global, text: &str) -> Result<String, Fail> {
    let rule = rule_of(alloc, "python", STATEMENTS)?.ok_or("no rule")?;
    Ok(traced::<Brand>(alloc, Blank::new(1), &rule, text.as_bytes())?)
}

// A text, and the path. In the first its data is made clean on one of two ways, in the second it comes round a loop.
#[test]
fn traces_findings(rt: HostRuntime) -> Result<(), Fail> {
    let rows = [
        "def f(req):\n    u = req.args.get(\"u\")\n    if ok:\n        u = clean(u)\n    cur.execute(u)\n ⇒ 16 Head 42 Head 74 Head ",
        "def f(req):\n    a = 0\n    while go():\n        cur.execute(a)\n        a = req.args.get(\"u\")\n ⇒ 16 Head 26 Head 46 Head 69 Head 26 Head 46 Head ",
    ];
    for row in rows {
        let (text, wanted) = parted(row);
        same(text, traced_in(rt.alloc(), text)?.as_str(), wanted)?;
    }
    Ok(())
}
