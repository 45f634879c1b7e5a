//! The edges of units, as lines of text.
//!
//! A point is written as the line on which its statement or handler begins, from 1, with `i`, `t` or `s` behind it for Init,
//! Test and Step of a `for` in C. `E` is the entry and `X` the exit.

use crate::source::{line_of, root_of};
use flow_graph::{Graph, Role, graph_of, units};
use node_tree::{Memory, Node, ReadFault};
use shown::{parted, same};
use std::alloc::{AllocError, Global};
use std::fmt::Write;
use std::test::Fail;

// Writes the point at that place in the graph.
fn write_point(
    out: &mut String,
    text: &str,
    nodes: &[&Node],
    graph: &Graph,
    place: u32,
) -> Result<(), AllocError> {
    let Some(point) = graph.points.get(place as usize) else {
        return Ok(());
    };
    let line = match nodes.get(point.node as usize) {
        Some(node) => line_of(text, node.span.from),
        None => 0,
    };
    match point.role {
        Role::Entry => out.push('E'),
        Role::Exit => out.push('X'),
        Role::Head => Ok(write!(out, "{}", line)?),
        Role::Init => Ok(write!(out, "{}i", line)?),
        Role::Test => Ok(write!(out, "{}t", line)?),
        Role::Step => Ok(write!(out, "{}s", line)?),
    }
}

// The edges of the unit at that place in the list of units.
fn edges(alloc: Global, text: &str, root: &Node, unit: usize) -> Result<String, Memory> {
    let mut nodes = Vec::new(alloc);
    let mut walk = root.walk()?;
    while let Some(node) = walk.next() {
        nodes.push(node)?;
    }
    let mut out = String::new(alloc);
    let all = units(root)?;
    let Some(number) = all.get(unit) else {
        return Ok(out);
    };
    let graph = graph_of(root, *number)?;
    for edge in graph.edges.as_slice() {
        if out.len() > 0 {
            out.push(' ')?;
        }
        write_point(&mut out, text, &nodes, &graph, edge.from)?;
        out.push('>')?;
        write_point(&mut out, text, &nodes, &graph, edge.to)?;
    }
    Ok(out)
}

// The edges of a unit of a text in Python or in C, or `none` where the text has no tree.
fn line(alloc: Global, text: &str, python: bool, unit: usize) -> Result<String, ReadFault> {
    let root = root_of(alloc, text, python)?;
    Ok(edges(alloc, text, &root, unit)?)
}

// Rows of texts and edges.
fn check(alloc: Global, python: bool, unit: usize, rows: &[&str]) -> Result<(), Fail> {
    for row in rows {
        let (text, wanted) = parted(*row);
        same(text, line(alloc, text, python, unit)?.as_str(), wanted)?;
    }
    Ok(())
}

#[test]
fn branches_and_loops(rt: HostRuntime) -> Result<(), Fail> {
    check(
        rt.alloc(),
        true,
        0,
        &[
            " ⇒ E>X",
            "a()\nb()\n ⇒ E>1 1>2 2>X",
            "if a:\n b()\nelif c:\n d()\nelse:\n e()\n ⇒ E>1 1>2 1>3 2>X 3>4 3>6 4>X 6>X",
            "with a as b:\n c()\nwhile d:\n continue\n ⇒ E>1 1>2 2>3 3>X 3>4 4>3",
            "while a:\n while b:\n  x()\n else:\n  break\n y()\nelse:\n z()\nw()\n ⇒ E>1 1>2 1>8 2>3 2>5 3>2 5>9 6>1 8>9 9>X",
            "for a in b:\n class C:\n  break\n  continue\n  return\nd()\n ⇒ E>1 1>2 1>6 2>3 3>6 4>1 5>X 6>X",
            "return\ndef f(a):\n x()\ny()\n ⇒ E>1 1>X 2>4 4>X",
        ],
    )
}

#[test]
fn tries(rt: HostRuntime) -> Result<(), Fail> {
    check(
        rt.alloc(),
        true,
        0,
        &[
            "try:\n a()\nexcept E:\n b()\nelse:\n c()\nd()\n ⇒ E>1 1>2 2>3 2>6 3>4 4>7 6>7 7>X",
            "try:\n try:\n  a()\n except E:\n  b()\nexcept F:\n c()\nd()\n ⇒ E>1 1>2 2>3 2>6 3>4 3>6 3>8 4>5 4>6 5>6 5>8 6>7 7>8 8>X",
            "try:\n return\nexcept E:\n h()\n ⇒ E>1 1>2 2>X 2>3 3>4 4>X",
            "try:\n if a:\n  return\n b()\nfinally:\n if c:\n  d()\ne()\n ⇒ E>1 1>2 2>3 2>4 2>6 3>6 4>6 6>X 6>7 6>8 7>X 7>8 8>X",
            "try:\n raise a\nexcept E:\n raise b\nfinally:\n f()\ng()\n ⇒ E>1 1>2 2>3 3>4 4>6 6>X 6>7 7>X",
            "try:\n try:\n  return\n finally:\n  a()\nfinally:\n b()\nc()\n ⇒ E>1 1>2 2>3 2>7 3>5 3>7 5>7 7>X 7>8 8>X",
            "try:\n for a in b:\n  break\nfinally:\n f()\ng()\n ⇒ E>1 1>2 2>3 2>5 3>5 5>6 6>X",
        ],
    )
}

#[test]
fn functions(rt: HostRuntime) -> Result<(), Fail> {
    check(
        rt.alloc(),
        true,
        1,
        &[
            "return\ndef f(a):\n x()\n return\n z()\ny()\n ⇒ E>3 3>4 4>X 5>X",
            "class C:\n def f(a):\n  def g(b):\n   y()\n  x()\n ⇒ E>3 3>5 5>X",
        ],
    )
}

#[test]
fn functions_in_c(rt: HostRuntime) -> Result<(), Fail> {
    check(
        rt.alloc(),
        false,
        1,
        &[
            "void f(void) {\n for (i = 0; i < n; i++)\n  a();\n do {\n  b();\n } while (c);\n goto end;\n d();\n end:\n e();\n}\n ⇒ E>2i 2i>2t 2t>3 2t>5 2s>2t 3>2s 4>5 4>7 5>4 7>9 8>9 9>10 10>X",
            "void f(void) {\n switch (a) {\n  x();\n  case 1:\n  while (b) {\n   case 2:\n   break;\n  }\n }\n z();\n}\n ⇒ E>2 2>4 2>6 2>10 3>4 4>5 5>6 5>10 6>7 7>10 10>X",
            "void f(void) {\n switch (a) {\n  default:\n  x();\n }\n z();\n}\n ⇒ E>2 2>3 3>4 4>6 6>X",
            "void f(void) {\n while (a) { }\n for (;;) { }\n if (b) { } else { {\n  c(); } }\n}\n ⇒ E>2 2>2 2>3i 3i>3t 3t>3s 3t>4 3s>3t 4>X 4>5 5>X",
            "void f(void) {\n goto nowhere;\n break;\n continue;\n case 1:\n default:\n ;\n}\n ⇒ E>2 2>X 3>X 4>X 5>6 6>7 7>X",
        ],
    )
}
