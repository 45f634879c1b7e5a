//! The tops and the nodes of points, what points assign, and the parameters of units, as lines of text.
//!
//! A point is written as the line on which its statement or handler begins, from 1, a node as its number and its kind. A name is followed by `'` where it is a part
//! of a target, and by `*` where it is the base of one.

use crate::source::{line_of, root_of};
use assignments::{Assignment, Reach, assignments, parameters};
use flow_graph::{Point, Role, graph_of, units};
use node_tree::{Memory, Node, ReadFault};
use point_nodes::{IndexedTree, nodes, tops};
use shown::{parted, same, write_trees};
use std::alloc::{AllocError, Global};
use std::fmt::Write;
use std::slice;
use std::test::Fail;

// What is shown of a unit.
#[derive(Clone, Copy)]
enum Show {
    Tops,
    Nodes,
    Assignments,
    Parameters,
}

// Writes what separates one part from those before it.
fn write_gap(out: &mut String, gap: &str) -> Result<(), AllocError> {
    if out.len() > 0 {
        out.push_str(gap)?;
    }
    Ok(())
}

// Writes an assignment.
fn write_assignment(out: &mut String, one: &Assignment<'_>) -> Result<(), AllocError> {
    write!(out, " {:?}", one.manner)?;
    for target in one.targets.as_slice() {
        write!(out, " {}", target.name)?;
        match target.reach {
            Reach::Whole => {}
            Reach::Part => out.push('\'')?,
            Reach::Base => out.push('*')?,
        }
    }
    if let Some(value) = one.value {
        out.push(' ')?;
        write_trees(out, slice::from_ref(value), false)?;
    }
    Ok(())
}

// Writes the tops of a point.
fn write_tops(
    out: &mut String,
    alloc: Global,
    tree: &IndexedTree<'_>,
    point: Point,
    line: u32,
) -> Result<(), Memory> {
    write_gap(out, "; ")?;
    write!(out, "{line}")?;
    for top in tops(alloc, tree, point)?.as_slice() {
        out.push(' ')?;
        write_trees(out, slice::from_ref(top.node), false)?;
    }
    Ok(())
}

// Writes the nodes of a point.
fn write_nodes(
    out: &mut String,
    alloc: Global,
    tree: &IndexedTree<'_>,
    point: Point,
    line: u32,
) -> Result<(), Memory> {
    write_gap(out, "; ")?;
    write!(out, "{line}")?;
    for node in nodes(alloc, tree, point)?.as_slice() {
        write!(out, " {}{:?}", node.at, node.node.kind)?;
    }
    Ok(())
}

// Writes what a point assigns.
fn write_assignments(
    out: &mut String,
    alloc: Global,
    tree: &IndexedTree<'_>,
    point: Point,
    line: u32,
) -> Result<(), Memory> {
    for one in assignments(alloc, tree, point)?.as_slice() {
        write_gap(out, "; ")?;
        write!(out, "{line}")?;
        write_assignment(out, one)?;
    }
    Ok(())
}

// Writes what is shown of the points of a unit.
fn write_points(
    out: &mut String,
    alloc: Global,
    text: &str,
    root: &Node,
    unit: u32,
    show: Show,
) -> Result<(), Memory> {
    let tree = IndexedTree::of(alloc, root)?;
    let graph = graph_of(root, unit)?;
    for point in graph.points.as_slice() {
        let Some(spot) = tree.node(point.node) else {
            continue;
        };
        if point.role == Role::Entry || point.role == Role::Exit {
            continue;
        }
        let line = line_of(text, spot.node.span.from);
        match show {
            Show::Tops => write_tops(out, alloc, &tree, *point, line)?,
            Show::Nodes => write_nodes(out, alloc, &tree, *point, line)?,
            _ => write_assignments(out, alloc, &tree, *point, line)?,
        }
    }
    Ok(())
}

// Writes the parameters of a unit.
fn write_parameters(out: &mut String, alloc: Global, root: &Node, unit: u32) -> Result<(), Memory> {
    let tree = IndexedTree::of(alloc, root)?;
    for name in parameters(alloc, &tree, unit)?.as_slice() {
        write_gap(out, " ")?;
        out.push_str(name.node.text.as_str())?;
    }
    Ok(())
}

// What is shown of the unit at that place in the list of units.
fn line(
    alloc: Global,
    text: &str,
    python: bool,
    unit: usize,
    show: Show,
) -> Result<String, ReadFault> {
    let root = root_of(alloc, text, python)?;
    let mut out = String::new(alloc);
    let all = units(&root)?;
    let Some(number) = all.get(unit) else {
        return Ok(out);
    };
    match show {
        Show::Parameters => write_parameters(&mut out, alloc, &root, *number)?,
        _ => write_points(&mut out, alloc, text, &root, *number, show)?,
    }
    Ok(out)
}

// Rows of texts and what is shown of them.
fn check(alloc: Global, python: bool, unit: usize, show: Show, rows: &[&str]) -> Result<(), Fail> {
    for row in rows {
        let (text, wanted) = parted(*row);
        same(
            text,
            line(alloc, text, python, unit, show)?.as_str(),
            wanted,
        )?;
    }
    Ok(())
}

#[test]
fn tops_in_python(rt: HostRuntime) -> Result<(), Fail> {
    check(
        rt.alloc(),
        true,
        0,
        Show::Tops,
        &[
            "if a:\n pass\nwhile b:\n x = 1\nfor c in d:\n e\n ⇒ 1 Name(a); 2 Pass; 3 Name(b); 4 Assign[Name(x) Number(1)]; 5 Name(c) Name(d); 6 ExprStmt[Name(e)]",
            "@d\ndef f(a: A, b: B = c, *, e=g) -> h:\n x\nclass C(D):\n y\n ⇒ 1 List[Name(d)] Absent Name(c) Absent Name(g); 4 List List[Name(D)]; 5 ExprStmt[Name(y)]",
            "try:\n a\nexcept E as e:\n b\nwith c as d:\n pass\n ⇒ 1; 2 ExprStmt[Name(a)]; 3 Name(E) Id(e); 4 ExprStmt[Name(b)]; 5 List[WithItem[Name(c) Name(d)]]; 6 Pass",
        ],
    )
}

#[test]
fn nodes_with_numbers(rt: HostRuntime) -> Result<(), Fail> {
    check(
        rt.alloc(),
        true,
        0,
        Show::Nodes,
        &[
            "if a.b:\n pass\n ⇒ 1 2Attr 3Name 4Id; 2 6Pass",
            "def f(a=b.c):\n pass\n ⇒ 1 2List 8Attr 9Name 10Id",
        ],
    )
}

#[test]
fn tops_in_c(rt: HostRuntime) -> Result<(), Fail> {
    check(
        rt.alloc(),
        false,
        1,
        Show::Tops,
        &[
            "void f(void) {\n for (int i = 0; i < n; i++)\n  g();\n do { } while (a);\n switch (b) {\n  case 1: ;\n }\n}\n ⇒ 2 Decl[TypeSpec(int) List[Var[Id(i) Number(0)]]]; 2 Binary(<)[Name(i) Name(n)]; 2 Postfix(++)[Name(i)]; 3 ExprStmt[Call[Name(g) List]]; 4 Name(a); 5 Name(b); 6 Case[Number(1)]; 6 Empty",
        ],
    )
}

#[test]
fn assignments_in_python(rt: HostRuntime) -> Result<(), Fail> {
    check(
        rt.alloc(),
        true,
        0,
        Show::Assignments,
        &[
            "x = y = 1\n(a, *b) = c.d[0] = e\n ⇒ 1 Statement x y Number(1); 2 Statement a' b' c* Name(e)",
            "x: int = 1\ny: int\nx += z\n ⇒ 1 Statement x Number(1); 3 Augmented x Name(z)",
            "for a, b.c in xs:\n f(d := a)\n ⇒ 1 Drawn a' b* Name(xs); 2 Expression d Name(a)",
            "with f(a := 1) as b, c:\n pass\n ⇒ 1 Expression a Number(1); 1 Drawn b Call[Name(f) List[Walrus[Id(a) Number(1)]]]",
            "del a, b[0]\nimport a.b, c.d as e\nfrom m import *\nfrom m import f, g as h\n ⇒ 1 Deleted a' b*; 2 Imported a; 2 Imported e; 4 Imported f; 4 Imported h",
            "try:\n pass\nexcept E as e:\n pass\nexcept F:\n pass\n ⇒ 3 Caught e",
            "@d(a := 1)\ndef f(p=(b := 2), *q: (c := 3)):\n x = 1\nclass C(k := 4):\n y = 5\n ⇒ 1 Expression a Number(1); 1 Expression b Number(2); 1 Defined f; 4 Expression k Number(4); 4 Defined C; 5 Statement y Number(5)",
            "f(lambda p: (z := p), [w for w in v if (u := w)])\n ⇒ 1 Expression z Name(p); 1 Expression u Name(w)",
            "x = (y := (z := 1))\n ⇒ 1 Expression z Number(1); 1 Expression y Walrus[Id(z) Number(1)]; 1 Statement x Walrus[Id(y) Walrus[Id(z) Number(1)]]",
        ],
    )
}

#[test]
fn assignments_of_functions(rt: HostRuntime) -> Result<(), Fail> {
    check(
        rt.alloc(),
        true,
        1,
        Show::Assignments,
        &["def f(a):\n def g(e):\n  x = 1\n y = a\n ⇒ 2 Defined g; 4 Statement y Name(a)"],
    )
}

#[test]
fn assignments_in_c(rt: HostRuntime) -> Result<(), Fail> {
    let alloc = rt.alloc();
    check(
        alloc,
        false,
        0,
        Show::Assignments,
        &[
            "int x = 1;\nint f(int a) { x = 2; }\nenum e { A } v;\nint (*g(int a))(int b) { }\n ⇒ 1 Statement x Number(1); 2 Defined f; 3 Declared v; 4 Defined g",
        ],
    )?;
    check(
        alloc,
        false,
        1,
        Show::Assignments,
        &[
            "void f(void) {\n int x = 1, *y, z[2] = {0};\n struct s { int n; } w;\n int g(int);\n x = *y = 2;\n x += 1;\n y[0]++;\n --x;\n *(p + 1) = 3;\n ((T)q)->r = 4;\n for (int i = 0; i < n; i++) { }\n}\n ⇒ 2 Statement x Number(1); 2 Declared y; 2 Statement z InitList[Number(0)]; 3 Declared w; 4 Declared g; 5 Expression y* Number(2); 5 Expression x AssignE(=)[Unary(*)[Name(y)] Number(2)]; 6 Augmented x Number(1); 7 Stepped y*; 8 Stepped x; 10 Expression q* Number(4); 11 Statement i Number(0); 11 Stepped i",
        ],
    )
}

#[test]
fn parameters_of_functions(rt: HostRuntime) -> Result<(), Fail> {
    let alloc = rt.alloc();
    check(
        alloc,
        true,
        1,
        Show::Parameters,
        &["def f(a, b=1, *, c: int, **d):\n pass\n ⇒ a b c d"],
    )?;
    check(
        alloc,
        false,
        1,
        Show::Parameters,
        &[
            "void f(int a, char *b[2], int (*c)(int d), int, ...) { }\n ⇒ a b c",
            "int (*f(int a))(int b) { }\n ⇒ a",
            "int *f(void) { }\n ⇒ ",
        ],
    )
}
