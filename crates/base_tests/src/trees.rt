//! Nodes, texts and places.

ghost use Rattle.std.specs.Prelude.{◌<◌, length};

use node_pool::NodePool;
use node_tree::{Kind, List, Memory, Node, Place, Places, Span, Text, Twin};
use std::alloc::Global;
use std::cmp::Ordering;
use std::test::Fail;

fn leaf(alloc: Global, kind: Kind, from: u32) -> Node {
    Node {
        kind,
        text: Text::new(alloc),
        kids: List::new(alloc),
        span: Span { from, to: from },
    }
}

// A root of a condition with a block, and of a statement.
fn tree(alloc: Global) -> Result<Node, Memory> {
    let mut choice = leaf(alloc, Kind::If, 1);
    choice.kids.push(leaf(alloc, Kind::Name, 2))?;
    choice.kids.push(leaf(alloc, Kind::Block, 3))?;
    let mut root = leaf(alloc, Kind::Root, 0);
    root.kids.push(choice)?;
    root.kids.push(leaf(alloc, Kind::Name, 4))?;
    Ok(root)
}

#[test]
fn walks_copies_and_compares(rt: HostRuntime) -> Result<(), Fail> {
    let first = tree(rt.alloc())?;
    let mut places = Vec::new(rt.alloc());
    for node in first.walk()? {
        places.push(node.span.from)?;
    }
    for block in first.blocks()? {
        places.push(block.span.from)?;
    }
    assert!(rt; places.as_slice() == [0, 1, 2, 3, 4, 0, 3].as_slice());
    assert!(rt; first.kids().count() == 2);
    let mut second = first.copy()?;
    assert!(rt; first.same_content(&second));
    let _ = second.kids.pop();
    second.kids.push(leaf(rt.alloc(), Kind::Id, 9))?;
    assert!(rt; first.same_content(&second));
    let _ = second.kids.pop();
    assert!(rt; !first.same_content(&second));
    assert!(rt; first.order(&second) == Ordering::Greater);
    Ok(())
}

// A node over these two.
fn over(alloc: Global, kind: Kind, from: u32, first: Node, second: Node) -> Result<Node, Memory> {
    let mut node = leaf(alloc, kind, from);
    node.kids.push(first)?;
    node.kids.push(second)?;
    Ok(node)
}

// A function or a class, with its name and its body.
fn defined(alloc: Global, kind: Kind, places: [u32; 3]) -> Result<Node, Memory> {
    let [from, name, body] = places;
    let name = leaf(alloc, Kind::Id, name);
    over(alloc, kind, from, name, leaf(alloc, Kind::Block, body))
}

// A root of a function and of a name. In the body of the function stand another function and a class.
fn functions(alloc: Global) -> Result<Node, Memory> {
    let inner = defined(alloc, Kind::FuncDef, [4, 5, 6])?;
    let class = defined(alloc, Kind::ClassDef, [7, 8, 9])?;
    let body = over(alloc, Kind::Block, 3, inner, class)?;
    let name = leaf(alloc, Kind::Id, 2);
    let outer = over(alloc, Kind::FunctionDef, 1, name, body)?;
    over(alloc, Kind::Root, 0, outer, leaf(alloc, Kind::Name, 10))
}

// Where the nodes of a unit begin.
fn begins(alloc: Global, unit: &Node) -> Result<Vec<u32>, Memory> {
    let mut places = Vec::new(alloc);
    for node in unit.unit_nodes()? {
        places.push(node.span.from)?;
    }
    Ok(places)
}

// The bodies of functions within a unit are no part of it, and those of classes are.
#[test]
fn walks_units(rt: HostRuntime) -> Result<(), Fail> {
    let root = functions(rt.alloc())?;
    assert!(rt; begins(rt.alloc(), &root)?.as_slice() == [0, 1, 2, 10].as_slice());
    let outer = root.kids.get(0).ok_or("no function")?;
    assert!(rt; begins(rt.alloc(), outer)?.as_slice() == [1, 2, 3, 4, 5, 7, 8, 9].as_slice());
    Ok(())
}

// The numbers of the nodes of a tree in a pool, from that of its root.
fn numbers(alloc: Global, pool: &NodePool<'_>, root: u32) -> Result<Vec<u32>, Memory>
    requires { root < length pool.now.nodes }
{
    let mut numbers = Vec::new(alloc);
    for number in pool.walk(root) {
        numbers.push(number)?;
    }
    Ok(numbers)
}

// The tree of `[1]` gets the same numbers once what was placed before is taken away.
#[test]
fn places_trees_again(rt: HostRuntime) -> Result<(), Fail> {
    let alloc = rt.alloc();
    let mut list = leaf(alloc, Kind::Array, 0);
    list.kids.push(leaf(alloc, Kind::Number, 1))?;
    let mut root = leaf(alloc, Kind::Root, 0);
    root.kids.push(list)?;
    let Some(count) = root.count() else {
        return Err(Fail::new(format_args!("too many nodes")));
    };
    assert!(rt; count == 3);
    let mut pool = NodePool::with_room(alloc, count)?;
    let first = pool.place(&root);
    assert!(rt; first == 0);
    assert!(rt; numbers(alloc, &pool, 0)?.as_slice() == [0, 1, 2].as_slice());
    pool.clear();
    let again = pool.place(&root);
    assert!(rt; again == 0);
    assert!(rt; numbers(alloc, &pool, 0)?.as_slice() == [0, 1, 2].as_slice());
    Ok(())
}

#[test]
fn texts_grow(rt: HostRuntime) -> Result<(), Fail> {
    let mut text = Text::from_str(rt.alloc(), "a")?;
    text.push("é")?;
    assert!(rt; text.as_str() == "aé" && text.len() == 3);
    assert!(rt; text.get(1) == Some(195) && text.get(3).is_none());
    assert!(rt; text.copy()?.is_same(&text));
    Ok(())
}

#[test]
fn counts_lines_and_columns_from_one(rt: HostRuntime) -> Result<(), Fail> {
    let places = Places::of(rt.alloc(), b"ab\r\nc\n\nd")?;
    for (offset, line, col) in [(0, 1, 1), (3, 1, 4), (4, 2, 1), (6, 3, 1), (8, 4, 2)] {
        assert!(rt; places.place(offset) == Place { line, col, offset });
    }
    let empty = Places::of(rt.alloc(), b"")?;
    assert!(rt;
        empty.place(0)
            == Place {
                line: 1,
                col: 1,
                offset: 0
            }
    );
    Ok(())
}
