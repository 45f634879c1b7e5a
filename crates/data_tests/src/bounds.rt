//! Bindings, and templates that they fill.

use meta_bind::{Binding, Bound, fill};
use node_tree::{Kind, List, Memory, Node, Span, Text, Twin};
use std::alloc::Global;
use std::test::Fail;

// Binds a name, if it isn't bound, to a number at a range.
fn add(
    alloc: Global,
    binding: &mut Binding,
    name: &str,
    number: &str,
    from: u32,
    to: u32,
) -> Result<(), Memory> {
    let span = Span { from, to };
    let mut nodes = List::new(alloc);
    nodes.push(Node {
        kind: Kind::Number,
        text: Text::from_str(alloc, number)?,
        kids: List::new(alloc),
        span,
    })?;
    let bound = Bound {
        name: Text::from_str(alloc, name)?,
        span,
        nodes,
    };
    match binding.get(bound.name.as_str()) {
        Some(_) => Ok(()),
        None => binding.bind(bound),
    }
}

// A binding of names to numbers at ranges.
fn binding_of(alloc: Global, rows: &[(&str, &str, u32, u32)]) -> Result<Binding, Memory> {
    let mut binding = Binding::empty(alloc);
    for (name, number, from, to) in rows {
        add(alloc, &mut binding, *name, *number, *from, *to)?;
    }
    Ok(binding)
}

#[test]
fn bindings_agree(rt: HostRuntime) -> Result<(), Fail> {
    let first = binding_of(rt.alloc(), &[("$Y", "1", 0, 1), ("$...X", "2", 0, 1)])?;
    assert!(rt; first.bounds().len() == 2);
    assert!(rt; first.get("$Y").is_some() && first.get("$X").is_none());
    assert!(rt; first.agrees(&first.copy()?));
    for (row, agree) in [(("$Z", "3", 0, 1), true), (("$Y", "3", 0, 1), false)] {
        let second = binding_of(rt.alloc(), &[row])?;
        assert!(rt; first.agrees(&second) == agree);
    }
    Ok(())
}

// The later place is kept.
#[test]
fn bindings_merge(rt: HostRuntime) -> Result<(), Fail> {
    let first = binding_of(rt.alloc(), &[("$X", "1", 0, 1), ("$Y", "1", 4, 9)])?;
    let second = binding_of(
        rt.alloc(),
        &[("$X", "1", 2, 3), ("$Y", "1", 4, 5), ("$Z", "1", 6, 7)],
    )?;
    if !first.agrees(&second) {
        return Err(Fail::new("the bindings do not agree"));
    }
    let merged = first.merge(&second)?;
    assert!(rt; merged.bounds().len() == 3);
    assert!(rt; merged.bounds()[0].span == Span { from: 2, to: 3 });
    assert!(rt; merged.bounds()[1].span == Span { from: 4, to: 5 });
    Ok(())
}

#[test]
fn unbound_names_stay(rt: HostRuntime) -> Result<(), Fail> {
    let text = fill(rt.alloc(), "$X $...Y $ é", &Binding::empty(rt.alloc()), b"")?;
    assert!(rt; text.as_str() == "$X $...Y $ é");
    Ok(())
}
