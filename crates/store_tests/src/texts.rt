//! Texts that are written and read.

use meta_bind::{Binding, Bound};
use node_tree::{Bytes, Kind, Known, Lang, List, Memory, Node, Pattern, Shape, Span, Text};
use piece_form::{KnownNames, PatternKey, Piece, PieceKey};
use std::alloc::Global;
use std::test::Fail;
use store_file::{Digest, MARK, Offer, read_store, store_text};
use store_form::add_number;
use tree_match::{Leaf, LeafSet};

// Texts that another program wrote: of no entry, of one, and of one more whose leaf is crowded.
const EMPTY: [u8; 48] = [
    115, 101, 109, 115, 99, 97, 110, 45, 115, 116, 111, 114, 101, 32, 49, 10, 119, 144, 103, 86,
    39, 172, 227, 18, 236, 121, 50, 167, 165, 235, 68, 254, 100, 214, 12, 96, 244, 155, 75, 19,
    181, 68, 211, 88, 1, 200, 250, 233,
];

const ONE: [u8; 167] = [
    115, 101, 109, 115, 99, 97, 110, 45, 115, 116, 111, 114, 101, 32, 49, 10, 191, 210, 76, 33,
    184, 224, 48, 33, 77, 158, 160, 124, 106, 224, 186, 116, 62, 127, 170, 123, 229, 26, 225, 91,
    230, 218, 196, 65, 139, 181, 243, 93, 93, 108, 168, 65, 177, 223, 206, 60, 57, 225, 84, 129,
    48, 243, 92, 220, 104, 238, 174, 169, 231, 192, 105, 204, 251, 155, 49, 249, 99, 89, 252, 217,
    1, 0, 0, 0, 0, 0, 0, 0, 1, 0, 0, 0, 1, 0, 0, 0, 2, 0, 0, 0, 36, 88, 0, 0, 0, 0, 1, 0, 0, 0, 1,
    0, 0, 0, 0, 0, 0, 0, 1, 0, 0, 0, 120, 0, 0, 0, 0, 0, 0, 0, 0, 0, 0, 0, 0, 243, 97, 14, 45, 225,
    32, 176, 118, 251, 84, 166, 243, 185, 227, 94, 105, 242, 98, 93, 48, 211, 177, 200, 140, 201,
    99, 154, 253, 86, 27, 231, 165,
];

const TWO: [u8; 235] = [
    115, 101, 109, 115, 99, 97, 110, 45, 115, 116, 111, 114, 101, 32, 49, 10, 93, 108, 168, 65,
    177, 223, 206, 60, 57, 225, 84, 129, 48, 243, 92, 220, 104, 238, 174, 169, 231, 192, 105, 204,
    251, 155, 49, 249, 99, 89, 252, 217, 191, 210, 76, 33, 184, 224, 48, 33, 77, 158, 160, 124,
    106, 224, 186, 116, 62, 127, 170, 123, 229, 26, 225, 91, 230, 218, 196, 65, 139, 181, 243, 93,
    255, 255, 255, 255, 191, 210, 76, 33, 184, 224, 48, 33, 77, 158, 160, 124, 106, 224, 186, 116,
    62, 127, 170, 123, 229, 26, 225, 91, 230, 218, 196, 65, 139, 181, 243, 93, 93, 108, 168, 65,
    177, 223, 206, 60, 57, 225, 84, 129, 48, 243, 92, 220, 104, 238, 174, 169, 231, 192, 105, 204,
    251, 155, 49, 249, 99, 89, 252, 217, 1, 0, 0, 0, 0, 0, 0, 0, 1, 0, 0, 0, 1, 0, 0, 0, 2, 0, 0,
    0, 36, 88, 0, 0, 0, 0, 1, 0, 0, 0, 1, 0, 0, 0, 0, 0, 0, 0, 1, 0, 0, 0, 120, 0, 0, 0, 0, 0, 0,
    0, 0, 0, 0, 0, 0, 248, 232, 172, 223, 143, 221, 128, 212, 220, 126, 198, 78, 65, 240, 128, 24,
    109, 70, 248, 150, 207, 148, 99, 234, 3, 201, 71, 15, 162, 149, 13, 204,
];

fn node(alloc: Global, kind: Kind, text: &str, from: u32, to: u32) -> Result<Node, Memory> {
    Ok(Node {
        kind,
        text: Text::from_str(alloc, text)?,
        kids: List::new(alloc),
        span: Span { from, to },
    })
}

fn piece(alloc: Global) -> Result<Digest, Memory> {
    let mut known = Vec::new(alloc);
    known.push(Known {
        at: 0,
        literal: node(alloc, Kind::Number, "7", 3, 4)?,
    })?;
    let piece = Piece {
        lang: Lang::Python,
        bytes: Bytes::from_slice(alloc, b"x")?,
        tree: node(alloc, Kind::Name, "x", 0, 1)?,
        known: KnownNames::of(List::from_vec(known)),
    };
    Digest::of_piece(alloc, &PieceKey::of(alloc, &piece)?)
}

fn pattern(alloc: Global) -> Result<Digest, Memory> {
    let pattern = Pattern {
        lang: Lang::Python,
        shape: Shape::Expr,
        tree: node(alloc, Kind::Meta, "$X", 0, 2)?,
        constants: true,
    };
    Digest::of_pattern(alloc, &PatternKey::of(alloc, &pattern)?)
}

fn leaf(alloc: Global) -> Result<Leaf, Memory> {
    let mut nodes = List::new(alloc);
    nodes.push(node(alloc, Kind::Id, "x", 0, 1)?)?;
    let mut bounds = List::new(alloc);
    bounds.push(Bound {
        name: Text::from_str(alloc, "$X")?,
        span: Span { from: 0, to: 1 },
        nodes,
    })?;
    let mut members = List::new(alloc);
    members.push((Span { from: 0, to: 1 }, Binding::of(bounds)))?;
    Ok(Leaf::Full(LeafSet::of(members)))
}

#[test]
fn writes_no_entry(rt: HostRuntime) -> Result<(), Fail> {
    let text = store_text(rt.alloc(), &[])?;
    assert_eq!(rt; text.as_slice(), EMPTY.as_slice());
    assert_eq!(rt; read_store(rt.alloc(), &EMPTY)?.len(), 0);
    Ok(())
}

#[test]
fn writes_entries_in_order(rt: HostRuntime) -> Result<(), Fail> {
    let alloc = rt.alloc();
    let (x, y) = (piece(alloc)?, pattern(alloc)?);
    let leaf = leaf(alloc)?;
    let first = Offer {
        piece: x,
        pattern: y,
        leaf: &leaf,
    };
    let text = store_text(alloc, &[first])?;
    assert_eq!(rt; text.as_slice(), ONE.as_slice());
    let second = Offer {
        piece: y,
        pattern: x,
        leaf: &Leaf::Crowded,
    };
    let late = Offer {
        piece: x,
        pattern: y,
        leaf: &Leaf::Crowded,
    };
    let text = store_text(alloc, &[first, second, late])?;
    assert_eq!(rt; text.as_slice(), TWO.as_slice());
    let text = store_text(alloc, &[second, first, late])?;
    assert_eq!(rt; text.as_slice(), TWO.as_slice());
    Ok(())
}

#[test]
fn finds_a_leaf(rt: HostRuntime) -> Result<(), Fail> {
    let alloc = rt.alloc();
    let (x, y) = (piece(alloc)?, pattern(alloc)?);
    let saved = read_store(alloc, &TWO)?;
    assert_eq!(rt; saved.len(), 2);
    match saved.find(&x, &y, b"x")? {
        Some(Leaf::Full(set)) => assert_eq!(rt; set.len(), 1),
        _ => assert!(rt; false),
    }
    assert!(rt; matches!(saved.find(&y, &x, b"")?, Some(Leaf::Crowded)));
    assert!(rt; saved.find(&x, &y, b"")?.is_none());
    assert!(rt; saved.find(&x, &y, b"\xc3\xa4")?.is_none());
    assert!(rt; saved.find(&x, &x, b"x")?.is_none());
    Ok(())
}

#[test]
fn reads_nothing_of_changed_texts(rt: HostRuntime) -> Result<(), Fail> {
    let alloc = rt.alloc();
    assert_eq!(rt; read_store(alloc, &ONE)?.len(), 1);
    for at in 0..ONE.len() {
        let mut text = ONE;
        text[at] ^= 1;
        assert_eq!(rt; read_store(alloc, &text)?.len(), 0);
        assert_eq!(rt; read_store(alloc, &ONE[..at])?.len(), 0);
    }
    Ok(())
}

// The number of entries that are read of these bytes between the mark and the digest.
fn read_between(alloc: Global, entries: &[u8]) -> Result<usize, Memory> {
    let mut text = Bytes::from_slice(alloc, &MARK)?;
    text.extend(entries)?;
    let digest = Digest::of(text.as_slice());
    text.extend(&digest.bytes)?;
    Ok(read_store(alloc, text.as_slice())?.len())
}

#[test]
fn reads_nothing_of_what_is_no_text(rt: HostRuntime) -> Result<(), Fail> {
    let alloc = rt.alloc();
    let both = &TWO[16..TWO.len() - 32];
    let one = &ONE[16..ONE.len() - 32];
    assert_eq!(rt; read_between(alloc, both)?, 2);
    assert_eq!(rt; read_between(alloc, one)?, 1);
    let mut turned = Bytes::from_slice(alloc, &both[both.len() - one.len()..])?;
    turned.extend(&both[..both.len() - one.len()])?;
    assert_eq!(rt; read_between(alloc, turned.as_slice())?, 0);
    let mut twice = Bytes::from_slice(alloc, one)?;
    twice.extend(one)?;
    assert_eq!(rt; read_between(alloc, twice.as_slice())?, 0);
    for at in 0..one.len() {
        assert_eq!(rt; read_between(alloc, &one[..at])?, 0);
    }
    Ok(())
}

// Places in the entry of `ONE`, and bytes with which it is none: more members than there are, a kind `Id` and one that is none,
// a node with a range, a text that is not UTF-8, kids that are not there, and so on.
const SPOILT: [(usize, u8); 9] = [
    (64, 2),
    (67, 255),
    (76, 2),
    (98, 32),
    (98, 102),
    (106, 255),
    (107, 1),
    (111, 1),
    (118, 255),
];

#[test]
fn reads_nothing_of_spoilt_entries(rt: HostRuntime) -> Result<(), Fail> {
    let alloc = rt.alloc();
    let one = &ONE[16..ONE.len() - 32];
    for (at, byte) in SPOILT {
        let mut entry = Bytes::from_slice(alloc, &one[..at.min(one.len())])?;
        entry.push(byte)?;
        entry.extend(&one[(at + 1).min(one.len())..])?;
        assert_eq!(rt; entry.len(), one.len());
        assert_eq!(rt; read_between(alloc, entry.as_slice())?, 0);
    }
    Ok(())
}

// The digests of an entry.
fn begun(alloc: Global) -> Result<Bytes, Memory> {
    Bytes::from_slice(alloc, &[7; 64])
}

fn add(out: &mut Bytes, numbers: &[u32]) -> Result<(), Fail> {
    for number in numbers {
        add_number(out, *number)?;
    }
    Ok(())
}

// An entry with a node of so many levels.
fn deep(alloc: Global, levels: u32) -> Result<Bytes, Fail> {
    let mut entry = begun(alloc)?;
    add(&mut entry, &[1, 0, 1, 1, 2])?;
    entry.extend(b"$X")?;
    add(&mut entry, &[0, 1, 1])?;
    for _ in 1..levels {
        add(&mut entry, &[0, 0, 0, 0, 1])?;
    }
    add(&mut entry, &[0, 0, 0, 0, 0])?;
    Ok(entry)
}

// An entry with so many members.
fn wide(alloc: Global, members: u32) -> Result<Bytes, Fail> {
    let mut entry = begun(alloc)?;
    add(&mut entry, &[members])?;
    for at in 0..members {
        add(&mut entry, &[at, at, 0])?;
    }
    Ok(entry)
}

#[test]
fn keeps_its_limits(rt: HostRuntime) -> Result<(), Fail> {
    let alloc = rt.alloc();
    assert_eq!(rt; read_between(alloc, deep(alloc, 509)?.as_slice())?, 1);
    assert_eq!(rt; read_between(alloc, deep(alloc, 510)?.as_slice())?, 0);
    assert_eq!(rt; read_between(alloc, wide(alloc, 10000)?.as_slice())?, 1);
    assert_eq!(rt; read_between(alloc, wide(alloc, 10001)?.as_slice())?, 0);
    Ok(())
}
