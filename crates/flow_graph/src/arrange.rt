//! Points and edges in order, each once.

ghost use Rattle.std.specs.Prelude.{◌≡◌, ◌⊎◌, ◌<◌, ◌↔◌, ◌+◌, ◌^◌, ℕ, length, map, IfOk, OnOk, MatchOption};
ghost use Rattle.graph_form.specs.Sets.{Among};
ghost use Rattle.flow_graph.specs.Keys.{key_of, role_at, decoded, edge_of, Ascends, Stays, Settles, IsPlace, IsCodeOf, IsCode, Transfers};
ghost use Rattle.flow_graph.specs.Units.{IsGraphOf};

use flow_edges::Transfer;
use graph_form::{Edge, Graph, Point, Role};
use node_tree::{List, Memory};
use std::alloc::Global;

// The number of a point in the order of points.
fn key(point: Point) -> u64
    ensures key { result ≡ key_of point }
    ensures small { result < 2 ^ 35 }
{
    let role = match point.role {
        Role::Entry => 0,
        Role::Exit => 1,
        Role::Head => 2,
        Role::Init => 3,
        Role::Test => 4,
        Role::Step => 5,
    };
    point.node as u64 * 8 + role
}

// The role at that place in the order of roles.
fn role_of(place: u64) -> Role
    ensures { result ≡ role_at place }
{
    if place == 0 {
        return Role::Entry;
    }
    if place == 1 {
        return Role::Exit;
    }
    if place == 2 {
        return Role::Head;
    }
    if place == 3 {
        return Role::Init;
    }
    if place == 4 {
        return Role::Test;
    }
    Role::Step
}

// The point of that number.
fn point_of(key: u64) -> Point
    requires { key < 2 ^ 35 }
    ensures { result ≡ decoded key }
{
    Point {
        node: (key / 8) as u32,
        role: role_of(key % 8),
    }
}

// Adds the number at that place, unless it is that before it.
fn add_number(all: &mut Vec<u64>, numbers: &[u64], at: usize) -> Result<(), Memory>
    requires stays { Stays numbers.now }
    requires at { at < length numbers.now }
    requires settles { Settles numbers.now at all.old.items }
    ensures { OnOk result (Settles numbers.now (at + 1) all.new.items) }
{
    if at == 0 {
        all.push(numbers[at])?;
        return Ok(());
    }
    if numbers[at - 1] < numbers[at] {
        all.push(numbers[at])?;
        return Ok(());
    }
    Ok(())
}

// The numbers in order, each once.
fn settled(alloc: Global, mut numbers: Vec<u64>) -> Result<Vec<u64>, Memory>
    ensures same { IfOk result (λ all. (x : ℕ) → Among all.items x ↔ Among numbers.items x) }
    ensures ascends { IfOk result (λ all. Ascends all.items) }
{
    numbers.sort()?;
    let mut all = Vec::new(alloc);
    for at in 0..numbers.len() {
        add_number(&mut all, &numbers, at)?;
    }
    Ok(all)
}

// The place of a number, if it is there.
fn place_of(numbers: &[u64], number: u64) -> Option<usize>
    requires { Ascends numbers.now }
    ensures { MatchOption result (Among numbers.now number → ⊥) (λ i. IsPlace numbers.now number i) }
{
    let mut low = 0;
    let mut high = numbers.len();
    while low < high {
        let mid = low + (high - low) / 2;
        if numbers[mid] < number {
            low = mid + 1;
        } else {
            high = mid;
        }
    }
    if low == numbers.len() {
        return None;
    }
    if numbers[low] != number {
        return None;
    }
    Some(low)
}

// The numbers of these points.
fn keys_of(alloc: Global, points: &[Point]) -> Result<Vec<u64>, Memory>
    ensures keys { IfOk result (λ keys. keys.items ≡ map key_of points.now) }
    ensures small { IfOk result (λ keys. (k : ℕ) → Among keys.items k → k < 2 ^ 35) }
{
    let mut keys = Vec::new(alloc);
    for point in points {
        keys.push(key(*point))?;
    }
    Ok(keys)
}

// Adds the number of the edge along which the transfer goes, if its points are there.
fn add_code(keys: &[u64], transfer: &Transfer, codes: &mut Vec<u64>) -> Result<(), Memory>
    requires ascends { Ascends keys.now }
    requires few { length keys.now < 2 ^ 32 }
    ensures { OnOk result ((x : ℕ) → Among codes.new.items x ↔ (Among codes.old.items x ⊎ IsCodeOf keys.now transfer.now x)) }
{
    let Some(from) = place_of(keys, key(transfer.from)) else {
        return Ok(());
    };
    let Some(to) = place_of(keys, key(transfer.to)) else {
        return Ok(());
    };
    codes.push(from as u64 * 4294967296 + to as u64)?;
    Ok(())
}

// The numbers of the edges between these points.
fn codes_of(alloc: Global, keys: &[u64], transfers: &[Transfer]) -> Result<Vec<u64>, Memory>
    requires ascends { Ascends keys.now }
    requires few { length keys.now < 2 ^ 32 }
    ensures { IfOk result (λ codes. (x : ℕ) → Among codes.items x ↔ IsCode keys.now transfers.now x) }
{
    let mut codes = Vec::new(alloc);
    for transfer in transfers {
        add_code(keys, transfer, &mut codes)?;
    }
    Ok(codes)
}

/// The graph of these points and of the transfers of control between them.
pub fn arranged(alloc: Global, points: &[Point], transfers: &[Transfer]) -> Result<Graph, Memory>
    ensures { IfOk result (IsGraphOf points.now (Transfers transfers.now)) }
{
    let keys = settled(alloc, keys_of(alloc, points)?)?;
    if keys.len() > 4294967295 {
        return Err(Memory);
    }
    let codes = settled(alloc, codes_of(alloc, &keys, transfers)?)?;
    Ok(Graph {
        points: decoded_points(alloc, &keys)?,
        edges: decoded_edges(alloc, &codes)?,
    })
}

// The points of these numbers.
fn decoded_points(alloc: Global, keys: &[u64]) -> Result<List<Point>, Memory>
    requires { (k : ℕ) → Among keys.now k → k < 2 ^ 35 }
    ensures { IfOk result (λ points. points ≡ map decoded keys.now) }
{
    let mut points = List::new(alloc);
    for key in keys {
        points.push(point_of(*key))?;
    }
    Ok(points)
}

// The edges of these numbers.
fn decoded_edges(alloc: Global, codes: &[u64]) -> Result<List<Edge>, Memory>
    ensures { IfOk result (λ edges. edges ≡ map edge_of codes.now) }
{
    let mut edges = List::new(alloc);
    for code in codes {
        edges.push(Edge {
            from: (*code / 4294967296) as u32,
            to: (*code % 4294967296) as u32,
        })?;
    }
    Ok(edges)
}
