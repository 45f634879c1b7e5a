//! Paths in order.

ghost use Rattle.std.specs.Prelude.{◌≡◌, ◌↔◌, ◌⊎◌, ℕ, List as list, [], ◌∷◌, ◌++◌, ◌≤◌, length, take, drop, Contains, IsTrue, MatchOption, OnOk};
ghost use Rattle.scan_world.specs.Files.{IsBelow, IsUnder, PathsAscend};

use node_tree::{List, Memory, Text};
use std::cmp::Ordering;

// Whether what follows a prefix is nothing, or begins with a slash.
fn begins_below(rest: &[u8]) -> bool
    ensures { IsTrue result ↔ IsBelow rest.now }
{
    match rest {
        [] => true,
        [first, ..] => *first == b'/',
    }
}

/// Whether a path is the prefix or lies in the folder of that name. All paths lie in the folder `.`.
pub fn is_under(prefix: &str, path: &str) -> bool
    ensures { IsTrue result ↔ IsUnder prefix.now path.now }
{
    prefix == "."
        || match path.as_bytes().strip_prefix(prefix.as_bytes()) {
            None => false,
            Some(rest) => begins_below(rest),
        }
}

// Where a path belongs, if it isn't there yet.
fn place_of(paths: &[Text], path: &str) -> Option<usize>
    requires { PathsAscend paths.now }
    ensures { MatchOption result (Contains paths.now path.now)
        (λ at. (at ≤ length paths.now) × PathsAscend (take at paths.now ++ path.now ∷ drop at paths.now)) }
{
    let mut low = 0;
    let mut high = paths.len();
    while low < high {
        let middle = low + (high - low) / 2;
        match path.cmp(paths[middle].as_str()) {
            Ordering::Greater => low = middle + 1,
            Ordering::Equal => return None,
            Ordering::Less => high = middle,
        }
    }
    Some(low)
}

/// Adds a path, where it is not there yet.
pub fn put_path(paths: &mut List<Text>, path: &str) -> Result<(), Memory>
    requires { PathsAscend paths.old }
    ensures ordered { PathsAscend paths.new }
    ensures added { OnOk result ((other : list ℕ) → Contains paths.new other ↔ (Contains paths.old other ⊎ (path.now ≡ other))) }
{
    if let Some(at) = place_of(paths.as_slice(), path) {
        let text = Text::from_str(paths.alloc(), path)?;
        paths.insert(at, text)?;
    }
    Ok(())
}
