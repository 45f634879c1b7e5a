//! Placing a tree.

ghost use Rattle.std.specs.Prelude.{◌≡◌, ◌+◌, ◌<◌, ◌≤◌, ◌^◌, ◌++◌, ◌∷◌, [], slice_set, map, vec_len, vec_capacity};
ghost use Rattle.node_tree.specs.Tree.{pre_of};
ghost use Rattle.node_tree.specs.Numbers.{count_of};
ghost use Rattle.node_pool.specs.Entries.{seen, sized};

use crate::pool::Entry;
use node_tree::Node;

// Adds an entry where there is memory for it.
fn add<'t>(entries: &mut Vec<Entry<'t>>, entry: Entry<'t>)
    requires { vec_len entries.old < vec_capacity entries.old }
    ensures items { entries.new.items ≡ entries.old.items ++ entry.entry ∷ [] }
    ensures memory { vec_capacity entries.old ≤ vec_capacity entries.new }
{
    let _ = entries.push(entry);
}

// Puts an entry in the place of the one there.
fn replace<'t>(entries: &mut Vec<Entry<'t>>, at: usize, entry: Entry<'t>)
    requires { at < vec_len entries.old }
    ensures items { entries.new.items ≡ slice_set entries.old.items at entry.entry }
    ensures memory { vec_capacity entries.new ≡ vec_capacity entries.old }
{
    entries[at] = entry;
}

/// Adds the nodes of the tree in preorder, and gives how many they are.
pub fn put<'t>(entries: &mut Vec<Entry<'t>>, tree: &'t Node) -> u32
    requires room { vec_len entries.old + count_of tree.now ≤ vec_capacity entries.old }
    requires fits { count_of tree.now < 2 ^ 32 }
    ensures entries { map seen entries.new.items ≡ map seen entries.old.items ++ map sized (pre_of tree.now) }
    ensures size { result ≡ count_of tree.now }
    ensures memory { vec_capacity entries.old ≤ vec_capacity entries.new }
{
    let at = entries.len();
    add(
        entries,
        Entry {
            node: tree,
            size: 0,
        },
    );
    let mut size: u32 = 1;
    for kid in tree.kids.as_slice() {
        size += put(entries, kid);
    }
    replace(entries, at, Entry { node: tree, size });
    size
}
