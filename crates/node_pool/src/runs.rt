//! Runs of neighbouring siblings.

ghost use Rattle.std.specs.Prelude.{◌≡◌, ◌++◌, ◌^◌, [], ◌<◌, length, MatchOption};
ghost use Rattle.std.specs.Iterator.{YieldsFirst, item_count};
ghost use Rattle.node_pool.specs.Preorder.{AreAt};
ghost use Rattle.node_pool.specs.Runs.{longer, runs_of};

use crate::pool::NodePool;
use node_tree::Node;
use std::marker::Model;

/// Runs of siblings, each as the number of its first and how many they are, which contracts see as those that are left.
#[derive(Drop)]
pub struct PoolRuns<'p, 't> {
    pool: &'p NodePool<'t>,
    first: u32,
    done: u32,
    left: u32,
    next: u32,
    rest: &'t [Node],
}

impl<'p, 't> Model for PoolRuns<'p, 't> {
    ghost use Rattle.std.specs.Prelude.{ℕ, List, ◌++◌};
    ghost use Rattle.std.specs.Coded.{coded_list, coded×, coded_ℕ};
    ghost use Rattle.node_pool.specs.Runs.{longer, runs_of, AreRuns};

    ghost Value = { List (ℕ × ℕ) };

    ghost coded = { coded_list (coded× coded_ℕ coded_ℕ) };

    ghost view = { λ r. longer r.first r.done r.left ++ runs_of r.next r.rest.now };

    ghost invariant = { λ r. AreRuns r.pool.now.nodes r.next r.rest.now r.done r.left };
}

impl<'p, 't> PoolRuns<'p, 't> {
    // The runs of these siblings, where the first has that number.
    pub fn from(pool: &'p NodePool<'t>, next: u32, rest: &'t [Node]) -> PoolRuns<'p, 't>
        requires stand { AreAt pool.now.nodes next rest.now }
        requires few { length pool.now.nodes < 2 ^ 32 }
        ensures { result ≡ runs_of next rest.now }
    {
        PoolRuns {
            pool,
            first: 0,
            done: 0,
            left: 0,
            next,
            rest,
        }
    }
}

// The number of the next sibling, how many runs begin at the first of these, and those that follow it.
fn open<'t>(pool: &NodePool<'t>, next: u32, rest: &'t [Node]) -> Option<(u32, u32, &'t [Node])>
    requires stand { AreAt pool.now.nodes next rest.now }
    requires few { length pool.now.nodes < 2 ^ 32 }
    ensures runs { MatchOption result (runs_of next rest.now ≡ []) (λ r. runs_of next rest.now ≡ longer next 0 r.1 ++ runs_of r.0 r.2.now) }
    ensures some { MatchOption result (rest.now ≡ []) (λ r. 0 < r.1) }
    ensures at { MatchOption result (rest.now ≡ []) (λ r. AreAt pool.now.nodes r.0 r.2.now) }
{
    let (_, others) = rest.split_first()?;
    Some((next + pool.size(next), rest.len() as u32, others))
}

impl<'p, 't> Iterator for PoolRuns<'p, 't> {
    type Item = (u32, u32);

    ghost next_gives = { YieldsFirst (λ r. r) };

    ghost remaining = { item_count (λ r. r) };

    fn next(&mut self) -> Option<(u32, u32)> {
        if self.left > 0 {
            self.done += 1;
            self.left -= 1;
            return Some((self.first, self.done));
        }
        let at = self.next;
        let (next, left, rest) = open(self.pool, at, self.rest)?;
        self.first = at;
        self.done = 1;
        self.left = left - 1;
        self.next = next;
        self.rest = rest;
        Some((at, 1))
    }
}
