//! Steps of the search: facts that are new at a point, and the paths that they make.

ghost use Rattle.std.specs.Prelude.{◌≡◌, ◌+◌, ◌*◌, ◌<◌, ◌≤◌, ◌^◌, ℕ, length, slice_range, OnOk, IfOk};
ghost use Rattle.graph_form.specs.Sets.{Among};
ghost use Rattle.trace_path.specs.declared.queue.Class.{Class as class_form};
ghost use Rattle.trace_path.specs.Fresh.{missing, Notes, Gathers};
ghost use Rattle.trace_path.specs.Queue.{IsIn, Within, Steps, IsFirst};

use crate::queue::{Class, Queue};
use flow_reach::bits;
use node_tree::Memory;
use std::alloc::Global;

impl Queue {
    /// The facts of a class.
    pub fn facts_of(&self, at: usize) -> &[u32]
        requires inside { at < length self.now.classes.items }
        requires within { Within self.now }
        ensures { (c : class_form) → IsIn self.now.classes.items at c →
            result.now ≡ slice_range self.now.facts.items c.first c.end }
    {
        let class = &self.classes[at];
        &self.facts[class.first as usize..class.end as usize]
    }

    // Notes the fact at a point whose facts begin at a number, if it is new there.
    fn note(&mut self, base: usize, fact: u32) -> Result<(), Memory>
        requires small { length self.old.seen.items < 2 ^ 32 }
        requires room { base + fact < 64 * length self.old.seen.items }
        ensures notes { OnOk result (Notes base fact
            self.old.seen.items self.new.seen.items self.old.facts.items self.new.facts.items) }
        ensures classes { self.new.classes ≡ self.old.classes }
    {
        let at = base + fact as usize;
        if bits::has(&self.seen, at) {
            return Ok(());
        }
        bits::put(&mut self.seen, at / 64, bits::one(at));
        self.facts.push(fact)?;
        Ok(())
    }

    // Notes these facts at a point whose facts begin at a number.
    fn gather(&mut self, base: usize, facts: &[u32]) -> Result<(), Memory>
        requires small { length self.old.seen.items < 2 ^ 32 }
        requires room { (fact : ℕ) → Among facts.now fact →
            base + fact < 64 * length self.old.seen.items }
        ensures gathers { OnOk result (Gathers base facts.now
            self.old.seen.items self.new.seen.items self.old.facts.items self.new.facts.items) }
        ensures classes { self.new.classes ≡ self.old.classes }
    {
        for fact in facts {
            self.note(base, *fact)?;
        }
        Ok(())
    }

    /// Lengthens the paths of a class by a point whose facts begin at a number, if they carry new ones of these facts there.
    pub fn lengthen(
        &mut self,
        head: u32,
        point: u32,
        base: usize,
        turned: &[u32],
    ) -> Result<(), Memory>
        requires within { Within self.old }
        requires small { length self.old.seen.items < 2 ^ 32 }
        requires few { length self.old.facts.items + missing self.old.seen.items < 2 ^ 32 }
        requires room { (fact : ℕ) → Among turned.now fact →
            base + fact < 64 * length self.old.seen.items }
        ensures { OnOk result (Steps head point base turned.now self.old self.new) }
    {
        let first = self.facts.len();
        self.gather(base, turned)?;
        let end = self.facts.len();
        if end == first {
            return Ok(());
        }
        self.classes.push(Class {
            point,
            parent: head,
            first: first as u32,
            end: end as u32,
        })?;
        Ok(())
    }

    /// The paths of no step, with these facts, and room for pairs in so many words.
    pub fn new(alloc: Global, words: usize, start: &[u32]) -> Result<Queue, Memory>
        requires few { words ≤ 50000000 }
        requires room { (fact : ℕ) → Among start.now fact → fact < 64 * words }
        ensures { IfOk result (IsFirst words start.now) }
    {
        let mut queue = Queue {
            classes: Vec::new(alloc),
            facts: Vec::new(alloc),
            seen: bits::none(alloc, words)?,
        };
        queue.gather(0, start)?;
        let end = queue.facts.len();
        queue.classes.push(Class {
            point: 0,
            parent: 0,
            first: 0,
            end: end as u32,
        })?;
        Ok(queue)
    }
}
