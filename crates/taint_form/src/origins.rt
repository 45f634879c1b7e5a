//! What the nodes of a point do together: from which facts each name that they touch takes its taint.

ghost use Rattle.std.specs.Prelude.{◌≡◌, ◌⊎◌, ◌↔◌, ◌∷◌, [], ℕ, IfOk, OnOk};
ghost use Rattle.graph_form.specs.Sets.{Among};
ghost use Rattle.flow_reach.specs.Carried.{TurnsBy};
ghost use Rattle.taint_form.specs.Origins.{Comes, ComesAny, AddsBy, AfterOne, IsListed, JoinsTo};

use flow_reach::Move;
use node_tree::{List, Memory};
use std::alloc::Global;
use std::collections::BTreeMap;

/// The same numbers in order, each once.
pub fn ordered(mut numbers: Vec<u32>) -> Result<Vec<u32>, Memory>
    ensures { IfOk result (λ all. (x : ℕ) → Among all.items x ↔ Among numbers.items x) }
{
    numbers.sort()?;
    numbers.dedup();
    Ok(numbers)
}

/// A target: its fact, and whether nothing is left of what it held.
#[derive(Clone, Copy)]
pub struct Aim {
    pub fact: u32,
    pub renewed: bool,
}

/// From which facts before the point the facts of touched names come. Others come from themselves.
#[derive(Drop)]
pub struct Origins {
    pub touched: Vec<u32>,
    pub from: BTreeMap<u32, Vec<u32>>,
}

impl Origins {
    /// Nothing is touched.
    pub fn new(alloc: Global) -> Origins
        ensures same { (from to : ℕ) → Comes result from to ↔ (to ≡ from) }
        ensures listed { IsListed result }
    {
        Origins {
            touched: Vec::new(alloc),
            from: BTreeMap::new(alloc),
        }
    }

    // Adds the facts from which a fact comes.
    fn add_origins(&self, fact: u32, into: &mut Vec<u32>) -> Result<(), Memory>
        ensures { OnOk result ((from : ℕ) → Among into.new.items from ↔
            (Among into.old.items from ⊎ Comes self.now from fact)) }
    {
        let Some(origins) = self.from.get(&fact) else {
            into.push(fact)?;
            return Ok(());
        };
        for origin in origins {
            into.push(*origin)?;
        }
        Ok(())
    }

    // The facts from which these come, in order, each once.
    fn origins(&self, alloc: Global, facts: &[u32]) -> Result<Vec<u32>, Memory>
        ensures { IfOk result (λ all. (from : ℕ) → Among all.items from ↔
            ComesAny (Comes self.now) facts.now from) }
    {
        let mut all = Vec::new(alloc);
        for fact in facts {
            self.add_origins(*fact, &mut all)?;
        }
        let all = ordered(all)?;
        Ok(all)
    }

    // Lists a fact that is touched.
    fn list(&mut self, fact: u32) -> Result<(), Memory>
        requires { IsListed self.old }
        ensures same { OnOk result (self.new.from ≡ self.old.from) }
        ensures listed { OnOk result ((f : ℕ) → Among self.new.touched.items f ↔
            (Among self.old.touched.items f ⊎ (fact ≡ f))) }
    {
        if self.from.contains_key(&fact) {
            return Ok(());
        }
        self.touched.push(fact)?;
        Ok(())
    }

    // Lets a fact come from these.
    fn touch(&mut self, fact: u32, origins: Vec<u32>) -> Result<(), Memory>
        requires { IsListed self.old }
        ensures listed { OnOk result (IsListed self.new) }
        ensures here { OnOk result ((from : ℕ) → Comes self.new from fact ↔ Among origins.items from) }
        ensures others { OnOk result ((from to : ℕ) → (fact ≡ to → ⊥) →
            Comes self.new from to ↔ Comes self.old from to) }
    {
        self.list(fact)?;
        self.from.insert(fact, origins)?;
        Ok(())
    }

    // What a target comes from, where its value comes from these facts.
    fn joined(&self, alloc: Global, value: &[u32], aim: Aim) -> Result<Vec<u32>, Memory>
        ensures { IfOk result (λ all. (from : ℕ) → Among all.items from ↔
            JoinsTo value.now (Comes self.now) aim from) }
    {
        let mut origins = Vec::new(alloc);
        for origin in value {
            origins.push(*origin)?;
        }
        if aim.renewed {
            return Ok(origins);
        }
        self.add_origins(aim.fact, &mut origins)?;
        let all = ordered(origins)?;
        Ok(all)
    }

    // Lets a target take a value that comes from these facts.
    fn assign_one(&mut self, alloc: Global, value: &[u32], aim: Aim) -> Result<(), Memory>
        requires { IsListed self.old }
        ensures listed { OnOk result (IsListed self.new) }
        ensures after { OnOk result ((from to : ℕ) → Comes self.new from to ↔
            AfterOne (Among value.now) (Comes self.old) (aim ∷ []) from to) }
    {
        let origins = self.joined(alloc, value, aim)?;
        self.touch(aim.fact, origins)?;
        Ok(())
    }

    /// Lets these targets take a value that these facts taint.
    pub fn assign(&mut self, alloc: Global, facts: &[u32], aims: &[Aim]) -> Result<(), Memory>
        requires { IsListed self.old }
        ensures listed { OnOk result (IsListed self.new) }
        ensures after { OnOk result ((from to : ℕ) → Comes self.new from to ↔
            AfterOne (ComesAny (Comes self.old) facts.now) (Comes self.old) aims.now from to) }
    {
        let value = self.origins(alloc, facts)?;
        for aim in aims {
            self.assign_one(alloc, &value, *aim)?;
        }
        Ok(())
    }

    // Adds the pairs of a fact and those from which it comes.
    fn add_pairs(&self, fact: u32, adds: &mut List<(u32, u32)>) -> Result<(), Memory>
        ensures { OnOk result ((from to : ℕ) → Among adds.new (from, to) ↔
            (Among adds.old (from, to) ⊎ AddsBy self.now fact from to)) }
    {
        if let Some(origins) = self.from.get(&fact) {
            for origin in origins {
                adds.push((*origin, fact))?;
            }
        }
        Ok(())
    }

    /// What the point does, with these pairs of facts that it carries over.
    pub fn row(&self, alloc: Global, carried: &[(u32, u32)]) -> Result<Move, Memory>
        requires { IsListed self.now }
        ensures { IfOk result (λ row. (from to : ℕ) → TurnsBy row from to ↔
            (Comes self.now from to ⊎ Among carried.now (from, to))) }
    {
        let mut drops = List::new(alloc);
        let mut adds = List::new(alloc);
        for fact in &self.touched {
            drops.push(*fact)?;
            self.add_pairs(*fact, &mut adds)?;
        }
        for pair in carried {
            adds.push(*pair)?;
        }
        Ok(Move { drops, adds })
    }
}
