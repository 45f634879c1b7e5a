//! Keys with numbers.

ghost use Rattle.std.specs.Prelude.{◌≡◌, [], length, OnOk};
ghost use Rattle.std.specs.BTreeMap.{get};
ghost use Rattle.taint_form.specs.Tables.{AreNumbers, with_key};

use node_tree::Memory;
use std::alloc::Global;
use std::collections::BTreeMap;

/// Different keys, each with a number, in the order in which they came.
#[derive(Drop)]
pub struct Table<K: Ord> {
    pub numbers: BTreeMap<K, u32>,
    pub keys: Vec<K>,
}

impl<K: Ord + Copy + Drop> Table<K> {
    /// No keys.
    pub fn new(alloc: Global) -> Table<K>
        ensures empty { result.keys.items ≡ [] }
        ensures numbers { AreNumbers K.cmp result.numbers result.keys.items }
    {
        Table {
            numbers: BTreeMap::new(alloc),
            keys: Vec::new(alloc),
        }
    }

    /// How many keys there are.
    pub fn len(&self) -> usize
        ensures { result ≡ length self.now.keys.items }
    {
        self.keys.len()
    }

    /// The number of a key.
    pub fn find(&self, key: K) -> Option<u32>
        ensures { result ≡ get K.cmp self.now.numbers key }
    {
        match self.numbers.get(&key) {
            Some(number) => Some(*number),
            None => None,
        }
    }

    /// Adds a key, unless it is there.
    pub fn add(&mut self, key: K) -> Result<(), Memory>
        requires { AreNumbers K.cmp self.old.numbers self.old.keys.items }
        ensures numbers { OnOk result (AreNumbers K.cmp self.new.numbers self.new.keys.items) }
        ensures keys { OnOk result (self.new.keys.items ≡ with_key (get K.cmp self.old.numbers key) self.old.keys.items key) }
    {
        if self.numbers.contains_key(&key) {
            return Ok(());
        }
        let number = self.len();
        if number >= u32::MAX as usize {
            return Err(Memory);
        }
        self.keys.push(key)?;
        self.numbers.insert(key, number as u32)?;
        Ok(())
    }

    /// The keys in the order of their numbers.
    pub fn keys(&self) -> &[K]
        ensures { result.now ≡ self.now.keys.items }
    {
        &self.keys
    }
}
