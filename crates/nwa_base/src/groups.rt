//! Values in groups, each found by its key.

ghost use Rattle.std.specs.HashMap.{get};
ghost use Rattle.nwa_base.specs.Groups.{grouped};
ghost use Rattle.std.specs.Prelude.{◌≡◌, List, [], ◌∷◌, ◌++◌, OnOk, OnErr, if◌then◌else◌};

use crate::number_hasher::NumberHasher;
use std::alloc::{AllocError, Global};
use std::collections::HashMap;
use std::hash::{BuildHasherDefault, Hash};

/// Values in groups, each found by its key. Contracts see the list of values of each key.
#[derive(Drop)]
pub struct Groups<K: Eq + Hash + Drop, V: Drop> {
    alloc: Global,
    by_key: HashMap<K, Vec<V>, BuildHasherDefault<NumberHasher>>,
}

impl<K: Eq + Hash + Drop, V: Drop> Groups<K, V> {
    /// No groups.
    pub fn new(alloc: Global) -> Self
        ensures { (key : K) → grouped (get K.eq result.by_key key) ≡ [] }
    {
        Groups {
            alloc,
            by_key: HashMap::with_hasher(alloc, BuildHasherDefault::new()),
        }
    }

    /// The values of a key, in the order in which they were added.
    pub fn of(&self, key: &K) -> &[V]
        ensures { result.now ≡ grouped (get K.eq self.now.by_key key.now) }
    {
        match self.by_key.get(key) {
            Some(group) => group.as_slice(),
            None => &[],
        }
    }

    /// Adds a value at the end of its group.
    pub fn add(&mut self, key: K, value: V) -> Result<(), AllocError>
        ensures ok { OnOk result ((k : K) → grouped (get K.eq self.new.by_key k) ≡ (if K.eq key k then grouped (get K.eq self.old.by_key k) ++ value ∷ [] else grouped (get K.eq self.old.by_key k))) }
        ensures err { OnErr result ((k : K) → grouped (get K.eq self.new.by_key k) ≡ grouped (get K.eq self.old.by_key k)) }
    {
        if let Some(group) = self.by_key.get_mut(&key) {
            group.push(value)?;
            return Ok(());
        }
        let mut group = Vec::new(self.alloc);
        group.push(value)?;
        self.by_key.insert(key, group)?;
        Ok(())
    }

    /// Takes the last value out of a group.
    pub fn drop_last(&mut self, key: &K)
        ensures { (k : K) (rest : List V) (value : V) → grouped (get K.eq self.old.by_key key.now) ≡ rest ++ value ∷ [] →
            grouped (get K.eq self.new.by_key k) ≡ (if K.eq key.now k then rest else grouped (get K.eq self.old.by_key k)) }
    {
        if let Some(group) = self.by_key.get_mut(key) {
            let _ = group.pop();
        }
    }
}
