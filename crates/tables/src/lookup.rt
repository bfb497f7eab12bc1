//! A map in which keys are found by their hash.

ghost use Rattle.std.specs.Prelude.{
  ◌≡◌,
  IsOk,
  IsSome,
  IsTrue,
  None,
  OnErr,
  OnOk,
  Some,
  false,
  option_copied,
};
ghost use Rattle.std.specs.FinMap as map;
ghost use Rattle.std.specs.HashMap.{IsUnchanged, Updates, get};
ghost use Rattle.tables.specs.Lookups.{IsListing};
ghost use Rattle.tables.specs.Tables.{shown_of, rooms_of};

use crate::found::Found;
use crate::hash_seed::HashSeed;
use crate::key::TableKey;
use std::alloc::{AllocError, Global};
use std::collections::HashMap;
use std::collections::hash_map::Entry;
use std::hash::Hash;
use std::marker::Model;

/// A map from keys to values, as a `Table`, for keys that are only looked up: there is no first key and no range. A
/// key may have room for a value and no value yet. Each call costs a constant time, but for one that takes memory: it
/// may move all entries, so that many cost a constant time each.
#[derive(Drop)]
pub struct Lookup<K: TableKey + Hash, V> {
    slots: HashMap<K, Option<V>, HashSeed, Global>,
}

impl<K: TableKey + Hash, V> Model for Lookup<K, V> {
    ghost use Rattle.std.specs.Prelude.{List, Option};
    ghost use Rattle.tables.specs.Lookups.{slots_of};

    ghost Value = { List (K × Option V) };

    ghost view = { λ l. slots_of K.cmp l.slots.entries };
}

/// Makes a slot for a key that has none. It searches for the key once.
fn make_slot<K: Copy + Hash, V: Drop>(
    slots: &mut HashMap<K, Option<V>, HashSeed, Global>,
    key: K,
) -> Result<(), AllocError>
    ensures found { OnOk result (IsSome (get K.eq slots.old key) → IsUnchanged slots.old slots.new) }
    ensures made { OnOk result (get K.eq slots.old key ≡ None → Updates K.eq slots.old slots.new key (Some None)) }
    ensures absent { OnErr result (get K.eq slots.old key ≡ None) }
    ensures err { OnErr result (IsUnchanged slots.old slots.new) }
{
    match slots.entry(key)? {
        Entry::Occupied(spot) => {
            let _slot = spot.get();
        }
        Entry::Vacant(spot) => {
            spot.insert(None);
        }
    }
    Ok(())
}

impl<K: TableKey + Hash, V> Lookup<K, V> {
    /// A map with no value and no room. It takes no memory.
    pub fn new(alloc: Global, seed: HashSeed) -> Self
        ensures shown { shown_of K.cmp result ≡ map.empty }
        ensures room { rooms_of K.cmp result ≡ map.empty }
    {
        Lookup {
            slots: HashMap::with_hasher(alloc, seed),
        }
    }

    /// The value of a key.
    pub fn get(&self, key: K) -> Option<&V>
        ensures { option_copied result ≡ map.get (shown_of K.cmp self.now) key }
    {
        match self.slots.get(&key) {
            Some(slot) => slot.as_ref(),
            None => None,
        }
    }

    /// Whether the key has a value.
    pub fn contains(&self, key: K) -> bool
        ensures { result ≡ map.contains_key (shown_of K.cmp self.now) key }
    {
        self.get(key).is_some()
    }

    /// Each key that has a value with it, once, in an order that is left open.
    pub fn iter(&self) -> Found<'_, K, V>
        ensures { IsListing (shown_of K.cmp self.now) result }
    {
        Found {
            slots: self.slots.iter(),
        }
    }
}

impl<K: TableKey + Hash, V: Drop> Lookup<K, V> {
    /// Takes the room that a value of the key needs, where the key has neither. An error is want of memory. What the
    /// map shows is as it was in either case.
    pub fn reserve(&mut self, key: K) -> Result<(), AllocError>
        ensures shown { shown_of K.cmp self.new ≡ shown_of K.cmp self.old }
        ensures room { OnOk result (rooms_of K.cmp self.new ≡ map.insert (rooms_of K.cmp self.old) key tt) }
        ensures ready { OnOk result (IsTrue (map.contains_key (rooms_of K.cmp self.new) key)) }
        ensures keeps { (q : K) → IsTrue (map.contains_key (rooms_of K.cmp self.old) q) → IsTrue (map.contains_key (rooms_of K.cmp self.new) q) }
        ensures again { IsTrue (map.contains_key (rooms_of K.cmp self.old) key) → IsOk result }
        ensures err { OnErr result (self.new ≡ self.old) }
    {
        make_slot(&mut self.slots, key)?;
        Ok(())
    }

    /// Sets the value of a key that has room or a value. It takes no memory.
    pub fn put(&mut self, key: K, value: V)
        requires { IsTrue (map.contains_key (rooms_of K.cmp self.old) key) }
        ensures shown { shown_of K.cmp self.new ≡ map.insert (shown_of K.cmp self.old) key value }
        ensures room { rooms_of K.cmp self.new ≡ rooms_of K.cmp self.old }
    {
        match self.slots.insert(key, Some(value)) {
            Ok(_) => (),
            Err(_) => unreachable!(),
        }
    }

    /// Sets the value of a key. An error is want of memory, for a key that has neither a value nor room, and leaves the
    /// map as it was.
    pub fn insert(&mut self, key: K, value: V) -> Result<(), AllocError>
        ensures shown { OnOk result (shown_of K.cmp self.new ≡ map.insert (shown_of K.cmp self.old) key value) }
        ensures room { OnOk result (rooms_of K.cmp self.new ≡ map.insert (rooms_of K.cmp self.old) key tt) }
        ensures again { IsTrue (map.contains_key (rooms_of K.cmp self.old) key) → IsOk result }
        ensures err { OnErr result (self.new ≡ self.old) }
    {
        self.slots.insert(key, Some(value))?;
        Ok(())
    }

    /// Takes the value of a key away, if it has one, and keeps its room. It takes no memory.
    pub fn clear(&mut self, key: K)
        ensures shown { shown_of K.cmp self.new ≡ map.remove (shown_of K.cmp self.old) key }
        ensures room { rooms_of K.cmp self.new ≡ rooms_of K.cmp self.old }
    {
        if !self.slots.contains_key(&key) {
            return;
        }
        match self.slots.insert(key, None) {
            Ok(_) => (),
            Err(_) => unreachable!(),
        }
    }

    /// Takes a key out with its room, and answers its value. It takes no memory.
    pub fn remove(&mut self, key: K) -> Option<V>
        ensures value { result ≡ map.get (shown_of K.cmp self.old) key }
        ensures shown { shown_of K.cmp self.new ≡ map.remove (shown_of K.cmp self.old) key }
        ensures room { rooms_of K.cmp self.new ≡ map.remove (rooms_of K.cmp self.old) key }
    {
        self.slots.remove(&key).flatten()
    }

    /// Gives the room of a key back, where it has no value. It takes no memory, and what the map shows is as it was.
    pub fn release(&mut self, key: K)
        ensures shown { shown_of K.cmp self.new ≡ shown_of K.cmp self.old }
        ensures used { IsTrue (map.contains_key (shown_of K.cmp self.old) key) → self.new ≡ self.old }
        ensures unused { map.contains_key (shown_of K.cmp self.old) key ≡ false → rooms_of K.cmp self.new ≡ map.remove (rooms_of K.cmp self.old) key }
    {
        if !self.contains(key) {
            drop(self.slots.remove(&key));
        }
    }
}
