//! An ordered map in one row of memory, in which room for a key can be taken ahead of its value.

ghost use Rattle.std.specs.Prelude.{◌≡◌, IsOk, OnOk, OnErr, IsTrue, IfSome, IfNone, option_copied};
ghost use Rattle.std.specs.FinMap as map;
ghost use Rattle.std.specs.BTreeMap.Range.{IsLeBy, IsLtBy, entries_from};
ghost use Rattle.tables.specs.Tables.{shown_of, rooms_of, entries_after, IsLeast, HasNone};

use crate::slots::{Slot, find, place_of, set, sweep, sweep_front, taken};
use crate::visits::Visits;
use std::alloc::{AllocError, Global};
use std::collections::VecDeque;
use std::marker::Model;
use tables::TableKey;

/// A map from keys to values, in the order of its keys, as a `Table`, for keys of which most are later than all before.
/// Room for such a key costs a constant time. Any other is found in the logarithm of the number of slots, and room for
/// one that has no slot moves the slots behind it or those before it, whichever are fewer. A slot that is given back
/// stays in the row until no slot before it has room, or half of all were given back: in all each costs a constant
/// time. The memory of the row is used again, and goes with the list.
#[derive(Drop)]
pub struct SortedList<K: TableKey, V> {
    /// In the order of the keys. A key in whose slot nothing stands is not in the map.
    slots: VecDeque<(K, Slot<V>)>,
    /// How many slots were given back since all were swept.
    left: usize,
}

impl<K: TableKey, V> Model for SortedList<K, V> {
    ghost use Rattle.std.specs.Prelude.{List, Option};
    ghost use Rattle.std.specs.List.Sorted.{IsStrictlySortedBy};
    ghost use Rattle.std.specs.Map.{keys_of};
    ghost use Rattle.sorted_lists.specs.Slots.{seen};

    ghost Value = { List (K × Option V) };

    ghost view = { λ l. seen l.slots.items };

    ghost invariant = { λ l. IsStrictlySortedBy K.cmp (keys_of l.slots.items) };
}

impl<K: TableKey, V> SortedList<K, V> {
    /// A list with no value and no room. It takes no memory.
    pub fn new(alloc: Global) -> Self
        ensures shown { shown_of K.cmp result ≡ map.empty }
        ensures room { rooms_of K.cmp result ≡ map.empty }
    {
        SortedList {
            slots: VecDeque::new(alloc),
            left: 0,
        }
    }

    /// The value of a key.
    pub fn get(&self, key: K) -> Option<&V>
        ensures { option_copied result ≡ map.get (shown_of K.cmp self.now) key }
    {
        match find(&self.slots, key) {
            Some(slot) => slot.value(),
            None => None,
        }
    }

    /// Whether the key has a value.
    pub fn contains(&self, key: K) -> bool
        ensures { result ≡ map.contains_key (shown_of K.cmp self.now) key }
    {
        self.get(key).is_some()
    }

    /// Whether the key has a value, or room for one.
    pub fn has_room(&self, key: K) -> bool
        ensures { result ≡ map.contains_key (rooms_of K.cmp self.now) key }
    {
        match find(&self.slots, key) {
            Some(slot) => slot.stands(),
            None => false,
        }
    }

    /// Each key that has a value with it, in the order of the keys.
    pub fn iter(&self) -> Visits<'_, K, V>
        ensures { result ≡ map.entries (shown_of K.cmp self.now) }
    {
        Visits {
            slots: self.slots.iter(),
        }
    }

    /// Each key at or after `key` that has a value with it, in the order of the keys.
    pub fn range_from(&self, key: K) -> Visits<'_, K, V>
        ensures { result ≡ entries_from (K.cmp key) (map.entries (shown_of K.cmp self.now)) }
    {
        let first = match place_of(&self.slots, key) {
            Ok(place) => place,
            Err(place) => place,
        };
        Visits {
            slots: self.slots.range(first..),
        }
    }

    /// Each key after `key` that has a value with it, in the order of the keys.
    pub fn range_after(&self, key: K) -> Visits<'_, K, V>
        ensures { result ≡ entries_after (K.cmp key) (map.entries (shown_of K.cmp self.now)) }
    {
        let first = match place_of(&self.slots, key) {
            Ok(place) => place + 1,
            Err(place) => place,
        };
        Visits {
            slots: self.slots.range(first..),
        }
    }

    /// The least key at or after `key` that has a value, with it. It passes over the room without a value between.
    pub fn first_from(&self, key: K) -> Option<(K, &V)>
        ensures some { IfSome result (λ e. IsLeast K.cmp (shown_of K.cmp self.now) (IsLeBy K.cmp key) (e.0, e.1.now)) }
        ensures none { IfNone result (HasNone K.cmp (shown_of K.cmp self.now) (IsLeBy K.cmp key)) }
    {
        let (found, value) = self.range_from(key).next()?;
        Some((*found, value))
    }

    /// The least key after `key` that has a value, with it. It passes over the room without a value between.
    pub fn first_after(&self, key: K) -> Option<(K, &V)>
        ensures some { IfSome result (λ e. IsLeast K.cmp (shown_of K.cmp self.now) (IsLtBy K.cmp key) (e.0, e.1.now)) }
        ensures none { IfNone result (HasNone K.cmp (shown_of K.cmp self.now) (IsLtBy K.cmp key)) }
    {
        let (found, value) = self.range_after(key).next()?;
        Some((*found, value))
    }
}

impl<K: TableKey, V: Drop> SortedList<K, V> {
    /// Takes the room that a value of the key needs, where the key has neither. An error is want of memory. What the
    /// list shows is as it was in either case.
    pub fn reserve(&mut self, key: K) -> Result<(), AllocError>
        ensures shown { shown_of K.cmp self.new ≡ shown_of K.cmp self.old }
        ensures room { OnOk result (rooms_of K.cmp self.new ≡ map.insert (rooms_of K.cmp self.old) key tt) }
        ensures ready { OnOk result (IsTrue (map.contains_key (rooms_of K.cmp self.new) key)) }
        ensures keeps { (q : K) → IsTrue (map.contains_key (rooms_of K.cmp self.old) q) → IsTrue (map.contains_key (rooms_of K.cmp self.new) q) }
        ensures again { IsTrue (map.contains_key (rooms_of K.cmp self.old) key) → IsOk result }
        ensures err { OnErr result (self.new ≡ self.old) }
    {
        if self.has_room(key) {
            return Ok(());
        }
        set(&mut self.slots, key, Slot::Room)?;
        Ok(())
    }

    /// Sets the value of a key that has room or a value. It takes no memory.
    pub fn put(&mut self, key: K, value: V)
        requires { IsTrue (map.contains_key (rooms_of K.cmp self.old) key) }
        ensures shown { shown_of K.cmp self.new ≡ map.insert (shown_of K.cmp self.old) key value }
        ensures room { rooms_of K.cmp self.new ≡ rooms_of K.cmp self.old }
    {
        match set(&mut self.slots, key, Slot::Value(value)) {
            Ok(_) => (),
            Err(_) => unreachable!(),
        }
    }

    /// Takes the value of a key away, if it has one, and keeps its room. It takes no memory.
    pub fn clear(&mut self, key: K)
        ensures shown { shown_of K.cmp self.new ≡ map.remove (shown_of K.cmp self.old) key }
        ensures room { rooms_of K.cmp self.new ≡ rooms_of K.cmp self.old }
    {
        if !self.has_room(key) {
            return;
        }
        match set(&mut self.slots, key, Slot::Room) {
            Ok(_) => (),
            Err(_) => unreachable!(),
        }
    }

    /// Takes a key out with its room, and answers its value. It takes no memory.
    pub fn remove(&mut self, key: K) -> Option<V>
        ensures value { result ≡ map.get (shown_of K.cmp self.old) key }
        ensures shown { shown_of K.cmp self.new ≡ map.remove (shown_of K.cmp self.old) key }
        ensures room { rooms_of K.cmp self.new ≡ map.remove (rooms_of K.cmp self.old) key }
    {
        if !self.has_room(key) {
            return None;
        }
        let value = match set(&mut self.slots, key, Slot::Out) {
            Ok(slot) => taken(slot),
            Err(_) => unreachable!(),
        };
        self.sweep_some();
        value
    }

    /// A slot was given back. Where these are half of all, they are swept. It takes no memory.
    fn sweep_some(&mut self)
        ensures { self.new ≡ self.old }
    {
        sweep_front(&mut self.slots);
        self.left = self.left.saturating_add(1);
        if self.left > self.slots.len() / 2 {
            sweep(&mut self.slots);
            self.left = 0;
        }
    }
}
