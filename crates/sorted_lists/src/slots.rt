//! Slots by key, in the order of their keys, each key once.

ghost use Rattle.std.specs.Prelude.{◌≡◌, cond, Some, None, IfOk, OnErr, OnOk, option_copied};
ghost use Rattle.std.specs.BTreeMap.{is_at};
ghost use Rattle.std.specs.List.Sorted.{IsStrictlySortedBy};
ghost use Rattle.std.specs.Map.{keys_of, lookup};
ghost use Rattle.std.specs.Option.{option_flatten};
ghost use Rattle.sorted_lists.specs.Slots.{IsPlaceOf, room_in, room_of, seen, stands};

use std::alloc::AllocError;
use std::cmp::Ordering;
use std::collections::VecDeque;
use std::mem;
use tables::TableKey;

/// What stands under a key.
#[derive(Drop)]
pub(crate) enum Slot<V> {
    /// Nothing: the key is not in the list.
    Out,
    /// Room for a value.
    Room,
    Value(V),
}

impl<V> Slot<V> {
    /// Whether something stands in the slot: room for a value, or one.
    pub(crate) fn stands(&self) -> bool
        ensures { result ≡ stands self.now }
    {
        match self {
            Slot::Out => false,
            Slot::Room => true,
            Slot::Value(_) => true,
        }
    }

    /// The value in the slot.
    pub(crate) fn value(&self) -> Option<&V>
        ensures { option_copied result ≡ option_flatten (room_in self.now) }
    {
        match self {
            Slot::Out => None,
            Slot::Room => None,
            Slot::Value(value) => Some(value),
        }
    }
}

/// The value that was in a slot, if there was one.
pub(crate) fn taken<V: Drop>(slot: Option<Slot<V>>) -> Option<V>
    ensures { result ≡ option_flatten (room_of slot) }
{
    match slot {
        Some(Slot::Value(value)) => Some(value),
        Some(Slot::Out) => None,
        Some(Slot::Room) => None,
        None => None,
    }
}

/// Where the slot of a key stands, or where one would. It looks at the last slot first.
pub(crate) fn place_of<K: TableKey, X>(slots: &VecDeque<(K, X)>, key: K) -> Result<usize, usize>
    requires { IsStrictlySortedBy K.cmp (keys_of slots.now.items) }
    ensures { IsPlaceOf K.cmp key slots.now.items result }
{
    let Some(last) = slots.back() else {
        return Err(0);
    };
    match last.0.cmp(&key) {
        Ordering::Less => Err(slots.len()),
        Ordering::Equal => Ok(slots.len() - 1),
        Ordering::Greater => slots.binary_search_by_key(&key, |slot| slot.0),
    }
}

/// What stands in the slot of a key, if it has one.
pub(crate) fn find<K: TableKey, X>(slots: &VecDeque<(K, X)>, key: K) -> Option<&X>
    requires { IsStrictlySortedBy K.cmp (keys_of slots.now.items) }
    ensures { option_copied result ≡ lookup (is_at (K.cmp key)) slots.now.items }
{
    match place_of(slots, key) {
        Ok(place) => Some(&slots[place].1),
        Err(_) => None,
    }
}

/// Sets what stands in the slot of a key, and answers what stood there. An error is want of memory, for a key that has
/// no slot.
pub(crate) fn set<K: TableKey, X: Drop>(
    slots: &mut VecDeque<(K, X)>,
    key: K,
    value: X,
) -> Result<Option<X>, AllocError>
    requires { IsStrictlySortedBy K.cmp (keys_of slots.old.items) }
    ensures ordered { IsStrictlySortedBy K.cmp (keys_of slots.new.items) }
    ensures value { IfOk result (λ old. old ≡ lookup (is_at (K.cmp key)) slots.old.items) }
    ensures updates { OnOk result ((q : K) → lookup (is_at (K.cmp q)) slots.new.items ≡ cond (is_at (K.cmp key) q) (Some value) (lookup (is_at (K.cmp q)) slots.old.items)) }
    ensures absent { OnErr result (lookup (is_at (K.cmp key)) slots.old.items ≡ None) }
    ensures err { OnErr result (slots.new.items ≡ slots.old.items) }
{
    match place_of(slots, key) {
        Ok(place) => Ok(Some(mem::replace(&mut slots[place], (key, value)).1)),
        Err(place) if place == slots.len() => {
            slots.push_back((key, value))?;
            Ok(None)
        }
        Err(place) => {
            slots.insert(place, (key, value))?;
            Ok(None)
        }
    }
}

/// Takes the first slots out in which nothing stands, up to the first in which something does. It takes no memory.
pub(crate) fn sweep_front<K: TableKey, V: Drop>(slots: &mut VecDeque<(K, Slot<V>)>)
    requires { IsStrictlySortedBy K.cmp (keys_of slots.old.items) }
    ensures ordered { IsStrictlySortedBy K.cmp (keys_of slots.new.items) }
    ensures seen { seen slots.new.items ≡ seen slots.old.items }
{
    while let Some(first) = slots.front() {
        if first.1.stands() {
            return;
        }
        slots.pop_front();
    }
}

/// Takes all slots out in which nothing stands. It takes no memory.
pub(crate) fn sweep<K: TableKey, V: Drop>(slots: &mut VecDeque<(K, Slot<V>)>)
    requires { IsStrictlySortedBy K.cmp (keys_of slots.old.items) }
    ensures ordered { IsStrictlySortedBy K.cmp (keys_of slots.new.items) }
    ensures seen { seen slots.new.items ≡ seen slots.old.items }
{
    slots.retain(|slot| slot.1.stands());
}
