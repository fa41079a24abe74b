ghost use Rattle.std.specs.Prelude.{◌≡◌, [], Some, None, OnOk, OnErr, find, length, slice_get, option_copied, option_map, if◌then◌else◌};
ghost use Rattle.std.specs.Ordering.{is_eq};
ghost use Rattle.std.specs.List.Sorted.{IsStrictlySortedBy};
ghost use Rattle.std.specs.Map.{keys_of, values_of, lookup, remove_entry};
ghost use Rattle.std.specs.BTreeMap.{insert_entry, is_at};
ghost use Rattle.ch_index.specs.Nest.{inner, is_past, is_used, those_left, used};

use ch_base::Memory;
use std::alloc::Global;
use std::collections::BTreeMap;
use std::collections::btree_map::{Keys, Range, Values};
use std::ops::Bound;

/// An ordered map at each of some keys, itself in an ordered map. A key whose map has become empty
/// is taken out.
#[derive(Drop)]
pub struct Nest<K: Ord + Drop, J: Ord + Drop, V: Drop> {
    pub alloc: Global,
    pub maps: BTreeMap<K, BTreeMap<J, V>>,
}

impl<K: Ord + Drop, J: Ord + Drop, V: Drop> Nest<K, J, V> {
    /// No maps. It takes no memory.
    pub fn new(alloc: Global) -> Nest<K, J, V>
        ensures { (q : K) → inner K.cmp result.maps q ≡ [] }
    {
        Nest {
            alloc,
            maps: BTreeMap::new(alloc),
        }
    }

    /// Puts the value into the key's map. Nothing changes after want of memory.
    pub fn put(&mut self, key: K, at: J, value: V) -> Result<(), Memory>
        ensures ok { OnOk result ((q : K) → inner K.cmp self.new.maps q
            ≡ (if is_eq (K.cmp key q) then insert_entry J.cmp (inner K.cmp self.old.maps key) at value else inner K.cmp self.old.maps q)) }
        ensures found { OnOk result ((q : K) (j : J) → lookup (is_at (J.cmp j)) (inner K.cmp self.new.maps q)
            ≡ (if is_eq (K.cmp key q)
            then (if is_eq (J.cmp at j) then Some value else lookup (is_at (J.cmp j)) (inner K.cmp self.old.maps key))
            else lookup (is_at (J.cmp j)) (inner K.cmp self.old.maps q))) }
        ensures err { OnErr result ((q : K) → inner K.cmp self.new.maps q ≡ inner K.cmp self.old.maps q) }
    {
        if let Some(map) = self.maps.get_mut(&key) {
            map.insert(at, value)?;
            return Ok(());
        }
        let mut map = BTreeMap::new(self.alloc);
        map.insert(at, value)?;
        self.maps.insert(key, map)?;
        Ok(())
    }

    /// Takes a value out of the key's map. It takes no memory.
    pub fn take(&mut self, key: &K, at: &J)
        ensures entries { (q : K) → inner K.cmp self.new.maps q
            ≡ (if is_eq (K.cmp key.now q) then remove_entry (is_at (J.cmp at.now)) (inner K.cmp self.old.maps key.now) else inner K.cmp self.old.maps q) }
        ensures found { (q : K) (j : J) → lookup (is_at (J.cmp j)) (inner K.cmp self.new.maps q)
            ≡ (if is_eq (K.cmp key.now q)
            then (if is_eq (J.cmp at.now j) then None else lookup (is_at (J.cmp j)) (inner K.cmp self.old.maps key.now))
            else lookup (is_at (J.cmp j)) (inner K.cmp self.old.maps q)) }
    {
        let Some(map) = self.maps.get_mut(key) else {
            return;
        };
        drop(map.remove(at));
        if map.is_empty() {
            drop(self.maps.remove(key));
        }
    }

    /// How many values the key's map has.
    pub fn count(&self, key: &K) -> u64
        ensures count { result ≡ length (inner K.cmp self.now.maps key.now) }
        ensures ordered { IsStrictlySortedBy J.cmp (keys_of (inner K.cmp self.now.maps key.now)) }
    {
        match self.maps.get(key) {
            None => 0,
            Some(map) => map.len() as u64,
        }
    }

    /// The value in the key's map.
    pub fn get(&self, key: &K, at: &J) -> Option<&V>
        ensures { option_copied result ≡ lookup (is_at (J.cmp at.now)) (inner K.cmp self.now.maps key.now) }
    {
        self.maps.get(key)?.get(at)
    }

    /// The key with this place in the key's map, counted from 0.
    pub fn nth(&self, key: &K, place: u64) -> Option<&J>
        ensures at { option_copied result ≡ slice_get (keys_of (inner K.cmp self.now.maps key.now)) place }
        ensures ordered { IsStrictlySortedBy J.cmp (keys_of (inner K.cmp self.now.maps key.now)) }
    {
        match self.maps.get(key) {
            None => None,
            Some(map) => nth_key(map, place),
        }
    }

    /// The keys of the key's map, ascending, where it has one.
    pub fn keys(&self, key: &K) -> Option<Keys<'_, J, V>>
        ensures { those_left result ≡ keys_of (inner K.cmp self.now.maps key.now) }
    {
        match self.maps.get(key) {
            None => None,
            Some(map) => Some(map.keys()),
        }
    }

    /// The values of the key's map, ascending by their keys, where it has one.
    pub fn values(&self, key: &K) -> Option<Values<'_, J, V>>
        ensures { those_left result ≡ values_of (inner K.cmp self.now.maps key.now) }
    {
        match self.maps.get(key) {
            None => None,
            Some(map) => Some(map.values()),
        }
    }

    /// The least key whose map isn't empty, and which comes after the given one, where one is given.
    pub fn next_key(&self, after: Option<&K>) -> Option<&K>
        ensures next { option_copied result ≡ find (is_past K.cmp (option_copied after.entry)) (used self.now.maps) }
        ensures ordered { IsStrictlySortedBy K.cmp (keys_of self.now.maps.entries) }
    {
        match after {
            None => first_used(
                self.maps
                    .range((Bound::<&K>::Unbounded, Bound::<&K>::Unbounded)),
            ),
            Some(after) => first_used(self.maps.range((Bound::Excluded(after), Bound::Unbounded))),
        }
    }
}

/// The first key whose map isn't empty.
fn first_used<'a, K: Ord + Drop, J: Ord + Drop, V: Drop>(
    mut later: Range<'a, K, BTreeMap<J, V>>,
) -> Option<&'a K>
    ensures { option_copied result ≡ option_map (λ e. e.0) (find (λ e. is_used e.1) later.entry) }
{
    'keys: while let Some((key, map)) = later.next() {
        if map.len() > 0 {
            return Some(key);
        }
    }
    None
}

/// The key with this place in the map, counted from 0.
fn nth_key<J: Ord + Drop, V: Drop>(map: &BTreeMap<J, V>, place: u64) -> Option<&J>
    ensures at { option_copied result ≡ slice_get (keys_of map.now.entries) place }
    ensures ordered { IsStrictlySortedBy J.cmp (keys_of map.now.entries) }
{
    map.keys().nth(place as usize)
}
