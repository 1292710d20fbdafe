// A map that keeps its entries in the order in which they came, in slices of keys and of values that are lent to it.
#![tactic(auto)]

ghost use Rattle.std.specs.Prelude.{◌≡◌, ◌<◌, ◌≤◌, [], ◌∷◌, ◌++◌, map, length, take, is_some, is_ok, None, Decides, IfSome, MatchOption, MatchResult, ◌==◌, nat_lt, slice_set};
ghost use Rattle.std.specs.List.{slice_get, position};
ghost use Rattle.std.specs.Option.{option_map};
ghost use Rattle.std.specs.Iterator.{YieldsFirstBy, item_count};
ghost use Rattle.flat_map.specs.Assoc.{closed, entries, lookup, put, without};
ghost use Rattle.flat_map.specs.Laws.{PutFound, PutKept, WithoutKept, PutUndone};
ghost use Rattle.flat_map.specs.Maps.{entries_of, places_of, SameSpare, Cleared, SameMemory, rest_of};

// A key: `==` answers whether two keys are the same value.
pub trait Key: PartialEq + Copy {
    ghost exact: { (x y : Self) → Decides (Self.PartialEq.eq x y) (x ≡ y) };
}

// There is no place for one more.
#[derive(Clone, Copy, Debug, PartialEq, Eq)]
pub struct Full;

// The place of the first of the keys that is `key`.
pub fn find<K: Key>(keys: &[K], key: K) -> Option<usize>
    ensures { result ≡ position (λ x. K.PartialEq.eq x key) keys.now }
{
    keys.iter().position(|k| *k == key)
}

// Takes the item at i out of the first n, those behind it moving up, and clears the place that is set free.
pub fn close_up<T: Copy>(items: &mut [T], i: usize, n: usize, cleared: T) -> Option<T>
    ensures value { result ≡ slice_get (take n items.old) i }
    ensures after { items.new ≡ closed items.old i n cleared }
{
    let n = n.min(items.len());
    if i >= n {
        return None;
    }
    let old = items[i];
    items[i..n].rotate_left(1);
    items[n - 1] = cleared;
    Some(old)
}

// Puts an item behind the first n.
pub fn append<T: Copy>(items: &mut [T], n: usize, item: T) -> Result<(), Full>
    ensures test { is_ok result ≡ nat_lt n (length items.old) }
    ensures after { items.new ≡ slice_set items.old n item }
{
    if n >= items.len() {
        return Err(Full);
    }
    items[n] = item;
    Ok(())
}

// The value of the key among the first `count` entries of the slices.
// Keys, values and a count come here and below as their owner keeps them: a struct over the three would need each of the map's reading calls again.
pub fn get_in<'v, K: Key, V>(keys: &[K], values: &'v [V], count: usize, key: K) -> Option<&'v V>
    ensures { option_map (λ x. x.now) result ≡ lookup K.PartialEq.eq (entries keys.now values.now count) key }
{
    iter_in(keys, values, count)
        .find(|(k, _)| **k == key)
        .map(|(_, value)| value)
}

// The first `count` entries of the slices, one by one, in order.
pub fn iter_in<'k, 'v, K, V>(keys: &'k [K], values: &'v [V], count: usize) -> Iter<'k, 'v, K, V>
    ensures { rest_of result ≡ entries keys.now values.now count }
{
    Iter {
        keys: &keys[..count.min(keys.len())],
        values,
    }
}

// The first `count` of the keys and of the values are the entries; where there are fewer places, all are.
// A place that is set free gets the `cleared` key and value.
// Two slices and a count, not one list of pairs: the memory is the owner's, who lends keys and values apart, and there is no heap.
#[derive(Drop)]
pub struct FlatMap<'k, 'v, K, V> {
    keys: &'k mut [K],
    values: &'v mut [V],
    count: usize,
    cleared: (K, V),
}

// Gives the entries one by one, in order. Its two slices are the map's: over std's `Zip` its meaning would be told in the words of std's inner state.
#[derive(Drop)]
pub struct Iter<'k, 'v, K, V> {
    keys: &'k [K],
    values: &'v [V],
}

impl<'k, 'v, K: Key, V: Copy> FlatMap<'k, 'v, K, V> {
    // A map with no entry yet.
    pub fn new(keys: &'k mut [K], values: &'v mut [V], cleared: (K, V)) -> FlatMap<'k, 'v, K, V>
        ensures entries { entries_of result ≡ [] }
        ensures keys { (result.keys.now ≡ keys.old) × (result.keys.ghost_name ≡ keys.entry.ghost_name) }
        ensures values { (result.values.now ≡ values.old) × (result.values.ghost_name ≡ values.entry.ghost_name) }
        ensures cleared { result.cleared ≡ cleared }
    {
        FlatMap::holding(keys, values, 0, cleared)
    }

    // The map whose entries are in the first `count` places.
    pub fn holding(
        keys: &'k mut [K],
        values: &'v mut [V],
        count: usize,
        cleared: (K, V),
    ) -> FlatMap<'k, 'v, K, V>
        ensures entries { entries_of result ≡ entries keys.old values.old count }
        ensures keys { (result.keys.now ≡ keys.old) × (result.keys.ghost_name ≡ keys.entry.ghost_name) }
        ensures values { (result.values.now ≡ values.old) × (result.values.ghost_name ≡ values.entry.ghost_name) }
        ensures cleared { result.cleared ≡ cleared }
    {
        FlatMap {
            keys,
            values,
            count,
            cleared,
        }
    }

    // How many entries there are.
    pub fn len(&self) -> usize
        ensures value { result ≡ length (entries_of self.now) }
        ensures entries { entries self.now.keys.now self.now.values.now result ≡ entries_of self.now }
        ensures bound { (result ≤ length self.now.keys.now) × (result ≤ length self.now.values.now) }
    {
        self.count.min(self.keys.len()).min(self.values.len())
    }

    pub fn is_empty(&self) -> bool
        ensures { result ≡ (length (entries_of self.now) == 0) }
    {
        self.len() == 0
    }

    // The keys of the entries, in order.
    pub fn keys(&self) -> &[K]
        ensures { result.now ≡ map (λ p. p.0) (entries_of self.now) }
    {
        let n = self.len();
        &self.keys[..n]
    }

    // The values of the entries, in order. One function over either slice would be no shorter than the two.
    pub fn values(&self) -> &[V]
        ensures { result.now ≡ map (λ p. p.1) (entries_of self.now) }
    {
        let n = self.len();
        &self.values[..n]
    }

    // The entries one by one, in order.
    pub fn iter(&self) -> Iter<'_, '_, K, V>
        ensures { rest_of result ≡ entries_of self.now }
    {
        iter_in(&self.keys[..], &self.values[..], self.count)
    }

    pub fn contains_key(&self, key: K) -> bool
        ensures { result ≡ is_some (lookup K.PartialEq.eq (entries_of self.now) key) }
    {
        self.get(key).is_some()
    }

    // The value of the key.
    pub fn get(&self, key: K) -> Option<&V>
        ensures { option_map (λ x. x.now) result ≡ lookup K.PartialEq.eq (entries_of self.now) key }
    {
        // Not `get_in`: that goes over the values too, and a search for a place over the keys alone.
        let place = self.place(key)?;
        let values = &*self.values;
        Some(&values[place])
    }

    // Where the key's entry is.
    fn place(&self, key: K) -> Option<usize>
        ensures bound { IfSome result (λ i. i < length self.now.values.now) }
        ensures first { result ≡ position (λ x. K.PartialEq.eq x key) (map (λ p. p.0) (entries_of self.now)) }
    {
        find(self.keys(), key)
    }

    // Adds the entry last, without a search for its key.
    pub fn insert_unchecked(&mut self, key: K, value: V) -> Result<(), Full>
        ensures cases { MatchResult result
            (λ _. entries_of self.new ≡ entries_of self.old ++ (key, value) ∷ [])
            (λ _. (length (entries_of self.old) ≡ places_of self.old) × (self.new ≡ self.old)) }
        ensures spare { SameSpare self.old self.new }
        ensures memory { SameMemory self.old self.new }
    {
        let n = self.len();
        if n >= self.keys.len() || n >= self.values.len() {
            return Err(Full);
        }
        append(&mut self.keys[..], n, key)?;
        append(&mut self.values[..], n, value)?;
        self.count = n + 1;
        Ok(())
    }

    // Replaces the value of the key and answers the old one, or adds the entry last.
    pub fn insert(&mut self, key: K, value: V) -> Result<Option<V>, Full>
        ensures cases { MatchResult result
            (λ old. (entries_of self.new ≡ put K.PartialEq.eq (entries_of self.old) key value) × (old ≡ lookup K.PartialEq.eq (entries_of self.old) key))
            (λ _. (lookup K.PartialEq.eq (entries_of self.old) key ≡ None) × (length (entries_of self.old) ≡ places_of self.old) × (self.new ≡ self.old)) }
        ensures spare { SameSpare self.old self.new }
        ensures memory { SameMemory self.old self.new }
    {
        if let Some(i) = self.place(key) {
            let old = self.values[i];
            self.values[i] = value;
            return Ok(Some(old));
        }
        self.insert_unchecked(key, value)?;
        Ok(None)
    }

    // Takes the key's entry out; the others keep their order, and the place that is set free is cleared.
    pub fn remove_entry(&mut self, key: K) -> Option<(K, V)>
        ensures value { result ≡ option_map (λ v. (key, v)) (lookup K.PartialEq.eq (entries_of self.old) key) }
        ensures entries { entries_of self.new ≡ without K.PartialEq.eq (entries_of self.old) key }
        ensures spare { MatchOption result (self.new ≡ self.old) (λ _. Cleared self.old self.new) }
        ensures memory { SameMemory self.old self.new }
    {
        let i = self.place(key)?;
        let n = self.len();
        let value = self.values[i];
        let (no_key, no_value) = self.cleared;
        close_up(&mut self.keys[..], i, n, no_key);
        close_up(&mut self.values[..], i, n, no_value);
        self.count = n - 1;
        Some((key, value))
    }

    // Takes the key's entry out, and answers its value.
    pub fn remove(&mut self, key: K) -> Option<V>
        ensures value { result ≡ lookup K.PartialEq.eq (entries_of self.old) key }
        ensures entries { entries_of self.new ≡ without K.PartialEq.eq (entries_of self.old) key }
        ensures spare { MatchOption result (self.new ≡ self.old) (λ _. Cleared self.old self.new) }
        ensures memory { SameMemory self.old self.new }
    {
        let (_, value) = self.remove_entry(key)?;
        Some(value)
    }
}

impl<'k, 'v, K, V> Iterator for Iter<'k, 'v, K, V> {
    type Item = (&'k K, &'v V);

    ghost next_gives = { YieldsFirstBy (λ p. (p.0.now, p.1.now)) rest_of };

    ghost remaining = { item_count rest_of };

    // The next entry; none, now and later, after the last.
    fn next(&mut self) -> Option<(&'k K, &'v V)>
        ensures { MatchOption result
            ((rest_of self.old ≡ []) × (self.new ≡ self.old))
            (λ p. rest_of self.old ≡ (p.0.now, p.1.now) ∷ rest_of self.new) }
    {
        let (key, keys) = self.keys.split_first()?;
        let (value, values) = self.values.split_first()?;
        self.keys = keys;
        self.values = values;
        Some((key, value))
    }
}

// Laws of what a map's entries are after a put and after a removal, for every key and value type.
pub fn entry_laws<K: Key, V: Copy>()
    ensures put_found { PutFound V K.PartialEq.eq }
    ensures put_kept { PutKept V K.PartialEq.eq }
    ensures without_kept { WithoutKept V K.PartialEq.eq }
    ensures put_undone { PutUndone V K.PartialEq.eq }
{}
