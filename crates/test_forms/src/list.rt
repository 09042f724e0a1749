//! The model of a container: a plain list of pairs, and what a container of each kind may do to them.

use crate::answers::Kind;
use crate::numbered::Seen;
use std::alloc::{AllocError, Global};

/// The most pairs in a bucket of a cache.
const BUCKET: usize = 32;

/// A pair and the hash of its key, which leads to its bucket in a cache.
type Hashed = (u64, Seen);

/// Pairs by their numbers, the least recent one first.
#[derive(Drop)]
pub struct List {
    kind: Kind,
    is_one: bool,
    pairs: Vec<Hashed>,
    capacity: usize,
    until_forgotten: Option<u64>,
}

/// Returns the bucket of `hash` in an array of `capacity` slots: the first bits of `hash`, enough to number the
/// buckets.
fn bucket_of(hash: u64, capacity: usize) -> u64 {
    let wide = u128::from(hash) * (capacity / BUCKET) as u128;
    (wide >> 64) as u64
}

impl List {
    /// Returns an empty list. If `is_one`, an eviction must take exactly the pair that one table evicts.
    pub fn new(alloc: Global, kind: Kind, is_one: bool) -> List {
        List {
            kind,
            is_one,
            pairs: Vec::new(alloc),
            capacity: 0,
            until_forgotten: None,
        }
    }

    /// Returns an empty list that forgets the pair which is added after `others` other pairs. It is a wrong model,
    /// which a test must find out.
    pub fn forgetful(alloc: Global, kind: Kind, is_one: bool, others: u64) -> List {
        let mut list = List::new(alloc, kind, is_one);
        list.until_forgotten = Some(others);
        list
    }

    /// Returns the kind of the container.
    pub fn kind(&self) -> Kind {
        self.kind
    }

    /// Returns the number of pairs.
    pub fn len(&self) -> usize {
        self.pairs.len()
    }

    /// Returns the position of the key with `number`.
    fn place_of(&self, number: u64) -> Option<usize> {
        self.pairs.iter().position(|pair| pair.1.0 == number)
    }

    /// Returns the pair of the key with `number`.
    pub fn find(&self, number: u64) -> Option<Seen> {
        match self.pairs.iter().find(|pair| pair.1.0 == number) {
            Some(pair) => Some(pair.1),
            None => None,
        }
    }

    /// Returns whether the list has `pair`.
    pub fn has(&self, pair: Seen) -> bool {
        self.find(pair.0) == Some(pair)
    }

    /// Returns the number of the key that `choice` picks from the list, or `other` if the list is empty.
    pub fn some_number(&self, choice: u64, other: u64) -> u64 {
        let Some(place) = (choice as usize).checked_rem(self.pairs.len()) else {
            return other;
        };
        match self.pairs.get(place) {
            Some(pair) => pair.1.0,
            None => other,
        }
    }

    /// Removes the pair of the key with `number`.
    pub fn remove(&mut self, number: u64) {
        if let Some(place) = self.place_of(number) {
            if place < self.pairs.len() {
                self.pairs.remove(place);
            }
        }
    }

    /// Replaces the pair of the key by `new`, at its position.
    pub fn rewrite(&mut self, new: Seen) {
        for pair in self.pairs.iter_mut() {
            if pair.1.0 == new.0 {
                pair.1 = new;
            }
        }
    }

    /// Replaces the pair of the key by `pair`, and makes it the most recent.
    pub fn renew(&mut self, hash: u64, pair: Seen) -> Result<(), AllocError> {
        self.remove(pair.0);
        self.pairs.push((hash, pair))?;
        Ok(())
    }

    /// Returns the least recent pair in the bucket of `hash`, and the number of pairs in that bucket.
    fn least_of(&self, hash: u64) -> (Option<Seen>, usize) {
        let bucket = bucket_of(hash, self.capacity);
        let mut least = None;
        let mut count = 0usize;
        for pair in self.pairs.iter() {
            if bucket_of(pair.0, self.capacity) == bucket {
                count = count.wrapping_add(1);
                if least.is_none() {
                    least = Some(pair.1);
                }
            }
        }
        (least, count)
    }

    /// Returns whether a new pair may evict `evicted`, or nothing if it is `None`. Only a cache evicts, from a full
    /// bucket. With one stripe it evicts the least recent pair of the bucket.
    fn can_lose(&self, hash: u64, evicted: Option<Seen>) -> bool {
        if self.kind != Kind::Cache {
            return evicted.is_none();
        }
        if self.is_one {
            let (least, count) = self.least_of(hash);
            return evicted == if count >= BUCKET { least } else { None };
        }
        match evicted {
            Some(gone) => self.has(gone) && self.pairs.len() >= BUCKET,
            None => true,
        }
    }

    /// Removes `evicted` and adds `pair`, unless the list forgets `pair`. Returns whether a container may evict
    /// `evicted`, or nothing if it is `None`.
    pub fn add(
        &mut self,
        hash: u64,
        pair: Seen,
        evicted: Option<Seen>,
    ) -> Result<bool, AllocError> {
        let could_go = self.can_lose(hash, evicted);
        if let Some(gone) = evicted {
            self.remove(gone.0);
        }
        if self.forgets() {
            return Ok(could_go);
        }
        self.pairs.push((hash, pair))?;
        Ok(could_go)
    }

    /// Returns whether the list forgets the pair that is being added.
    fn forgets(&mut self) -> bool {
        match self.until_forgotten {
            Some(others) => {
                self.until_forgotten = others.checked_sub(1);
                others == 0
            }
            None => false,
        }
    }

    /// Adds 1 to the value of the key with `number`, if the kind writes values.
    pub fn raise(&mut self, number: u64) {
        let writes = self.kind.writes_values();
        for pair in self.pairs.iter_mut() {
            if writes && pair.1.0 == number {
                pair.1.2 = pair.1.2.wrapping_add(1);
            }
        }
    }

    /// Adds 1 to each value, if the kind writes values.
    pub fn raise_all(&mut self) {
        let writes = self.kind.writes_values();
        for pair in self.pairs.iter_mut() {
            if writes {
                pair.1.2 = pair.1.2.wrapping_add(1);
            }
        }
    }

    /// Removes and returns the pairs whose numbers leave `rest` when divided by 8.
    pub fn split_off(&mut self, alloc: Global, rest: u64) -> Result<Vec<Seen>, AllocError> {
        let mut kept = Vec::new(alloc);
        let mut gone = Vec::new(alloc);
        for pair in self.pairs.iter() {
            if pair.1.0 % 8 == rest {
                gone.push(pair.1)?;
            } else {
                kept.push(*pair)?;
            }
        }
        self.pairs = kept;
        Ok(gone)
    }

    /// Removes all pairs.
    pub fn clear(&mut self) {
        self.pairs.clear();
    }

    /// Returns the pairs sorted by bucket in an array of `capacity` slots, each bucket's in its order.
    fn grouped(&self, alloc: Global, capacity: usize) -> Result<Vec<Hashed>, AllocError> {
        let mut pairs = Vec::new(alloc);
        for bucket in 0..(capacity / BUCKET) as u64 {
            for pair in self.pairs.iter() {
                if bucket_of(pair.0, capacity) == bucket {
                    pairs.push(*pair)?;
                }
            }
        }
        Ok(pairs)
    }

    /// Sets the capacity after a call. If buckets of a cache were joined, the pairs of one bucket stand before those
    /// of the next.
    pub fn resize(&mut self, alloc: Global, capacity: usize) -> Result<(), AllocError> {
        let orders = self.is_one && self.kind == Kind::Cache;
        if orders && capacity < self.capacity && capacity > 0 {
            self.pairs = self.grouped(alloc, self.capacity)?;
        }
        self.capacity = capacity;
        Ok(())
    }

    /// Returns whether `met` are the pairs of the list. For a cache of one stripe the order must be right too.
    pub fn is_met_by(&self, alloc: Global, met: &[Seen]) -> Result<bool, AllocError> {
        if self.is_one && self.kind == Kind::Cache {
            let pairs = self.grouped(alloc, self.capacity)?;
            let mut is_same = pairs.len() == met.len();
            for (pair, other) in pairs.iter().zip(met.iter()) {
                is_same = is_same && pair.1 == *other;
            }
            return Ok(is_same);
        }
        Ok(self.is_just(met))
    }

    /// Returns whether `met` are the pairs of the list, in any order.
    pub fn is_just(&self, met: &[Seen]) -> bool {
        self.pairs.len() == met.len()
            && self
                .pairs
                .iter()
                .all(|pair| met.iter().any(|other| *other == pair.1))
    }
}
