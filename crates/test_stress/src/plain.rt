//! The plain list on which the steps of a run are made once more.

use std::alloc::{AllocError, Global};

/// The most pairs in a bucket of a cache.
const BUCKET: usize = 32;

/// The pairs, each bucket's from the least recent one on, and the number of buckets. A set's values are 0. Each key
/// is its own hash.
#[derive(Drop)]
pub struct Plain {
    pairs: Vec<(u64, u64)>,
    buckets: usize,
}

/// Returns the bucket of a key among `buckets` buckets: the first bits of the key, enough to number the buckets.
fn bucket_of(key: u64, buckets: usize) -> usize {
    let wide = u128::from(key) * buckets as u128;
    (wide >> 64) as usize
}

impl Plain {
    /// Returns a list without a pair, and without an array.
    pub(crate) fn new(alloc: Global) -> Plain {
        Plain {
            pairs: Vec::new(alloc),
            buckets: 0,
        }
    }

    /// Returns the number of pairs.
    pub(crate) fn len(&self) -> usize {
        self.pairs.len()
    }

    /// Returns the value of the key, if the key is there.
    pub(crate) fn value(&self, key: u64) -> Option<u64> {
        self.pairs
            .iter()
            .find(|pair| pair.0 == key)
            .map(|pair| pair.1)
    }

    /// Returns the key, if it is there.
    pub(crate) fn key(&self, key: u64) -> Option<u64> {
        self.value(key).map(|_| key)
    }

    /// Returns whether the key is there.
    pub(crate) fn has(&self, key: u64) -> bool {
        self.value(key).is_some()
    }

    /// Removes and returns the pair of the key.
    pub(crate) fn remove(&mut self, key: u64) -> Option<(u64, u64)> {
        let place = self.pairs.iter().position(|pair| pair.0 == key)?;
        if place < self.pairs.len() {
            Some(self.pairs.remove(place))
        } else {
            None
        }
    }

    /// Sets the value of the key, and makes the key the most recent.
    pub(crate) fn set(&mut self, key: u64, value: u64) -> Result<(), AllocError> {
        let _old = self.remove(key);
        self.pairs.push((key, value))?;
        Ok(())
    }

    /// Makes the key the most recent, if it is there.
    pub(crate) fn touch(&mut self, key: u64) -> Result<(), AllocError> {
        if let Some(pair) = self.remove(key) {
            self.pairs.push(pair)?;
        }
        Ok(())
    }

    /// Returns the pairs of a bucket.
    fn bucket(&self, alloc: Global, bucket: usize) -> Result<Vec<(u64, u64)>, AllocError> {
        let mut pairs = Vec::new(alloc);
        for pair in self.pairs.iter() {
            if bucket_of(pair.0, self.buckets) == bucket {
                pairs.push(*pair)?;
            }
        }
        Ok(pairs)
    }

    /// Removes the pair that a put of `key` evicts: the least recent pair of its bucket if that is full, or none.
    /// Returns whether `evicted` is that pair.
    pub(crate) fn evict(
        &mut self,
        alloc: Global,
        key: u64,
        evicted: Option<(u64, u64)>,
    ) -> Result<bool, AllocError> {
        let pairs = self.bucket(alloc, bucket_of(key, self.buckets))?;
        let wanted = if pairs.len() < BUCKET {
            None
        } else {
            pairs.first().copied()
        };
        if let Some(gone) = wanted {
            let _pair = self.remove(gone.0);
        }
        Ok(evicted == wanted)
    }

    /// Sorts the pairs by bucket, and sets the number of buckets.
    pub(crate) fn regroup(&mut self, alloc: Global, buckets: usize) -> Result<(), AllocError> {
        let mut pairs = Vec::new(alloc);
        for bucket in 0..self.buckets {
            let more = self.bucket(alloc, bucket)?;
            for pair in more.iter() {
                pairs.push(*pair)?;
            }
        }
        self.pairs = pairs;
        self.buckets = buckets;
        Ok(())
    }

    /// Returns whether `met` are the pairs of the list, in any order.
    pub(crate) fn is_met_by(&self, met: &[(u64, u64)]) -> bool {
        self.pairs.len() == met.len()
            && self
                .pairs
                .iter()
                .all(|pair| met.iter().any(|other| *other == *pair))
    }

    /// Returns whether `met` are the pairs of the list, bucket by bucket, each bucket's in its order.
    pub(crate) fn is_met_in_order_by(
        &mut self,
        alloc: Global,
        met: &[(u64, u64)],
    ) -> Result<bool, AllocError> {
        self.regroup(alloc, self.buckets)?;
        let mut same = self.pairs.len() == met.len();
        for (pair, other) in self.pairs.iter().zip(met) {
            same = same && *other == *pair;
        }
        Ok(same)
    }
}
