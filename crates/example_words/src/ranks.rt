//! The numbers of words, and their order.
use crate::counts::Count;
use crate::words::Word;
use std::alloc::{AllocError, Global};

/// The number of a word, from 1 in the order in which words come first, and how often it was met.
#[derive(Drop)]
pub struct Rank {
    pub number: u64,
    pub times: u64,
    pub word: Word,
}

/// Returns the words with their numbers, in the order in which they come first.
pub fn by_number(alloc: Global, mut counted: Vec<(Word, Count)>) -> Result<Vec<Rank>, AllocError> {
    counted
        .as_mut_slice()
        .sort_unstable_by_key(|known| known.1.first);
    let mut ranks = Vec::new(alloc);
    for (place, (word, count)) in counted.into_iter().enumerate() {
        ranks.push(Rank {
            number: place.saturating_add(1) as u64,
            times: count.times,
            word,
        })?;
    }
    Ok(ranks)
}

/// Puts the most frequent words first, and of words that are met equally often the earlier one first.
pub fn frequent_first(ranks: &mut [Rank]) {
    ranks.sort_unstable_by_key(|rank| (u64::MAX - rank.times, rank.number));
}
