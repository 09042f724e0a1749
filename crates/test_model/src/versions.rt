//! Versions that a reader keeps: they live as long as they have an owner, and are dropped once.

use scc_shared::index::HashIndex;
use std::alloc::{AllocError, Global};
use std::rc::Rc;
use std::sync::Wait;
use test_forms::token::{Book, Token};
use test_kit::lines::{REFUSED, say};
use test_kit::masked::{Masked, ZERO};

const KEYS: u64 = 100;

/// Returns a pair of tokens of `number`.
fn pair(book: &Rc<Book>, number: u64) -> Result<(Token, Token), AllocError> {
    Ok((Token::new(book, number)?, Token::new(book, number)?))
}

/// Returns an owned index of tokens.
fn filled(
    alloc: Global,
    book: &Rc<Book>,
) -> Result<scc_owned::index::Owned<Token, Token, Masked>, AllocError> {
    let mut index = scc_owned::index::Owned::with_hasher(alloc, ZERO);
    for number in 0..KEYS {
        let (key, value) = pair(book, number)?;
        if index.insert_sync(key, value).is_err() {
            return Err(AllocError);
        }
    }
    Ok(index)
}

/// Returns whether a snapshot keeps all versions after its index is cleared, drops those that are taken out of it, and
/// leaves none when it is dropped.
fn snapshot_keeps(alloc: Global, book: &Rc<Book>) -> Result<bool, AllocError> {
    let mut index = filled(alloc, book)?;
    let Ok(mut versions) = index.iter() else {
        return Err(AllocError);
    };
    index.clear_sync();
    let whole = book.alive() == Some(200) && index.is_empty();
    for _ in 0..KEYS / 2 {
        drop(versions.next());
    }
    let half = book.alive() == Some(100);
    drop(versions);
    Ok(whole && half && book.alive() == Some(0))
}

/// Returns a shared index of tokens.
fn shared<R: Wait + AllocGlobal>(
    rt: &R,
    book: &Rc<Book>,
) -> Result<HashIndex<Token, Token, Masked>, AllocError> {
    let Ok(index) = HashIndex::with_hasher(rt.alloc(), ZERO) else {
        return Err(AllocError);
    };
    for number in 0..KEYS {
        let (key, value) = pair(book, number)?;
        if index.insert_sync(rt, key, value).is_err() {
            return Err(AllocError);
        }
    }
    Ok(index)
}

/// Returns whether a version that was peeked, and no other, outlives its update, its removal and the index.
fn peeked_lives_on<R: Wait + AllocGlobal>(rt: &R, book: &Rc<Book>) -> Result<bool, AllocError> {
    let index = shared(rt, book)?;
    let key = Token::new(book, 7)?;
    let Ok(Some(kept)) = index.peek(rt, &key) else {
        return Err(AllocError);
    };
    let next = Token::new(book, 8)?;
    let updated = match index.get_sync(rt, &key) {
        Some(mut entry) => entry.update(next).is_ok(),
        None => false,
    };
    let both = book.alive() == Some(203);
    let removed = index.remove_sync(rt, &key);
    let one = book.alive() == Some(201);
    drop(index);
    drop(key);
    let alone = book.alive() == Some(2);
    drop(kept);
    Ok(updated && both && removed && one && alone && book.alive() == Some(0))
}

/// Prints a line for each case. Returns the worst status.
pub(crate) fn run_versions<R: Wait + AllocGlobal + Print>(rt: &R) -> u8 {
    let Ok(book) = Book::new(rt.alloc(), 1000) else {
        return REFUSED;
    };
    let kept = snapshot_keeps(rt.alloc(), &book);
    let snapshot = say(rt, "owned index", "versions of a snapshot", kept);
    let peeked = peeked_lives_on(rt, &book);
    snapshot.max(say(rt, "index of stripes", "a version that was peeked", peeked))
}
