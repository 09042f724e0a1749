//! A memo that threads share: a pure function with a cache of its values. A value is computed under the lock of its
//! key's stripe, once for each key as long as the value isn't evicted.
//!
//! The trait here isn't that of the owned memo: behind a lock nothing is known of the function's fields, so what the
//! value of a key is may not depend on them. It is a relation, since clones of one value, as of a `String`, may differ in
//! their room.

mod fallible;
mod memo;

pub use fallible::{TryMemo, TryPure};
pub use memo::{Memo, Pure};
