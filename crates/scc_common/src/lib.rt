//! What all containers share: errors, verdicts, entries, guards, hashers with several owners, and the words of their
//! contracts (`specs/`).
#![tactic(auto)]

mod conversions;
pub mod entry;
pub mod errors;
pub mod guard;
pub mod hashes;
pub mod rule;
pub mod ruled;
pub mod ruled_version;
pub mod shared;
pub mod snapshot;
pub mod verdict;
pub mod version;
pub mod writer;

pub use entry::{Keyed, Lending, Made, Valued};
pub use errors::{InsertError, KeyError, MakeError, TryInsertError, WalkError};
pub use guard::Guard;
pub use hashes::Hashes;
pub use rule::{Anything, Rule, Under};
pub use ruled::Ruled;
pub use ruled_version::RuledVersion;
pub use shared::{CloneOwner, Shared};
pub use verdict::Verdict;
pub use version::{SharedVersion, Version};
pub use writer::{OfEach, OfPair, OfValue, Put, Writer};
