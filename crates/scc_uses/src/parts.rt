//! Two parts that share one hasher.
ghost use Rattle.std.specs.Prelude.{◌≡◌, ◌<◌, true, IfOk};
ghost use Rattle.std.specs.Arc.{arc_value};
ghost use Rattle.scc_common.specs.Contents.{settings_of, bucket_count, hash_in, bucket_of};

use scc_calls::{MapCall, Refused, Reply, route, run};
use scc_common::{Hashes, MakeError, Shared};
use scc_owned::map::Owned;
use std::alloc::Global;
use std::hash::{BuildHasher, BuildHasherDefault, FoldHasher, Hash};
use std::sync::Arc;

/// Makes two empty parts that skip one bit of each hash. They hash alike, under the hasher of `owner`, and route alike
/// if they have the same number of buckets.
pub fn two_parts<K: Eq + Hash + Drop, V: Drop, H: BuildHasher + Drop>(
    alloc: Global,
    owner: Arc<H>,
) -> Result<(Owned<K, V, Shared<H>>, Owned<K, V, Shared<H>>), MakeError>
    ensures hasher { IfOk result (λ p. (settings_of p.0).hasher ≡ arc_value owner) }
    ensures hash { IfOk result (λ p. (k : K) → hash_in ⟦<H as Hashes<K>>⟧.hash_of p.0 k
        ≡ hash_in ⟦<H as Hashes<K>>⟧.hash_of p.1 k) }
    ensures route { IfOk result (λ p. (k : K) → bucket_count p.0 ≡ bucket_count p.1 → bucket_of
        (hash_in ⟦<H as Hashes<K>>⟧.hash_of p.0) p.0 k ≡ bucket_of (hash_in ⟦<H as Hashes<K>>⟧.hash_of p.1) p.1 k) }
{
    let Ok(another) = Arc::try_clone(&owner) else {
        return Err(MakeError);
    };
    let first = Owned::part(alloc, 1, 0, owner)?;
    let second = Owned::part(alloc, 1, 0, another)?;
    Ok((first, second))
}

/// Returns whether both parts route `k` alike, which they do.
pub fn route_alike<K: Eq + Hash, V, H: BuildHasher>(
    first: &Owned<K, V, Shared<H>>,
    second: &Owned<K, V, Shared<H>>,
    k: &K,
) -> bool
    requires settings { settings_of first.now ≡ settings_of second.now }
    requires size { bucket_count first.now ≡ bucket_count second.now }
    ensures { result ≡ true }
{
    first.bucket_index(k) == second.bucket_index(k)
}

type Fold = BuildHasherDefault<FoldHasher>;

type Part = Owned<u64, u64, Shared<Fold>>;

/// Makes two recorded parts, makes the calls on the part to which `key` routes, and returns this part. Fails if memory
/// is refused.
pub fn run_in_parts(
    alloc: Global,
    owner: Shared<Fold>,
    key: u64,
    replies: &mut Vec<Reply<u64, u64>>,
) -> Result<Part, MakeError>
    ensures hasher { IfOk result (λ p. (settings_of p).hasher ≡ owner) }
    ensures skipped { IfOk result (λ p. (settings_of p).skipped ≡ 1) }
{
    let number = route::<Part>(&owner, 2, &key);
    let (first, second) = scc_calls::two_parts::<Part>(alloc, 64, 0, owner)?;
    let mut part = if number == 0 { first } else { second };
    match run(&mut part, &[MapCall::Insert(key, 1), MapCall::Len], replies) {
        Ok(()) => Ok(part),
        Err(Refused) => Err(MakeError),
    }
}
