// A call on one stripe of a recorded map waits neither for the lock nor for the keys of another stripe. One lock round
// all calls fails this test, and so does a lock that is held while a key is hashed.
ghost use Rattle.std.specs.Prelude.{◌≡◌, Some};
ghost use Rattle.scc_recorded.specs.Setups.{request_of};
ghost use Rattle.scc_script.specs.Hashes.{same_write};

use crate::expect::expect;
use scc_calls::MapCall;
use scc_common::Shared;
use scc_owned::map::Owned;
use scc_recorded::{Pass, Recorded, Setup, Site};
use scc_script::same::{Same, SameHasher};
use std::alloc::Global;
use std::hash::{BuildHasher, Hasher};
use std::marker::Brand;
use std::sync::ledger::{Blank, Ledger};
use std::sync::{Arc, Wait};
use std::thread::{Threads, join, yield_now};
use test_kit::flags::{Flags, height, raise, sees};

// The key that is long hashed, in the first of two stripes.
const LONG: u64 = 1;

// A key in the second stripe.
const OTHER: u64 = 1 << 63;

// How often other threads are let go first while `LONG` is hashed.
const YIELDS: u32 = 4_000;

// How often the two calls are made side by side.
const ROUNDS: u64 = 8;

// Builds hashers under which a key is its own hash, and `LONG` takes long.
#[derive(Clone, Copy)]
struct Slow;

#[derive(Clone, Copy)]
struct SlowHasher {
    inner: SameHasher,
}

/// Lets other threads go first, again and again.
fn wait_long() {
    for _ in 0..YIELDS {
        yield_now();
    }
}

impl Hasher for SlowHasher {
    ghost write = { λ h bytes. record { inner = same_write h.inner bytes } };

    ghost finish = { λ h. h.inner.last };

    fn finish(&self) -> u64 {
        let hash = self.inner.finish();
        if hash == LONG {
            wait_long();
        }
        hash
    }

    fn write(&mut self, bytes: &[u8]) {
        self.inner.write(bytes);
    }
}

impl BuildHasher for Slow {
    type Hasher = SlowHasher;

    ghost build_hasher = { λ _. record { inner = record { last = 0 } } };

    fn build_hasher(&self) -> SlowHasher {
        SlowHasher {
            inner: Same.build_hasher(),
        }
    }
}

type Map = Owned<u64, u64, Shared<Slow>>;

/// Stores a key by a recorded call, and returns whether the call was made.
fn stores<L: Ledger, M: Site<Shared<Slow>>, R: Wait>(
    rt: &R,
    recorded: &Recorded<Map, L, M>,
    pass: &mut Pass<Map, L>,
    key: u64,
) -> bool {
    recorded.call(rt, pass, MapCall::Upsert(key, 10)).is_ok()
}

/// Stores `LONG`, and tells before and after it.
fn stores_long<L: Ledger, M: Site<Shared<Slow>>, R: Wait>(
    rt: &R,
    recorded: &Recorded<Map, L, M>,
    pass: &mut Pass<Map, L>,
    flags: &Flags,
) -> bool {
    raise(&flags.first);
    let stored = stores(rt, recorded, pass, LONG);
    raise(&flags.second);
    stored
}

/// Stores `OTHER` while `LONG` is hashed in its stripe: its first hash names the stripe, before any lock is taken.
/// Returns whether this call ended first.
fn stores_beside<L: Ledger, M: Site<Shared<Slow>>, R: Wait>(
    rt: &R,
    recorded: &Recorded<Map, L, M>,
    pass: &mut Pass<Map, L>,
    flags: &Flags,
) -> bool {
    if !sees(&flags.first) {
        return false;
    }
    wait_long();
    stores(rt, recorded, pass, OTHER) && height(&flags.second) == 0
}

/// Makes a call on each of two stripes by two threads. Returns whether the call of `OTHER` ended while that of
/// `LONG` was made.
fn work_at_once<
    L: Ledger + Send + Sync,
    M: Site<Shared<Slow>> + Send + Sync,
    R: Threads + Wait + Sync,
>(rt: &R, recorded: &Recorded<Map, L, M>, one: &mut Pass<Map, L>, two: &mut Pass<Map, L>) -> bool {
    let flags = Flags::new();
    let (stored, beside) = join(
        rt,
        || stores_long(rt, recorded, one, &flags),
        || stores_beside(rt, recorded, two, &flags),
    );
    stored && beside
}

/// Makes the two calls once by the two passes. Returns whether the short call ended first.
fn is_first<L: Ledger + Send + Sync, M: Site<Shared<Slow>> + Send + Sync, R: Threads + Wait + Sync>(
    rt: &R,
    recorded: &Recorded<Map, L, M>,
    passes: &mut [Pass<Map, L>],
) -> bool {
    match passes {
        [one, two] => work_at_once(rt, recorded, one, two),
        _ => false,
    }
}

/// Makes the two calls side by side until the short call ends first. Returns whether it did.
fn is_once_first<
    L: Ledger + Send + Sync,
    M: Site<Shared<Slow>> + Send + Sync,
    R: Threads + Wait + Sync,
>(rt: &R, recorded: &Recorded<Map, L, M>, passes: &mut [Pass<Map, L>]) -> bool {
    for _ in 0..ROUNDS {
        if is_first(rt, recorded, passes) {
            return true;
        }
    }
    false
}

/// Makes the calls on two stripes. Returns whether the short call once ended first.
fn works_at_once<
    L: Ledger + Send + Sync,
    M: Site<Shared<Slow>> + Send + Sync,
    R: Threads + Wait + Sync,
>(rt: &R, alloc: Global, hasher: Shared<Slow>, receipts: Blank, records: Blank) -> bool
    requires receipts { (receipts.name ≡ L.name) × (receipts.parts ≡ L.parts) × (receipts.parts ≡ 2) }
    requires records { (records.name ≡ M.name) × (records.parts ≡ M.parts) × (records.parts ≡ 2) }
    requires site { (M.chosen ≡ Some (request_of 0 0 hasher 2)) × (M.all ≡ 2) }
{
    let setup = Setup {
        capacity: 0,
        maximum: 0,
        hasher,
    };
    let Ok((recorded, handed)) = Recorded::<Map, L, M>::open(alloc, setup, 2, 2, receipts, records)
    else {
        return false;
    };
    let mut passes = handed;
    is_once_first(rt, &recorded, passes.as_mut_slice())
}

#[test]
fn recorded_calls_of_two_stripes_work_at_once(rt: HostRuntime) {
    match Arc::new(rt.alloc(), Slow) {
        Ok(owner) => {
            let is_first = works_at_once::<Brand, Brand, HostRuntime>(
                &rt,
                rt.alloc(),
                Shared::new(owner),
                Blank::new(2),
                Blank::new(2),
            );
            expect(&rt, is_first);
        }
        Err(_) => expect(&rt, false),
    }
}
