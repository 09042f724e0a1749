//! Walks over the keys of a set.
ghost use Rattle.scc_common.specs.Contents.{entries};
ghost use Rattle.scc_common.specs.Steps.{Holds};
ghost use Rattle.scc_owned.specs.Shrinking.{ClearsByRule, RetainsByRule, TakesByRule};
ghost use Rattle.scc_owned_set.specs.Keys.{IsUnique};
ghost use Rattle.scc_owned_set.specs.SetWalks.{CallableWhile, GoesOn, Retains, Takes, Walks};
ghost use Rattle.std.specs.Fn.{CalledAt, TakesAt};
ghost use Rattle.std.specs.List.Sorted.{IsPermutation};
ghost use Rattle.std.specs.Prelude.{◌≡◌, ◌++◌, List, true, ⊤};
ghost use Rattle.std.specs.Vec.{vec_len, vec_capacity};

use crate::Owned;
use scc_common::{Verdict, WalkError};
use std::hash::{BuildHasher, Hash};

impl<K: Eq + Hash, H: BuildHasher> Owned<K, H> {
    /// Calls `f` on the keys in some order, each at most once, until `f` returns false. Returns false if it did, else
    /// true.
    #[inline(always)]
    pub fn iter_sync<F: FnMut(&K) -> bool>(&self, mut f: F) -> bool
        requires { (ks : List K) → IsPermutation (entries self.now) ks
            → CallableWhile F.FnMut (λ answer. answer ≡ true) f ks }
        ensures { (ks : List K) × (last : F) × IsPermutation (entries self.now) ks
            × Walks (CalledAt F.FnMut) f ks result last }
    {
        self.map.iter_sync(
            move |key: &K, _value: &()| -> bool
                requires { TakesAt F.FnMut f key.now }
                ensures { CalledAt F.FnMut f.entry key.entry.now result f.exit }
            { f(key) },
        )
    }

    /// Calls `f` on every key once, in some order, and removes the keys on which `f` returns false. Then the array may
    /// shrink.
    pub fn retain_sync<F: FnMut(&K) -> bool>(&mut self, mut f: F)
    where
        K: Drop,
        requires { (ks : List K) → IsPermutation (entries self.old) ks → CallableWhile F.FnMut (λ answer. ⊤) f ks }
        ensures { RetainsByRule (IsUnique K.eq) ((ks : List K) × (stay : List K) × (last : F)
            × IsPermutation (entries self.old) ks × Retains (CalledAt F.FnMut) f ks stay last
            × Holds self.old stay self.new) self.old self.new }
    {
        self.map.retain_sync(
            move |key: &K, _value: &mut ()| -> bool
                requires { TakesAt F.FnMut f key.now }
                ensures { CalledAt F.FnMut f.entry key.entry.now result f.exit }
            { f(key) },
        );
    }

    /// Calls `f` on the keys in some order, each at most once, until `f` stops the walk. Returns false if `f` stopped
    /// it, else true. A key on which `f` returns `Take` or `TakeStop` goes to the end of `taken`. Before each call of
    /// `f`, room for one key is made in `taken`; if its memory is refused, the walk ends with an error, and what the
    /// walk did so far stays. If a key was taken, the array may shrink.
    pub fn iter_mut_sync<F: FnMut(&K) -> Verdict>(
        &mut self,
        mut f: F,
        taken: &mut Vec<K>,
    ) -> Result<bool, WalkError>
        requires { (ks : List K) → IsPermutation (entries self.old) ks → CallableWhile F.FnMut GoesOn f ks }
        ensures { TakesByRule (IsUnique K.eq) (λ list. list.items) vec_len vec_capacity ((ks : List K)
            × (stay : List K) × (more : List K) × (last : F) × IsPermutation (entries self.old) ks
            × Takes (CalledAt F.FnMut) f ks stay more result last
            × (taken.new.items ≡ taken.old.items ++ more) × Holds self.old stay self.new) self.old taken.old result
            self.new taken.new }
    {
        self.map.iter_mut_into(
            move |key: &K, _value: &mut ()| -> Verdict
                requires { TakesAt F.FnMut f key.now }
                ensures { CalledAt F.FnMut f.entry key.entry.now result f.exit }
            { f(key) },
            taken,
        )
    }

    /// Removes all keys. Then the array may shrink.
    pub fn clear_sync(&mut self)
    where
        K: Drop,
        ensures { ClearsByRule (IsUnique K.eq) self.old self.new }
    {
        self.map.clear_sync();
    }
}
