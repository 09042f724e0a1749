//! Theorems on every kind, as contracts of functions that do nothing.
ghost use Rattle.std.specs.Prelude.{◌≡◌, ℕ, List, ◌∷◌, ◌++◌, length, map};
ghost use Rattle.scc_calls.specs.Copies.{ByClone, ClonesEqual};
ghost use Rattle.scc_calls.specs.Histories.{Replays, CallsRouted, Merge, Run};
ghost use Rattle.scc_calls.specs.Parted.{PartMoves, PartResizes};
ghost use Rattle.scc_calls.specs.Parts.{KeyRouted};
ghost use Rattle.scc_calls.specs.Run.{IsRun};
ghost use Rattle.scc_common.specs.Routing.{stripe_of};
ghost use Rattle.scc_calls.specs.declared.fixed.Setting.{Setting};
ghost use Rattle.scc_calls.specs.declared.steps.Step.{Step};

use crate::Calls;

/// States that every merge of histories that replay from empty parts is a run of the whole container. The run ends in
/// what the parts hold.
pub fn every_merge_is_a_run<C: Calls>()
    ensures { (g : Setting C.Hasher) (n : ℕ) (opened : List ℕ) (histories : List (List (Step C.Call C.Reply)))
        (ends : List C.State) (entries : List (ℕ × Step C.Call C.Reply))
        → Replays (C.means g) (C.resizes g) (map C.empty opened) histories ends
        → CallsRouted C.key_of (stripe_of C.Hasher.BuildHasher C.Hasher.Hasher.Hasher C.Key.Hash.hash_input g.hasher n)
        0 histories
        → Merge histories entries
        → Run (C.whole_means g n) (C.whole_resizes g n) (C.whole (map C.empty opened)) entries (C.whole ends) }
{}

/// States that a step of one part is a step of the list of the parts, for any kind. So a kind may have this list as
/// its whole.
pub fn every_kind_has_parts<C: Calls>()
    ensures call { (g : Setting C.Hasher) (n : ℕ) (before after : List C.State) (old new : C.State) (call : C.Call)
        (reply : C.Reply)
        → KeyRouted (stripe_of C.Hasher.BuildHasher C.Hasher.Hasher.Hasher C.Key.Hash.hash_input g.hasher n)
        (length before) (C.key_of call) → C.means g old call reply new
        → PartMoves (C.means g) C.key_of (stripe_of C.Hasher.BuildHasher C.Hasher.Hasher.Hasher C.Key.Hash.hash_input
        g.hasher n) (length before) (before ++ old ∷ after) call reply (before ++ new ∷ after) }
    ensures resize { (g : Setting C.Hasher) (before after : List C.State) (old new : C.State) (buckets : ℕ) → C.resizes
        g old buckets new
        → PartResizes (C.resizes g) (length before) (before ++ old ∷ after) buckets (before ++ new ∷ after) }
{}

/// States that a run of clones of the calls is a run of what records of the calls and the replies say.
pub fn runs_mean<C: Calls>()
    requires calls { ClonesEqual C.Call.is_clone C.Call.eq }
    requires replies { ClonesEqual C.Reply.is_clone C.Reply.eq }
    ensures { (g : Setting C.Hasher) (old new : C.State) (calls : List C.Call) (replies : List C.Reply)
        → IsRun (ByClone C.Call.is_clone (C.moves g)) (C.resizes g) old calls replies new
        → IsRun (C.means g) (C.resizes g) old calls replies new }
{}
