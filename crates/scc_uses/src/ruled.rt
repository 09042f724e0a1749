//! Callers of maps under a rule: squares, sessions that have their token, and a caller that knows no rule.
ghost use Rattle.std.specs.Prelude.{◌≡◌, ◌≤◌, ◌<◌, ◌*◌, ◌^◌, IfSome};

use scc_common::{Rule, Verdict};
use scc_owned::ruled_map::locked::Entry;
use scc_shared::ruled_map::RuledMap;
use std::hash::{BuildHasher, Hash};
use std::sync::Wait;

/// The rule that the value of a key is its square.
pub struct IsSquare;

impl Rule<u64, u64> for IsSquare {
    ghost use Rattle.std.proofs.Common.{rules};

    ghost holds = { λ k v. v ≡ k * k };

    ghost alike = { λ j k v same h. Prim.search rules };
}

/// The squares by their numbers.
pub type Squares = RuledMap<u64, u64, IsSquare>;

/// Returns the square of `k`, which another thread may have stored. It is computed once for each key, as long as memory
/// is there.
pub fn square_of<W: Wait>(rt: &W, squares: &Squares, k: u64) -> u64
    requires { k < 2 ^ 32 }
    ensures { result ≡ k * k }
{
    squares.get_or_insert_with(
        rt,
        k,
        |k: &u64| -> u64
            requires { k.now < 2 ^ 32 }
            ensures { result ≡ k.now * k.now }
        { *k * *k },
    )
}

/// Stores the square of `k`, unless it is there. Returns whether it was stored.
pub fn noted<W: Wait>(rt: &W, squares: &Squares, k: u64) -> bool
    requires { k < 2 ^ 32 }
{
    squares.insert_sync(rt, k, k * k).is_ok()
}

/// Returns the square of `k` through its entry, which is filled first if it is vacant. Returns `None` if memory is
/// refused.
pub fn squared<W: Wait>(rt: &W, squares: &Squares, k: u64) -> Option<u64>
    requires { k < 2 ^ 32 }
    ensures { IfSome result (λ v. v ≡ k * k) }
{
    match squares.entry_sync(rt, k).or_insert(k * k) {
        Ok(entry) => Some(*entry.get()),
        Err(_) => None,
    }
}

/// A session, with the token that it stands under.
#[derive(Clone, Copy, Drop)]
pub struct TokenSession {
    pub token: u64,
    pub begin: u64,
    pub end: u64,
}

/// The rule that a session stands under its token and doesn't end before it begins.
pub struct IsOfToken;

impl Rule<u64, TokenSession> for IsOfToken {
    ghost use Rattle.std.proofs.Common.{rules};

    ghost holds = { λ token s. (s.token ≡ token) × (s.begin ≤ s.end) };

    ghost alike = { λ j k s same h. Prim.search rules };
}

/// The sessions by their tokens.
pub type TokenSessions = RuledMap<u64, TokenSession, IsOfToken>;

/// Returns the session of `token`, or the one that begins at `now` and is stored. Returns `None` if memory is refused.
pub fn opened<W: Wait>(
    rt: &W,
    sessions: &TokenSessions,
    token: u64,
    now: u64,
) -> Option<TokenSession>
    ensures { IfSome result (λ s. (s.token ≡ token) × (s.begin ≤ s.end)) }
{
    match sessions.entry_sync(rt, token) {
        Entry::Occupied(entry) => Some(*entry.get()),
        Entry::Vacant(entry) => match entry.insert_entry(TokenSession {
            token,
            begin: now,
            end: now,
        }) {
            Ok(entry) => Some(*entry.get()),
            Err(_) => None,
        },
    }
}

/// Returns the session of `token`.
pub fn found<W: Wait>(rt: &W, sessions: &TokenSessions, token: u64) -> Option<TokenSession>
    ensures { IfSome result (λ s. (s.token ≡ token) × (s.begin ≤ s.end)) }
{
    sessions.read_sync(rt, &token, |_, s| *s)
}

/// Lets the session of `token` end at `now` unless it ends later, and returns how long it lasts.
pub fn prolonged<W: Wait>(rt: &W, sessions: &TokenSessions, token: u64, now: u64) -> Option<u64> {
    sessions.update_sync(rt, &token, |_, s| {
        s.end = now.max(s.end);
        s.end - s.begin
    })
}

/// Puts `session` in the place of the session of its token, and returns the old one.
pub fn exchanged<W: Wait>(
    rt: &W,
    sessions: &TokenSessions,
    session: TokenSession,
) -> Option<TokenSession>
    requires { session.begin ≤ session.end }
    ensures { IfSome result (λ s. (s.token ≡ session.token) × (s.begin ≤ s.end)) }
{
    let mut entry = sessions.get_sync(rt, &session.token)?;
    Some(entry.insert(session))
}

/// Removes the session of `token` if it has ended by `now`, and returns it. If it goes on, it begins anew at `now`.
pub fn ended<W: Wait>(
    rt: &W,
    sessions: &TokenSessions,
    token: u64,
    now: u64,
) -> Option<TokenSession>
    ensures { IfSome result (λ s. (s.token ≡ token) × (s.end ≤ now)) }
{
    let (_, session) = sessions.remove_if_sync(rt, &token, |s| {
        let is_over = s.end <= now;
        if !is_over {
            s.begin = now;
        }
        is_over
    })?;
    Some(session)
}

/// Lets the session end at `now` unless it ends later. Returns how long it lasts: no session ends before it begins.
pub fn renewed<W: Wait>(rt: &W, sessions: &TokenSessions, token: u64, now: u64) -> Option<u64> {
    let mut entry = sessions.get_sync(rt, &token)?;
    entry.update(|_, s| s.end = s.end.max(now));
    let s = *entry.get();
    Some(s.end - s.begin)
}

/// Returns whether every session that the walk met lasts less than `limit`.
pub fn are_short<W: Wait>(rt: &W, sessions: &TokenSessions, limit: u64) -> bool {
    sessions.iter_sync(rt, |_, s| s.end - s.begin < limit)
}

/// Removes the first session that the walk meets and that lasts `limit` or longer, and returns it with its token.
pub fn long_removed<W: Wait>(
    rt: &W,
    sessions: &TokenSessions,
    limit: u64,
) -> Option<(u64, TokenSession)>
    ensures { IfSome result (λ p. (p.1.token ≡ p.0) × (p.1.begin ≤ p.1.end)) }
{
    let entry = sessions.any_sync(rt, |_, s| s.end - s.begin >= limit)?;
    Some(entry.remove_entry())
}

/// Returns how long the first `most` sessions last together, from entry to entry.
pub fn lasted<W: Wait>(rt: &W, sessions: &TokenSessions, most: usize) -> u64 {
    let mut sum = 0u64;
    let mut at = sessions.begin_sync(rt);
    for _ in 0..most {
        let Some(entry) = at else {
            break;
        };
        sum = sum.saturating_add(entry.get().end - entry.get().begin);
        at = entry.next_sync(rt);
    }
    sum
}

/// Moves the sessions that have ended by `now` into `over`, and lets the others begin at `now` or later. Returns whether
/// memory sufficed for all.
pub fn all_ended<W: Wait>(
    rt: &W,
    sessions: &TokenSessions,
    now: u64,
    over: &mut Vec<(u64, TokenSession)>,
) -> bool {
    let walked = sessions.iter_mut_sync(
        rt,
        |_, s| {
            if s.end <= now {
                return Verdict::Take;
            }
            s.begin = s.begin.max(now);
            Verdict::Keep
        },
        over,
    );
    walked.is_ok()
}

/// Removes the sessions that ended before `now`, and lets the others end at `now` or later.
pub fn sweep_sessions<W: Wait>(rt: &W, sessions: &TokenSessions, now: u64) {
    sessions.retain_sync(rt, |_, s| {
        let stays = s.end >= now;
        s.end = s.end.max(now);
        stays
    });
}

/// Returns the value of `k`, or else stores `v` and returns it. Whatever the rule says of `k` and `v`, it says of the
/// result.
pub fn found_or<W: Wait, K: Eq + Hash + Drop, V: Copy, R: Rule<K, V>, H: BuildHasher>(
    rt: &W,
    map: &RuledMap<K, V, R, H>,
    k: K,
    v: V,
) -> V
    requires { R.holds k v }
    ensures { R.holds k result }
{
    match map.read_sync(rt, &k, |_, v| *v) {
        Some(v) => v,
        None => {
            let _ = map.insert_sync(rt, k, v);
            v
        }
    }
}
