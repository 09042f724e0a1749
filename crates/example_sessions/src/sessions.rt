//! Sessions that workers share, by their tokens. A session stands under its token, and none ends before it begins.
ghost use Rattle.std.specs.Prelude.{◌≡◌, ◌≤◌, IfSome};

use scc::{Rule, RuledMap};
use std::alloc::Global;
use std::io;
use std::sync::Wait;

/// From when to when a session lasts. A span that would end before it begins can't be made, so whatever a thread reads
/// from the map is ordered, whichever thread wrote it.
#[derive(Clone, Copy, Drop)]
pub struct Span {
    pub begin: u64,
    pub end: u64,
    pub ghost ordered: { begin ≤ end },
}

impl Span {
    /// Returns the span from `begin` to `end`, or `None` if it would end before it begins.
    pub fn new(begin: u64, end: u64) -> Option<Span>
        ensures { IfSome result (λ span. (span.begin ≡ begin) × (span.end ≡ end)) }
    {
        if begin <= end {
            Some(Span { begin, end })
        } else {
            None
        }
    }

    /// Returns the span with an end that isn't before `time`.
    pub fn until(self, time: u64) -> Span
        ensures begin { result.begin ≡ self.begin }
        ensures end { time ≤ result.end }
    {
        Span {
            begin: self.begin,
            end: self.end.max(time),
        }
    }
}

/// A session, with the token that it stands under.
#[derive(Clone, Copy, Drop)]
pub struct Session {
    pub token: u64,
    pub span: Span,
}

/// The rule that a session stands under its own token.
pub struct IsOfToken;

impl Rule<u64, Session> for IsOfToken {
    ghost use Rattle.std.proofs.Common.{rules};

    ghost holds = { λ token session. session.token ≡ token };

    ghost alike = { λ j k session same h. Prim.search rules };
}

/// The sessions by their tokens.
pub type Sessions = RuledMap<u64, Session, IsOfToken>;

/// Makes a store without sessions.
pub fn new_sessions(alloc: Global) -> io::Result<Sessions> {
    Ok(RuledMap::new(alloc)?)
}

/// Returns the session of `token`. Its own token needs no test: the map keeps it.
pub fn look_up<R: Wait>(rt: &R, sessions: &Sessions, token: u64) -> Option<Session>
    ensures { IfSome result (λ session. session.token ≡ token) }
{
    sessions.read_sync(rt, &token, |_, session| *session)
}

/// Returns how long a session lasts. The subtraction can't overflow, since no session ends before it begins.
pub fn length<R: Wait>(rt: &R, sessions: &Sessions, token: u64) -> Option<u64> {
    let session = look_up(rt, sessions, token)?;
    Some(session.span.end - session.span.begin)
}

/// Lets a session end at `time` or later, and returns it. The session is read and written under one lock.
pub fn touch<R: Wait>(rt: &R, sessions: &Sessions, token: u64, time: u64) -> Option<Session>
    ensures { IfSome result (λ session. (session.token ≡ token) × (time ≤ session.span.end)) }
{
    sessions.update_sync(rt, &token, |_, session| {
        session.span = session.span.until(time);
        *session
    })
}

/// Takes a session out that has ended by `now`.
pub fn expire<R: Wait>(rt: &R, sessions: &Sessions, token: u64, now: u64) -> Option<Session>
    ensures { IfSome result (λ session. (session.token ≡ token) × (session.span.end ≤ now)) }
{
    let expired = sessions.remove_if_sync(rt, &token, |session| session.span.end <= now)?;
    Some(expired.1)
}
