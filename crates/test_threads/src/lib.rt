//! What containers do under several threads: their locks, walks beside writers, comparisons, what one kind alone does, and
//! callers that threads run.
#![tactic(auto)]

#[cfg(test)]
mod callers;
#[cfg(test)]
mod comparing;
#[cfg(test)]
mod dropped;
#[cfg(test)]
mod entries;
#[cfg(test)]
mod evicting;
#[cfg(test)]
mod expect;
#[cfg(test)]
mod kinds;
#[cfg(test)]
mod locks;
#[cfg(test)]
mod map_stripes;
#[cfg(test)]
mod replacing;
#[cfg(test)]
mod stripes;
#[cfg(test)]
mod trials;
#[cfg(test)]
mod versions;
#[cfg(test)]
mod waits;
#[cfg(test)]
mod walks;
