//! Tests of every call of the owned and the shared containers, also under a rule, that can be refused memory. They hold
//! whichever requests are refused: a refused call hands back what was supplied, leaves the container as it must, and is
//! made again until it succeeds.
#![tactic(auto)]

#[cfg(test)]
mod clones;
#[cfg(test)]
mod constructors;
#[cfg(test)]
mod copies;
#[cfg(test)]
mod crowds;
#[cfg(test)]
mod expect;
#[cfg(test)]
mod insertions;
#[cfg(test)]
mod looks;
#[cfg(test)]
mod makers;
#[cfg(test)]
mod meetings;
#[cfg(test)]
mod owned_makers;
#[cfg(test)]
mod removals;
#[cfg(test)]
mod reservations;
#[cfg(test)]
mod rooms;
#[cfg(test)]
mod ruled;
#[cfg(test)]
mod ruled_makers;
#[cfg(test)]
mod shared_makers;
#[cfg(test)]
mod shared_versions;
#[cfg(test)]
mod versions;
#[cfg(test)]
mod walks;
#[cfg(test)]
mod without_arrays;
