//! Worked cases over the public paths of `scc`: what a call returns and what it leaves, each case under its own name.
#![tactic(auto)]

#[cfg(test)]
mod cache;
#[cfg(test)]
mod expect;
#[cfg(test)]
mod hashes;
#[cfg(test)]
mod index;
#[cfg(test)]
mod made_values;
#[cfg(test)]
mod map;
#[cfg(test)]
mod memo;
#[cfg(test)]
mod recorded;
#[cfg(test)]
mod refused;
#[cfg(test)]
mod reserving;
#[cfg(test)]
mod scripts;
#[cfg(test)]
mod set;
#[cfg(test)]
mod shared;
#[cfg(test)]
mod tags;
#[cfg(test)]
mod workers;
