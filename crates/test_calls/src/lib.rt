//! Single-threaded calls of owned containers: entries, walks, sizes, room, clones and comparisons.
#![tactic(auto)]

#[cfg(test)]
mod caches;
#[cfg(test)]
mod closures;
#[cfg(test)]
mod containers;
#[cfg(test)]
mod entries;
#[cfg(test)]
mod expect;
#[cfg(test)]
mod growth;
#[cfg(test)]
mod rooms;
#[cfg(test)]
mod rows;
