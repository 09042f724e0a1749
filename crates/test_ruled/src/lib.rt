//! What containers under a rule do, and a memo that threads share: what no clause says.
#![tactic(auto)]

#[cfg(test)]
mod cache;
#[cfg(test)]
mod expect;
#[cfg(test)]
mod index;
#[cfg(test)]
mod made;
#[cfg(test)]
mod map;
#[cfg(test)]
mod memo;
#[cfg(test)]
mod refreshes;
#[cfg(test)]
mod runs;
#[cfg(test)]
mod set;
