//! Tests of recorded containers, of runs, of scripts and of workers, which hold whichever requests for memory are
//! refused: a refused call leaves everything as it must, and is made again until it succeeds.
#![tactic(auto)]

#[cfg(test)]
mod calls;
#[cfg(test)]
mod expect;
#[cfg(test)]
mod finishing;
#[cfg(test)]
mod growths;
#[cfg(test)]
mod kinds;
#[cfg(test)]
mod opened;
#[cfg(test)]
mod runs;
#[cfg(test)]
mod scripts;
#[cfg(test)]
mod workers;
