//! Scripts and how their runs end, the reasons of bad lines, streams that fail, runs of calls as values, the texts of
//! refusals, recorded containers beside runs on owned ones, and workers at gates.
#![tactic(auto)]

#[cfg(test)]
mod as_run;
#[cfg(test)]
mod beside;
#[cfg(test)]
mod call_streams;
#[cfg(test)]
mod conversions;
#[cfg(test)]
mod differing;
#[cfg(test)]
mod expect;
#[cfg(test)]
mod gates;
#[cfg(test)]
mod hashes;
#[cfg(test)]
mod kinds;
#[cfg(test)]
mod lines;
#[cfg(test)]
mod played;
#[cfg(test)]
mod reasons;
#[cfg(test)]
mod replies;
#[cfg(test)]
mod runs;
#[cfg(test)]
mod streams;
#[cfg(test)]
mod texts;
#[cfg(test)]
mod workers;
