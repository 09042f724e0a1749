//! Plays a script of calls.
//!
//! [`play::play`] reads a whole script, checks every line, makes the calls, and writes the replies, the contents and
//! the number of call records. [`play::play_explaining`] says besides why a line isn't in the grammar.
#![tactic(auto)]

pub mod ends;
mod finished_text;
pub mod finishing;
mod kinds;
pub mod play;
pub mod printed;
pub mod reasons;
mod receipts;
pub mod texts;
mod worker;
