//! What a worker does, and the gate that it passes.

/// The work of one thread: a number of turns, one after another.
pub trait Work {
    /// Returns the number of turns. Called once, before the first turn.
    fn turns(&self) -> usize;

    /// Makes turn `j`, counted from 0. If it returns false, no further turn is made.
    fn turn(&mut self, j: usize) -> bool;
}

/// The gate that each worker passes before and after a turn. All threads call it by reference.
pub trait Gate {
    /// Comes before turn `j` of worker `worker`, both counted from 0, and may wait. If it returns false, the gate
    /// gives up, and this worker makes no further turn.
    fn before(&self, worker: usize, j: usize) -> bool;

    /// Comes after each turn that was made, also after a turn that returned false.
    fn after(&self, worker: usize, j: usize);
}

/// A gate that holds nothing back.
#[derive(Drop)]
pub struct Open;

impl Gate for Open {
    fn before(&self, _worker: usize, _j: usize) -> bool {
        true
    }

    fn after(&self, _worker: usize, _j: usize) {}
}
