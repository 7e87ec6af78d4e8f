//! What stands before and behind each call that a worker makes.

/// What each call of a worker goes through: it may wait there. Workers are numbered from 0, and the calls of each of them from 1.
///
/// A call is a write of a fill, or any other task.
pub trait Gate {
    /// A worker's call begins once this returns.
    fn before(&self, worker: usize, call: u64);

    /// A worker's call has answered.
    fn after(&self, worker: usize, call: u64);
}

/// No call waits.
#[derive(Clone, Copy)]
pub struct OpenGate;

impl Gate for OpenGate {
    fn before(&self, _worker: usize, _call: u64) {}

    fn after(&self, _worker: usize, _call: u64) {}
}
