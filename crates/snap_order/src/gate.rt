//! What is told of the switches to which the workers of a round come.

/// Is told of each switch to which a worker comes in a round, before its first step there. It may make the worker wait.
pub trait Gate: Sync {
    /// A worker has come to switch `at` in the round of this number.
    fn pass(&self, round: u64, at: u16);
}

/// Lets every worker pass.
#[derive(Clone, Copy)]
pub struct NoGate;

impl Gate for NoGate {
    fn pass(&self, _round: u64, _at: u16) {}
}
