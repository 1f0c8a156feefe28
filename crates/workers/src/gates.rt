//! Where a worker can be watched, and held up, by a test or a trace.

/// A place that each worker passes after each branch that it has claimed, before it reads the least
/// worth and solves the branch. A gate changes no result.
pub trait Gate: Sync {
    /// The worker of this number has claimed the branch `id`.
    fn at(&self, worker: u32, id: u64);
}

/// A gate that is always open.
pub struct NoGate;

impl Gate for NoGate {
    fn at(&self, _worker: u32, _id: u64) {}
}
