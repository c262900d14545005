//! What a worker passes between a claim and its work.

/// A gate, which is entered outside the lock. It promises nothing, and no clause speaks of what it does.
pub trait Gate {
    /// Lets a worker pass that has the branch at a path.
    fn enter(&self, worker: u32, path: &[usize]);
}

/// A gate that does nothing.
pub struct OpenGate;

impl Gate for OpenGate {
    fn enter(&self, _worker: u32, _path: &[usize]) {}
}
