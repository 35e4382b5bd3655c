/// Where each worker reports before its share of the work. The workers of a call are numbered
/// from 1.
pub trait Gate {
    /// Called by a worker before its share. Takes no memory.
    fn come(&self, worker: u32);
}

/// A gate that lets every worker pass at once.
#[derive(Debug, Drop, Clone, Copy, PartialEq, Eq)]
pub struct OpenGate;

impl Gate for OpenGate {
    fn come(&self, _worker: u32) {}
}
