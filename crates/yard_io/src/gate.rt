//! The gate that each worker passes as it begins a job.

/// Is called as each job is begun. It returns, and tells nothing.
pub trait Gate {
    fn at_job(&self, worker: u32, job: u64);
}

/// The gate that does nothing.
#[derive(Clone, Copy, Debug)]
pub struct OpenGate;

impl Gate for OpenGate {
    fn at_job(&self, _worker: u32, _job: u64) {}
}
