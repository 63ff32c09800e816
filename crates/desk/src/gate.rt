// A point at which tests hold up a worker.

/// A worker calls this after each take that gave a piece. No contract depends on it. It exists for tests, which hold up a worker
/// there.
pub trait Gate {
    fn at(&self, worker: u32, piece: u32);
}

/// A gate that holds up no worker.
#[derive(Clone, Copy, Debug)]
pub struct NoGate;

impl Gate for NoGate {
    fn at(&self, _worker: u32, _piece: u32) {}
}
