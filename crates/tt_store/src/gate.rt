/// A point that a call of a store passes.
#[derive(Clone, Copy, Debug, PartialEq, Eq)]
pub enum Point {
    /// A call that publishes is about to build a new state, once in each try.
    Building,
    /// It has the lock, and is about to publish.
    Locked,
    /// It has published, and still has the lock.
    Published,
    /// A call has returned. A store doesn't pass this point: whoever calls it may.
    Answered,
}

/// A hook that each call that publishes runs at its points. Tests wait in it; `NoGate` does
/// nothing. Reads pass no point.
pub trait Gate {
    /// The worker of this number passes this point. At `Locked` and `Published` the lock is held,
    /// and in the last try at `Building` too: a gate that calls the store there never returns.
    fn at(&self, worker: u32, point: Point);
}

/// A gate that is always open.
#[derive(Clone, Copy, Debug)]
pub struct NoGate;

impl Gate for NoGate {
    fn at(&self, _worker: u32, _point: Point) {}
}
