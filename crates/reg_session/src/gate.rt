use std::sync::Wait;

/// What a session waits for before each call. A test holds sessions back with it, so that their calls come in an order that it wants.
pub trait Gate: Sync {
    /// Returns when the session may make its next call. Both numbers count from 0.
    fn turn<R: Wait>(&self, rt: &R, session: u32, call: u32);
}

/// Lets every session go on at once.
#[derive(Clone, Copy, Debug, PartialEq, Eq)]
pub struct NoGate;

impl Gate for NoGate {
    fn turn<R: Wait>(&self, _rt: &R, _session: u32, _call: u32) {}
}
