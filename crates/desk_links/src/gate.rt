//! Hooks around the calls of a link, with which a test may hold up a call.

/// A hook called before each call is judged and after it was handled.
pub trait Gate {
    /// Is called after a client's call number `call` on a link, 1 for the first, was read whole,
    /// and before it is answered. It may block, which holds up the answer.
    fn enter(&self, call: u64);

    /// Is called after a client's call number `call` on a link, 1 for the first, was handled: its
    /// answer was written, or the link ended.
    fn leave(&self, call: u64);
}

/// The hook that does nothing.
#[derive(Clone, Copy, Debug)]
pub struct OpenGate;

impl Gate for OpenGate {
    /// Does nothing, so no call is held up.
    fn enter(&self, _call: u64) {}

    /// Does nothing after a call.
    fn leave(&self, _call: u64) {}
}
