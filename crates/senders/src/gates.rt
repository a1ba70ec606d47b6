//! What a sender passes before it takes a lane.

/// Where senders may be held. A sender passes the gate before each hold of a lane, outside every lock.
pub trait Gate: Sync {
    /// Lets the sender through to the lane. It may wait.
    fn pass(&self, sender: u32, lane: u32);
}

/// A gate that holds nobody.
#[derive(Clone, Copy, Debug)]
pub struct OpenGate;

impl Gate for OpenGate {
    fn pass(&self, _sender: u32, _lane: u32) {}
}
