//! Gates, which are told when a request is about to be answered, and when it was.

/// What is told of each request of a connection. It changes nothing.
pub trait Gate {
    /// The next request of this connection is about to be answered.
    fn enter(&self, connection: u32);

    /// It was answered, or there was no memory for that.
    fn leave(&self, connection: u32);
}

/// A gate that does nothing.
#[derive(Clone, Copy, Debug)]
pub struct OpenGate;

impl Gate for OpenGate {
    fn enter(&self, _connection: u32) {}

    fn leave(&self, _connection: u32) {}
}
