//! What is kept of an open invocation beside its key.

/// What an open invocation was invoked with.
#[derive(Clone, Copy, Debug, PartialEq, Eq)]
pub struct InvokedWith {
    /// Its operation, as a place in the table of operations, from 0.
    pub operation: u32,
    /// The identifier of the presentation context on which it was invoked.
    pub context: u32,
}
