//! What a call did.

use association_words::Message;

/// What an accepted call answers, and what it sends.
#[derive(Debug, Drop)]
pub struct AcceptedCall {
    /// The number that the call answers, if any.
    pub answer: Option<i64>,
    /// The message that is sent, if any.
    pub message: Option<Message>,
}
