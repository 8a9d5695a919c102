//! What a message leads to.

ghost use Rattle.std.specs.Prelude.{◌≡◌, IfOk, [], ◌∷◌};

use association_sends::association_words_layer::{Fault, Message};
use dialogue::Indications;
use osi_base::{ListOf, NoMemory};
use std::alloc::Global;

/// Messages in their order.
pub type Messages = ListOf<Message>;

/// What the taking of a message answers and shows.
#[derive(Debug, Drop)]
pub struct Brought {
    /// The messages that answer it, in the order in which they are sent.
    pub answers: Messages,
    /// The indications shown to the user, in their order.
    pub shown: Indications,
}

/// What a message leads to.
#[derive(Debug, Drop)]
pub enum Reaction {
    /// It is passed over.
    Passes,
    /// It is taken.
    Takes(Brought),
    /// It ends the association by an own abort, which is sent, if any is.
    Fails {
        /// Why it ends.
        fault: Fault,
        /// The messages that are sent then, in their order.
        aborts: Messages,
        /// The indications shown to the user, in their order.
        shown: Indications,
    },
}

/// One message alone.
pub fn one_message(alloc: Global, message: Message) -> Result<Messages, NoMemory>
    ensures { IfOk result (λ messages. messages ≡ message ∷ []) }
{
    let mut messages = ListOf::new(alloc);
    messages.push(message)?;
    Ok(messages)
}
