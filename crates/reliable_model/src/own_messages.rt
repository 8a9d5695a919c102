//! The law that whatever an end of reliable mode does by itself is an act of the model.

ghost use Rattle.reliable_model.specs.OwnRows.{OwnMessagesAct};

/// Starts, encodings, parts, marks and ends of transfers, as an end gives them by itself: each is
/// an act of the model, and leaves an end that goes on so.
pub fn own_messages_act()
    ensures rows { OwnMessagesAct }
{}
