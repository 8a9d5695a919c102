//! The laws of messages in octets, each the contract of a function that does nothing.

ghost use Rattle.end_wire.specs.Laws.{OneContent, ContentSays, WrittenIsFirst, WireIsFirst, BeginningIsShort, OneMessage};

/// Octets of the module's abstract syntax are one content at most: the APDU that they spell, or
/// where they spell none they themselves.
pub fn one_content()
    ensures { OneContent }
{}

/// What an end hears in a content is what its octets say.
pub fn content_says()
    ensures { ContentSays }
{}

/// What is written of an APDU in bare mode is one message that says it, and stands first whatever
/// follows.
pub fn written_is_first()
    ensures { WrittenIsFirst }
{}

/// A message stands first, whatever follows.
pub fn wire_is_first()
    ensures { WireIsFirst }
{}

/// A proper beginning of a message is too short.
pub fn beginning_is_short()
    ensures { BeginningIsShort }
{}

/// Octets spell one message at most.
pub fn one_message()
    ensures { OneMessage }
{}
