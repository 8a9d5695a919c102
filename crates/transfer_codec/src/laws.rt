//! The law is the contract of a function that does nothing.

ghost use Rattle.transfer_codec.specs.Laws.{TransfersHaveACodec};

/// Where transfers are spelled so that they are read back, the model has a codec that writes them
/// so and reads nothing else.
pub fn transfers_have_a_codec()
    ensures law { TransfersHaveACodec }
{}
