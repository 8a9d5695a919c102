//! Laws, each the contract of a function that does nothing.

ghost use Rattle.end_config.specs.Connecting.{ConnectIsOfRules};
ghost use Rattle.end_config.specs.Proposing.{InitiatorsProposeRightly};

/// The unit that opens or recovers an association, as a configuration has it, is the one that the
/// rules of an end send.
pub fn connect_is_of_rules()
    ensures { ConnectIsOfRules }
{}

/// The contexts that an initiator proposes whose configuration isn't refused come once each and
/// have its parity, so no responder finds a fault in them.
pub fn proposed_contexts_are_right()
    ensures { InitiatorsProposeRightly }
{}
