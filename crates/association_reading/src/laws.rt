//! The laws of messages in octets, each the contract of a function that does nothing.

ghost use Rattle.association_reading.specs.Associating.{AssociationsAreReadBack};
ghost use Rattle.association_reading.specs.Laws.{AlterationsAreReadBack, DataAreReadBack};
ghost use Rattle.association_reading.specs.Laws.{AssociationIsReadBack, TransferWordsAreReadBack};
ghost use Rattle.association_reading.specs.Laws.{BeginningsAreShort, TransportUnitsStandFirst};
ghost use Rattle.association_reading.specs.Laws.{RemoteIsReadBack, SessionWordsAreReadBack};
ghost use Rattle.association_reading.specs.Laws.{WrittenStandsFirst};

/// What is written of a word stands first on a line, whatever follows.
pub fn written_stands_first()
    ensures { WrittenStandsFirst }
{}

/// A word that asks nothing of the presentation is read back as itself.
pub fn session_words_are_read_back()
    ensures { SessionWordsAreReadBack }
{}

/// Alterations, restarts and their answers are read back as themselves, where their units of the
/// presentation may be written.
pub fn alterations_are_read_back()
    ensures { AlterationsAreReadBack }
{}

/// Data, pleas, releases and their answers are read back as themselves, where their units of the
/// presentation may be written and their values are meant under the held set.
pub fn data_are_read_back()
    ensures { DataAreReadBack }
{}

/// Openings, acceptances, refusals and aborts are read back as themselves, where their units of the
/// presentation may be written and they carry one APDU of association control: in reliable mode
/// with its user information, an APDU of reliable transfer.
pub fn associations_are_read_back()
    ensures { AssociationsAreReadBack }
{}

/// An APDU of the module that may be written is read back from its octets, in each syntax.
pub fn remote_is_read_back()
    ensures { RemoteIsReadBack }
{}

/// An APDU of association control without user information, a plea and a part of a transfer are
/// read back from their octets.
pub fn layers_are_read_back()
    ensures association { AssociationIsReadBack }
    ensures transfers { TransferWordsAreReadBack }
{}

/// A CR, a CC and a DR to an initiator stand first on a line, whatever follows.
pub fn transport_units_stand_first()
    ensures { TransportUnitsStandFirst }
{}

/// A proper beginning of what is written of a word, a CR, a CC or a DR to an initiator is less than
/// a message.
pub fn beginnings_are_short()
    ensures { BeginningsAreShort }
{}
