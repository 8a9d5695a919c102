//! The laws of APDUs of reliable transfer, each the contract of a function that does nothing.

ghost use Rattle.rtse_apdus.specs.Laws.{RtseIsSpelled, SpelledRtseIsRead, WrittenRtseIsRead};
ghost use Rattle.rtse_apdus.specs.Transfer.{TransferIsSpelled, SpelledTransferIsRead, WrittenTransferIsRead};

/// What is read is spelled by the octets.
pub fn rtse_is_spelled()
    ensures { RtseIsSpelled }
{}

/// What octets spell is read of them. So they spell one APDU at most.
pub fn spelled_rtse_is_read()
    ensures { SpelledRtseIsRead }
{}

/// What is written of an APDU that may be written is spelled so and read back.
pub fn written_rtse_is_read()
    ensures { WrittenRtseIsRead }
{}

/// The one value of a transfer is spelled by the octets that it is read from, octets are read as
/// the value that they spell, so as one at most, and what is written of a value is read back.
pub fn transfers()
    ensures spelled { TransferIsSpelled }
    ensures read { SpelledTransferIsRead }
    ensures written { WrittenTransferIsRead }
{}
