//! The names of units, layers and kinds of fault.

ghost use Rattle.std.specs.Prelude.{◌≡◌};
ghost use Rattle.trace_units.specs.Names.{direction_word, spdu_name, ppdu_name};

use osi_base::{PresentationWord, SessionWord, Side};

/// The direction of what this end sent.
pub fn direction_word(from: Side) -> &'static str
    ensures { result.now ≡ direction_word from }
{
    match from {
        Side::A => "A>B",
        Side::B => "B>A",
    }
}

pub(crate) fn spdu_name(word: &SessionWord) -> &'static str
    ensures { result.now ≡ spdu_name word.now }
{
    match word {
        SessionWord::Connect(_) => "CN",
        SessionWord::Accept { .. } => "AC",
        SessionWord::Refuse { .. } => "RF",
        SessionWord::Finish { .. } => "FN",
        SessionWord::Disconnect { .. } => "DN",
        SessionWord::Abort { .. } => "AB",
        SessionWord::AbortAccept => "AA",
        SessionWord::GiveTokens { .. } => "GT",
        SessionWord::PleaseTokens { .. } => "PT",
        SessionWord::GiveTokensConfirm => "GTC",
        SessionWord::GiveTokensAck => "GTA",
        SessionWord::TypedData { .. } => "TD",
        SessionWord::Data { .. } => "DT",
        SessionWord::Mark { .. } => "MIP",
        SessionWord::MarkAck { .. } => "MIA",
        SessionWord::Resynchronize { .. } => "RS",
        SessionWord::ResynchronizeAck { .. } => "RA",
        SessionWord::ActivityStart { .. } => "AS",
        SessionWord::ActivityResume { .. } => "AR",
        SessionWord::ActivityInterrupt { .. } => "AI",
        SessionWord::ActivityInterruptAck => "AIA",
        SessionWord::ActivityDiscard { .. } => "AD",
        SessionWord::ActivityDiscardAck => "ADA",
        SessionWord::ActivityEnd { .. } => "AE",
        SessionWord::ActivityEndAck { .. } => "AEA",
    }
}

/// The name of a unit of the presentation protocol behind a space; nothing for plain user data.
pub(crate) fn ppdu_name(unit: &PresentationWord) -> &'static str
    ensures { result.now ≡ ppdu_name unit.now }
{
    match unit {
        PresentationWord::Connect(_) => " CP",
        PresentationWord::Accept(_) => " CPA",
        PresentationWord::Reject(_) => " CPR",
        PresentationWord::Alter { .. } => " AC",
        PresentationWord::AlterAck { .. } => " ACA",
        PresentationWord::Resynchronize { .. } => " RS",
        PresentationWord::ResynchronizeAck { .. } => " RSA",
        PresentationWord::UserAbort { .. } => " ARU",
        PresentationWord::ProviderAbort { .. } => " ARP",
        PresentationWord::Data { .. } => "",
    }
}
