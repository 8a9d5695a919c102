//! What is passed over while an own request is unanswered (X.225 7.24, 7.31, 7.33).

ghost use Rattle.std.specs.Prelude.{◌≡◌};
ghost use Rattle.end_rules.specs.Messages.{unit_of};
ghost use Rattle.end_rules.specs.Purging.{wins_against, ends_all, settles_restart, settles_interrupt, settles_discard, settles_release, settles, is_purged, is_transport_purged};
ghost use Rattle.association_words.specs.Seen.{seen_word};
ghost use Rattle.association_pieces.specs.Link.{seen_awaited};

use association_calls::association_state_layer::Awaited;
use association_words::{ActivityWord, AssociationWord, MarkWord, Word};
use osi_base::SessionWord;

/// Whether a restart that comes wins against the own one: the one to the lower mark, on a tie the
/// initiator's (this project's own rule).
fn wins_against(initiator: bool, own: u32, number: u32) -> bool
    ensures { result ≡ wins_against initiator own number }
{
    number < own || (own == number && !initiator)
}

/// Whether it is a release or an abort, which are taken at any time.
fn ends_all(word: &Word) -> bool
    ensures { result ≡ ends_all (unit_of (seen_word word.now)) }
{
    match word {
        Word::OfAssociation(AssociationWord::Finish { .. }) => true,
        Word::OfAssociation(AssociationWord::Abort { .. }) => true,
        Word::OfAssociation(AssociationWord::AbortAccept) => true,
        Word::OfAssociation(AssociationWord::Connect { .. }) => false,
        Word::OfAssociation(AssociationWord::Accept { .. }) => false,
        Word::OfAssociation(AssociationWord::Refuse { .. }) => false,
        Word::OfAssociation(AssociationWord::Disconnect { .. }) => false,
        Word::OfData(_) => false,
        Word::OfMarks(_) => false,
        Word::OfActivities(_) => false,
    }
}

/// Whether it answers an own restart, or is a restart that wins.
fn settles_restart(initiator: bool, own: u32, word: &Word) -> bool
    ensures { result ≡ settles_restart initiator own (unit_of (seen_word word.now)) }
{
    match word {
        Word::OfMarks(MarkWord::Restart { number, .. }) => wins_against(initiator, own, *number),
        Word::OfMarks(MarkWord::RestartAck { .. }) => true,
        _ => false,
    }
}

fn settles_interrupt(word: &Word) -> bool
    ensures { result ≡ settles_interrupt (unit_of (seen_word word.now)) }
{
    match word {
        Word::OfActivities(ActivityWord::InterruptAck) => true,
        _ => false,
    }
}

fn settles_discard(word: &Word) -> bool
    ensures { result ≡ settles_discard (unit_of (seen_word word.now)) }
{
    match word {
        Word::OfActivities(ActivityWord::DiscardAck) => true,
        _ => false,
    }
}

fn settles_release(word: &Word) -> bool
    ensures { result ≡ settles_release (unit_of (seen_word word.now)) }
{
    match word {
        Word::OfAssociation(AssociationWord::Disconnect { .. }) => true,
        _ => false,
    }
}

/// Whether it settles the own request.
fn settles(initiator: bool, awaits: Awaited, word: &Word) -> bool
    ensures { result ≡ settles initiator (seen_awaited awaits) (unit_of (seen_word word.now)) }
{
    match awaits {
        Awaited::NoAnswer => true,
        Awaited::RestartOf(own) => settles_restart(initiator, own, word),
        Awaited::InterruptOf => settles_interrupt(word),
        Awaited::DiscardOf => settles_discard(word),
        Awaited::ReleaseOf => settles_release(word),
    }
}

/// Whether a unit of the session is passed over: while an own request is unanswered all is but what
/// settles it, a release and an abort.
pub fn is_purged(initiator: bool, awaits: Awaited, word: &Word) -> bool
    ensures { result ≡ is_purged initiator (seen_awaited awaits) (unit_of (seen_word word.now)) }
{
    !(settles(initiator, awaits, word) || ends_all(word))
}

/// Whether a unit that wasn't read further is a release or an abort.
fn unit_ends_all(unit: &SessionWord) -> bool
    ensures { result ≡ ends_all unit.now }
{
    match unit {
        SessionWord::Finish { .. } => true,
        SessionWord::Abort { .. } => true,
        SessionWord::AbortAccept => true,
        _ => false,
    }
}

/// Whether a unit that wasn't read further settles an own restart.
fn unit_settles_restart(initiator: bool, own: u32, unit: &SessionWord) -> bool
    ensures { result ≡ settles_restart initiator own unit.now }
{
    match unit {
        SessionWord::Resynchronize { number, .. } => wins_against(initiator, own, *number),
        SessionWord::ResynchronizeAck { .. } => true,
        _ => false,
    }
}

/// Whether a unit that wasn't read further settles the own request.
fn unit_settles(initiator: bool, awaits: Awaited, unit: &SessionWord) -> bool
    ensures { result ≡ settles initiator (seen_awaited awaits) unit.now }
{
    match awaits {
        Awaited::NoAnswer => true,
        Awaited::RestartOf(own) => unit_settles_restart(initiator, own, unit),
        Awaited::InterruptOf => match unit {
            SessionWord::ActivityInterruptAck => true,
            _ => false,
        },
        Awaited::DiscardOf => match unit {
            SessionWord::ActivityDiscardAck => true,
            _ => false,
        },
        Awaited::ReleaseOf => match unit {
            SessionWord::Disconnect { .. } => true,
            _ => false,
        },
    }
}

/// Whether a unit of the session that wasn't read further is passed over.
pub fn is_unit_purged(initiator: bool, awaits: Awaited, unit: &SessionWord) -> bool
    ensures { result ≡ is_purged initiator (seen_awaited awaits) unit.now }
{
    !(unit_settles(initiator, awaits, unit) || unit_ends_all(unit))
}

/// Whether a transport unit is passed over.
pub fn is_transport_purged(awaits: Awaited) -> bool
    ensures { result ≡ is_transport_purged (seen_awaited awaits) }
{
    match awaits {
        Awaited::NoAnswer => false,
        _ => true,
    }
}
