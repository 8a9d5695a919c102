//! The word that a unit of the session is under the sets of an end, or its fault: which kind it is
//! decides.

ghost use Rattle.std.specs.Prelude.{◌≡◌, Some, option_map};
ghost use Rattle.spdu_codec.specs.Places.{user_of};
ghost use Rattle.end_rules.specs.State.{Body};
ghost use Rattle.association_intake.specs.association_reading.Meaning as reading;
ghost use Rattle.association_words.specs.Seen.{seen_accepting, seen_word};
ghost use Rattle.association_meaning.specs.Grounds.{association_base, GivesAs};
ghost use Rattle.association_meaning.specs.Words as words;
ghost use Rattle.association_intake.specs.Seen.{HasUserPlaces};

use crate::basis::{Halt, ReadingBasis};
use crate::unit_meanings::{
    aborted_with, accept_meaning, connect_meaning, data_meaning, disconnect_meaning,
    finish_meaning, pleaded_with, refused_with, restart_acked_with, restarted_with, typed_meaning,
};
use association_words::{Accepting, ActivityWord, AssociationWord, MarkWord, Word};
use osi_base::{SessionWord, SetItem};

/// The word of a unit of marks, tokens or activities, which carries no values.
fn plain_word(unit: &SessionWord) -> Option<Word>
    ensures { option_map seen_word result ≡ words.plain_word unit.now }
{
    match unit {
        SessionWord::GiveTokens { tokens } => of_marks(MarkWord::Give { tokens: *tokens }),
        SessionWord::GiveTokensConfirm => of_marks(MarkWord::GiveConfirm),
        SessionWord::GiveTokensAck => of_marks(MarkWord::GiveAck),
        SessionWord::Mark { number } => of_marks(MarkWord::Mark { number: *number }),
        SessionWord::MarkAck { number } => of_marks(MarkWord::MarkAck { number: *number }),
        SessionWord::ActivityStart { activity } => of_activities(ActivityWord::Start {
            activity: *activity,
        }),
        SessionWord::ActivityResume { activity, mark } => of_activities(ActivityWord::Resume {
            activity: *activity,
            mark: *mark,
        }),
        SessionWord::ActivityInterrupt { reason } => {
            of_activities(ActivityWord::Interrupt { reason: *reason })
        }
        SessionWord::ActivityInterruptAck => of_activities(ActivityWord::InterruptAck),
        SessionWord::ActivityDiscard { reason } => {
            of_activities(ActivityWord::Discard { reason: *reason })
        }
        SessionWord::ActivityDiscardAck => of_activities(ActivityWord::DiscardAck),
        SessionWord::ActivityEnd { number } => of_activities(ActivityWord::End { number: *number }),
        SessionWord::ActivityEndAck { number } => {
            of_activities(ActivityWord::EndAck { number: *number })
        }
        _ => None,
    }
}

/// A word of marks and tokens.
fn of_marks(word: MarkWord) -> Option<Word>
    ensures { result ≡ Some (Word.OfMarks word) }
{
    Some(Word::OfMarks(word))
}

/// A word of activities.
fn of_activities(word: ActivityWord) -> Option<Word>
    ensures { result ≡ Some (Word.OfActivities word) }
{
    Some(Word::OfActivities(word))
}

/// What the other units mean: those that may carry values, and AA.
fn carried_word(
    basis: &ReadingBasis<'_>,
    accepted: &[SetItem],
    held: &[SetItem],
    unit: &SessionWord,
    start: usize,
) -> Result<Word, Halt>
    requires { HasUserPlaces start (user_of unit.now) }
    ensures { GivesAs seen_word result (words.carried_word (association_base basis.now.tables.now
        basis.now.config.now) accepted.now held.now unit.now start) }
{
    match unit {
        SessionWord::Connect(session) => connect_meaning(basis, session, start),
        SessionWord::Accept {
            options,
            version,
            initial,
            requirements,
            user,
        } => accept_meaning(
            basis,
            accepting(*options, *version, *initial, *requirements),
            start,
            user.as_slice(),
        ),
        SessionWord::Refuse {
            transport,
            reason,
            user,
        } => refused_with(basis, *transport, *reason, start, user),
        SessionWord::Finish { transport, user } => {
            finish_meaning(basis, held, *transport, start, user.as_slice())
        }
        SessionWord::Disconnect { user } => disconnect_meaning(basis, held, start, user.as_slice()),
        SessionWord::Abort { transport, user } => {
            aborted_with(basis, accepted, *transport, start, user)
        }
        SessionWord::TypedData { user } => typed_meaning(basis, start, user.as_slice()),
        SessionWord::Data { user } => data_meaning(basis, held, start, user.as_slice()),
        SessionWord::PleaseTokens { tokens, user } => {
            pleaded_with(basis, held, *tokens, start, user)
        }
        SessionWord::Resynchronize { number, user } => restarted_with(basis, *number, start, user),
        SessionWord::ResynchronizeAck { number, user } => {
            restart_acked_with(basis, *number, start, user)
        }
        _ => Ok(Word::OfAssociation(AssociationWord::AbortAccept)),
    }
}

/// The parameters of AC.
fn accepting(
    options: Option<u8>,
    version: Option<u8>,
    initial: Option<u32>,
    requirements: Option<u16>,
) -> Accepting
    ensures { seen_accepting result ≡ reading.accepting options version initial requirements }
{
    Accepting {
        options,
        version,
        initial,
        requirements,
    }
}

/// As `meaning_of_unit`, step by step.
fn unit_meaning(
    basis: &ReadingBasis<'_>,
    accepted: &[SetItem],
    held: &[SetItem],
    unit: &SessionWord,
    start: usize,
) -> Result<Word, Halt>
    requires { HasUserPlaces start (user_of unit.now) }
    ensures { GivesAs seen_word result (words.unit_meant (association_base basis.now.tables.now
        basis.now.config.now) accepted.now held.now unit.now start) }
{
    match plain_word(unit) {
        Some(word) => Ok(word),
        None => carried_word(basis, accepted, held, unit, start),
    }
}

/// What a unit of the session means under the accepted contexts of the association and the held
/// set, or the fault that ends the association: its unit of the presentation, then contexts and
/// forms of values, then their APDUs. Its user data begin at this place of its TSDU. `NoMemory`
/// where memory runs out; the unit is left as it is.
pub fn meaning_of_unit(
    basis: &ReadingBasis<'_>,
    accepted: &[SetItem],
    held: &[SetItem],
    unit: &SessionWord,
    start: usize,
) -> Result<Word, Halt>
    requires { HasUserPlaces start (user_of unit.now) }
    ensures { (body : Body) → body.link.accepted ≡ accepted.now → body.sets.held ≡ held.now →
        GivesAs seen_word result (reading.meaning (association_base basis.now.tables.now
        basis.now.config.now) body unit.now start) }
{
    unit_meaning(basis, accepted, held, unit, start)
}
