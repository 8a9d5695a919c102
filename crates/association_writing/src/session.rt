//! The unit of the session that each word is (X.225 8.3), with its user data.

ghost use Rattle.std.specs.Prelude.{◌≡◌, [], IfOk, unwrap_or};
ghost use Rattle.osi_base.specs.declared.session_word.SessionWord.TheVariants as words;
ghost use Rattle.end_rules.specs.Messages as meant;
ghost use Rattle.spdu_codec.specs.Written.{stands_alone};
ghost use Rattle.association_words.specs.Seen.{seen_association, seen_data, seen_marks, seen_activities, seen_word};
ghost use Rattle.association_wire.specs.Written.{connect_with, with_user, in_its_place};

use association_words::{Accepting, ActivityWord, AssociationWord, DataWord, MarkWord, Word};
use osi_base::{Copied, ListOf, NoMemory, Octets, SessionConnect, SessionWord, Spdus};
use std::alloc::Global;

/// User data where they must stand: none are no octets.
fn or_empty(alloc: Global, user: Option<Octets>) -> Octets
    ensures { result ≡ unwrap_or user [] }
{
    match user {
        None => Octets::new(alloc),
        Some(user) => user,
    }
}

/// CN with these user data.
fn connect_with(
    alloc: Global,
    user: Option<Octets>,
    session: &SessionConnect,
) -> Result<SessionConnect, NoMemory>
    ensures { IfOk result (λ whole. whole ≡ connect_with user session.now) }
{
    Ok(SessionConnect {
        calling_reference: session.calling_reference.copy(alloc)?,
        common_reference: session.common_reference.copy(alloc)?,
        options: session.options,
        version: session.version,
        initial: session.initial,
        token_setting: session.token_setting,
        requirements: session.requirements,
        calling: session.calling.copy(alloc)?,
        called: session.called.copy(alloc)?,
        user: or_empty(alloc, user),
    })
}

/// AC with these user data.
fn accept_with(alloc: Global, user: Option<Octets>, session: Accepting) -> SessionWord
    ensures { result ≡ words.Accept session.options session.version session.initial
        session.requirements (unwrap_or user []) }
{
    SessionWord::Accept {
        options: session.options,
        version: session.version,
        initial: session.initial,
        requirements: session.requirements,
        user: or_empty(alloc, user),
    }
}

/// The unit of a word of the association.
fn association_unit(
    alloc: Global,
    user: Option<Octets>,
    word: &AssociationWord,
) -> Result<SessionWord, NoMemory>
    ensures { IfOk result (λ unit. unit
        ≡ with_user user (meant.unit_of_association (seen_association word.now))) }
{
    match word {
        AssociationWord::Connect { session, .. } => {
            Ok(SessionWord::Connect(connect_with(alloc, user, session)?))
        }
        AssociationWord::Accept { session, .. } => Ok(accept_with(alloc, user, *session)),
        AssociationWord::Refuse {
            transport,
            reason,
            ..
        } => Ok(SessionWord::Refuse {
            transport: *transport,
            reason: *reason,
            user,
        }),
        AssociationWord::Finish { transport, .. } => Ok(SessionWord::Finish {
            transport: *transport,
            user: or_empty(alloc, user),
        }),
        AssociationWord::Disconnect { .. } => Ok(SessionWord::Disconnect {
            user: or_empty(alloc, user),
        }),
        AssociationWord::Abort { transport, .. } => Ok(SessionWord::Abort {
            transport: *transport,
            user,
        }),
        AssociationWord::AbortAccept => Ok(SessionWord::AbortAccept),
    }
}

/// The unit of values or of an alteration.
fn data_unit(alloc: Global, user: Option<Octets>, word: &DataWord) -> SessionWord
    ensures { result ≡ with_user user (meant.unit_of_data (seen_data word.now)) }
{
    match word {
        DataWord::Values(_) => SessionWord::Data {
            user: or_empty(alloc, user),
        },
        DataWord::AlterContext { .. } => SessionWord::TypedData {
            user: or_empty(alloc, user),
        },
        DataWord::AlterContextAck { .. } => SessionWord::TypedData {
            user: or_empty(alloc, user),
        },
    }
}

/// The unit of a mark, a restart or a token.
fn mark_unit(user: Option<Octets>, word: &MarkWord) -> SessionWord
    ensures { result ≡ with_user user (meant.unit_of_marks (seen_marks word.now)) }
{
    match word {
        MarkWord::Mark { number } => SessionWord::Mark { number: *number },
        MarkWord::MarkAck { number } => SessionWord::MarkAck { number: *number },
        MarkWord::Restart { number, .. } => SessionWord::Resynchronize {
            number: *number,
            user,
        },
        MarkWord::RestartAck { number, .. } => SessionWord::ResynchronizeAck {
            number: *number,
            user,
        },
        MarkWord::Give { tokens } => SessionWord::GiveTokens { tokens: *tokens },
        MarkWord::Please { tokens, .. } => SessionWord::PleaseTokens {
            tokens: *tokens,
            user,
        },
        MarkWord::GiveConfirm => SessionWord::GiveTokensConfirm,
        MarkWord::GiveAck => SessionWord::GiveTokensAck,
    }
}

/// The unit of an activity.
fn activity_unit(word: &ActivityWord) -> SessionWord
    ensures { result ≡ meant.unit_of_activities (seen_activities word.now) }
{
    match word {
        ActivityWord::Start { activity } => SessionWord::ActivityStart {
            activity: *activity,
        },
        ActivityWord::Resume { activity, mark } => SessionWord::ActivityResume {
            activity: *activity,
            mark: *mark,
        },
        ActivityWord::End { number } => SessionWord::ActivityEnd { number: *number },
        ActivityWord::EndAck { number } => SessionWord::ActivityEndAck { number: *number },
        ActivityWord::Interrupt { reason } => SessionWord::ActivityInterrupt { reason: *reason },
        ActivityWord::InterruptAck => SessionWord::ActivityInterruptAck,
        ActivityWord::Discard { reason } => SessionWord::ActivityDiscard { reason: *reason },
        ActivityWord::DiscardAck => SessionWord::ActivityDiscardAck,
    }
}

/// The unit of a word with these user data.
fn whole_unit(alloc: Global, user: Option<Octets>, word: &Word) -> Result<SessionWord, NoMemory>
    ensures { IfOk result (λ unit. unit ≡ with_user user (meant.unit_of (seen_word word.now))) }
{
    match word {
        Word::OfAssociation(word) => association_unit(alloc, user, word),
        Word::OfData(word) => Ok(data_unit(alloc, user, word)),
        Word::OfMarks(word) => Ok(mark_unit(user, word)),
        Word::OfActivities(word) => Ok(activity_unit(word)),
    }
}

/// Whether the unit may stand alone.
fn stands_alone(unit: &SessionWord) -> bool
    ensures { result ≡ stands_alone unit.now }
{
    match unit {
        SessionWord::GiveTokens { tokens } => tokens.is_some(),
        SessionWord::PleaseTokens { tokens, .. } => tokens.is_some(),
        SessionWord::Data { .. }
        | SessionWord::Mark { .. }
        | SessionWord::MarkAck { .. }
        | SessionWord::Resynchronize { .. }
        | SessionWord::ResynchronizeAck { .. }
        | SessionWord::ActivityStart { .. }
        | SessionWord::ActivityResume { .. }
        | SessionWord::ActivityInterrupt { .. }
        | SessionWord::ActivityInterruptAck
        | SessionWord::ActivityDiscard { .. }
        | SessionWord::ActivityDiscardAck
        | SessionWord::ActivityEnd { .. }
        | SessionWord::ActivityEndAck { .. } => false,
        _ => true,
    }
}

/// A unit alone, or behind an empty GT where it can't stand alone (X.225 6.3.7).
fn in_its_place(alloc: Global, unit: SessionWord) -> Result<Spdus, NoMemory>
    ensures { IfOk result (λ units. units ≡ in_its_place unit) }
{
    let mut units: Spdus = ListOf::new(alloc);
    if !stands_alone(&unit) {
        units.push(SessionWord::GiveTokens { tokens: None })?;
    }
    units.push(unit)?;
    Ok(units)
}

/// The units of a word that has these user data.
pub(crate) fn session_units(
    alloc: Global,
    user: Option<Octets>,
    word: &Word,
) -> Result<Spdus, NoMemory>
    ensures { IfOk result (λ units. units
        ≡ in_its_place (with_user user (meant.unit_of (seen_word word.now)))) }
{
    in_its_place(alloc, whole_unit(alloc, user, word)?)
}
