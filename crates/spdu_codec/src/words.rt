//! The word of a unit, from its parameters.

ghost use Rattle.std.specs.Prelude.{◌≡◌, IfOk};
ghost use Rattle.spdu_codec.specs.Words.{connection_word, token_word, mark_word, activity_word, word_of, has_information, leads};

use crate::kind::SpduKind;
use crate::parameters::Parameters;
use osi_base::{NoMemory, Octets, SessionConnect, SessionWord};
use std::alloc::Global;

fn connection_word(kind: SpduKind, p: Parameters) -> Option<SessionWord>
    ensures { result ≡ connection_word kind p }
{
    match kind {
        SpduKind::Connect => Some(SessionWord::Connect(SessionConnect {
            user: p.user?,
            calling_reference: p.calling_reference,
            common_reference: p.common_reference,
            options: p.options,
            version: p.version,
            initial: p.initial,
            token_setting: p.token_setting,
            requirements: p.requirements,
            calling: p.calling,
            called: p.called,
        })),
        SpduKind::Accept => Some(SessionWord::Accept {
            user: p.user?,
            options: p.options,
            version: p.version,
            initial: p.initial,
            requirements: p.requirements,
        }),
        SpduKind::Refuse => Some(SessionWord::Refuse {
            transport: p.transport,
            reason: p.reason,
            user: p.user,
        }),
        SpduKind::Finish => Some(SessionWord::Finish {
            user: p.user?,
            transport: p.transport,
        }),
        SpduKind::Disconnect => Some(SessionWord::Disconnect { user: p.user? }),
        SpduKind::Abort => Some(SessionWord::Abort {
            transport: p.transport,
            user: p.user,
        }),
        SpduKind::AbortAccept => Some(SessionWord::AbortAccept),
        _ => None,
    }
}

fn token_word(kind: SpduKind, alone: bool, p: Parameters) -> Option<SessionWord>
    ensures { result ≡ token_word kind alone p }
{
    match kind {
        SpduKind::GiveTokens | SpduKind::PleaseTokens if alone && p.tokens.is_none() => None,
        SpduKind::GiveTokens => Some(SessionWord::GiveTokens { tokens: p.tokens }),
        SpduKind::PleaseTokens => Some(SessionWord::PleaseTokens {
            tokens: p.tokens,
            user: p.user,
        }),
        SpduKind::GiveTokensConfirm => Some(SessionWord::GiveTokensConfirm),
        SpduKind::GiveTokensAck => Some(SessionWord::GiveTokensAck),
        _ => None,
    }
}

fn mark_word(kind: SpduKind, p: Parameters) -> Option<SessionWord>
    ensures { result ≡ mark_word kind p }
{
    let number = p.number?;
    match kind {
        SpduKind::Mark => Some(SessionWord::Mark { number }),
        SpduKind::MarkAck => Some(SessionWord::MarkAck { number }),
        SpduKind::Resynchronize if p.resync => Some(SessionWord::Resynchronize {
            number,
            user: p.user,
        }),
        SpduKind::ResynchronizeAck => Some(SessionWord::ResynchronizeAck {
            number,
            user: p.user,
        }),
        SpduKind::ActivityEnd => Some(SessionWord::ActivityEnd { number }),
        SpduKind::ActivityEndAck => Some(SessionWord::ActivityEndAck { number }),
        _ => None,
    }
}

fn activity_word(kind: SpduKind, p: &Parameters) -> Option<SessionWord>
    ensures { result ≡ activity_word kind p.now }
{
    match kind {
        SpduKind::ActivityStart => Some(SessionWord::ActivityStart {
            activity: p.activity?,
        }),
        SpduKind::ActivityResume if p.old_activity.is_some() => Some(SessionWord::ActivityResume {
            activity: p.activity?,
            mark: p.old_mark?,
        }),
        SpduKind::ActivityInterrupt => Some(SessionWord::ActivityInterrupt { reason: p.reason }),
        SpduKind::ActivityInterruptAck => Some(SessionWord::ActivityInterruptAck),
        SpduKind::ActivityDiscard => Some(SessionWord::ActivityDiscard { reason: p.reason }),
        SpduKind::ActivityDiscardAck => Some(SessionWord::ActivityDiscardAck),
        _ => None,
    }
}

/// The word of a unit, where all parameters that must stand are there. A unit that is alone has
/// no other behind it; octets behind DT and TD are user information.
pub(crate) fn word_of(
    alloc: Global,
    kind: SpduKind,
    alone: bool,
    p: Parameters,
    behind: &[u8],
) -> Result<Option<SessionWord>, NoMemory>
    ensures { IfOk result (λ word. word ≡ word_of kind alone p behind.now) }
{
    match kind {
        SpduKind::TypedData => Ok(Some(SessionWord::TypedData {
            user: Octets::from_slice(alloc, behind)?,
        })),
        SpduKind::Data => Ok(Some(SessionWord::Data {
            user: Octets::from_slice(alloc, behind)?,
        })),
        SpduKind::GiveTokens
        | SpduKind::PleaseTokens
        | SpduKind::GiveTokensConfirm
        | SpduKind::GiveTokensAck => Ok(token_word(kind, alone, p)),
        SpduKind::Mark
        | SpduKind::MarkAck
        | SpduKind::Resynchronize
        | SpduKind::ResynchronizeAck
        | SpduKind::ActivityEnd
        | SpduKind::ActivityEndAck => Ok(mark_word(kind, p)),
        SpduKind::ActivityStart
        | SpduKind::ActivityResume
        | SpduKind::ActivityInterrupt
        | SpduKind::ActivityInterruptAck
        | SpduKind::ActivityDiscard
        | SpduKind::ActivityDiscardAck => Ok(activity_word(kind, &p)),
        SpduKind::Connect
        | SpduKind::Accept
        | SpduKind::Refuse
        | SpduKind::Finish
        | SpduKind::Disconnect
        | SpduKind::Abort
        | SpduKind::AbortAccept => Ok(connection_word(kind, p)),
    }
}

/// Whether all octets behind the unit are its user information.
pub(crate) fn has_information(kind: SpduKind) -> bool
    ensures { result ≡ has_information kind }
{
    matches!(kind, SpduKind::TypedData | SpduKind::Data)
}

/// Whether another unit may follow this one.
pub(crate) fn leads(kind: SpduKind) -> bool
    ensures { result ≡ leads kind }
{
    matches!(kind, SpduKind::GiveTokens | SpduKind::PleaseTokens)
}
