//! Aborts that an end writes.

ghost use Rattle.std.specs.Prelude.{◌≡◌, IfOk, map, option_map, pos, Some, [], ◌∷◌};
ghost use Rattle.osi_base.specs.declared.rtse_word.Rtse.TheVariants as rtse;
ghost use Rattle.end_rules.specs.Writing.{rtse_context, session_abort, provider_abort, user_abort};
ghost use Rattle.end_rules.specs.Faults.{abort_of};
ghost use Rattle.end_rules.specs.Messages.{Transferring, Abort, OfAssociation, Session};
ghost use Rattle.association_words.specs.Seen.{seen_message, seen_information, seen_abort};
ghost use Rattle.association_sends.specs.Due.{listed};

use crate::values::{acse_value, rtse_context};
use association_words::{
    AbortData, AssociationWord, Information, Message, UserInformation, Values, Word,
};
use osi_base::{Acse, Layer, ListOf, NoMemory, Rtse, SetItem};
use std::alloc::Global;

/// AB with this content.
fn abort(transport: u8, user: AbortData) -> Message
    ensures { seen_message result ≡ Session
        (OfAssociation (Abort (Some transport) (seen_abort user))) }
{
    Message::Session(Word::OfAssociation(AssociationWord::Abort {
        transport: Some(transport),
        user,
    }))
}

/// AB of the session's own.
pub(crate) fn session_abort() -> Message
    ensures { seen_message result ≡ session_abort }
{
    abort(5, AbortData::NoData)
}

/// AB with ARP.
pub(crate) fn provider_abort(reason: u8) -> Message
    ensures { seen_message result ≡ provider_abort reason }
{
    abort(
        3,
        AbortData::ProviderReason {
            reason: Some(i64::from(reason)),
        },
    )
}

/// AB with ARU and ABRT.
pub fn user_abort(
    alloc: Global,
    accepted: &[SetItem],
    source: u8,
    user: UserInformation,
) -> Result<Message, NoMemory>
    ensures { IfOk result (λ m. seen_message m ≡ user_abort accepted.now source
        (map seen_information user)) }
{
    let apdu = Acse::Abort {
        source,
        user: ListOf::new(alloc),
    };
    let mut values: Values = ListOf::new(alloc);
    values.push(acse_value(alloc, accepted, apdu, user)?)?;
    Ok(abort(3, AbortData::UserValues(values)))
}

/// The user information of an abort of reliable transfer.
fn abort_information(alloc: Global, accepted: &[SetItem]) -> Result<UserInformation, NoMemory>
    ensures { IfOk result (λ user. map seen_information user
        ≡ Transferring (rtse_context accepted.now) (rtse.Abort (pos 4)) ∷ []) }
{
    let mut user: UserInformation = ListOf::new(alloc);
    user.push(Information::Transferring {
        id: rtse_context(accepted),
        apdu: Rtse::Abort { reason: 4 },
    })?;
    Ok(user)
}

/// AB by the layer of a fault, where one is sent: a fault of the transport sends one once a CN was
/// sent or taken, one of remote operations never.
pub fn abort_of(
    alloc: Global,
    connected: bool,
    accepted: &[SetItem],
    layer: Layer,
    reason: u8,
) -> Result<Option<Message>, NoMemory>
    ensures { IfOk result (λ m. listed (option_map seen_message m) ≡ abort_of connected accepted.now
        layer reason) }
{
    match layer {
        Layer::Transport => {
            if connected {
                Ok(Some(session_abort()))
            } else {
                Ok(None)
            }
        }
        Layer::Session => Ok(Some(session_abort())),
        Layer::Presentation => Ok(Some(provider_abort(reason))),
        Layer::Acse => Ok(Some(user_abort(alloc, accepted, 1, ListOf::new(alloc))?)),
        Layer::Rtse => {
            let user = abort_information(alloc, accepted)?;
            Ok(Some(user_abort(alloc, accepted, 0, user)?))
        }
        Layer::Rose => Ok(None),
    }
}
