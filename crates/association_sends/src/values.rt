//! Values of the association in the messages that an end writes.

ghost use Rattle.std.specs.Prelude.{◌≡◌, IfOk, map};
ghost use Rattle.osi_base.specs.Syntax.{acse_name, rtse_name};
ghost use Rattle.end_rules.specs.Writing.{acse_context, rtse_context, acse_pair, acse_value, information};
ghost use Rattle.association_words.specs.Seen.{seen_information, seen_value};

use association_sets::lowest_with;
use association_words::{Information, UserInformation, Value, ValueContent};
use dialogue::Mode;
use osi_base::{Acse, ListOf, NoMemory, Oid, Pair, Rtse, SetItem, Syntax};
use std::alloc::Global;

/// The context of association control: the lowest accepted one, or the one that an initiator
/// proposes.
pub(crate) fn acse_context(accepted: &[SetItem]) -> u32
    ensures { result ≡ acse_context accepted.now }
{
    lowest_with(&[2, 2, 1, 0, 1], &[], accepted).unwrap_or(1)
}

/// The context of reliable transfer: the lowest accepted one, or 3, which an initiator proposes.
pub fn rtse_context(accepted: &[SetItem]) -> u32
    ensures { result ≡ rtse_context accepted.now }
{
    lowest_with(&[2, 999, 5, 2], &[], accepted).unwrap_or(3)
}

/// The pair of association control.
fn acse_pair(alloc: Global) -> Result<Pair, NoMemory>
    ensures { IfOk result (λ pair. pair ≡ acse_pair) }
{
    Ok(Pair {
        abstract_name: Oid::from_slice(alloc, &[2, 2, 1, 0, 1])?,
        transfer: Syntax::Ber,
    })
}

/// An APDU of association control with its user information.
pub(crate) fn acse_value(
    alloc: Global,
    accepted: &[SetItem],
    apdu: Acse,
    user: UserInformation,
) -> Result<Value, NoMemory>
    ensures { IfOk result (λ value. seen_value value ≡ acse_value accepted.now apdu
        (map seen_information user)) }
{
    Ok(Value {
        id: acse_context(accepted),
        pair: Some(acse_pair(alloc)?),
        content: ValueContent::Association { apdu, user },
    })
}

/// User information of reliable mode: one APDU of reliable transfer.
pub fn rtse_information(
    alloc: Global,
    mode: Mode,
    accepted: &[SetItem],
    apdu: Rtse,
) -> Result<UserInformation, NoMemory>
    ensures { IfOk result (λ user. map seen_information user ≡ information mode accepted.now apdu) }
{
    let mut user: UserInformation = ListOf::new(alloc);
    match mode {
        Mode::Reliable => {
            user.push(Information::Transferring {
                id: rtse_context(accepted),
                apdu,
            })?;
            Ok(user)
        }
        Mode::Direct => Ok(user),
        Mode::Bare => Ok(user),
    }
}
