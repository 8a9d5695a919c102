//! APDUs of association control out of values and into them.

ghost use Rattle.std.specs.Prelude.{◌≡◌, ◌∷◌, [], IfOk};
ghost use Rattle.std.specs.Option.{option_copied};
ghost use Rattle.asn1_types.specs.ValueView.{parts_of};
ghost use Rattle.acse.specs.Words.{external_in, user_in, diagnostic_in, request_in, response_in, apdu_by, apdu_in, external_value, user_part, diagnostic_value, value_of};

use asn1_types::Val;
use fixed_tables::{
    InValue, alternative, any, bits_part, chosen, chosen_in, integer, list_in, list_of, maybe_bits,
    number_or, object_id, octet_or, octets_in, oid_in, part_in, reason_in, reason_value, sequence,
    small_number_or,
};
use osi_base::{Acse, Diagnostic, External, Externals, NoMemory};
use std::alloc::Global;

/// Items of user information.
struct ExternalItems;

impl InValue for ExternalItems {
    type Item = External;

    ghost item_in = { external_in };

    ghost item_value = { external_value };

    fn item(alloc: Global, value: &Val) -> Result<External, NoMemory> {
        Ok(External {
            id: small_number_or(part_in(0, Some(value)), 0),
            value: octets_in(alloc, part_in(1, Some(value)))?,
        })
    }

    fn val(alloc: Global, item: &External) -> Result<Val, NoMemory> {
        let value = any(alloc, &item.value)?;
        let id = integer(item.id as i64);
        Ok(sequence(vec![in alloc; Some(id), Some(value)]?))
    }
}

fn user_in(alloc: Global, value: Option<&Val>) -> Result<Externals, NoMemory>
    ensures { IfOk result (λ x. x ≡ user_in (option_copied value.entry)) }
{
    list_in::<ExternalItems>(alloc, value)
}

fn diagnostic_in(value: Option<&Val>) -> Diagnostic
    ensures { result ≡ diagnostic_in (option_copied value.entry) }
{
    let inner = number_or(chosen_in(value), 0);
    if alternative(value) == 0 {
        Diagnostic::User(inner)
    } else {
        Diagnostic::Provider(inner)
    }
}

fn request_in(alloc: Global, value: Option<&Val>) -> Result<Acse, NoMemory>
    ensures { IfOk result (λ x. x ≡ request_in (option_copied value.entry)) }
{
    Ok(Acse::AssociateRequest {
        version: maybe_bits(alloc, part_in(0, value))?,
        context: oid_in(alloc, part_in(1, value))?,
        user: user_in(alloc, part_in(2, value))?,
    })
}

fn response_in(alloc: Global, value: Option<&Val>) -> Result<Acse, NoMemory>
    ensures { IfOk result (λ x. x ≡ response_in (option_copied value.entry)) }
{
    Ok(Acse::AssociateResponse {
        context: oid_in(alloc, part_in(0, value))?,
        result: octet_or(part_in(1, value), 0),
        diagnostic: diagnostic_in(part_in(2, value)),
        user: user_in(alloc, part_in(3, value))?,
    })
}

/// The APDU that a value says.
pub(crate) fn apdu_in(alloc: Global, value: &Val) -> Result<Acse, NoMemory>
    ensures { IfOk result (λ x. x ≡ apdu_in value.now) }
{
    let inner = chosen_in(Some(value));
    match alternative(Some(value)) {
        0 => request_in(alloc, inner),
        1 => response_in(alloc, inner),
        2 => Ok(Acse::ReleaseRequest {
            reason: reason_in(inner),
        }),
        3 => Ok(Acse::ReleaseResponse {
            reason: reason_in(inner),
        }),
        _ => Ok(Acse::Abort {
            source: octet_or(part_in(0, inner), 0),
            user: user_in(alloc, part_in(1, inner))?,
        }),
    }
}

/// User information as a part; a list of no items doesn't stand.
fn user_part(alloc: Global, user: &Externals) -> Result<Option<Val>, NoMemory>
    ensures { IfOk result (λ part. parts_of (part ∷ []) ≡ user_part user.now) }
{
    match user.as_slice() {
        [] => Ok(None),
        items => Ok(Some(list_of::<ExternalItems>(alloc, items)?)),
    }
}

fn diagnostic_value(alloc: Global, reason: Diagnostic) -> Result<Val, NoMemory>
    ensures { IfOk result (λ v. v ≡ diagnostic_value reason) }
{
    match reason {
        Diagnostic::User(number) => chosen(alloc, 0, integer(number)),
        Diagnostic::Provider(number) => chosen(alloc, 1, integer(number)),
    }
}

/// The value that says an APDU.
pub(crate) fn value_of(alloc: Global, apdu: &Acse) -> Result<Val, NoMemory>
    ensures { IfOk result (λ v. v ≡ value_of apdu.now) }
{
    match apdu {
        Acse::AssociateRequest {
            version,
            context,
            user,
        } => {
            let version = bits_part(alloc, version)?;
            let context = object_id(alloc, context)?;
            let user = user_part(alloc, user)?;
            let parts = vec![in alloc; version, Some(context), user]?;
            chosen(alloc, 0, sequence(parts))
        }
        Acse::AssociateResponse {
            context,
            result: outcome,
            diagnostic,
            user,
        } => {
            let context = object_id(alloc, context)?;
            let diagnostic = diagnostic_value(alloc, *diagnostic)?;
            let user = user_part(alloc, user)?;
            let outcome = integer(*outcome as i64);
            let parts = vec![in alloc; Some(context), Some(outcome), Some(diagnostic), user]?;
            chosen(alloc, 1, sequence(parts))
        }
        Acse::ReleaseRequest { reason } => chosen(alloc, 2, reason_value(alloc, *reason)?),
        Acse::ReleaseResponse { reason } => chosen(alloc, 3, reason_value(alloc, *reason)?),
        Acse::Abort { source, user } => {
            let user = user_part(alloc, user)?;
            let parts = vec![in alloc; Some(integer(*source as i64)), user]?;
            chosen(alloc, 4, sequence(parts))
        }
    }
}
