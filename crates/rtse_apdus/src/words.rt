//! APDUs of reliable transfer out of values and into them.

ghost use Rattle.std.specs.Prelude.{◌≡◌, IfOk};
ghost use Rattle.std.specs.Option.{option_copied};
ghost use Rattle.rtse_apdus.specs.Words.{data_in, request_in, accept_in, apdu_by, apdu_in, data_value, value_of};

use asn1_types::Val;
use fixed_tables::{
    alternative, any, chosen, chosen_in, integer, number_or, octets, octets_in, part_in, reason_in,
    reason_value, sequence, small_number_or,
};
use osi_base::{ConnectionData, NoMemory, Rtse};
use std::alloc::Global;

fn data_in(alloc: Global, value: Option<&Val>) -> Result<ConnectionData, NoMemory>
    ensures { IfOk result (λ x. x ≡ data_in (option_copied value.entry)) }
{
    let inner = chosen_in(value);
    if alternative(value) == 0 {
        return Ok(ConnectionData::Open(octets_in(alloc, inner)?));
    }
    Ok(ConnectionData::Recover {
        reference: octets_in(alloc, part_in(0, inner))?,
        common: octets_in(alloc, part_in(1, inner))?,
    })
}

fn request_in(alloc: Global, value: Option<&Val>) -> Result<Rtse, NoMemory>
    ensures { IfOk result (λ x. x ≡ request_in (option_copied value.entry)) }
{
    Ok(Rtse::OpenRequest {
        checkpoint: small_number_or(part_in(0, value), 0),
        window: small_number_or(part_in(1, value), 3),
        mode: number_or(part_in(2, value), 0),
        data: data_in(alloc, part_in(3, value))?,
    })
}

fn accept_in(alloc: Global, value: Option<&Val>) -> Result<Rtse, NoMemory>
    ensures { IfOk result (λ x. x ≡ accept_in (option_copied value.entry)) }
{
    Ok(Rtse::OpenAccept {
        checkpoint: small_number_or(part_in(0, value), 0),
        window: small_number_or(part_in(1, value), 3),
        data: data_in(alloc, part_in(2, value))?,
    })
}

/// The APDU that a value says.
pub(crate) fn apdu_in(alloc: Global, value: &Val) -> Result<Rtse, NoMemory>
    ensures { IfOk result (λ x. x ≡ apdu_in value.now) }
{
    let inner = chosen_in(Some(value));
    match alternative(Some(value)) {
        0 => request_in(alloc, inner),
        1 => accept_in(alloc, inner),
        2 => Ok(Rtse::OpenReject {
            reason: reason_in(inner),
        }),
        3 => Ok(Rtse::Abort {
            reason: reason_in(inner),
        }),
        4 => Ok(Rtse::TurnPlease {
            priority: small_number_or(inner, 0),
        }),
        _ => Ok(Rtse::Transfer {
            octets: octets_in(alloc, inner)?,
        }),
    }
}

fn data_value(alloc: Global, carried: &ConnectionData) -> Result<Val, NoMemory>
    ensures { IfOk result (λ v. v ≡ data_value carried.now) }
{
    match carried {
        ConnectionData::Open(value) => chosen(alloc, 0, any(alloc, value)?),
        ConnectionData::Recover { reference, common } => {
            let parts = vec![in alloc;
                Some(octets(alloc, reference)?),
                Some(octets(alloc, common)?),
            ]?;
            chosen(alloc, 1, sequence(parts))
        }
    }
}

/// The value that says an APDU.
pub(crate) fn value_of(alloc: Global, apdu: &Rtse) -> Result<Val, NoMemory>
    ensures { IfOk result (λ v. v ≡ value_of apdu.now) }
{
    match apdu {
        Rtse::OpenRequest {
            checkpoint,
            window,
            mode,
            data,
        } => {
            let data = data_value(alloc, data)?;
            let parts = vec![in alloc;
                Some(integer(*checkpoint as i64)),
                Some(integer(*window as i64)),
                Some(integer(*mode)),
                Some(data),
            ]?;
            chosen(alloc, 0, sequence(parts))
        }
        Rtse::OpenAccept {
            checkpoint,
            window,
            data,
        } => {
            let data = data_value(alloc, data)?;
            let parts = vec![in alloc;
                Some(integer(*checkpoint as i64)),
                Some(integer(*window as i64)),
                Some(data),
            ]?;
            chosen(alloc, 1, sequence(parts))
        }
        Rtse::OpenReject { reason } => chosen(alloc, 2, reason_value(alloc, *reason)?),
        Rtse::Abort { reason } => chosen(alloc, 3, reason_value(alloc, *reason)?),
        Rtse::TurnPlease { priority } => chosen(alloc, 4, integer(*priority as i64)),
        Rtse::Transfer { octets: part } => chosen(alloc, 5, octets(alloc, part)?),
    }
}
