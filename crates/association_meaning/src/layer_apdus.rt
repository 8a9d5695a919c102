//! APDUs of association control and of reliable transfer among values (X.227 9, X.228 9).

ghost use Rattle.std.specs.Prelude.{◌≡◌, map, IfOk};
ghost use Rattle.std.specs.Option.{option_copied};
ghost use Rattle.acse.specs.Fields as acse_fields;
ghost use Rattle.rtse_apdus.specs.Reading as rtse_reading;
ghost use Rattle.association_intake.specs.association_reading.declared.layer_of_values.LayerOfValues.TheVariants as carriages;
ghost use Rattle.association_intake.specs.association_reading.Values as reading;
ghost use Rattle.association_words.specs.Seen.{seen_information, seen_content};
ghost use Rattle.association_meaning.specs.Grounds.{GivesAs};

use crate::basis::{Halt, ReadingBasis, fault_at};
use crate::names::rtse_name;
use acse::AcseFault;
use association_ground::same_name;
use association_intake::association_reading_layer::LayerOfValues;
use association_words::{Information, UserInformation, ValueContent};
use fixed_tables::PduFault;
use module_contents::content_at;
use osi_base::{Acse, Copied, External, Layer, ListOf, NoMemory, Octets, Pair, Rtse};
use std::alloc::Global;

/// User information whose values aren't read.
fn others(alloc: Global, user: &[External]) -> Result<UserInformation, NoMemory>
    ensures { IfOk result (λ items. map seen_information items ≡ map reading.other user.now) }
{
    let mut others = ListOf::new(alloc);
    for external in user {
        others.push(Information::Other {
            id: external.id,
            octets: external.value.copy(alloc)?,
        })?;
    }
    Ok(others)
}

/// The user information of an APDU of association control.
fn externals_of(apdu: &Acse) -> &[External]
    ensures { result.now ≡ reading.externals_of apdu.now }
{
    match apdu {
        Acse::AssociateRequest { user, .. } => user.as_slice(),
        Acse::AssociateResponse { user, .. } => user.as_slice(),
        Acse::ReleaseRequest { .. } => &[],
        Acse::ReleaseResponse { .. } => &[],
        Acse::Abort { user, .. } => user.as_slice(),
    }
}

/// An APDU of association control without its user information.
fn without_user(alloc: Global, apdu: Acse) -> Acse
    ensures { result ≡ reading.without_user apdu }
{
    match apdu {
        Acse::AssociateRequest {
            version,
            context,
            ..
        } => Acse::AssociateRequest {
            version,
            context,
            user: ListOf::new(alloc),
        },
        Acse::AssociateResponse {
            context,
            result,
            diagnostic,
            ..
        } => Acse::AssociateResponse {
            context,
            result,
            diagnostic,
            user: ListOf::new(alloc),
        },
        Acse::ReleaseRequest { reason } => Acse::ReleaseRequest { reason },
        Acse::ReleaseResponse { reason } => Acse::ReleaseResponse { reason },
        Acse::Abort { source, .. } => Acse::Abort {
            source,
            user: ListOf::new(alloc),
        },
    }
}

/// An APDU of association control, with its user information beside it.
pub(crate) fn associated(alloc: Global, apdu: Acse) -> Result<ValueContent, NoMemory>
    ensures { IfOk result (λ content. seen_content content ≡ reading.associated apdu) }
{
    let user = others(alloc, externals_of(&apdu))?;
    Ok(ValueContent::Association {
        apdu: without_user(alloc, apdu),
        user,
    })
}

/// What octets are as an APDU of association control.
pub(crate) fn acse_content(basis: &ReadingBasis<'_>, octets: &[u8]) -> Result<ValueContent, Halt>
    ensures { GivesAs seen_content result (reading.acse_content (acse_fields.acse_at octets.now)) }
{
    match basis.codecs.acse.read(basis.alloc, octets) {
        Ok(apdu) => Ok(associated(basis.alloc, apdu)?),
        Err(AcseFault::At { place, .. }) => fault_at(basis.alloc, Layer::Acse, place, 0),
        Err(AcseFault::NoMemory) => Err(Halt::NoMemory),
    }
}

/// What octets are as an APDU of reliable transfer: among values a plea or a part of a transfer.
fn rtse_content(basis: &ReadingBasis<'_>, octets: &[u8]) -> Result<ValueContent, Halt>
    ensures { GivesAs seen_content result (reading.rtse_content (rtse_reading.rtse_at octets.now)) }
{
    match basis.codecs.rtse.read(basis.alloc, octets) {
        Ok(Rtse::TurnPlease { priority }) => Ok(ValueContent::Plea { priority }),
        Ok(Rtse::Transfer { octets }) => Ok(ValueContent::Part(octets)),
        Ok(Rtse::OpenRequest { .. }) => fault_at(basis.alloc, Layer::Rtse, 0, 4),
        Ok(Rtse::OpenAccept { .. }) => fault_at(basis.alloc, Layer::Rtse, 0, 4),
        Ok(Rtse::OpenReject { .. }) => fault_at(basis.alloc, Layer::Rtse, 0, 4),
        Ok(Rtse::Abort { .. }) => fault_at(basis.alloc, Layer::Rtse, 0, 4),
        Err(PduFault::At { place, .. }) => fault_at(basis.alloc, Layer::Rtse, place, 4),
        Err(PduFault::NoMemory) => Err(Halt::NoMemory),
    }
}

/// What octets are under a pair in a message of reliable transfer.
fn transfer_content(
    basis: &ReadingBasis<'_>,
    pair: &Pair,
    octets: &[u8],
) -> Result<ValueContent, Halt>
    ensures { GivesAs seen_content result (reading.content_under basis.now.tables.now
        carriages.Transfer pair.now octets.now) }
{
    if same_name(pair.abstract_name.arcs(), rtse_name()) {
        rtse_content(basis, octets)
    } else {
        acse_content(basis, octets)
    }
}

/// What octets are under a pair in a message of the module.
fn module_content(
    basis: &ReadingBasis<'_>,
    pair: &Pair,
    octets: &[u8],
) -> Result<ValueContent, Halt>
    ensures { GivesAs seen_content result (reading.content_under basis.now.tables.now
        carriages.Module pair.now octets.now) }
{
    if same_name(pair.abstract_name.arcs(), basis.tables.name_oid.arcs()) {
        Ok(content_at(
            basis.alloc,
            &basis.codecs.heads,
            basis.tables,
            pair.transfer,
            octets,
        )?)
    } else {
        acse_content(basis, octets)
    }
}

/// What octets are under a pair in a message that carries these values.
pub(crate) fn content_under(
    basis: &ReadingBasis<'_>,
    carried: LayerOfValues,
    pair: &Pair,
    octets: &[u8],
) -> Result<ValueContent, Halt>
    ensures { GivesAs seen_content result (reading.content_under basis.now.tables.now carried
        pair.now octets.now) }
{
    match carried {
        LayerOfValues::Association => acse_content(basis, octets),
        LayerOfValues::Transfer => transfer_content(basis, pair, octets),
        LayerOfValues::Module => module_content(basis, pair, octets),
    }
}

/// What octets are under the pair of their context, where there is one.
pub(crate) fn content_by(
    basis: &ReadingBasis<'_>,
    carried: LayerOfValues,
    pair: Option<&Pair>,
    octets: &[u8],
) -> Result<ValueContent, Halt>
    ensures { GivesAs seen_content result (reading.content_by basis.now.tables.now carried
        (option_copied pair.entry) octets.now) }
{
    match pair {
        None => Ok(ValueContent::Unread(Octets::from_slice(basis.alloc, octets)?)),
        Some(pair) => content_under(basis, carried, pair, octets),
    }
}
