//! User information of APDUs of association control in reliable mode: the first EXTERNAL is read
//! (X.228 7.1).

ghost use Rattle.std.specs.Prelude.{◌≡◌, ◌<◌, ◌∷◌, [], Ok, vec_len};
ghost use Rattle.rtse_apdus.specs.Reading.{rtse_at};
ghost use Rattle.association_meaning.specs.declared.user_information.AcseKind.TheVariants as kinds;
ghost use Rattle.end_rules.specs.Connecting.{is_on_rtse};
ghost use Rattle.association_intake.specs.association_reading.Values as reading;
ghost use Rattle.association_words.specs.Seen.{seen_information, seen_value, seen_values};
ghost use Rattle.association_meaning.specs.Grounds.{association_base, GivesAs};
ghost use Rattle.association_meaning.specs.Informing.{kind_of, seen_items, seen_item_read};
ghost use Rattle.association_meaning.specs.Informing.{transferring, other_read, item_read, with_first};

use crate::basis::{Halt, ReadingBasis, fault_at};
use crate::names::rtse_name;
use association_ground::is_reliable;
use association_sets::has_abstract;
use association_words::{Information, UserInformation, Value, ValueContent, Values};
use fixed_tables::PduFault;
use osi_base::{Acse, Layer, ListOf, Octets, Pair, SetItem, pair_of};

/// The APDU of association control that a message carries.
#[derive(Clone, Copy, Debug, PartialEq, Eq)]
pub(crate) enum AcseKind {
    Request,
    Acceptance,
    Response,
    Abort,
}

/// Whether the APDU asks for an association.
fn is_request(apdu: &Acse) -> bool
    ensures { result ≡ kind_of kinds.Request apdu.now }
{
    match apdu {
        Acse::AssociateRequest { .. } => true,
        Acse::AssociateResponse { .. } => false,
        Acse::ReleaseRequest { .. } => false,
        Acse::ReleaseResponse { .. } => false,
        Acse::Abort { .. } => false,
    }
}

/// Whether the APDU accepts an association.
fn is_acceptance(apdu: &Acse) -> bool
    ensures { result ≡ kind_of kinds.Acceptance apdu.now }
{
    match apdu {
        Acse::AssociateRequest { .. } => false,
        Acse::AssociateResponse { result, .. } => *result == 0,
        Acse::ReleaseRequest { .. } => false,
        Acse::ReleaseResponse { .. } => false,
        Acse::Abort { .. } => false,
    }
}

/// Whether the APDU answers a request for an association.
fn is_response(apdu: &Acse) -> bool
    ensures { result ≡ kind_of kinds.Response apdu.now }
{
    match apdu {
        Acse::AssociateRequest { .. } => false,
        Acse::AssociateResponse { .. } => true,
        Acse::ReleaseRequest { .. } => false,
        Acse::ReleaseResponse { .. } => false,
        Acse::Abort { .. } => false,
    }
}

/// Whether the APDU aborts an association.
fn is_abort(apdu: &Acse) -> bool
    ensures { result ≡ kind_of kinds.Abort apdu.now }
{
    match apdu {
        Acse::AssociateRequest { .. } => false,
        Acse::AssociateResponse { .. } => false,
        Acse::ReleaseRequest { .. } => false,
        Acse::ReleaseResponse { .. } => false,
        Acse::Abort { .. } => true,
    }
}

/// Whether the APDU is of this kind.
fn is_of(kind: AcseKind, apdu: &Acse) -> bool
    ensures { result ≡ kind_of kind apdu.now }
{
    match kind {
        AcseKind::Request => is_request(apdu),
        AcseKind::Acceptance => is_acceptance(apdu),
        AcseKind::Response => is_response(apdu),
        AcseKind::Abort => is_abort(apdu),
    }
}

/// Whether the context is an accepted one of reliable transfer.
fn is_on_rtse(accepted: &[SetItem], id: u32) -> bool
    ensures { result ≡ is_on_rtse accepted.now id }
{
    has_abstract(pair_of(accepted, id), rtse_name())
}

/// An item that is an APDU of reliable transfer in these octets.
fn transferring(basis: &ReadingBasis<'_>, id: u32, octets: &Octets) -> Result<Information, Halt>
    ensures { GivesAs seen_information result (transferring id (rtse_at octets.now)) }
{
    match basis.codecs.rtse.read(basis.alloc, octets.as_slice()) {
        Ok(apdu) => Ok(Information::Transferring { id, apdu }),
        Err(PduFault::At { place, .. }) => fault_at(basis.alloc, Layer::Rtse, place, 4),
        Err(PduFault::NoMemory) => Err(Halt::NoMemory),
    }
}

/// An item of these octets, where it is read: its context is an accepted one of reliable transfer.
fn other_read(
    basis: &ReadingBasis<'_>,
    accepted: &[SetItem],
    id: u32,
    octets: &Octets,
) -> Result<Option<Information>, Halt>
    ensures { GivesAs seen_item_read result (other_read (is_on_rtse accepted.now id) id
        (rtse_at octets.now)) }
{
    if !is_on_rtse(accepted, id) {
        return Ok(None);
    }
    let item = transferring(basis, id, octets)?;
    Ok(Some(item))
}

/// What stands in the place of an item, where it is read.
fn item_read(
    basis: &ReadingBasis<'_>,
    accepted: &[SetItem],
    item: &Information,
) -> Result<Option<Information>, Halt>
    ensures { GivesAs seen_item_read result (item_read accepted.now (seen_information item.now)) }
{
    match item {
        Information::Transferring { .. } => Ok(None),
        Information::Other { id, octets } => other_read(basis, accepted, *id, octets),
    }
}

/// Items of which the first is this one, where there is one.
fn with_first(items: Vec<Information>, read: Option<Information>) -> Vec<Information>
    requires { 0 < vec_len items }
    ensures { result.items ≡ with_first items.items read }
{
    let mut items = items;
    match read {
        None => items,
        Some(item) => {
            items[0] = item;
            items
        }
    }
}

/// User information of which the first item is read.
#[tactic(auto, using(std::proofs::lemmas::Option::slice_get_within))]
fn first_informed(
    basis: &ReadingBasis<'_>,
    accepted: &[SetItem],
    user: UserInformation,
) -> Result<UserInformation, Halt>
    ensures { GivesAs seen_items result (reading.first_informed accepted.now (seen_items user)) }
{
    let items = user.into_vec();
    let Some(item) = items.first() else {
        return Ok(ListOf::from_vec(items));
    };
    let read = item_read(basis, accepted, item)?;
    Ok(ListOf::from_vec(with_first(items, read)))
}

/// One value.
fn one(
    basis: &ReadingBasis<'_>,
    id: u32,
    pair: Option<Pair>,
    content: ValueContent,
) -> Result<Values, Halt>
    ensures { GivesAs seen_values result (Ok (seen_value (record {
      id = id;
      pair = pair;
      content = content;
    }) ∷ [])) }
{
    let mut values: Values = ListOf::new(basis.alloc);
    values.push(Value { id, pair, content })?;
    Ok(values)
}

/// A value of which the user information is read where it is an APDU of this kind.
fn informed_value(
    basis: &ReadingBasis<'_>,
    accepted: &[SetItem],
    kind: AcseKind,
    value: Value,
) -> Result<Values, Halt>
    ensures { GivesAs seen_values result (reading.informed_value accepted.now (kind_of kind)
        (seen_value value) (seen_value value).content) }
{
    let Value { id, pair, content } = value;
    match content {
        ValueContent::Association { apdu, user } => {
            if is_of(kind, &apdu) {
                let user = first_informed(basis, accepted, user)?;
                one(basis, id, pair, ValueContent::Association { apdu, user })
            } else {
                one(basis, id, pair, ValueContent::Association { apdu, user })
            }
        }
        ValueContent::Remote { apdu, place } => {
            one(basis, id, pair, ValueContent::Remote { apdu, place })
        }
        ValueContent::Unread(octets) => one(basis, id, pair, ValueContent::Unread(octets)),
        ValueContent::Plea { priority } => one(basis, id, pair, ValueContent::Plea { priority }),
        ValueContent::Part(octets) => one(basis, id, pair, ValueContent::Part(octets)),
    }
}

/// Values of which the user information is read where they are one APDU of this kind.
fn informed_values(
    basis: &ReadingBasis<'_>,
    accepted: &[SetItem],
    kind: AcseKind,
    values: Values,
) -> Result<Values, Halt>
    ensures { GivesAs seen_values result (reading.informed_values accepted.now (kind_of kind)
        (seen_values values)) }
{
    if values.len() != 1 {
        return Ok(values);
    }
    match values.into_vec().pop() {
        None => Ok(ListOf::new(basis.alloc)),
        Some(value) => informed_value(basis, accepted, kind, value),
    }
}

/// In reliable mode user information is read.
pub(crate) fn and_informed(
    basis: &ReadingBasis<'_>,
    accepted: &[SetItem],
    kind: AcseKind,
    values: Values,
) -> Result<Values, Halt>
    ensures { GivesAs seen_values result (reading.and_informed (association_base
        basis.now.tables.now basis.now.config.now) accepted.now (kind_of kind) (Ok (seen_values
        values))) }
{
    if is_reliable(basis.config.mode) {
        informed_values(basis, accepted, kind, values)
    } else {
        Ok(values)
    }
}
