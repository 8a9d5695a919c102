//! What a transfer holds (X.226 8.4.2, X.228 7.3).

ghost use Rattle.std.specs.Prelude.{◌≡◌, Ok, Err};
ghost use Rattle.std.specs.Option.{option_copied};
ghost use Rattle.pdv_places.specs.Seen.{place_in};
ghost use Rattle.association_intake.specs.association_reading.Places.{places_of, spot_at};
ghost use Rattle.association_intake.specs.association_reading.Contexts.{invalid_at};
ghost use Rattle.association_intake.specs.association_reading.Transfers as reading;
ghost use Rattle.association_words.specs.Seen.{seen_content, seen_arrived};
ghost use Rattle.association_meaning.specs.Grounds.{GivesAs};
ghost use Rattle.association_meaning.specs.Steps as steps;

use crate::basis::{Halt, ReadingBasis, fault_at};
use crate::contexts::pdv_wrong;
use crate::layer_apdus::content_under;
use association_intake::association_reading_layer::LayerOfValues;
use association_words::{Arrived, TransferItem, ValueContent};
use fixed_tables::PduFault;
use osi_base::{Copied, Layer, NoMemory, Pair, Pdv, SetItem, pair_of};
use pdv_places::{PdvField, transfer_place};

/// An invalid unit (6) at the place of a field of the value, counted in the octets of the transfer.
fn invalid_at(basis: &ReadingBasis<'_>, octets: &[u8], field: PdvField) -> Result<Arrived, Halt>
    ensures { GivesAs seen_arrived result (Err (invalid_at (place_in field (places_of (spot_at 0
        octets.now))))) }
{
    let place = transfer_place(basis.alloc, octets, field)?;
    fault_at(basis.alloc, Layer::Presentation, place, 6)
}

/// A transfer carries one value of the module.
fn arrived_as(
    basis: &ReadingBasis<'_>,
    octets: &[u8],
    id: u32,
    pair: &Pair,
    content: ValueContent,
) -> Result<Arrived, Halt>
    ensures { GivesAs seen_arrived result (reading.arrived_as (places_of (spot_at 0 octets.now)) id
        pair.now (Ok (seen_content content))) }
{
    match content {
        ValueContent::Remote { apdu, place } => match pair.copy(basis.alloc) {
            Ok(pair) => {
                let item = TransferItem { id, pair, apdu };
                Ok(Arrived::Whole { item, place })
            }
            Err(NoMemory) => {
                drop(apdu);
                Err(Halt::NoMemory)
            }
        },
        ValueContent::Unread(octets) => Ok(Arrived::Raw {
            id,
            pair: pair.copy(basis.alloc)?,
            octets,
        }),
        ValueContent::Association { .. } => {
            drop(content);
            fault_at(basis.alloc, Layer::Acse, 0, 0)
        }
        ValueContent::Plea { .. } => {
            drop(content);
            invalid_at(basis, octets, PdvField::Identifier)
        }
        ValueContent::Part(_) => {
            drop(content);
            invalid_at(basis, octets, PdvField::Identifier)
        }
    }
}

/// The value of a transfer, which may stand, under the pair of its context.
fn arrived_under(
    basis: &ReadingBasis<'_>,
    octets: &[u8],
    pdv: &Pdv,
    pair: Option<&Pair>,
) -> Result<Arrived, Halt>
    ensures { GivesAs seen_arrived result (reading.arrived_under basis.now.tables.now
        (places_of (spot_at 0 octets.now)) pdv.now (option_copied pair.entry)) }
{
    let Some(pair) = pair else {
        return invalid_at(basis, octets, PdvField::Identifier);
    };
    let value = pdv.content.octets().as_slice();
    let content = content_under(basis, LayerOfValues::Module, pair, value)?;
    arrived_as(basis, octets, pdv.id, pair, content)
}

/// The value of a transfer under the pair of its context, unless it may not stand.
fn arrived_by(
    basis: &ReadingBasis<'_>,
    octets: &[u8],
    pdv: &Pdv,
    pair: Option<&Pair>,
) -> Result<Arrived, Halt>
    ensures { GivesAs seen_arrived result (steps.arrived_by basis.now.tables.now
        (places_of (spot_at 0 octets.now)) pdv.now (option_copied pair.entry)) }
{
    match pdv_wrong(basis.tables.name_oid.arcs(), pdv, pair) {
        Some(field) => invalid_at(basis, octets, field),
        None => arrived_under(basis, octets, pdv, pair),
    }
}

/// The value of a transfer under a set.
fn arrived_in(
    basis: &ReadingBasis<'_>,
    set: &[SetItem],
    octets: &[u8],
    pdv: &Pdv,
) -> Result<Arrived, Halt>
    ensures { GivesAs seen_arrived result (reading.arrived_in basis.now.tables.now set.now
        (places_of (spot_at 0 octets.now)) (Ok pdv.now)) }
{
    arrived_by(basis, octets, pdv, pair_of(set, pdv.id))
}

/// What the octets of a transfer are under a set: an APDU, or octets on a context of the module
/// that spell none; or the fault that ends the association, of which places count in the octets.
/// `NoMemory` where memory runs out.
pub fn arrived_at(basis: &ReadingBasis<'_>, set: &[SetItem], octets: &[u8]) -> Result<Arrived, Halt>
    ensures { GivesAs seen_arrived result (reading.arrived_at basis.now.tables.now set.now
        octets.now) }
{
    match basis.codecs.transfers.read(basis.alloc, octets) {
        Ok(pdv) => arrived_in(basis, set, octets, &pdv),
        Err(PduFault::At { .. }) => fault_at(basis.alloc, Layer::Rtse, 0, 4),
        Err(PduFault::NoMemory) => Err(Halt::NoMemory),
    }
}
