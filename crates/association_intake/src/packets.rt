//! What one packet, or the packets of one TSDU, bring.

ghost use Rattle.std.specs.Prelude.{◌≡◌, [], ◌∷◌, map, OnOk, Ok, Err};
ghost use Rattle.spdu_codec.specs.Reading.{units_at};
ghost use Rattle.association_reading.specs.Front as reading;
ghost use Rattle.std.specs.Prelude.{IfOk, length, ◌<◌, ◌^◌};
ghost use Rattle.spdu_codec.specs.Places.{user_places, user_of, StandsAt, HoldUser};
ghost use Rattle.end_rules.specs.Messages as meant;
ghost use Rattle.association_words.specs.Seen.{seen_transport};
ghost use Rattle.association_intake.specs.Seen.{seen_front, HasUserPlaces, IsPlaced, ArePlaced, IsPut};

use crate::front::Front;
use association_words::TransportUnit;
use osi_base::{Copied, Layer, NoMemory, Octets, SessionWord, Spdus};
use spdu_codec::{SFault, UserPlaces, read_spdus, user_places};
use std::alloc::Global;
use std::collections::VecDeque;
use tpkt::{ConnectionFields, Packet};

/// Puts a front behind the others.
fn push(fronts: &mut VecDeque<Front>, front: Front) -> Result<(), NoMemory>
    requires front { IsPlaced front }
    requires fronts { ArePlaced fronts.old.items }
    ensures put { OnOk result (IsPut fronts.old.items fronts.new.items (seen_front front ∷ [])) }
{
    fronts.push_back(front)?;
    Ok(())
}

/// Puts a unit behind the others.
#[tactic(auto, using(crate::proofs::Placed::stands_placed))]
fn push_unit(
    fronts: &mut VecDeque<Front>,
    tsdu: &[u8],
    unit: SessionWord,
    place: Option<usize>,
) -> Result<(), NoMemory>
    requires stands { StandsAt (user_of unit) tsdu.now place }
    requires fronts { ArePlaced fronts.old.items }
    ensures put { OnOk result (IsPut fronts.old.items fronts.new.items
        (reading.OfSession unit (reading.start_of place) ∷ [])) }
{
    push(
        fronts,
        Front::OfSession {
            unit,
            start: place.unwrap_or(0),
        },
    )
}

/// Puts the first of two units behind the others, but an empty GT, which says nothing there (X.225
/// 6.3.7).
fn push_leading(
    fronts: &mut VecDeque<Front>,
    tsdu: &[u8],
    unit: SessionWord,
    place: Option<usize>,
) -> Result<(), NoMemory>
    requires stands { StandsAt (user_of unit) tsdu.now place }
    requires fronts { ArePlaced fronts.old.items }
    ensures put { OnOk result (IsPut fronts.old.items fronts.new.items
        (reading.leading unit (reading.start_of place))) }
{
    if let SessionWord::GiveTokens { tokens: None } = &unit {
        return Ok(());
    }
    push_unit(fronts, tsdu, unit, place)
}

/// Puts the units of a TSDU behind the others.
fn push_units(
    fronts: &mut VecDeque<Front>,
    tsdu: &[u8],
    at: UserPlaces,
    units: Spdus,
) -> Result<(), NoMemory>
    requires hold { HoldUser units tsdu.now at }
    requires fronts { ArePlaced fronts.old.items }
    ensures put { OnOk result (IsPut fronts.old.items fronts.new.items
        (reading.fronts_of_units at (Ok units))) }
{
    let mut units = units.into_vec().into_iter();
    let Some(first) = units.next() else {
        return Ok(());
    };
    match units.next() {
        None => push_unit(fronts, tsdu, first, at.first),
        Some(second) => {
            push_leading(fronts, tsdu, first, at.first)?;
            push_unit(fronts, tsdu, second, at.second)
        }
    }
}

/// Puts what a TSDU brings behind the others.
fn push_tsdu(alloc: Global, fronts: &mut VecDeque<Front>, octets: &Octets) -> Result<(), NoMemory>
    requires fronts { ArePlaced fronts.old.items }
    ensures put { OnOk result (IsPut fronts.old.items fronts.new.items
        (reading.fronts_of_units (user_places octets.now) (units_at octets.now))) }
{
    match read_spdus(alloc, octets.as_slice()) {
        Ok(units) => {
            let at = user_places(octets.as_slice());
            push_units(fronts, octets.as_slice(), at, units)
        }
        Err(SFault::At { place, .. }) => push(
            fronts,
            Front::Faulty {
                layer: Layer::Session,
                place: place as u64,
            },
        ),
        Err(SFault::NoMemory) => Err(NoMemory),
    }
}

/// CR.
fn request(alloc: Global, ends: &ConnectionFields) -> Result<TransportUnit, NoMemory>
    ensures { IfOk result (λ unit. seen_transport unit ≡ meant.ConnectionRequest ends.now.source
        ends.now.size ends.now.calling ends.now.called) }
{
    Ok(TransportUnit::ConnectionRequest {
        source: ends.source,
        size: ends.size,
        calling: ends.calling.copy(alloc)?,
        called: ends.called.copy(alloc)?,
    })
}

/// Puts a transport unit behind the others.
fn push_transport(fronts: &mut VecDeque<Front>, unit: TransportUnit) -> Result<(), NoMemory>
    requires fronts { ArePlaced fronts.old.items }
    ensures put { OnOk result (IsPut fronts.old.items fronts.new.items
        (reading.OfTransport (seen_transport unit) ∷ [])) }
{
    push(fronts, Front::OfTransport(unit))
}

/// Puts what a packet, or the packets of a TSDU, bring behind the others. A DR goes to an
/// initiator, whose reference is 1.
fn push_packet(alloc: Global, fronts: &mut VecDeque<Front>, packet: &Packet) -> Result<(), NoMemory>
    requires fronts { ArePlaced fronts.old.items }
    ensures put { OnOk result (IsPut fronts.old.items fronts.new.items
        (reading.fronts_of packet.now)) }
{
    match packet {
        Packet::Connect(ends) => push_transport(fronts, request(alloc, ends)?),
        Packet::Confirm(ends) => push_transport(
            fronts,
            TransportUnit::ConnectionConfirm {
                destination: ends.destination,
                size: ends.size,
            },
        ),
        Packet::Disconnect => {
            push_transport(fronts, TransportUnit::DisconnectRequest { destination: 1 })
        }
        Packet::Problem => push_transport(fronts, TransportUnit::TransportError),
        Packet::Tsdu(octets) => push_tsdu(alloc, fronts, octets),
    }
}

/// Puts what these packets bring behind the others.
pub(crate) fn push_packets(
    alloc: Global,
    fronts: &mut VecDeque<Front>,
    packets: &[Packet],
) -> Result<(), NoMemory>
    requires fronts { ArePlaced fronts.old.items }
    ensures put { OnOk result (IsPut fronts.old.items fronts.new.items
        (reading.all_fronts packets.now)) }
{
    for packet in packets {
        push_packet(alloc, fronts, packet)?;
    }
    Ok(())
}
