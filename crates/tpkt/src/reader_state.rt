//! What a reader holds of a stream, octet by octet.

ghost use Rattle.std.specs.Prelude.{◌≡◌, ◌+◌, ◌≤◌, ◌<◌, [], length, take, IfOk};
ghost use Rattle.osi_base.specs.Limits.{tsdu_limit};
ghost use Rattle.tpkt.specs.Reader.{on, between, opened, taken, after, IsSoundReader};

use crate::header::{Header, header_at};
use crate::header_stops::{Halt, Stop};
use crate::packet::{Packet, Packets, TFault};
use osi_base::{NoMemory, Octets};
use std::alloc::Global;

/// A DT whose data are still coming.
#[derive(Clone, Copy, Debug, PartialEq, Eq)]
pub struct Coming {
    /// How many octets of data are still to come; never 0.
    pub left: usize,
    /// Whether the DT ends its TSDU.
    pub last: bool,
}

/// What a reader holds.
#[derive(Debug, Drop)]
pub struct ReaderState {
    /// The octets of a header that isn't whole.
    pub unread: Octets,
    /// The data of the TSDU that has begun.
    pub tsdu: Octets,
    /// The DT whose header is whole and whose data aren't.
    pub coming: Option<Coming>,
    /// How many octets of the stream came before; it stands still at the end of its type.
    pub place: u64,
    /// Where the stream left the grammar.
    pub fault: Option<TFault>,
}

/// Between two packets, with these octets of a TSDU.
pub(crate) fn between(alloc: Global, tsdu: Octets, place: u64) -> ReaderState
    ensures { result ≡ between tsdu place }
{
    ReaderState {
        unread: Octets::new(alloc),
        tsdu,
        coming: None,
        place,
        fault: None,
    }
}

fn on(place: u64, octets: usize) -> u64
    ensures { result ≡ on place octets }
{
    place.saturating_add(octets as u64)
}

fn opened(
    alloc: Global,
    coming: Coming,
    packets: &mut Packets,
    tsdu: Octets,
    place: u64,
) -> Result<ReaderState, NoMemory>
    ensures { IfOk result (λ held. opened coming.left coming.last packets.old tsdu place
        ≡ record { packets = packets.new; held = held }) }
{
    if coming.left > 0 {
        return Ok(ReaderState {
            unread: Octets::new(alloc),
            tsdu,
            coming: Some(coming),
            place,
            fault: None,
        });
    }
    if !coming.last {
        return Ok(between(alloc, tsdu, place));
    }
    packets.push(Packet::Tsdu(tsdu))?;
    Ok(between(alloc, Octets::new(alloc), place))
}

fn header_taken(
    alloc: Global,
    held: ReaderState,
    octet: u8,
    packets: &mut Packets,
) -> Result<ReaderState, NoMemory>
    requires idle { held.coming ≡ None }
    requires right { held.fault ≡ None }
    requires within { length held.tsdu ≤ tsdu_limit }
    ensures { IfOk result (λ next. taken None None (record {
      packets = packets.old;
      held = held;
    }) octet
        ≡ record { packets = packets.new; held = next }) }
{
    let ReaderState {
        mut unread,
        tsdu,
        coming,
        place,
        fault,
    } = held;
    unread.push(octet)?;
    match header_at(alloc, tsdu.len(), unread.as_slice()) {
        Err(Halt::Memory) => Err(NoMemory),
        Err(Halt::Stop(Stop::Short)) => Ok(ReaderState {
            unread,
            tsdu,
            coming,
            place,
            fault,
        }),
        Err(Halt::Stop(Stop::At { offset, kind })) => Ok(ReaderState {
            unread: Octets::new(alloc),
            tsdu: Octets::new(alloc),
            coming,
            place,
            fault: Some(TFault {
                place: on(place, offset),
                kind,
            }),
        }),
        Ok(Header::Control(packet)) => {
            packets.push(packet)?;
            Ok(between(alloc, tsdu, on(place, unread.len())))
        }
        Ok(Header::Data { left, last }) => opened(
            alloc,
            Coming { left, last },
            packets,
            tsdu,
            on(place, unread.len()),
        ),
    }
}

fn data_taken(
    alloc: Global,
    held: ReaderState,
    coming: Coming,
    octets: &[u8],
    packets: &mut Packets,
) -> Result<(ReaderState, usize), NoMemory>
    requires coming { held.coming ≡ Some coming }
    requires more { 0 < coming.left }
    requires idle { held.unread ≡ [] }
    requires right { held.fault ≡ None }
    requires some { 0 < length octets.now }
    ensures count { IfOk result (λ r. (0 < r.1) × (r.1 ≤ length octets.now)) }
    ensures read { IfOk result (λ r.
        after (record { packets = packets.old; held = held }) (take r.1 octets.now)
        ≡ record { packets = packets.new; held = r.0 }) }
{
    let ReaderState {
        unread: _,
        mut tsdu,
        coming: _,
        place,
        fault: _,
    } = held;
    let count = coming.left.min(octets.len());
    tsdu.extend(&octets[..count])?;
    let coming = Coming {
        left: coming.left - count,
        last: coming.last,
    };
    let held = opened(alloc, coming, packets, tsdu, on(place, count))?;
    Ok((held, count))
}

/// Takes some octets from the front: what is held then, and how many were taken.
fn some_taken(
    alloc: Global,
    held: ReaderState,
    octets: &[u8],
    packets: &mut Packets,
) -> Result<(ReaderState, usize), NoMemory>
    requires sound { IsSoundReader held }
    requires right { held.fault ≡ None }
    requires some { 0 < length octets.now }
    ensures count { IfOk result (λ r. (0 < r.1) × (r.1 ≤ length octets.now)) }
    ensures read { IfOk result (λ r.
        after (record { packets = packets.old; held = held }) (take r.1 octets.now)
        ≡ record { packets = packets.new; held = r.0 }) }
{
    match held.coming {
        None => Ok((header_taken(alloc, held, octets[0], packets)?, 1)),
        Some(coming) => data_taken(alloc, held, coming, octets, packets),
    }
}

/// Takes all octets, up to a fault.
pub(crate) fn all_taken(
    alloc: Global,
    held: ReaderState,
    octets: &[u8],
    packets: &mut Packets,
) -> Result<ReaderState, NoMemory>
    requires { IsSoundReader held }
    ensures read { IfOk result (λ new. after (record {
      packets = packets.old;
      held = held;
    }) octets.now
        ≡ record { packets = packets.new; held = new }) }
    ensures sound { IfOk result IsSoundReader }
{
    let mut held = held;
    let mut rest = octets;
    while !rest.is_empty() {
        if held.fault.is_some() {
            return Ok(held);
        }
        let (next, count) = some_taken(alloc, held, rest, packets)?;
        held = next;
        let (_, more) = rest.split_at(count);
        rest = more;
    }
    Ok(held)
}
