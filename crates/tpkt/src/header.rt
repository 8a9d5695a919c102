//! The header of a packet, as far as its octets are there (RFC 1006 6; X.224 13).

ghost use Rattle.std.specs.Prelude.{◌≡◌, ◌≤◌, ◌<◌, ◌-◌, length};
ghost use Rattle.osi_base.specs.Limits.{tsdu_limit, last_octet};
ghost use Rattle.tpkt.specs.Header.{Gives, or_empty, ends_at, passed_at, data_at, mark_at, code_at, indicator_at, length_at, header_at};

use crate::header_stops::{Halt, fault, short};
use crate::numbers::number_of;
use crate::packet::{ConnectionFields, Packet};
use crate::parameters::parameters_at;
use osi_base::{Kind, Octets};
use std::alloc::Global;

/// The most octets of a TSDU.
pub(crate) const TSDU_LIMIT: usize = 1_048_576;

/// What a header says.
#[derive(Debug, Drop)]
pub(crate) enum Header {
    /// A whole unit other than a DT.
    Control(Packet),
    /// A DT of which so many octets of data are still to come.
    Data { left: usize, last: bool },
}

fn selector(alloc: Global, seen: Option<Octets>) -> Octets
    ensures { result ≡ or_empty seen }
{
    match seen {
        None => Octets::new(alloc),
        Some(selector) => selector,
    }
}

#[tactic(auto, unfolding(crate::specs::Header::ends_at))]
fn ends_at(alloc: Global, li: usize, octets: &[u8]) -> Result<ConnectionFields, Halt>
    requires least { 6 ≤ li }
    requires most { li ≤ last_octet }
    ensures { Gives result (ends_at li octets.now) }
{
    let [a, b, c, d, class, rest @ ..] = octets else {
        return short();
    };
    if *class != 0 {
        return fault(10, Kind::Content);
    }
    let seen = parameters_at(alloc, li - 6, rest)?;
    Ok(ConnectionFields {
        destination: number_of(*a, *b),
        source: number_of(*c, *d),
        size: seen.size,
        calling: selector(alloc, seen.calling),
        called: selector(alloc, seen.called),
    })
}

fn passed_at(count: usize, packet: Packet, octets: &[u8]) -> Result<Header, Halt>
    ensures { Gives result (passed_at count packet octets.now) }
{
    if octets.len() < count {
        return short();
    }
    Ok(Header::Control(packet))
}

#[tactic(auto, unfolding(crate::specs::Header::data_at))]
fn data_at(begun: usize, left: usize, octets: &[u8]) -> Result<Header, Halt>
    requires { begun ≤ tsdu_limit }
    ensures { Gives result (data_at begun left octets.now) }
{
    if TSDU_LIMIT - begun < left {
        return fault(5, Kind::Length);
    }
    match octets {
        [] => short(),
        [0, ..] => Ok(Header::Data { left, last: false }),
        [128, ..] => Ok(Header::Data { left, last: true }),
        [_, ..] => fault(6, Kind::Content),
    }
}

#[tactic(auto, unfolding(crate::specs::Header::code_at))]
fn code_at(
    alloc: Global,
    begun: usize,
    room: usize,
    li: usize,
    octets: &[u8],
) -> Result<Header, Halt>
    requires begun { begun ≤ tsdu_limit }
    requires least { 0 < li }
    requires most { li ≤ last_octet }
    requires room { li ≤ room }
    ensures { Gives result (code_at begun room li octets.now) }
{
    let [code, rest @ ..] = octets else {
        return short();
    };
    match *code {
        0xF0 if li == 2 => data_at(begun, room - 2, rest),
        0xE0 if li == room && li >= 6 => {
            Ok(Header::Control(Packet::Connect(ends_at(alloc, li, rest)?)))
        }
        0xD0 if li == room && li >= 6 => {
            Ok(Header::Control(Packet::Confirm(ends_at(alloc, li, rest)?)))
        }
        0x80 if li == room && li >= 6 => passed_at(li - 1, Packet::Disconnect, rest),
        0x70 if li == room => passed_at(li - 1, Packet::Problem, rest),
        0xF0 | 0xE0 | 0xD0 | 0x80 | 0x70 => fault(4, Kind::Length),
        _ => fault(5, Kind::Tag),
    }
}

#[tactic(auto, unfolding(crate::specs::Header::indicator_at))]
fn indicator_at(alloc: Global, begun: usize, room: usize, octets: &[u8]) -> Result<Header, Halt>
    requires { begun ≤ tsdu_limit }
    ensures { Gives result (indicator_at begun room octets.now) }
{
    let [li, rest @ ..] = octets else {
        return short();
    };
    let li = *li as usize;
    if li == 0 || li >= 255 || li > room {
        return fault(4, Kind::Length);
    }
    code_at(alloc, begun, room, li, rest)
}

#[tactic(auto, unfolding(crate::specs::Header::length_at))]
fn length_at(alloc: Global, begun: usize, octets: &[u8]) -> Result<Header, Halt>
    requires { begun ≤ tsdu_limit }
    ensures { Gives result (length_at begun octets.now) }
{
    let [high, low, rest @ ..] = octets else {
        return short();
    };
    let len = number_of(*high, *low) as usize;
    if len < 7 {
        return fault(2, Kind::Length);
    }
    indicator_at(alloc, begun, len - 5, rest)
}

/// The header at the front of a packet, where the TSDU that has begun has so many octets.
#[tactic(auto, unfolding(crate::specs::Header::header_at))]
pub(crate) fn header_at(alloc: Global, begun: usize, octets: &[u8]) -> Result<Header, Halt>
    requires { begun ≤ tsdu_limit }
    ensures { Gives result (header_at begun octets.now) }
{
    let [version, reserved, rest @ ..] = octets else {
        return short();
    };
    if *version != 3 || *reserved != 0 {
        return fault(0, Kind::Tag);
    }
    length_at(alloc, begun, rest)
}
