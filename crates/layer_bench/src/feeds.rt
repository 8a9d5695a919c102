//! The bench `feed`: octets come to an end of bare mode over and over. Its counts are the octets,
//! at most 262,144, how often they come as one long APDU whose octets come one by one, and how
//! often as short APDUs that come at once.

use crate::counts::count;
use crate::note_module::{config, module};
use crate::stopped::Stopped;
use bare_end::End;
use std::alloc::Global;
use stub_tables::Tables;

/// An invocation that has no outcome, of about so many octets: its argument is an OCTET STRING.
fn long(alloc: Global, size: u64) -> Result<Vec<u8>, Stopped> {
    let inside = size.saturating_sub(16).min(0xFF_FFFF) as u32;
    let mut octets = Vec::new(alloc);
    octets.push(0xA1)?;
    push_length(&mut octets, inside + 11)?;
    for octet in &[2u8, 1, 1, 2, 1, 1, 4] {
        octets.push(*octet)?;
    }
    push_length(&mut octets, inside)?;
    for _ in 0..inside {
        octets.push(0)?;
    }
    Ok(octets)
}

/// A length of three octets in the long form.
fn push_length(octets: &mut Vec<u8>, length: u32) -> Result<(), Stopped> {
    octets.push(0x83)?;
    octets.push((length / 65_536 % 256) as u8)?;
    octets.push((length / 256 % 256) as u8)?;
    octets.push((length % 256) as u8)?;
    Ok(())
}

/// So many octets of invocations that have no outcome, each of ten octets.
fn short(alloc: Global, size: u64) -> Result<Vec<u8>, Stopped> {
    let mut octets = Vec::new(alloc);
    for _ in 0..size / 10 {
        for octet in &[0xA1u8, 8, 2, 1, 1, 2, 1, 1, 4, 0] {
            octets.push(*octet)?;
        }
    }
    Ok(octets)
}

/// An end that has taken nothing.
fn end(alloc: Global, tables: &Tables) -> Result<End<'_>, Stopped> {
    let made = End::new(alloc, tables, config(alloc)?);
    made.map_err(|_| Stopped)
}

/// How many APDUs are told of these octets, where memory isn't refused.
fn told_of(end: &mut End<'_>, octets: &[u8]) -> Option<u64> {
    let shown = end.feed(octets).ok()?;
    let told = shown.len() as u64;
    drop(shown);
    Some(told)
}

/// How many APDUs are told of octets that come one by one.
fn told_one_by_one(end: &mut End<'_>, octets: &[u8]) -> Option<u64> {
    let mut told = 0u64;
    for place in 0..octets.len() {
        told = told.wrapping_add(told_of(end, &octets[place..place + 1])?);
    }
    Some(told)
}

/// How many APDUs are told by a new end.
fn told_by_new(
    alloc: Global,
    tables: &Tables,
    octets: &[u8],
    one_by_one: bool,
) -> Result<u64, Stopped> {
    let mut end = end(alloc, tables)?;
    let told = if one_by_one {
        told_one_by_one(&mut end, octets)
    } else {
        told_of(&mut end, octets)
    };
    drop(end);
    told.ok_or(Stopped)
}

/// How many APDUs are told in so many rounds, each by an end of its own.
fn told_in_rounds(
    alloc: Global,
    octets: &[u8],
    rounds: u64,
    one_by_one: bool,
) -> Result<u64, Stopped> {
    let tables = module(alloc)?;
    let mut told = Some(0u64);
    for _ in 0..rounds {
        told = match (told, told_by_new(alloc, &tables, octets, one_by_one)) {
            (Some(before), Ok(now)) => Some(before.wrapping_add(now)),
            _ => None,
        };
    }
    drop(tables);
    told.ok_or(Stopped)
}

/// How many long APDUs are told in so many rounds, each to an end of its own, octet by octet.
fn one_by_one(alloc: Global, size: u64, rounds: u64) -> Result<u64, Stopped> {
    let octets = long(alloc, size)?;
    told_in_rounds(alloc, octets.as_slice(), rounds, true)
}

/// How many short APDUs are told in so many rounds, each to an end of its own, all at once.
fn at_once(alloc: Global, size: u64, rounds: u64) -> Result<u64, Stopped> {
    let octets = short(alloc, size)?;
    told_in_rounds(alloc, octets.as_slice(), rounds, false)
}

/// Feeds the octets so often as one long APDU and so often as short ones, and prints how many APDUs
/// of each kind were told.
pub fn run<R: Print + Alloc<A = Global>>(rt: &R, counts: &[u64]) -> Result<(), Stopped> {
    let size = count(counts, 0).min(262_144);
    let rounds = count(counts, 1);
    let short_rounds = count(counts, 2);
    let long = one_by_one(rt.alloc(), size, rounds)?;
    let short = at_once(rt.alloc(), size, short_rounds)?;
    println!(rt;
        "{size} octets, {rounds} and {short_rounds} times: {long} and {short} APDUs told"
    )?;
    Ok(())
}
