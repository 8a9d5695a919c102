//! The bench `transfer`: a transfer with checkpoint 1 and window 2 goes from its sender to its
//! receiver over and over. Its counts are the octets of the transfer, 1 to 262,400, and how often
//! it is sent.

use crate::counts::count;
use crate::stopped::Stopped;
use osi_base::Octets;
use rtse::{Ended, Incoming, Outgoing, Step};
use std::alloc::Global;

/// How many octets arrived, of a transfer of so many octets that was sent so often.
fn transfer_rounds(alloc: Global, octets: u64, rounds: u64) -> Result<u64, Stopped> {
    let mut sample = Octets::new(alloc);
    for i in 0..octets.min(262_400) {
        sample.push((i % 251) as u8)?;
    }
    let mut arrived = 0u64;
    for _ in 0..rounds {
        let copy = Octets::from_slice(alloc, sample.as_slice())?;
        arrived = arrived.wrapping_add(sent(alloc, copy)? as u64);
    }
    Ok(arrived)
}

/// How many octets arrived of a transfer that was sent once.
fn sent(alloc: Global, octets: Octets) -> Result<usize, Stopped> {
    if octets.len() == 0 || octets.len() > 262_400 {
        return Ok(0);
    }
    let mut outgoing = Outgoing::start(alloc, 1, octets, 1, 2);
    let mut incoming = Incoming::new(alloc);
    incoming.started(1)?;
    // at most 257 chunks, 256 marks and the end
    for _ in 0..514 {
        if let Some(whole) = step(&mut outgoing, &mut incoming)? {
            return Ok(whole);
        }
    }
    Err(Stopped)
}

/// Goes one step on, and gives how many octets arrived once the end came.
fn step(outgoing: &mut Outgoing, incoming: &mut Incoming) -> Result<Option<usize>, Stopped> {
    if incoming.number() == 0 {
        return Err(Stopped);
    }
    match outgoing.next()? {
        Step::Chunk(octets) => incoming.chunk(octets.as_slice())?,
        Step::Mark(n) => {
            incoming.mark(n)?;
            outgoing.confirmed(n)?;
        }
        Step::End(n) => {
            if let Ended::Whole(octets) = incoming.ended(n)? {
                return Ok(Some(octets.len()));
            }
        }
        Step::Wait => return Err(Stopped),
    }
    Ok(None)
}

/// Sends a transfer of so many octets so often, and prints how many arrived.
pub fn run<R: Print + Alloc<A = Global>>(rt: &R, counts: &[u64]) -> Result<(), Stopped> {
    let octets = count(counts, 0);
    let rounds = count(counts, 1);
    let arrived = transfer_rounds(rt.alloc(), octets, rounds)?;
    println!(rt; "{octets} octets, {rounds} times: {arrived} octets arrived")?;
    Ok(())
}
