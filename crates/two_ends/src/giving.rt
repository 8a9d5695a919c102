//! Octets that an end gives out.

ghost use Rattle.std.specs.Prelude.{◌≡◌, ◌++◌, min, length, take, drop, IfOk, OnOk};
ghost use Rattle.osi_base.specs.Limits.{most_given};
ghost use Rattle.dialogue.specs.Carries.{first_octets};
ghost use Rattle.two_ends.specs.Conduct.{IsBut, given_out};

use crate::run_end::RunEnd;
use osi_base::{NoMemory, Octets};
use std::alloc::Global;

/// How many octets are given out at once.
const BLOCK: usize = 256;

/// Gives out at most so many octets, but not more than a block, and answers how many.
fn give_block<R, E: RunEnd<R>>(
    end: &mut E,
    octets: &mut Octets,
    most: usize,
) -> Result<usize, NoMemory>
    ensures count { IfOk result (λ count. count
        ≡ min (min most most_given) (length (E.conduct.waiting end.old))) }
    ensures octets { IfOk result (λ count. octets.new
        ≡ octets.old ++ take count (E.conduct.waiting end.old)) }
    ensures rest { IfOk result (λ count. E.conduct.waiting end.new
        ≡ drop count (E.conduct.waiting end.old)) }
    ensures kept { OnOk result ((e : E) → IsBut E.conduct end.old e → IsBut E.conduct end.new e) }
{
    let mut room = [0u8; BLOCK];
    let count = end.give_some(&mut room[..most.min(BLOCK)]);
    octets.extend(&room[..count])?;
    Ok(count)
}

/// Gives out all octets that wait.
fn give_all<R, E: RunEnd<R>>(alloc: Global, end: &mut E) -> Result<Octets, NoMemory>
    ensures octets { IfOk result (λ octets. octets ≡ E.conduct.waiting end.old) }
    ensures end { IfOk result (λ octets. end.new ≡ given_out E.conduct (length octets) end.old) }
{
    let mut octets = Octets::new(alloc);
    loop {
        let count = give_block(end, &mut octets, BLOCK)?;
        if count == 0 {
            return Ok(octets);
        }
    }
}

/// Gives out at most so many octets.
fn give_most<R, E: RunEnd<R>>(alloc: Global, end: &mut E, most: usize) -> Result<Octets, NoMemory>
    ensures octets { IfOk result (λ octets. octets ≡ take most (E.conduct.waiting end.old)) }
    ensures end { IfOk result (λ octets. end.new ≡ given_out E.conduct (length octets) end.old) }
{
    let mut octets = Octets::new(alloc);
    let mut left = most;
    loop {
        let count = give_block(end, &mut octets, left)?;
        if count == 0 {
            return Ok(octets);
        }
        left -= count;
    }
}

/// Gives out at most so many octets, or all that wait.
pub fn give_octets<R, E: RunEnd<R>>(
    alloc: Global,
    end: &mut E,
    most: Option<u32>,
) -> Result<Octets, NoMemory>
    ensures octets { IfOk result (λ octets. octets
        ≡ first_octets most (E.conduct.waiting end.old)) }
    ensures end { IfOk result (λ octets. end.new ≡ given_out E.conduct (length octets) end.old) }
{
    match most {
        Some(most) => give_most(alloc, end, most as usize),
        None => give_all(alloc, end),
    }
}
