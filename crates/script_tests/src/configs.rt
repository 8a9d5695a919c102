//! Configurations that an end refuses for the contexts that it proposes: 62 are the most, no two
//! have one identifier, and the CP that proposes them has at most 10,240 octets. How many it has is
//! counted by X.226 8.2 in the basic encoding (X.690 8).

use dialogue::{Config, ConfigRefusal, Mode};
use end_config::check_config;
use osi_base::{ListOf, NoMemory, Octets, Oid, Oids, Proposal, Proposals};
use std::alloc::Global;
use std::process::Abort;
use std::test::*;

/// An object identifier of 32 arcs, each 2: 31 octets.
fn name(alloc: Global) -> Result<Oid, NoMemory> {
    Oid::from_vec(vec![in alloc; 2_u32; 32]?).ok_or(NoMemory)
}

/// A proposed context with so many transfer syntaxes.
fn proposal(alloc: Global, id: u32, syntaxes: u32) -> Result<Proposal, NoMemory> {
    let mut transfers: Oids = ListOf::new(alloc);
    for _ in 0..syntaxes {
        transfers.push(name(alloc)?)?;
    }
    Ok(Proposal {
        id,
        abstract_name: name(alloc)?,
        transfers,
    })
}

/// So many contexts from 5 on, each number this step above the one before.
fn contexts(alloc: Global, count: u32, step: u32, syntaxes: u32) -> Result<Proposals, NoMemory> {
    let mut contexts: Proposals = ListOf::new(alloc);
    let mut id = 5_u32;
    for _ in 0..count {
        contexts.push(proposal(alloc, id, syntaxes)?)?;
        id = id.wrapping_add(step);
    }
    Ok(contexts)
}

/// An initiator of direct mode with these contexts.
fn initiator(alloc: Global, contexts: Proposals) -> Result<Config, NoMemory> {
    Ok(Config {
        initiator: true,
        mode: Mode::Direct,
        contexts,
        accepts: ListOf::new(alloc),
        calling: Octets::from_slice(alloc, &[0, 1])?,
        called: Octets::from_slice(alloc, &[0, 1])?,
        reference: Octets::from_slice(alloc, b"ref1")?,
        common: Octets::from_slice(alloc, b"260101000000Z")?,
        checkpoint: 0,
        window: 1,
    })
}

/// What a row shows, how many contexts, the step of their numbers, the transfer syntaxes of each,
/// and the answer to the configuration.
type Row = (&'static str, u32, u32, u32, Result<(), ConfigRefusal>);

const ROWS: [Row; 4] = [
    ("62 contexts, the most", 62, 2, 1, Ok(())),
    ("one more", 63, 2, 1, Err(ConfigRefusal::TooManyContexts)),
    (
        "an identifier twice",
        2,
        0,
        1,
        Err(ConfigRefusal::BadContext(5)),
    ),
    (
        "62 contexts, each with nine names of 31 octets: over 17,000 octets",
        62,
        2,
        8,
        Err(ConfigRefusal::TooLong),
    ),
];

/// Whether a row's configuration is answered as it says.
fn is_answered(alloc: Global, row: &Row) -> Result<bool, NoMemory> {
    let (_, count, step, syntaxes, answer) = row;
    let config = initiator(alloc, contexts(alloc, *count, *step, *syntaxes)?)?;
    let checked = check_config(alloc, &config);
    drop(config);
    Ok(checked == *answer)
}

#[test]
fn contexts_that_may_not_be_proposed(rt: HostRuntime) {
    for row in &ROWS {
        let answered = is_answered(rt.alloc(), row).expect(&rt, "memory");
        assert!(rt; answered, "{}", row.0);
    }
}
