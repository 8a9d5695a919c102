//! The bench `set`: an activity marks a set of 64 contexts, which doesn't change, over and over,
//! and goes back over its newest mark. Its counts are the marks of an activity, at most 65,536, the
//! activities, and how often each goes back over its newest mark and makes it anew.

use crate::counts::count;
use crate::stopped::Stopped;
use context_restore::Saved;
use context_sets::{Contexts, Rules};
use osi_base::{ListOf, Oid, Oids, Proposal, Syntax};
use std::alloc::Global;

/// How many nodes the chains of so many activities have, each with so many marks and restarts.
fn mark_rounds(alloc: Global, marks: u64, rounds: u64, restarts: u64) -> Result<u64, Stopped> {
    let set = full_set(alloc)?;
    let mut nodes = 0u64;
    for _ in 0..rounds {
        nodes = nodes.wrapping_add(marked(alloc, &set, marks, restarts)? as u64);
    }
    Ok(nodes)
}

/// How many nodes the chain of one activity has after so many marks and restarts.
fn marked(alloc: Global, set: &Contexts, marks: u64, restarts: u64) -> Result<u32, Stopped> {
    let mut saved = Saved::new(alloc);
    saved.begin(set)?;
    for _ in 0..marks.min(65_536) {
        saved.mark(set)?;
    }
    go_back(&mut saved, set, restarts)?;
    Ok(saved.nodes())
}

/// Goes back over the newest mark and makes it anew, so often.
fn go_back(saved: &mut Saved, set: &Contexts, restarts: u64) -> Result<(), Stopped> {
    for _ in 0..restarts {
        saved.restart(saved.nodes().saturating_sub(1))?;
        saved.mark(set)?;
    }
    Ok(())
}

/// The set of a responder that accepted 64 contexts.
fn full_set(alloc: Global) -> Result<Contexts, Stopped> {
    let mut asked = ListOf::new(alloc);
    for place in 0..64u32 {
        asked.push(Proposal {
            id: 2 * place + 1,
            abstract_name: module_name(alloc)?,
            transfers: basic_rules(alloc)?,
        })?;
    }
    let rules = Rules {
        module: module_name(alloc)?,
        connect: false,
        reliable: false,
        accepts: basic_rules(alloc)?,
    };
    let nothing = ListOf::new(alloc);
    let mut set = Contexts::new(alloc, false);
    set.answer(&asked, &nothing, &nothing, &rules)?;
    if set.items().len() != 64 {
        return Err(Stopped);
    }
    Ok(set)
}

fn module_name(alloc: Global) -> Result<Oid, Stopped> {
    Oid::from_vec(Vec::from_slice(alloc, &[2, 999, 7, 1])?).ok_or(Stopped)
}

/// The basic encoding rules alone.
fn basic_rules(alloc: Global) -> Result<Oids, Stopped> {
    let mut transfers = ListOf::new(alloc);
    transfers.push(Syntax::Ber.name(alloc)?)?;
    Ok(transfers)
}

/// Marks and goes back so often in so many activities, and prints how many nodes their chains have.
pub fn run<R: Print + Alloc<A = Global>>(rt: &R, counts: &[u64]) -> Result<(), Stopped> {
    let marks = count(counts, 0);
    let rounds = count(counts, 1);
    let restarts = count(counts, 2);
    let nodes = mark_rounds(rt.alloc(), marks, rounds, restarts)?;
    println!(rt; "{marks} marks and {restarts} restarts, {rounds} times: {nodes} nodes")?;
    Ok(())
}
