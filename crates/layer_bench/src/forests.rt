//! The bench `forest`: keys are opened and closed over and over. Its counts are the keys under one,
//! at most 1,000,000, and how often: each is opened, and then, the oldest first, the first child is
//! asked for and closed.

use crate::counts::count;
use crate::stopped::Stopped;
use linked_ops::{Forest, Key};
use std::alloc::Global;

/// The key above all others.
fn root() -> Key {
    Key { own: true, id: 0 }
}

/// A forest of so many keys under one.
fn family(alloc: Global, keys: i64) -> Result<Forest, Stopped> {
    let mut forest = Forest::new(alloc);
    let Ok(()) = forest.open(root(), None) else {
        return Err(Stopped);
    };
    for id in 0..keys {
        let key = Key { own: false, id };
        let Ok(()) = forest.open(key, Some(root())) else {
            return Err(Stopped);
        };
    }
    Ok(forest)
}

/// How often a first child is told, where each is closed behind that.
fn closed(forest: &mut Forest, keys: i64) -> u64 {
    let mut told = 0u64;
    for id in 0..keys {
        if forest.children(root()).next().is_some() {
            told = told.wrapping_add(1);
        }
        forest.close(Key { own: false, id });
    }
    told
}

/// How many children were told in so many rounds.
fn children_told(alloc: Global, keys: i64, rounds: u64) -> Result<u64, Stopped> {
    let mut told = 0u64;
    for _ in 0..rounds {
        let mut forest = family(alloc, keys)?;
        told = told.wrapping_add(closed(&mut forest, keys));
    }
    Ok(told)
}

/// Opens and closes so many keys so often, and prints how many children were told.
pub fn run<R: Print + Alloc<A = Global>>(rt: &R, counts: &[u64]) -> Result<(), Stopped> {
    let keys = count(counts, 0).min(1_000_000);
    let rounds = count(counts, 1);
    let told = children_told(rt.alloc(), keys as i64, rounds)?;
    println!(rt; "{keys} keys, {rounds} times: {told} children told")?;
    Ok(())
}
