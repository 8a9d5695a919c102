//! The numbers among the program's words, which say how long and how often.

use crate::stopped::Stopped;
use std::alloc::Global;

/// The words behind the program's name and the first word, as numbers. A word that is no number
/// counts as 0.
pub fn counts_of(alloc: Global, arguments: &[String]) -> Result<Vec<u64>, Stopped> {
    let mut counts = Vec::new(alloc);
    for word in arguments.iter().skip(2) {
        counts.push(word.parse::<u64>().unwrap_or(0))?;
    }
    Ok(counts)
}

/// The number at this place; one that isn't there counts as 0.
pub fn count(counts: &[u64], place: usize) -> u64 {
    counts.get(place).copied().unwrap_or(0)
}

/// The numbers behind the first so many.
pub fn behind(counts: &[u64], taken: usize) -> &[u64] {
    if taken < counts.len() {
        &counts[taken..]
    } else {
        &[]
    }
}
