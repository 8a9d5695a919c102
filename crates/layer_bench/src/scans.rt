//! The bench `front`: a scanner looks at one value over and over, octet by octet. Its counts are
//! the octets of the value, at most 262,144, and how often it comes: each time once with a definite
//! length and once with an indefinite one.

ghost use Rattle.std.specs.Prelude.{◌≤◌, length, List, ℕ};

use crate::counts::count;
use crate::stopped::Stopped;
use std::alloc::Global;
use stream_front::{FirstValue, Scanner};

/// An OCTET STRING of about so many octets, with a definite length.
fn definite(alloc: Global, size: u64) -> Result<Vec<u8>, Stopped> {
    let inside = size.saturating_sub(5).min(0xFF_FFFF) as u32;
    let mut octets = Vec::new(alloc);
    octets.push(4)?;
    octets.push(0x83)?;
    octets.push((inside / 65_536 % 256) as u8)?;
    octets.push((inside / 256 % 256) as u8)?;
    octets.push((inside % 256) as u8)?;
    for _ in 0..inside {
        octets.push(0)?;
    }
    Ok(octets)
}

/// An OCTET STRING of about so many octets, with an indefinite length and segments of two octets.
fn indefinite(alloc: Global, size: u64) -> Result<Vec<u8>, Stopped> {
    let mut octets = Vec::new(alloc);
    octets.push(0x24)?;
    octets.push(0x80)?;
    for _ in 0..size.saturating_sub(4) / 4 {
        octets.push(4)?;
        octets.push(2)?;
        octets.push(0)?;
        octets.push(0)?;
    }
    octets.push(0)?;
    octets.push(0)?;
    Ok(octets)
}

/// How many octets the value has whose octets come one by one.
fn whole_at(octets: &[u8]) -> usize {
    let mut scanner = Scanner::new();
    for end in 0..octets.len() {
        if let FirstValue::Whole(used) = scanner.front(&octets[..end + 1]) {
            return used;
        }
    }
    0
}

/// How many octets were seen in so many rounds.
fn scanned(octets: &[u8], rounds: u64) -> u64 {
    let mut seen = 0u64;
    for _ in 0..rounds {
        seen = seen.wrapping_add(whole_at(octets) as u64);
    }
    seen
}

/// How many octets were seen of the value with a definite length.
fn definite_scanned(alloc: Global, size: u64, rounds: u64) -> Result<u64, Stopped> {
    let octets = definite(alloc, size)?;
    Ok(scanned(octets.as_slice(), rounds))
}

/// How many octets were seen of the value with an indefinite length.
fn indefinite_scanned(alloc: Global, size: u64, rounds: u64) -> Result<u64, Stopped> {
    let octets = indefinite(alloc, size)?;
    Ok(scanned(octets.as_slice(), rounds))
}

/// Looks at a value of each form so often, and prints how many octets of each were seen.
pub fn run<R: Print + Alloc<A = Global>>(rt: &R, counts: &[u64]) -> Result<(), Stopped> {
    let size = count(counts, 0).min(262_144);
    let rounds = count(counts, 1);
    let sized = definite_scanned(rt.alloc(), size, rounds)?;
    let marked = indefinite_scanned(rt.alloc(), size, rounds)?;
    println!(rt; "{size} octets, {rounds} times: {sized} and {marked} octets seen")?;
    Ok(())
}
