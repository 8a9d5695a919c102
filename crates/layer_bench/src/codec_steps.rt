//! The bench `codec`: values that are read and written over and over. Its counts say how often: in
//! BER, reading the sequence, writing it, reading the invocation, writing it; then the same four in
//! the packed syntax; then the same eight with the numbers in a SET OF and those in a SEQUENCE OF.

use crate::codec_rounds::{read_rounds, write_rounds};
use crate::codec_samples::{Sample, invocation, numbers, sequence};
use crate::codec_syntaxes::{Ber, Codec, Packed};
use crate::counts::count;
use crate::stopped::Stopped;
use std::alloc::Global;

/// Which value is read and written.
#[derive(Clone, Copy)]
enum Subject {
    Sequence,
    Invocation,
    SetOf,
    ListOf,
}

/// The values in turn, each with whether it is spelled in the packed syntax in place of BER, and
/// with the place of the count of its readings; that of its writings stands behind it.
const STEPS: &[(Subject, bool, u8)] = &[
    (Subject::Sequence, false, 0),
    (Subject::Invocation, false, 2),
    (Subject::Sequence, true, 4),
    (Subject::Invocation, true, 6),
    (Subject::SetOf, false, 8),
    (Subject::ListOf, false, 10),
    (Subject::SetOf, true, 12),
    (Subject::ListOf, true, 14),
];

/// What the value is called.
fn name(subject: Subject) -> &'static str {
    match subject {
        Subject::Sequence => "sequence",
        Subject::Invocation => "invocation",
        Subject::SetOf => "set of numbers",
        Subject::ListOf => "list of numbers",
    }
}

/// The value with its type.
fn sample_of(alloc: Global, subject: Subject) -> Result<Sample, Stopped> {
    match subject {
        Subject::Sequence => sequence(alloc),
        Subject::Invocation => invocation(alloc),
        Subject::SetOf => numbers(alloc, true),
        Subject::ListOf => numbers(alloc, false),
    }
}

/// How many octets went each way.
#[derive(Clone, Copy)]
struct Gone {
    /// The octets read.
    read: u64,
    /// The octets written.
    written: u64,
}

/// Reads and writes a sample so often in a syntax.
fn both_ways<C: Codec>(
    alloc: Global,
    sample: &Sample,
    reads: u64,
    writes: u64,
) -> Result<Gone, Stopped> {
    Ok(Gone {
        read: read_rounds::<C>(alloc, sample, reads)?,
        written: write_rounds::<C>(alloc, sample, writes)?,
    })
}

/// Reads and writes a value so often in one of the syntaxes.
fn both_ways_in(
    alloc: Global,
    subject: Subject,
    packed: bool,
    reads: u64,
    writes: u64,
) -> Result<Gone, Stopped> {
    let sample = sample_of(alloc, subject)?;
    let gone = if packed {
        both_ways::<Packed>(alloc, &sample, reads, writes)
    } else {
        both_ways::<Ber>(alloc, &sample, reads, writes)
    };
    drop(sample);
    gone
}

/// Reads and writes the values in turn, and prints for each how many octets went each way.
pub fn run<R: Print + Alloc<A = Global>>(rt: &R, counts: &[u64]) -> Result<(), Stopped> {
    for (subject, packed, place) in STEPS {
        let reads = count(counts, *place as usize);
        let writes = count(counts, *place as usize + 1);
        let Gone { read, written } = both_ways_in(rt.alloc(), *subject, *packed, reads, writes)?;
        let name = name(*subject);
        let syntax = if *packed { "packed" } else { "BER" };
        println!(rt; "{name}, {syntax}: {read} octets read, {written} octets written")?;
    }
    Ok(())
}
