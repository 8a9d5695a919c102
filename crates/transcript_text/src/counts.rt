//! Summaries of transcripts.

ghost use Rattle.std.specs.Prelude.{◌≡◌, ◌++◌, ◌+◌, ◌-◌, ◌^◌, min, ◌∷◌, OnOk, IfOk, [], List, length, codes, decimal};
ghost use Rattle.transcript_text.specs.Counts.{is_outcome, is_reject_sent, is_value, is_cut, shown_by, from_side, octets_from, is_refused, refused_in, if_reliable, plus, one_if, with_one, with_shown, with_entry, none_counted, counted, counted_all, number_line, counts_text, summary_of};

use crate::transcript::put_end;
use dialogue::{Entry, Indication, Mode, Transcript};
use osi_base::{NoMemory, Octets, Side};
use std::alloc::Global;
use value_text::Text;

/// What is counted of the entries of a transcript.
#[derive(Clone, Copy, Debug, PartialEq, Eq)]
pub(crate) struct Counts {
    events: u64,
    from_a: u64,
    from_b: u64,
    values: u64,
    outcomes: u64,
    rejects: u64,
    cut: u64,
    refused: u64,
}

fn none_counted() -> Counts
    ensures { result ≡ none_counted }
{
    Counts {
        events: 0,
        from_a: 0,
        from_b: 0,
        values: 0,
        outcomes: 0,
        rejects: 0,
        cut: 0,
        refused: 0,
    }
}

/// An outcome of an own invocation.
fn is_outcome(indication: &Indication) -> bool
    ensures { result ≡ is_outcome indication.now }
{
    match indication {
        Indication::Result { .. } => true,
        Indication::Error { .. } => true,
        Indication::Rejected { .. } => true,
        _ => false,
    }
}

fn is_reject_sent(indication: &Indication) -> bool
    ensures { result ≡ is_reject_sent indication.now }
{
    match indication {
        Indication::RejectSent { .. } => true,
        _ => false,
    }
}

/// What becomes of an APDU that was taken.
fn is_value(indication: &Indication) -> bool
    ensures { result ≡ is_value indication.now }
{
    match indication {
        Indication::Invoked { .. } => true,
        Indication::Result { .. } => true,
        Indication::Error { .. } => true,
        Indication::Rejected { .. } => true,
        Indication::RejectTaken { .. } => true,
        Indication::RejectSent { .. } => true,
        Indication::BadReject => true,
        _ => false,
    }
}

fn is_cut(indication: &Indication) -> bool
    ensures { result ≡ is_cut indication.now }
{
    match indication {
        Indication::Cut { .. } => true,
        _ => false,
    }
}

/// The indications of a carry.
fn shown_in(entry: &Entry) -> &[Indication]
    ensures { result.now ≡ shown_by entry.now }
{
    match entry {
        Entry::Carry { carried, .. } => carried.shown.as_slice(),
        _ => &[],
    }
}

/// How many octets a carry from this side moved.
fn octets_from(by: Side, entry: &Entry) -> usize
    ensures { result ≡ octets_from by entry.now }
{
    match entry {
        Entry::Carry { side, carried, .. } => { if by == *side { carried.octets.len() } else { 0 } }
        _ => 0,
    }
}

fn refused_in(entry: &Entry) -> usize
    ensures { result ≡ refused_in entry.now }
{
    match entry {
        Entry::Call { answer, .. } => { if answer.is_err() { 1 } else { 0 } }
        _ => 0,
    }
}

/// A count stands still at its end.
fn plus(count: u64, more: usize) -> u64
    ensures { result ≡ plus count more }
{
    count.saturating_add(more as u64)
}

/// One more, where this holds.
fn one_if(count: u64, holds: bool) -> u64
    ensures { result ≡ one_if count holds }
{
    if holds { plus(count, 1) } else { count }
}

/// The counts with one indication more.
fn with_one(counts: Counts, indication: &Indication) -> Counts
    ensures { result ≡ with_one counts indication.now }
{
    Counts {
        events: counts.events,
        from_a: counts.from_a,
        from_b: counts.from_b,
        values: one_if(counts.values, is_value(indication)),
        outcomes: one_if(counts.outcomes, is_outcome(indication)),
        rejects: one_if(counts.rejects, is_reject_sent(indication)),
        cut: one_if(counts.cut, is_cut(indication)),
        refused: counts.refused,
    }
}

/// The counts with all these indications.
#[tactic(auto, using(crate::proofs::Counting::one_shown, crate::proofs::Counting::all_shown))]
fn with_shown(counts: Counts, shown: &[Indication]) -> Counts
    ensures { result ≡ with_shown counts shown.now }
{
    let mut counts = counts;
    for indication in shown {
        counts = with_one(counts, indication);
    }
    counts
}

/// The counts with one entry more, but for its indications.
fn with_entry(counts: Counts, entry: &Entry) -> Counts
    ensures { result ≡ with_entry counts entry.now }
{
    Counts {
        events: plus(counts.events, 1),
        from_a: plus(counts.from_a, octets_from(Side::A, entry)),
        from_b: plus(counts.from_b, octets_from(Side::B, entry)),
        values: counts.values,
        outcomes: counts.outcomes,
        rejects: counts.rejects,
        cut: counts.cut,
        refused: plus(counts.refused, refused_in(entry)),
    }
}

/// The counts with one entry more.
fn counted(counts: Counts, entry: &Entry) -> Counts
    ensures { result ≡ counted counts entry.now }
{
    with_shown(with_entry(counts, entry), shown_in(entry))
}

#[tactic(auto, using(crate::proofs::Counting::one_more, crate::proofs::Counting::all_counted))]
fn counted_all(entries: &[Entry]) -> Counts
    ensures { result ≡ counted_all none_counted entries.now }
{
    let mut counts = none_counted();
    for entry in entries {
        counts = counted(counts, entry);
    }
    counts
}

/// In reliable mode each APDU comes as a transfer.
fn if_reliable(mode: Mode, number: u64) -> u64
    ensures { result ≡ if_reliable mode number }
{
    match mode {
        Mode::Bare => 0,
        Mode::Direct => 0,
        Mode::Reliable => number,
    }
}

fn put_number_line(text: &mut Text, name: &str, number: u64) -> Result<(), NoMemory>
    ensures { OnOk result (text.new ≡ text.old ++ number_line name.now number) }
{
    text.put(name)?;
    text.put(" ")?;
    text.put_number(number)?;
    text.end_line()
}

fn put_counts(text: &mut Text, mode: Mode, counts: &Counts) -> Result<(), NoMemory>
    ensures { OnOk result (text.new ≡ text.old ++ counts_text mode counts.now) }
{
    put_number_line(text, "events", counts.events)?;
    put_number_line(text, "octets A>B", counts.from_a)?;
    put_number_line(text, "octets B>A", counts.from_b)?;
    put_number_line(text, "values", counts.values)?;
    put_number_line(text, "outcomes", counts.outcomes)?;
    put_number_line(text, "rejects", counts.rejects)?;
    put_number_line(text, "cut", counts.cut)?;
    put_number_line(text, "transfers", if_reliable(mode, counts.values))?;
    put_number_line(text, "refused", counts.refused)
}

/// The summary of a transcript: how many events there were, octets each way, APDUs taken, outcomes
/// told, rejects sent, cuts told, transfers handed up and calls refused, each on its line,
/// and the phases at the end. A count stands still at 2^64 - 1.
pub fn summary_text(alloc: Global, transcript: &Transcript) -> Result<Octets, NoMemory>
    ensures { IfOk result (λ text. text ≡ summary_of transcript.now) }
{
    let mut text = Text::new(alloc);
    let counts = counted_all(transcript.entries.as_slice());
    put_counts(&mut text, transcript.mode, &counts)?;
    put_end(&mut text, Side::A, transcript.a)?;
    put_end(&mut text, Side::B, transcript.b)?;
    Ok(text.into_octets())
}
