//! Transcripts as texts.

ghost use Rattle.std.specs.Prelude.{◌≡◌, ◌++◌, ◌∷◌, ◌<◌, ◌+◌, ◌^◌, ℕ, [], List, OnOk, IfOk, decimal, flat_map, codes};
ghost use Rattle.transcript_text.specs.Texts.{octet_field, octets_line, indication_line, entry_text, entries_text, end_line, text_of, line, nothing_yet, taken_with, taken_in, behind};
ghost use Rattle.transcript_text.specs.Words.{mode_word};

use crate::call::{put_answer, put_call_event, put_carry};
use crate::indication::put_indication;
use crate::words::{mode_word, other, phase_word, side_word};
use dialogue::{Call, CallRefusal, Entry, Indication, Mode, Phase, Transcript};
use osi_base::{NoMemory, Octets, Side};
use script_lines::InvokedOperations;
use std::alloc::Global;
use stub_tables::Tables;
use value_text::Text;

/// The line of the octets that a carry from this side moved.
fn put_octets_line(text: &mut Text, side: Side, octets: &[u8]) -> Result<(), NoMemory>
    ensures { OnOk result (text.new ≡ text.old ++ octets_line side octets.now) }
{
    text.put("  ")?;
    text.put(side_word(side))?;
    text.put(">")?;
    text.put(side_word(other(side)))?;
    put_octet_fields(text, octets)?;
    text.end_line()
}

/// Octets, each as a space and two digits.
fn put_octet_fields(text: &mut Text, octets: &[u8]) -> Result<(), NoMemory>
    ensures { OnOk result (text.new ≡ text.old ++ flat_map octet_field octets.now) }
{
    for octet in octets {
        text.put(" ")?;
        text.put_hex(*octet)?;
    }
    Ok(())
}

/// The line of an indication at this side.
fn put_indication_line(
    text: &mut Text,
    tables: &Tables,
    own: &[u32],
    side: Side,
    indication: &Indication,
) -> Result<(), NoMemory>
    ensures { OnOk result (text.new ≡ text.old ++ indication_line tables.now own.now side
        indication.now) }
{
    text.put("  ")?;
    text.put(side_word(side))?;
    text.put(": ")?;
    put_indication(text, tables, own, indication)?;
    text.end_line()
}

/// The lines of indications at this side.
fn put_indication_lines(
    text: &mut Text,
    tables: &Tables,
    own: &[u32],
    side: Side,
    indications: &[Indication],
) -> Result<(), NoMemory>
    ensures { OnOk result (text.new ≡ text.old ++ flat_map (indication_line tables.now own.now side)
        indications.now) }
{
    for indication in indications {
        put_indication_line(text, tables, own, side, indication)?;
    }
    Ok(())
}

/// Which operations the entries so far named: all, and those of calls that were accepted.
#[derive(Debug, Drop)]
pub(crate) struct SoFar {
    named: InvokedOperations,
    taken: InvokedOperations,
}

/// Before any entry.
fn nothing_yet(alloc: Global) -> SoFar
    ensures { result ≡ nothing_yet }
{
    SoFar {
        named: InvokedOperations::new(alloc),
        taken: InvokedOperations::new(alloc),
    }
}

/// Puts the operation of an invocation that was accepted with this identifier.
fn take(
    taken: &mut InvokedOperations,
    side: Side,
    call: &Call,
    id: Option<i64>,
) -> Result<(), NoMemory>
    ensures { OnOk result (taken.new ≡ taken_with taken.old side call.now id) }
{
    match call {
        Call::Invoke { operation, .. } => match id {
            Some(id) => taken.accept(side, id, *operation),
            None => Ok(()),
        },
        _ => Ok(()),
    }
}

/// Puts the operation of a call, where it is an invocation that was accepted.
fn take_answered(
    taken: &mut InvokedOperations,
    side: Side,
    call: &Call,
    answer: &Result<Option<i64>, CallRefusal>,
) -> Result<(), NoMemory>
    ensures { OnOk result (taken.new ≡ taken_in taken.old side call.now answer.now) }
{
    match answer {
        Ok(id) => take(taken, side, call, *id),
        Err(_) => Ok(()),
    }
}

impl SoFar {
    /// One entry more.
    fn go_on(&mut self, entry: &Entry) -> Result<(), NoMemory>
        ensures { OnOk result (self.new ≡ behind self.old entry.now) }
    {
        match entry {
            Entry::Call { side, call, answer } => {
                self.named.name(*side, call)?;
                take_answered(&mut self.taken, *side, call, answer)
            }
            _ => Ok(()),
        }
    }
}

/// An event with its number, and what came of it.
fn put_entry(
    text: &mut Text,
    tables: &Tables,
    before: &SoFar,
    number: u64,
    entry: &Entry,
) -> Result<(), NoMemory>
    ensures { OnOk result (text.new ≡ text.old ++ entry_text tables.now before.now number
        entry.now) }
{
    text.put_number(number)?;
    text.put(" ")?;
    match entry {
        Entry::Call { side, call, answer } => {
            put_call_event(text, tables, &before.named, *side, call)?;
            text.end_line()?;
            text.put("  ")?;
            put_answer(text, answer)?;
            text.end_line()
        }
        Entry::Carry {
            side,
            most,
            carried,
        } => {
            put_carry(text, *side, *most)?;
            text.end_line()?;
            put_octets_line(text, *side, carried.octets.as_slice())?;
            let peer = other(*side);
            let own = before.taken.of(peer);
            put_indication_lines(text, tables, own, peer, carried.shown.as_slice())
        }
        Entry::Break => {
            text.put("break")?;
            text.end_line()
        }
    }
}

/// All entries, numbered from 1.
#[tactic(auto, using(crate::proofs::Entries::entries_more, crate::proofs::Entries::entries_over))]
fn put_entries(
    alloc: Global,
    text: &mut Text,
    tables: &Tables,
    entries: &[Entry],
) -> Result<(), NoMemory>
    ensures { OnOk result (text.new ≡ text.old ++ entries_text tables.now nothing_yet 1
        entries.now) }
{
    let mut number: u64 = 0;
    let mut so_far = nothing_yet(alloc);
    for entry in entries {
        number += 1;
        put_entry(text, tables, &so_far, number, entry)?;
        so_far.go_on(entry)?;
    }
    Ok(())
}

/// The line of the mode.
fn put_mode(text: &mut Text, mode: Mode) -> Result<(), NoMemory>
    ensures { OnOk result (text.new ≡ text.old ++ line (codes "mode " ++ mode_word mode)) }
{
    text.put("mode ")?;
    text.put(mode_word(mode))?;
    text.end_line()
}

/// The line of the phase that an end is left in.
pub(crate) fn put_end(text: &mut Text, side: Side, phase: Phase) -> Result<(), NoMemory>
    ensures { OnOk result (text.new ≡ text.old ++ end_line side phase) }
{
    text.put("end ")?;
    text.put(side_word(side))?;
    text.put(" ")?;
    text.put(phase_word(phase))?;
    text.end_line()
}

/// The text of a transcript: the mode, each event with its number and what came of it, and the
/// phases at the end. Values print by the types of their operations and errors where they fit them,
/// else by their form; one that has none prints as `?`, and so does the name of an operation or
/// error that isn't in the tables.
pub fn transcript_text(
    alloc: Global,
    tables: &Tables,
    transcript: &Transcript,
) -> Result<Octets, NoMemory>
    ensures { IfOk result (λ text. text ≡ text_of tables.now transcript.now) }
{
    let mut text = Text::new(alloc);
    put_mode(&mut text, transcript.mode)?;
    put_entries(alloc, &mut text, tables, transcript.entries.as_slice())?;
    put_end(&mut text, Side::A, transcript.a)?;
    put_end(&mut text, Side::B, transcript.b)?;
    Ok(text.into_octets())
}
