//! Reads a file of a recorded dialogue.

ghost use Rattle.std.specs.Prelude.{◌≡◌, ◌+◌, ◌<◌, ◌^◌, List, [], ℕ, length, IfOk, IfErr, OnOk, Ok, Err};
ghost use Rattle.osi_base.specs.declared.layer_words.Side.{Side};
ghost use Rattle.trace_file.specs.declared.fault.RecordingKind.{RecordingKind};
ghost use Rattle.trace_file.specs.declared.reading.Recorded.{Recorded};
ghost use Rattle.trace_file.specs.Lines.{lines_of, sender_of};
ghost use Rattle.trace_file.specs.Grammar.{IsRecording, IsFirstFault, IsRefused};
ghost use Rattle.trace_file.specs.Reading.{line_of, put_behind, lines_at, recording_of, Gives, GivesLine};

use crate::fault::{RecordingFault, RecordingKind};
use crate::hexadecimal::push_field;
use osi_base::{ListOf, NoMemory, Octets, Side};
use std::alloc::Global;

/// Octets that one end sent.
#[derive(Debug, Drop)]
pub struct Recorded {
    /// The end that sent the octets.
    pub from: Side,
    /// The octets that it sent.
    pub octets: Octets,
}

/// What went over a line, in the order in which it was recorded.
pub type Recording = ListOf<Recorded>;

/// The end that sent what stands behind this word.
fn sender_of(word: &[u8]) -> Option<Side>
    ensures { result ≡ sender_of word.now }
{
    if word == b"A>B".as_slice() {
        return Some(Side::A);
    }
    if word == b"B>A".as_slice() {
        return Some(Side::B);
    }
    None
}

/// What a line of this number tells; nothing where its first field is no direction.
fn read_line(alloc: Global, number: u32, line: &[u8]) -> Result<Option<Recorded>, RecordingFault>
    ensures { GivesLine number result (line_of line.now) }
{
    let mut from = None;
    let mut octets = Octets::new(alloc);
    for field in line.split(|octet| *octet == b' ') {
        if field.is_empty() {
            continue;
        }
        if from.is_none() {
            from = sender_of(field);
            if from.is_none() {
                return Ok(None);
            }
        } else if !push_field(&mut octets, field)? {
            return Err(RecordingFault::At {
                line: number,
                kind: RecordingKind::BadField,
            });
        }
    }
    match from {
        None => Ok(None),
        Some(from) => Ok(Some(Recorded { from, octets })),
    }
}

/// Puts what a line tells, if it tells something, behind what was told before.
fn keep(told: &mut Recording, line: Option<Recorded>) -> Result<(), NoMemory>
    ensures { OnOk result (told.new ≡ put_behind line told.old) }
{
    match line {
        None => Ok(()),
        Some(recorded) => told.push(recorded),
    }
}

fn read_lines(alloc: Global, text: &[u8]) -> Result<Recording, RecordingFault>
    requires { length text.now < 2 ^ 31 }
    ensures { Gives result (lines_at 1 [] (lines_of text.now)) }
{
    let mut told = Recording::new(alloc);
    let mut number = 1;
    for line in text.split(|octet| *octet == b'\n') {
        keep(&mut told, read_line(alloc, number, line)?)?;
        number += 1;
    }
    Ok(told)
}

#[tactic(auto, unfolding(crate::specs::Reading::recording_of))]
fn read_limited(alloc: Global, text: &[u8]) -> Result<Recording, RecordingFault>
    ensures { Gives result (recording_of text.now) }
{
    if text.len() > 16_777_216 {
        return Err(RecordingFault::At {
            line: 1,
            kind: RecordingKind::TooMany,
        });
    }
    read_lines(alloc, text)
}

/// The recorded dialogue in a file. A line whose first field is `A>B` or `B>A` tells the octets
/// that this end sent to the other, as fields of hexadecimal digits in either case, two for each
/// octet; any other line is passed over, so a transcript is such a file too. A line feed parts two
/// lines and spaces part two fields; no other octet is blank. A file has at most 16,777,216 octets.
/// One pass, linear in the file's octets.
///
/// # Errors
///
/// The first faulty line, counted from 1, with its kind; or `NoMemory`.
pub fn read_recording(alloc: Global, text: &[u8]) -> Result<Recording, RecordingFault>
    // What is read is what the lines tell.
    ensures found { IfOk result (IsRecording text.now) }
    // What the lines tell is read, unless memory is refused.
    ensures only { (told : List Recorded) → IsRecording text.now told → Gives result (Ok told) }
    // What is refused has this first fault.
    ensures first { IfErr result (IsRefused text.now) }
    // The first fault is told, unless memory is refused.
    ensures given { (line : ℕ) (kind : RecordingKind) → IsFirstFault text.now line kind
        → Gives {A = List Recorded} result (Err (RecordingFault.At line kind)) }
    ensures exact { Gives result (recording_of text.now) }
{
    read_limited(alloc, text)
}
