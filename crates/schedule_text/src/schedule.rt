//! Schedules, line by line.

ghost use Rattle.std.specs.Prelude.{◌≡◌, ◌≢◌, ◌∷◌, ◌+◌, ◌<◌, ◌^◌, [], Some, None, IfOk, IfErr, OnOk, length, bytes_eq, codes};
ghost use Rattle.script_lines.specs.Lines.{lines_of};
ghost use Rattle.script_lines.specs.Reading.{Gives};
ghost use Rattle.script_lines.specs.declared.fault.ScriptFault.TheVariants.{NoMemory as no_room, At};
ghost use Rattle.schedule_text.specs.Events.{no_draft};
ghost use Rattle.schedule_text.specs.SetupLines.{is_setup_word};
ghost use Rattle.schedule_text.specs.Schedules.{Said, configs_and_events, setup_in_draft, line_of_word, after_line, at_line, lines_read, finished, names_a_mode, lacks_mode, first_or_lack, schedule_of, TellsOf, is_blank};

use crate::draft::{Draft, no_draft};
use crate::event::{event_line, is_event_word};
use crate::setting::{Modes, settled};
use crate::setup::Setup;
use crate::setup_line::setup_line;
use dialogue::Events;
use script_lines::{Lines, ScriptFault, ScriptKind, ScriptLineFault, field, is_next};
use std::alloc::Global;
use stub_tables::Tables;
use value_reading::after_spaces;

/// How many octets a schedule may have.
const SCHEDULE_MOST: usize = 16_777_216;

/// What a schedule says: how the two ends are set up, and the events of their run.
#[derive(Debug, Drop)]
pub struct Schedule {
    /// How the two ends are set up.
    pub setup: Setup,
    /// The events of their run, in order.
    pub events: Events,
}

fn is_setup_word(word: &[u8]) -> bool
    ensures { result ≡ is_setup_word word.now }
{
    word == b"mode".as_slice() || word == b"context".as_slice() || word == b"accepts".as_slice()
}

/// The draft with a line of the setup, which may stand before the events alone.
fn setup_in_draft(
    alloc: Global,
    modes: Modes,
    tables: &Tables,
    draft: Draft,
    word: &[u8],
    rest: &[u8],
) -> Result<Draft, ScriptLineFault>
    ensures { Gives (λ x. x) result (setup_in_draft modes tables.now draft word.now rest.now) }
{
    if draft.events.len() > 0 {
        return Err(ScriptLineFault::Kind(ScriptKind::OutOfOrder));
    }
    let Draft {
        setting,
        events,
        invoked,
    } = draft;
    let setting = setup_line(alloc, modes, tables, setting, word, rest)?;
    Ok(Draft {
        setting,
        events,
        invoked,
    })
}

/// The draft with a line of which the first word and what follows it are given.
fn line_of_word(
    alloc: Global,
    modes: Modes,
    tables: &Tables,
    draft: Draft,
    word: &[u8],
    rest: &[u8],
) -> Result<Draft, ScriptLineFault>
    ensures { Gives (λ x. x) result (line_of_word modes tables.now draft word.now rest.now) }
{
    if is_setup_word(word) {
        setup_in_draft(alloc, modes, tables, draft, word, rest)
    } else if is_event_word(word) {
        event_line(alloc, tables, draft, word, rest)
    } else {
        Err(ScriptLineFault::Kind(ScriptKind::UnknownWord))
    }
}

/// Whether a line says nothing: it has no field, or is a comment.
fn is_blank(text: &[u8]) -> bool
    ensures { result ≡ is_blank text.now }
{
    match after_spaces(text) {
        [first, ..] => *first == b'#',
        [] => true,
    }
}

/// The draft with one line more.
fn after_line(
    alloc: Global,
    modes: Modes,
    tables: &Tables,
    draft: Draft,
    line: &[u8],
) -> Result<Draft, ScriptLineFault>
    ensures { Gives (λ x. x) result (after_line modes tables.now draft line.now) }
{
    if is_blank(line) {
        return Ok(draft);
    }
    let (word, rest) = field(line)?;
    line_of_word(alloc, modes, tables, draft, word, rest)
}

/// A fault of the line of this number.
fn at_line(line: u32, fault: ScriptLineFault) -> ScriptFault
    ensures { TellsOf line fault result }
{
    match fault {
        ScriptLineFault::Kind(kind) => ScriptFault::At { line, kind },
        ScriptLineFault::NoMemory => ScriptFault::NoMemory,
    }
}

/// The draft that the lines make.
#[tactic(auto, using(crate::proofs::Drafts::steps))]
fn read_lines(
    alloc: Global,
    modes: Modes,
    tables: &Tables,
    lines: &mut Lines<'_>,
) -> Result<Draft, ScriptFault>
    ensures ok { IfOk result (λ draft. lines_read modes tables.now no_draft lines.old.number
        lines.old.lines ≡ Ok draft) }
    ensures err { IfErr result (λ fault. fault ≢ no_room → lines_read modes tables.now no_draft
        lines.old.number lines.old.lines ≡ Err fault) }
{
    let mut draft = no_draft(alloc);
    'lines: loop {
        let line_number = lines.number();
        let Some(line) = lines.next() else {
            return Ok(draft);
        };
        match after_line(alloc, modes, tables, draft, line) {
            Ok(after) => draft = after,
            Err(fault) => return Err(at_line(line_number, fault)),
        }
    }
}

/// The schedule of a draft, where its setup is one that the ends run and don't refuse.
fn finished(
    alloc: Global,
    modes: Modes,
    tables: &Tables,
    draft: Draft,
) -> Result<Schedule, ScriptLineFault>
    ensures { Gives configs_and_events result (finished modes tables.now draft) }
{
    let (a, b) = settled(alloc, modes, tables, &draft.setting)?;
    Ok(Schedule {
        setup: Setup { a, b },
        events: draft.events,
    })
}

/// Whether a line names a mode.
fn names_a_mode(text: &[u8]) -> bool
    requires { length text.now < 2 ^ 31 }
    ensures { result ≡ names_a_mode (lines_of text.now) }
{
    let mut lines = Lines::new(text);
    while let Some(line) = lines.next() {
        if is_next("mode", line) {
            return true;
        }
    }
    false
}

/// The fault of the first line, or that no line names a mode.
fn first_or_lack(alloc: Global, modes: Modes, tables: &Tables, text: &[u8]) -> ScriptFault
    requires { length text.now < 2 ^ 31 }
    ensures { result ≢ no_room → result ≡ first_or_lack modes tables.now (lines_of text.now) }
{
    let mut lines = Lines::new(text);
    let Some(line) = lines.next() else {
        return at_line(1, ScriptLineFault::Kind(ScriptKind::BadSetup));
    };
    match after_line(alloc, modes, tables, no_draft(alloc), line) {
        Ok(_) => at_line(1, ScriptLineFault::Kind(ScriptKind::BadSetup)),
        Err(fault) => at_line(1, fault),
    }
}

/// Reads a schedule: lines of the setup, and then events. The first line that breaks the grammar is
/// told, with the kind of its first faulty field. A setup that one of the ends would refuse is a
/// `BadSetup` at the line that made it so; so is a mode that the ends don't run, and the lack of
/// any where they don't run the direct one, at line 1. At most 20,000 events and 16,777,216 octets
/// are read; more is `TooMany`.
pub fn read_schedule(
    alloc: Global,
    modes: Modes,
    tables: &Tables,
    bytes: &[u8],
) -> Result<Schedule, ScriptFault>
    ensures ok { IfOk result (λ schedule. schedule_of modes tables.now bytes.now
        ≡ Ok (configs_and_events schedule)) }
    ensures err { IfErr result (λ fault. fault ≢ no_room → schedule_of modes tables.now bytes.now
        ≡ Err fault) }
{
    if bytes.len() > SCHEDULE_MOST {
        return Err(at_line(1, ScriptLineFault::Kind(ScriptKind::TooMany)));
    }
    if !modes.direct && !names_a_mode(bytes) {
        return Err(first_or_lack(alloc, modes, tables, bytes));
    }
    let mut lines = Lines::new(bytes);
    let draft = read_lines(alloc, modes, tables, &mut lines)?;
    match finished(alloc, modes, tables, draft) {
        Ok(schedule) => Ok(schedule),
        Err(fault) => Err(at_line(1, fault)),
    }
}
