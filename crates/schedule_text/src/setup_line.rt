//! Lines of the setup.

ghost use Rattle.std.specs.Prelude.{◌≡◌, IfOk, bytes_eq, Some, None, is_some, ◌++◌, ◌∷◌, [], length, OnOk};
ghost use Rattle.std.specs.List.{list_any};
ghost use Rattle.script_lines.specs.Reading.{Gives, or_kind};
ghost use Rattle.schedule_text.specs.SetupLines.{reliable_at, mode_named, mode_at, has_lines, with_mode, mode_line, is_named, with_context, new_context, context_line, with_accepted, new_accepted, accepts_fields, accepts_line, kept_settled, setup_line};

use crate::event::side_or_unknown;
use crate::setting::{Modes, Setting, mode_of, names_for, settled};
use association_ground::is_bare;
use dialogue::Mode;
use osi_base::{Copied, NoMemory, Oids, Proposal, Side};
use script_lines::{
    EndsBefore, ScriptKind, ScriptLineFault, at_line_end, field, number_field, syntaxes,
};
use std::alloc::Global;
use stub_tables::Tables;

/// A mode with its checkpoint size and its window.
#[derive(Clone, Copy, Debug, PartialEq, Eq)]
pub(crate) struct ModeLine {
    pub(crate) mode: Mode,
    pub(crate) checkpoint: u32,
    pub(crate) window: u32,
}

/// What follows the word `reliable`.
fn reliable(text: &[u8]) -> Result<ModeLine, ScriptLineFault>
    ensures { Gives (λ x. x) result (reliable_at text.now) }
{
    let (checkpoint, rest) = number_field(text)?;
    let (window, rest) = number_field(rest)?;
    at_line_end(
        ModeLine {
            mode: Mode::Reliable,
            checkpoint,
            window,
        },
        rest,
    )
}

/// A mode without checkpoints.
fn plain(mode: Mode) -> ModeLine
    ensures { result ≡ record { mode = mode; checkpoint = 0; window = 1 } }
{
    ModeLine {
        mode,
        checkpoint: 0,
        window: 1,
    }
}

/// The mode that a word names, with what follows it.
fn mode_named(word: &[u8], rest: &[u8]) -> Result<ModeLine, ScriptLineFault>
    ensures { Gives (λ x. x) result (mode_named word.now rest.now) }
{
    if word == b"bare".as_slice() {
        at_line_end(plain(Mode::Bare), rest)
    } else if word == b"direct".as_slice() {
        at_line_end(plain(Mode::Direct), rest)
    } else if word == b"reliable".as_slice() {
        reliable(rest)
    } else {
        Err(ScriptLineFault::Kind(ScriptKind::UnknownWord))
    }
}

/// What follows the word `mode`.
fn mode_fields(text: &[u8]) -> Result<ModeLine, ScriptLineFault>
    ensures { Gives (λ x. x) result (mode_at text.now) }
{
    let (word, rest) = field(text)?;
    mode_named(word, rest)
}

/// Whether a line named contexts or accepted syntaxes.
fn has_lines(setting: &Setting) -> bool
    ensures { result ≡ has_lines setting.now }
{
    setting.contexts.len() > 0 || setting.accepted_by_a.is_some() || setting.accepted_by_b.is_some()
}

/// The setting, where the ends run it and don't refuse it.
fn kept_settled(
    alloc: Global,
    modes: Modes,
    tables: &Tables,
    setting: Setting,
) -> Result<Setting, ScriptLineFault>
    ensures { Gives (λ x. x) result (kept_settled modes tables.now setting) }
{
    let _configs = settled(alloc, modes, tables, &setting)?;
    Ok(setting)
}

/// A line that begins with `mode`.
fn mode_line(
    alloc: Global,
    modes: Modes,
    tables: &Tables,
    setting: Setting,
    text: &[u8],
) -> Result<Setting, ScriptLineFault>
    ensures { Gives (λ x. x) result (mode_line modes tables.now setting text.now) }
{
    if setting.mode.is_some() {
        return Err(ScriptLineFault::Kind(ScriptKind::BadSetup));
    }
    let line = mode_fields(text)?;
    if is_bare(line.mode) && has_lines(&setting) {
        return Err(ScriptLineFault::Kind(ScriptKind::BadSetup));
    }
    let mut setting = setting;
    setting.mode = Some(line.mode);
    setting.checkpoint = line.checkpoint;
    setting.window = line.window;
    kept_settled(alloc, modes, tables, setting)
}

/// Whether a line named the context.
fn is_named(id: u32, contexts: &[Proposal]) -> bool
    ensures { result ≡ is_named id contexts.now }
{
    contexts.iter().any(|context| context.id == id)
}

/// One context more.
fn with_context(
    alloc: Global,
    tables: &Tables,
    setting: Setting,
    id: u32,
    transfers: Oids,
) -> Result<Setting, NoMemory>
    ensures { IfOk result (λ s. s ≡ with_context tables.now setting id transfers) }
{
    let mut setting = setting;
    setting.contexts.push(Proposal {
        id,
        abstract_name: tables.name_oid.copy(alloc)?,
        transfers,
    })?;
    Ok(setting)
}

/// A context with its transfer syntaxes, unless a line named it.
fn new_context(
    alloc: Global,
    modes: Modes,
    tables: &Tables,
    setting: Setting,
    id: u32,
    rest: &[u8],
) -> Result<Setting, ScriptLineFault>
    ensures { Gives (λ x. x) result (new_context modes tables.now setting id rest.now) }
{
    if is_named(id, setting.contexts.as_slice()) {
        return Err(ScriptLineFault::Kind(ScriptKind::BadSetup));
    }
    let (transfers, _over) = syntaxes(alloc, EndsBefore::Nothing, rest)?;
    let setting = with_context(alloc, tables, setting, id, transfers)?;
    kept_settled(alloc, modes, tables, setting)
}

/// A line that begins with `context`.
fn context_line(
    alloc: Global,
    modes: Modes,
    tables: &Tables,
    setting: Setting,
    text: &[u8],
) -> Result<Setting, ScriptLineFault>
    ensures { Gives (λ x. x) result (context_line modes tables.now setting text.now) }
{
    if is_bare(mode_of(&setting)) {
        return Err(ScriptLineFault::Kind(ScriptKind::BadSetup));
    }
    let (id, rest) = number_field(text)?;
    new_context(alloc, modes, tables, setting, id, rest)
}

/// The syntaxes that an end accepts.
fn with_accepted(setting: Setting, side: Side, names: Oids) -> Setting
    ensures { result ≡ with_accepted setting side names }
{
    let mut setting = setting;
    match side {
        Side::A => setting.accepted_by_a = Some(names),
        Side::B => setting.accepted_by_b = Some(names),
    }
    setting
}

/// What an end accepts, unless a line named it.
fn new_accepted(
    alloc: Global,
    modes: Modes,
    tables: &Tables,
    setting: Setting,
    side: Side,
    rest: &[u8],
) -> Result<Setting, ScriptLineFault>
    ensures { Gives (λ x. x) result (new_accepted modes tables.now setting side rest.now) }
{
    if names_for(&setting, side).is_some() {
        return Err(ScriptLineFault::Kind(ScriptKind::BadSetup));
    }
    let (names, _over) = syntaxes(alloc, EndsBefore::Nothing, rest)?;
    kept_settled(alloc, modes, tables, with_accepted(setting, side, names))
}

/// The fields of a line that begins with `accepts`.
fn accepts_fields(
    alloc: Global,
    modes: Modes,
    tables: &Tables,
    setting: Setting,
    text: &[u8],
) -> Result<Setting, ScriptLineFault>
    ensures { Gives (λ x. x) result (accepts_fields modes tables.now setting text.now) }
{
    let (letter, rest) = field(text)?;
    let side = side_or_unknown(letter)?;
    new_accepted(alloc, modes, tables, setting, side, rest)
}

/// A line that begins with `accepts`.
fn accepts_line(
    alloc: Global,
    modes: Modes,
    tables: &Tables,
    setting: Setting,
    text: &[u8],
) -> Result<Setting, ScriptLineFault>
    ensures { Gives (λ x. x) result (accepts_line modes tables.now setting text.now) }
{
    if is_bare(mode_of(&setting)) {
        return Err(ScriptLineFault::Kind(ScriptKind::BadSetup));
    }
    accepts_fields(alloc, modes, tables, setting, text)
}

/// A line of the setup, of which the first word and what follows it are given.
pub(crate) fn setup_line(
    alloc: Global,
    modes: Modes,
    tables: &Tables,
    setting: Setting,
    word: &[u8],
    rest: &[u8],
) -> Result<Setting, ScriptLineFault>
    ensures { Gives (λ x. x) result (setup_line modes tables.now setting word.now rest.now) }
{
    if word == b"mode".as_slice() {
        mode_line(alloc, modes, tables, setting, rest)
    } else if word == b"context".as_slice() {
        context_line(alloc, modes, tables, setting, rest)
    } else if word == b"accepts".as_slice() {
        accepts_line(alloc, modes, tables, setting, rest)
    } else {
        Err(ScriptLineFault::Kind(ScriptKind::UnknownWord))
    }
}
