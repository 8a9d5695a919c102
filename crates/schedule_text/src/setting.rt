//! What the lines of the setup say so far.

ghost use Rattle.std.specs.Prelude.{◌≡◌, ◌∷◌, [], IfOk, ◌≢◌, OnOk, None};
ghost use Rattle.script_lines.specs.Reading.{Gives};
ghost use Rattle.end_config.specs.Refusing.{config_refusal};
ghost use Rattle.schedule_text.specs.Settings.{runs, mode_of, default_context, contexts_of, all_syntaxes, accepted_of, accepts_of, config_of, fault_of, accepted, accepted_config, settled, names_for};

use association_ground::is_bare;
use dialogue::{Config, ConfigRefusal, Mode};
use end_config::check_config;
use osi_base::{Copied, ListOf, NoMemory, Octets, Oids, Proposal, Proposals, Side, Syntax};
use script_lines::{ScriptKind, ScriptLineFault};
use std::alloc::Global;
use stub_tables::Tables;

/// The modes in which the ends run associations. Bare mode they run always.
#[derive(Clone, Copy, Debug, PartialEq, Eq)]
pub struct Modes {
    /// Whether the ends run direct mode.
    pub direct: bool,
    /// Whether the ends run reliable mode.
    pub reliable: bool,
}

/// What the lines of the setup say so far.
#[derive(Debug, Drop)]
pub struct Setting {
    /// The mode, once a line named it.
    pub mode: Option<Mode>,
    /// The checkpoint of both ends, in units of 1,024 octets; 0 before a line named it.
    pub checkpoint: u32,
    /// The window of both ends, in marks; 1 before a line named it.
    pub window: u32,
    /// The contexts that lines named.
    pub contexts: Proposals,
    /// The transfer syntaxes that A accepts, once a line named them.
    pub accepted_by_a: Option<Oids>,
    /// The transfer syntaxes that B accepts, once a line named them.
    pub accepted_by_b: Option<Oids>,
}

/// Whether the ends run a mode.
fn runs(modes: Modes, mode: Mode) -> bool
    ensures { result ≡ runs modes mode }
{
    match mode {
        Mode::Bare => true,
        Mode::Direct => modes.direct,
        Mode::Reliable => modes.reliable,
    }
}

/// The mode: direct, unless a line named another.
pub(crate) fn mode_of(setting: &Setting) -> Mode
    ensures { result ≡ mode_of setting.now }
{
    match setting.mode {
        Some(mode) => mode,
        None => Mode::Direct,
    }
}

/// The context that an initiator proposes where no line names one.
fn default_context(alloc: Global, tables: &Tables) -> Result<Proposal, NoMemory>
    ensures { IfOk result (λ p. p ≡ default_context tables.now) }
{
    let mut transfers: Oids = ListOf::new(alloc);
    transfers.push(Syntax::Ber.name(alloc)?)?;
    Ok(Proposal {
        id: 5,
        abstract_name: tables.name_oid.copy(alloc)?,
        transfers,
    })
}

/// The contexts that an end proposes.
fn contexts_of(
    alloc: Global,
    tables: &Tables,
    initiator: bool,
    setting: &Setting,
) -> Result<Proposals, NoMemory>
    ensures { IfOk result (λ ps. ps ≡ contexts_of tables.now initiator setting.now) }
{
    if !initiator || is_bare(mode_of(setting)) {
        return Ok(ListOf::new(alloc));
    }
    if setting.contexts.len() > 0 {
        return setting.contexts.copy(alloc);
    }
    let mut contexts: Proposals = ListOf::new(alloc);
    contexts.push(default_context(alloc, tables)?)?;
    Ok(contexts)
}

/// The three transfer syntaxes that an end can write and read.
fn all_syntaxes(alloc: Global) -> Result<Oids, NoMemory>
    ensures { IfOk result (λ names. names ≡ all_syntaxes) }
{
    let mut names: Oids = ListOf::new(alloc);
    names.push(Syntax::Ber.name(alloc)?)?;
    names.push(Syntax::Der.name(alloc)?)?;
    names.push(Syntax::Packed.name(alloc)?)?;
    Ok(names)
}

/// The syntaxes that a line named, or all.
fn accepted_of(alloc: Global, named: &Option<Oids>) -> Result<Oids, NoMemory>
    ensures { IfOk result (λ names. names ≡ accepted_of named.now) }
{
    match named {
        Some(names) => names.copy(alloc),
        None => all_syntaxes(alloc),
    }
}

/// The transfer syntaxes that an end accepts.
fn accepts_of(alloc: Global, initiator: bool, setting: &Setting) -> Result<Oids, NoMemory>
    ensures { IfOk result (λ names. names ≡ accepts_of initiator setting.now) }
{
    if is_bare(mode_of(setting)) {
        return Ok(ListOf::new(alloc));
    }
    if initiator {
        accepted_of(alloc, &setting.accepted_by_a)
    } else {
        accepted_of(alloc, &setting.accepted_by_b)
    }
}

/// The configuration of an end.
#[tactic(auto, unfolding(crate::specs::Settings::config_of))]
fn config_of(
    alloc: Global,
    tables: &Tables,
    initiator: bool,
    setting: &Setting,
) -> Result<Config, NoMemory>
    ensures { IfOk result (λ config. config ≡ config_of tables.now initiator setting.now) }
{
    Ok(Config {
        initiator,
        mode: mode_of(setting),
        contexts: contexts_of(alloc, tables, initiator, setting)?,
        accepts: accepts_of(alloc, initiator, setting)?,
        calling: Octets::from_slice(alloc, &[0, 1])?,
        called: Octets::from_slice(alloc, &[0, 1])?,
        reference: Octets::from_slice(alloc, b"ref1")?,
        common: Octets::from_slice(alloc, b"260101000000Z")?,
        checkpoint: setting.checkpoint,
        window: setting.window,
    })
}

/// The fault of a configuration that an end refuses. Want of memory is no refusal.
fn fault_of(refusal: ConfigRefusal) -> ScriptLineFault
    ensures { result ≡ fault_of refusal }
{
    match refusal {
        ConfigRefusal::NoMemory => ScriptLineFault::NoMemory,
        _ => ScriptLineFault::Kind(ScriptKind::BadSetup),
    }
}

/// Whether no end refuses a configuration; else a `BadSetup`.
fn accepted(alloc: Global, config: &Config) -> Result<(), ScriptLineFault>
    ensures { Gives (λ x. x) result (accepted config.now) }
{
    match check_config(alloc, config) {
        Ok(()) => Ok(()),
        Err(refusal) => Err(fault_of(refusal)),
    }
}

/// The configuration of an end, where none refuses it; else a `BadSetup`.
fn accepted_config(
    alloc: Global,
    tables: &Tables,
    initiator: bool,
    setting: &Setting,
) -> Result<Config, ScriptLineFault>
    ensures { Gives (λ x. x) result (accepted_config tables.now initiator setting.now) }
{
    let config = config_of(alloc, tables, initiator, setting)?;
    accepted(alloc, &config)?;
    Ok(config)
}

/// The two configurations of a setting, where the ends run its mode and don't refuse them; else a
/// `BadSetup`.
#[tactic(auto, unfolding(crate::specs::Settings::settled))]
pub(crate) fn settled(
    alloc: Global,
    modes: Modes,
    tables: &Tables,
    setting: &Setting,
) -> Result<(Config, Config), ScriptLineFault>
    ensures { Gives (λ x. x) result (settled modes tables.now setting.now) }
{
    if !runs(modes, mode_of(setting)) {
        return Err(ScriptLineFault::Kind(ScriptKind::BadSetup));
    }
    let a = accepted_config(alloc, tables, true, setting)?;
    let b = accepted_config(alloc, tables, false, setting)?;
    Ok((a, b))
}

/// The syntaxes that a line named for this end.
pub(crate) fn names_for(setting: &Setting, side: Side) -> &Option<Oids>
    ensures { result.now ≡ names_for setting.now side }
{
    match side {
        Side::A => &setting.accepted_by_a,
        Side::B => &setting.accepted_by_b,
    }
}
