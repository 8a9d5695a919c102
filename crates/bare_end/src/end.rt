//! One end of a connection in bare mode.

ghost use Rattle.std.specs.Prelude.{◌≡◌, ◌≢◌, ℕ, List, [], ◌∷◌, ◌++◌, length, min, take, drop, IfOk, IfErr, OnOk, true, Some, None, is_some};

use crate::intake::Intake;
use crate::phases::broken;
use association_ground::is_up;
use dialogue::{Config, ConfigRefusal, Phase, check_bare_config};
use end_wire::apdu_codec_layer::Heads;
use open_invocations::Invocations;
use osi_base::{Copied, OctetQueue, Pair, Syntax, copy_front};
use std::alloc::Global;
use std::marker::Model;
use stub_tables::Tables;

/// One end of a connection in bare mode.
#[derive(Drop)]
pub struct End<'t> {
    pub(crate) alloc: Global,
    pub(crate) tables: &'t Tables,
    pub(crate) config: Config,
    pub(crate) heads: Heads,
    pub(crate) phase: Phase,
    pub(crate) invocations: Invocations,
    pub(crate) waiting: OctetQueue,
    pub(crate) rest: Intake,
    pair: Pair,
}

impl<'t> Model for End<'t> {
    ghost use Rattle.std.specs.Prelude.{◌≡◌};
    ghost use Rattle.osi_base.specs.declared.syntax.Syntax.TheVariants.{Ber};
    ghost use Rattle.dialogue.specs.declared.config.Mode.TheVariants.{Bare};
    ghost use Rattle.bare_end.specs.View.{EndView};

    ghost Value = { EndView };

    ghost view = { λ e. record {
      tables = e.tables.now;
      config = e.config;
      phase = e.phase;
      calls = e.invocations;
      waiting = e.waiting;
      rest = e.rest;
    } };

    ghost invariant = { λ e. (e.config.mode ≡ Bare) × (e.pair
        ≡ record { abstract_name = e.tables.now.name_oid; transfer = Ber }) };
}

impl<'t> End<'t> {
    ghost use Rattle.dialogue.specs.declared.config.Mode.TheVariants as modes;
    ghost use Rattle.dialogue.specs.declared.config.Phase.TheVariants as phases;
    ghost use Rattle.dialogue.specs.Config.{bare_config_refusal};
    ghost use Rattle.dialogue.specs.declared.config.ConfigRefusal.TheVariants as config_refusals;
    ghost use Rattle.std.specs.Option.{option_copied};
    ghost use Rattle.end_rules.specs.Sets.{lowest_with};
    ghost use Rattle.osi_base.specs.SetPlaces.{pair_of};
    ghost use Rattle.end_rules.specs.State.{holds_turn, opened_with};
    ghost use Rattle.end_rules.specs.History.{History, gave, broke};
    ghost use Rattle.bare_end.specs.View.{EndView, body, Stepped, StandsFor};

    /// An end of bare mode with these tables and this configuration, up at once. Refused is what
    /// `check_bare_config` refuses, and want of memory. Ends of the other modes are those of
    /// `association_end`.
    pub fn new(alloc: Global, tables: &'t Tables, config: Config) -> Result<End<'t>, ConfigRefusal>
        requires bare { config.mode ≡ modes.Bare }
        ensures made { IfOk result (λ end. end ≡ record {
          tables = tables.entry.now;
          config = config;
          phase = phases.Up;
          calls = record { opens = []; made = 0 };
          waiting = [];
          rest = [];
        }) }
        ensures history { IfOk result (λ end. StandsFor end []) }
        ensures accepted { OnOk result (bare_config_refusal config ≡ None) }
        ensures refused { IfErr result (λ refusal. (refusal ≢ config_refusals.NoMemory) →
            bare_config_refusal config ≡ Some refusal) }
    {
        check_bare_config(alloc, &config)?;
        let Ok(heads) = Heads::new(alloc) else {
            return Err(ConfigRefusal::NoMemory);
        };
        let Ok(name) = tables.name_oid.copy(alloc) else {
            return Err(ConfigRefusal::NoMemory);
        };
        let pair = Pair {
            abstract_name: name,
            transfer: Syntax::Ber,
        };
        Ok(End {
            alloc,
            tables,
            config,
            heads,
            phase: Phase::Up,
            invocations: Invocations::new(alloc),
            waiting: OctetQueue::new(alloc),
            rest: Intake::new(alloc),
            pair,
        })
    }

    /// The phase of the end.
    pub fn phase(&self) -> Phase
        ensures { result ≡ self.now.phase }
    {
        self.phase
    }

    /// Whether the end holds the turn: it was the initiator's at first and in bare mode stays
    /// there, and an end that isn't up holds none.
    pub fn holds_turn(&self) -> bool
        ensures { result ≡ holds_turn (body self.now) }
    {
        self.config.initiator && is_up(self.phase)
    }

    /// Whether no transfer is queued or in progress: in bare mode there never is one.
    pub fn idle(&self) -> bool
        ensures { result ≡ true }
    {
        true
    }

    /// Whether the invocation of this end (own), or of its peer, with this identifier is open: it
    /// has no outcome yet (X.880 8).
    pub fn is_open(&self, own: bool, id: i64) -> bool
        ensures { result ≡ is_some (opened_with own id self.now.calls.opens) }
    {
        self.invocations.is_open(own, &id)
    }

    /// The pair of this identifier in the set: that of the one context of bare mode, 0.
    pub fn pair(&self, id: u32) -> Option<&Pair>
        ensures { option_copied result ≡ pair_of (body self.now).sets.held id }
    {
        if id == 0 { Some(&self.pair) } else { None }
    }

    /// The lowest identifier that may be sent and has the module's abstract syntax: 0.
    pub fn lowest(&self) -> Option<u32>
        ensures { result ≡ lowest_with self.now.tables.name_oid (body self.now).sets.own
            (body self.now).sets.held }
    {
        Some(0)
    }

    /// How the end was set up.
    pub fn config(&self) -> &Config
        ensures { result.now ≡ self.now.config }
    {
        &self.config
    }

    /// The end's tables.
    pub fn tables(&self) -> &'t Tables
        ensures { result.now ≡ self.now.tables }
    {
        self.tables
    }

    /// Moves the octets that wait to the front of the room, in their order and as many as fit, and
    /// answers how many.
    pub fn give_out(&mut self, out: &mut [u8]) -> usize
        ensures count { result ≡ min (length out.old) (length self.old.waiting) }
        ensures given { out.new ≡ take result self.old.waiting ++ drop result out.old }
        ensures end { self.new ≡ record self.old { waiting = drop result self.old.waiting } }
        ensures steps { Stepped self.old self.new (gave result ∷ []) }
        ensures history { (h : History) → StandsFor self.old h →
            StandsFor self.new (gave result ∷ h) }
    {
        let count = copy_front(self.waiting.as_slice(), out);
        self.waiting.skip(count);
        count
    }

    /// The connection broke: what waits in either direction is lost, the open invocations are cut
    /// without an indication, and the end is over.
    pub fn broke(&mut self)
        ensures steps { Stepped self.old self.new (broke ∷ []) }
        ensures history { (h : History) → StandsFor self.old h → StandsFor self.new (broke ∷ h) }
    {
        self.phase = broken(self.phase);
        self.invocations.clear();
        self.waiting.clear();
        self.rest.clear();
    }
}
