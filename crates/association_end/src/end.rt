//! One end of an association.

ghost use Rattle.std.specs.Prelude.{◌≡◌, ◌≢◌, ℕ, List, [], ◌∷◌, ◌++◌, length, min, take, drop, IfOk, IfErr, OnOk, false, Some, None};
ghost use Rattle.end_rules.specs.Base.{is_bare};

use crate::dt_sizes::first_size;
use association_ground::is_up;
use association_meaning::apdu_codec_layer::Heads;
use association_meaning::association_codecs_layer::Codecs;
use association_meaning::association_intake_layer::Intake;
use association_reacting::association_state_layer::{Basis, Body};
use association_requests::connection_broke;
use dialogue::{Config, ConfigRefusal, Phase};
use end_config::check_config;
use osi_base::{NoMemory, OctetQueue, copy_front};
use std::alloc::Global;
use std::marker::Model;
use stub_tables::Tables;

/// One end of an association in direct or reliable mode.
#[derive(Drop)]
pub struct End<'t> {
    pub(crate) basis: Basis<'t>,
    pub(crate) codecs: Codecs,
    pub(crate) body: Body,
    pub(crate) waiting: OctetQueue,
    /// What came and wasn't reacted to; `None` where nothing that comes is looked at any more.
    pub(crate) intake: Option<Intake>,
    /// How many octets a DT has at most.
    pub(crate) size: u32,
}

impl<'t> Model for End<'t> {
    ghost use Rattle.association_end.specs.View.{EndView};

    ghost Value = { EndView };

    ghost use Rattle.std.specs.Coded.{codes};
    ghost use Rattle.asn1_types.specs.ValueCode.{coded_value};

    ghost coded = { Prim.hlevel (codes, coded_value) };

    ghost use Rattle.association_end.specs.Sound.{IsSoundEnd};
    ghost use Rattle.association_end.specs.Seen.{view_of};

    ghost view = { λ e. view_of e.basis e.body e.waiting e.intake e.size };

    ghost invariant = { λ e. IsSoundEnd (view_of e.basis e.body e.waiting e.intake e.size) };
}

impl<'t> End<'t> {
    ghost use Rattle.dialogue.specs.declared.config.ConfigRefusal.TheVariants as config_refusals;
    ghost use Rattle.end_config.specs.Refusing.{config_refusal};
    ghost use Rattle.end_rules.specs.Base.{base_of};
    ghost use Rattle.end_rules.specs.State.{holds_turn};
    ghost use Rattle.end_rules.specs.History.{History, gave, broke};
    ghost use Rattle.association_line.specs.Line.{new_end};
    ghost use Rattle.association_line.specs.association_reading.Transfers.{association_spellings};
    ghost use Rattle.association_end.specs.View.{EndView, Stepped, StandsFor};

    /// An end of direct or reliable mode with these tables and this configuration. Refused is what
    /// `check_config` refuses, and want of memory.
    pub fn new(alloc: Global, tables: &'t Tables, config: Config) -> Result<End<'t>, ConfigRefusal>
        requires associated { is_bare config.mode ≡ false }
        ensures made { IfOk result (λ end. end ≡ record {
          tables = tables.entry.now;
          config = config;
          end = new_end (base_of tables.entry.now config (association_spellings tables.entry.now));
        }) }
        ensures history { IfOk result (λ end. StandsFor end []) }
        ensures accepted { OnOk result (config_refusal config ≡ None) }
        ensures refused { IfErr result (λ refusal. (refusal ≢ config_refusals.NoMemory) →
            config_refusal config ≡ Some refusal) }
    {
        check_config(alloc, &config)?;
        match End::with(alloc, tables, config) {
            Ok(end) => Ok(end),
            Err(NoMemory) => Err(ConfigRefusal::NoMemory),
        }
    }

    /// An end with a configuration that no end refuses.
    fn with(alloc: Global, tables: &'t Tables, config: Config) -> Result<End<'t>, NoMemory>
        requires associated { is_bare config.mode ≡ false }
        requires accepted { config_refusal config ≡ None }
        ensures { IfOk result (λ end. end ≡ record {
          tables = tables.entry.now;
          config = config;
          end = new_end (base_of tables.entry.now config (association_spellings tables.entry.now));
        }) }
    {
        let size = first_size(config.initiator);
        let codecs = Codecs::new(alloc)?;
        let heads = Heads::new(alloc)?;
        let basis = Basis {
            alloc,
            tables,
            config,
            heads,
        };
        let body = Body::new(&basis)?;
        Ok(End {
            basis,
            codecs,
            body,
            waiting: OctetQueue::new(alloc),
            intake: Some(Intake::new(alloc)),
            size,
        })
    }

    /// The phase of the end.
    pub fn phase(&self) -> Phase
        ensures { result ≡ self.now.end.body.link.phase }
    {
        self.body.link.phase
    }

    /// Whether the end holds the turn.
    pub fn holds_turn(&self) -> bool
        ensures { result ≡ holds_turn self.now.end.body }
    {
        self.body.link.turn && is_up(self.body.link.phase) && !self.body.link.awaits.is_restarting()
    }

    /// How the end was set up.
    pub fn config(&self) -> &Config
        ensures { result.now ≡ self.now.config }
    {
        &self.basis.config
    }

    /// The end's tables.
    pub fn tables(&self) -> &'t Tables
        ensures { result.now ≡ self.now.tables }
    {
        self.basis.tables
    }

    /// Moves the octets that wait to the front of the room, in their order and as many as fit, and
    /// answers how many.
    pub fn give_out(&mut self, out: &mut [u8]) -> usize
        ensures count { result ≡ min (length out.old) (length self.old.end.line.waiting) }
        ensures given { out.new ≡ take result self.old.end.line.waiting ++ drop result out.old }
        ensures end { self.new ≡ record self.old {
          end = record self.old.end {
            line = record
                self.old.end.line { waiting = drop result self.old.end.line.waiting };
          };
        } }
        ensures steps { Stepped self.old self.new (gave result ∷ []) }
        ensures history { (h : History) → StandsFor self.old h →
            StandsFor self.new (gave result ∷ h) }
    {
        let count = copy_front(self.waiting.as_slice(), out);
        self.waiting.skip(count);
        count
    }

    /// The connection broke: what waits in either direction is lost. An end of reliable mode whose
    /// association was open is then broken and may be recovered. In direct mode the association has
    /// ended, and its open invocations are cut without an indication. An opening is over in either
    /// mode.
    pub fn broke(&mut self)
        ensures steps { Stepped self.old self.new (broke ∷ []) }
        ensures history { (h : History) → StandsFor self.old h → StandsFor self.new (broke ∷ h) }
    {
        connection_broke(&self.basis, &mut self.body);
        self.waiting.clear();
        self.intake = Some(Intake::new(self.basis.alloc));
        self.size = first_size(self.basis.config.initiator);
    }
}
