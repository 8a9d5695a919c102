//! What is said of session units and of what they carry.

ghost use Rattle.std.specs.Prelude.{◌≡◌, ◌∷◌, [], IfOk, OnOk};
ghost use Rattle.presentation_pdus.specs.Units.{ppdu_at};
ghost use Rattle.trace_values.specs.Values.{Puts};
ghost use Rattle.trace_units.specs.Units.{IsUnitText, UnitSaid, WordSaid, WasPut, OneSaid};
ghost use Rattle.trace_units.specs.Units.{ClosedSaid, TwoSaid, WordsSaid, IsOneOrTwo, TsduSaid};

use crate::names::{ppdu_name, spdu_name};
use crate::said_text::{Said, fault_text};
use crate::units::{carried, on, place_in, values_of};
use apdu_codec::Heads;
use osi_base::{NoMemory, Octets, PresentationWord, SessionWord};
use presentation_pdus::{PpduFault, PpduPlace, PpduTable};
use spdu_codec::{SFault, UserPlaces, read_spdus, user_places};
use std::alloc::Global;
use stub_tables::Tables;
use trace_values::{put_pdvs, split_first};
use value_text::Text;

/// What a trace knows as it reads messages: the tables of a module, whose names it tells, and those
/// of the upper layers' units.
#[derive(Drop)]
pub struct Viewer<'t> {
    /// The allocator with which texts are made.
    pub alloc: Global,
    /// The tables of the module.
    pub tables: &'t Tables,
    heads: Heads,
    ppdus: PpduTable,
}

impl<'t> Viewer<'t> {
    /// A viewer that tells the names of this module.
    ///
    /// # Errors
    ///
    /// Where memory is refused.
    pub fn new(alloc: Global, tables: &'t Tables) -> Result<Viewer<'t>, NoMemory>
        ensures { IfOk result (λ viewer. viewer.tables.now ≡ tables.entry.now) }
    {
        Ok(Viewer {
            alloc,
            tables,
            heads: Heads::new(alloc)?,
            ppdus: PpduTable::new(alloc)?,
        })
    }

    #[tactic(auto, using(crate::proofs::SaidLaws::unit_put))]
    fn put_unit(&self, text: &mut Text, unit: &PresentationWord) -> Result<(), NoMemory>
        ensures { OnOk result (Puts (IsUnitText self.now.tables.now unit.now) text.old text.new) }
    {
        text.put(ppdu_name(unit))?;
        put_pdvs(self.alloc, &self.heads, self.tables, text, values_of(unit))?;
        Ok(())
    }

    /// Puts what is said of user data that begin at this place behind the text, or gives their
    /// fault.
    #[tactic(auto, using(crate::proofs::SaidLaws::put_ok, crate::proofs::SaidLaws::put_err))]
    fn put_octets(
        &self,
        text: &mut Text,
        carrier: PpduPlace,
        octets: &Octets,
        start: usize,
    ) -> Result<Option<Octets>, NoMemory>
        ensures { IfOk result (WasPut (UnitSaid self.now.tables.now start (ppdu_at carrier
            octets.now)) text.old text.new) }
    {
        match self.ppdus.read(self.alloc, carrier, octets.as_slice()) {
            Ok(unit) => {
                self.put_unit(text, &unit)?;
                Ok(None)
            }
            Err(
                PpduFault::At {
                    place,
                    kind,
                    reason: _,
                },
            ) => {
                let fault = fault_text(self.alloc, "presentation", on(start, place), kind)?;
                Ok(Some(fault))
            }
            Err(PpduFault::NoMemory) => Err(NoMemory),
        }
    }

    /// Puts what is said of what a session unit carries behind the text, or gives its fault.
    #[tactic(auto, using(crate::proofs::SaidLaws::none_said, crate::proofs::SaidLaws::some_said))]
    fn put_carried(
        &self,
        text: &mut Text,
        word: &SessionWord,
        place: Option<usize>,
    ) -> Result<Option<Octets>, NoMemory>
        ensures { IfOk result (WasPut (WordSaid self.now.tables.now word.now place) text.old
            text.new) }
    {
        match carried(word) {
            None => Ok(None),
            Some((carrier, octets)) => {
                let fault = self.put_octets(text, carrier, octets, place_in(place))?;
                Ok(fault)
            }
        }
    }

    /// What is said of a unit alone.
    #[tactic(auto, using(crate::proofs::SaidLaws::one_line, crate::proofs::SaidLaws::one_fault))]
    fn one_said(&self, word: &SessionWord, place: Option<usize>) -> Result<Said, NoMemory>
        ensures { IfOk result (OneSaid self.now.tables.now word.now place) }
    {
        let mut text = Text::new(self.alloc);
        text.put(spdu_name(word))?;
        let fault = self.put_carried(&mut text, word, place)?;
        match fault {
            Some(fault) => Ok(Said::Fault(fault)),
            None => Ok(Said::Line(text.into_octets())),
        }
    }

    /// What is said of the second unit, where this was said of the first.
    #[tactic(auto, using(crate::proofs::SaidLaws::second_line, crate::proofs::SaidLaws::second_fault))]
    fn second_said(
        &self,
        text: Text,
        word: &SessionWord,
        place: Option<usize>,
    ) -> Result<Said, NoMemory>
        ensures { IfOk result (ClosedSaid self.now.tables.now text word.now place) }
    {
        let mut text = text;
        let fault = self.put_carried(&mut text, word, place)?;
        match fault {
            Some(fault) => Ok(Said::Fault(fault)),
            None => Ok(Said::Line(text.into_octets())),
        }
    }

    /// What is said of a first unit and the second behind it.
    #[tactic(auto, using(crate::proofs::SaidLaws::two_behind, crate::proofs::SaidLaws::two_fault))]
    fn two_said(
        &self,
        first: &SessionWord,
        second: &SessionWord,
        places: UserPlaces,
    ) -> Result<Said, NoMemory>
        ensures { IfOk result (TwoSaid self.now.tables.now first.now second.now places) }
    {
        let mut text = Text::new(self.alloc);
        text.put(spdu_name(first))?;
        text.put("+")?;
        text.put(spdu_name(second))?;
        let fault = self.put_carried(&mut text, first, places.first)?;
        match fault {
            Some(fault) => Ok(Said::Fault(fault)),
            None => self.second_said(text, second, places.second),
        }
    }

    fn words_said(&self, words: &[SessionWord], places: UserPlaces) -> Result<Said, NoMemory>
        requires { IsOneOrTwo words.now }
        ensures { IfOk result (WordsSaid self.now.tables.now words.now places) }
    {
        let Some((first, rest)) = split_first(words) else {
            unreachable!()
        };
        match split_first(rest) {
            None => self.one_said(first, places.first),
            Some((second, _)) => self.two_said(first, second, places),
        }
    }

    /// What is said of a TSDU: its session units with what they carry, or the first fault. Linear
    /// in the octets.
    ///
    /// # Errors
    ///
    /// `NoMemory`.
    #[tactic(auto, using(crate::proofs::SaidLaws::one_or_two, crate::proofs::SaidLaws::read_ok, crate::proofs::SaidLaws::read_err))]
    pub fn tsdu_said(&self, tsdu: &[u8]) -> Result<Said, NoMemory>
        ensures { IfOk result (TsduSaid self.now.tables.now tsdu.now) }
    {
        match read_spdus(self.alloc, tsdu) {
            Ok(words) => {
                let said = self.words_said(words.as_slice(), user_places(tsdu))?;
                Ok(said)
            }
            Err(SFault::At { place, kind }) => {
                let fault = fault_text(self.alloc, "session", place as u64, kind)?;
                Ok(Said::Fault(fault))
            }
            Err(SFault::NoMemory) => Err(NoMemory),
        }
    }
}
