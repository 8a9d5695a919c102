//! What an end does with octets that come.

ghost use Rattle.std.specs.Prelude.{◌≡◌, ℕ, List, [], ◌∷◌, None, true, false, OnOk, OnErr, MatchBool, MatchResult, option_map};
ghost use Rattle.end_rules.specs.State.{passes_over};
ghost use Rattle.end_rules.specs.History.{fed};
ghost use Rattle.association_meaning.specs.association_intake.Seen.{seen_front};
ghost use Rattle.association_line.specs.association_reading.Front as fronts;
ghost use Rattle.association_end.specs.View.{EndView, Stepped};
ghost use Rattle.association_end.specs.Seen.{came_in};
ghost use Rattle.association_end.specs.Sound.{IsMessage};
ghost use Rattle.association_end.specs.Fed.{Fed, BeganFeed, DiedFed};
ghost use Rattle.association_end.specs.Progress.{Keeps, ReadOneOrAll, ReadAll, BeganReading};

use crate::end::End;
use association_ground::passes_over;
use association_line::reactions_are_steps;
use association_meaning::association_intake_layer::{Front, Intake};
use dialogue::{Indications, Phase};
use osi_base::{ListOf, NoMemory};

/// Whether it is less than a message.
fn is_short(front: &Front) -> bool
    ensures { MatchBool result (seen_front front.now ≡ fronts.Short) (IsMessage (seen_front
        front.now)) }
{
    match front {
        Front::Short => true,
        Front::OfTransport(_) => false,
        Front::OfSession { .. } => false,
        Front::Faulty { .. } => false,
    }
}

/// Puts octets behind what came, where it is looked at.
fn feed_in(intake: &mut Option<Intake>, octets: &[u8]) -> Result<(), NoMemory>
    ensures ok { OnOk result (came_in intake.new ≡ option_map (fronts.with_octets octets.now)
        (came_in intake.old)) }
    ensures err { OnErr result (came_in intake.new ≡ None) }
{
    match intake {
        None => Ok(()),
        Some(intake) => intake.feed(octets),
    }
}

impl<'t> End<'t> {
    /// Reads what stands first, and answers whether more may follow.
    fn read_next(&mut self, shown: &mut Indications) -> Result<bool, NoMemory>
        requires { passes_over self.old.end.body.link.phase ≡ false }
        ensures { MatchResult result (λ more. ReadOneOrAll more self.old self.new shown.old
            shown.new) (λ _. Keeps self.old self.new) }
    {
        reactions_are_steps();
        let front = self.take_front();
        if is_short(&front) {
            drop(front);
            return Ok(false);
        }
        self.react_to_next(front, shown)
    }

    /// Reads what came, message by message.
    fn read_all(&mut self, shown: &mut Indications) -> Result<(), NoMemory>
        ensures ok { OnOk result (ReadAll self.old self.new shown.old shown.new) }
        ensures err { OnErr result (BeganReading self.old self.new) }
    {
        'reading: loop {
            if self.is_over() {
                return Ok(());
            }
            let more = self.read_next(shown)?;
            if !more {
                return Ok(());
            }
        }
    }

    /// Keeps what came, unless what comes is passed over. An end that can't is dead.
    fn keep(&mut self, octets: &[u8]) -> Result<(), NoMemory>
        ensures ok { OnOk result (Stepped self.old self.new (fed octets.now ∷ [])) }
        ensures err { OnErr result (Keeps self.old self.new) }
    {
        if passes_over(self.body.link.phase) {
            self.intake = None;
            return Ok(());
        }
        match feed_in(&mut self.intake, octets) {
            Ok(()) => Ok(()),
            Err(error) => {
                self.body.link.phase = Phase::Dead;
                Err(error)
            }
        }
    }

    /// No indications.
    fn nothing_shown(&self) -> Indications
        ensures { result ≡ [] }
    {
        ListOf::new(self.basis.alloc)
    }

    /// Takes octets, unless memory is refused.
    fn feed_now(&mut self, octets: &[u8]) -> Result<Indications, NoMemory>
        ensures { MatchResult result (λ shown. Fed self.old self.new octets.now shown)
            (λ _. BeganFeed self.old self.new octets.now) }
    {
        let mut shown = self.nothing_shown();
        self.keep(octets)?;
        self.read_all(&mut shown)?;
        self.do_own_acts()?;
        Ok(shown)
    }

    /// Takes octets that came, however they are cut, and answers the indications of all messages
    /// that became whole with them; then the end sends all that it sends by itself. After want of
    /// memory the end is dead, and what waits is what waited and whole messages, a beginning of
    /// those that were due.
    pub fn feed(&mut self, octets: &[u8]) -> Result<Indications, NoMemory>
        ensures { MatchResult result (λ shown. Fed self.old self.new octets.now shown)
            (λ _. DiedFed self.old self.new octets.now) }
    {
        match self.feed_now(octets) {
            Ok(shown) => Ok(shown),
            Err(error) => {
                self.body.link.phase = Phase::Dead;
                Err(error)
            }
        }
    }
}
