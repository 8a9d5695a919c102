//! What an end does with what stands first.

ghost use Rattle.std.specs.Prelude.{◌≡◌, IfOk, OnErr, MatchResult, false, true};
ghost use Rattle.osi_base.specs.Limits.{IsUnitSize};
ghost use Rattle.end_rules.specs.State.{passes_over};
ghost use Rattle.association_meaning.specs.association_intake.Seen.{seen_front, IsPlaced, TakesFirst};
ghost use Rattle.association_end.specs.Progress.{Keeps};
ghost use Rattle.association_end.specs.OneMessage.{TookFirst, ReactedTo, ReactionDone, size_of_front};
ghost use Rattle.association_end.specs.Seen.{came_in};
ghost use Rattle.association_end.specs.Sound.{IsMessage, HasMessages};
ghost use Rattle.association_line.specs.Line as line;

use crate::dt_sizes::{first_size, size_with};
use crate::end::End;
use crate::reading::react_to;
use association_ground::passes_over;
use association_line::reactions_are_steps;
use association_meaning::association_intake_layer::{Front, Intake};
use association_reacting::association_answers_layer::Reaction;
use dialogue::Indications;
use osi_base::NoMemory;

/// Takes off what stands first in what came, where it is looked at.
fn next_front(intake: &mut Option<Intake>) -> Front
    ensures takes { TakesFirst (came_in intake.old) result (came_in intake.new) }
    ensures placed { IsPlaced result }
{
    match intake {
        None => Front::Short,
        Some(intake) => intake.take(),
    }
}

impl<'t> End<'t> {
    /// Whether what comes is passed over.
    pub(crate) fn is_over(&self) -> bool
        ensures { result ≡ passes_over self.now.end.body.link.phase }
    {
        passes_over(self.body.link.phase)
    }

    /// Takes off what stands first in what came.
    pub(crate) fn take_front(&mut self) -> Front
        requires up { passes_over self.old.end.body.link.phase ≡ false }
        ensures took { TookFirst self.old self.new result }
        ensures placed { IsPlaced result }
        ensures messages { HasMessages self.old.end.line.came }
    {
        next_front(&mut self.intake)
    }

    /// The size once what stands first is taken.
    fn size_with(&self, front: &Front) -> u32
        ensures is { result ≡ size_of_front (line.first_size self.now.config.initiator)
            self.now.end.line.size (seen_front front.now) }
        ensures sized { IsUnitSize result }
    {
        size_with(first_size(self.basis.config.initiator), self.size, front)
    }

    /// Reacts to what stands first.
    fn react(&mut self, front: Front) -> Result<Reaction, NoMemory>
        requires up { passes_over self.old.end.body.link.phase ≡ false }
        requires placed { IsPlaced front }
        requires whole { IsMessage (seen_front front) }
        ensures ok { IfOk result (ReactedTo self.old self.new (seen_front front)) }
        ensures err { OnErr result (Keeps self.old self.new) }
    {
        react_to(&self.basis, &self.codecs, &mut self.body, front)
    }

    /// Does what is to be done with what stood first and was taken off, and answers whether more
    /// may follow.
    pub(crate) fn react_to_next(
        &mut self,
        front: Front,
        shown: &mut Indications,
    ) -> Result<bool, NoMemory>
        requires up { passes_over self.old.end.body.link.phase ≡ false }
        requires placed { IsPlaced front }
        requires whole { IsMessage (seen_front front) }
        ensures { MatchResult result (ReactionDone self.old self.new (seen_front front) shown.old
            shown.new) (λ _. Keeps self.old self.new) }
    {
        reactions_are_steps();
        let size = self.size_with(&front);
        let reaction = self.react(front)?;
        self.settle(reaction, size, shown)
    }
}
