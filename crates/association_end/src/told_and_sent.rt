//! What an end tells and sends for a message.

ghost use Rattle.std.specs.Prelude.{◌≡◌, ◌++◌, true, List, OnOk, OnErr, MatchResult, Some, None};
ghost use Rattle.osi_base.specs.Limits.{IsUnitSize};
ghost use Rattle.dialogue.specs.declared.indication.Indication.{Indication};
ghost use Rattle.end_rules.specs.State.{passes_over};
ghost use Rattle.association_reacting.specs.association_answers.BroughtAs.{seen_messages};
ghost use Rattle.association_end.specs.Progress.{Keeps};
ghost use Rattle.association_end.specs.OneMessage.{AllMayStand, sent_for, IsOverFor, SettlesFor, Settles, sending, with_line, with_came};

use crate::end::End;
use association_reacting::association_answers_layer::{Brought, Messages, Reaction};
use dialogue::Indications;
use osi_base::NoMemory;

/// Puts indications behind the others.
fn show(shown: &mut Indications, told: Indications) -> Result<(), NoMemory>
    ensures { OnOk result (shown.new ≡ shown.old ++ told) }
{
    for indication in told.into_vec() {
        shown.push(indication)?;
    }
    Ok(())
}

impl<'t> End<'t> {
    /// Answers a message that is taken.
    fn answer(&mut self, taken: Brought, size: u32, shown: &mut Indications) -> Result<(), NoMemory>
        requires sized { IsUnitSize size }
        requires room { AllMayStand (seen_messages taken.answers) }
        ensures ok { OnOk result (Settles self.old self.new (sending (seen_messages taken.answers)
            (with_line (record self.old.end.line { size = size }) self.old)) shown.old shown.new
            taken.shown) }
        ensures err { OnErr result (Keeps self.old self.new) }
    {
        let Brought {
            answers,
            shown: told,
        } = taken;
        show(shown, told)?;
        self.size = size;
        self.send_all(answers.as_slice())
    }

    /// Sends an abort; nothing that comes is looked at any more.
    fn abort(
        &mut self,
        aborts: Messages,
        told: Indications,
        shown: &mut Indications,
    ) -> Result<(), NoMemory>
        requires room { AllMayStand (seen_messages aborts) }
        requires over { passes_over self.old.end.body.link.phase ≡ true }
        ensures ok { OnOk result (Settles self.old self.new (with_came None (sending
            (seen_messages aborts) self.old)) shown.old shown.new told) }
        ensures err { OnErr result (Keeps self.old self.new) }
    {
        show(shown, told)?;
        self.send_all(aborts.as_slice())?;
        self.intake = None;
        Ok(())
    }

    /// Tells and sends what a message leads to, and answers whether more may follow. Answers go in
    /// the size that the message names.
    pub(crate) fn settle(
        &mut self,
        reaction: Reaction,
        size: u32,
        shown: &mut Indications,
    ) -> Result<bool, NoMemory>
        requires sized { IsUnitSize size }
        requires room { AllMayStand (sent_for reaction) }
        requires over { IsOverFor reaction self.old }
        ensures { MatchResult result (λ more. SettlesFor reaction size self.old self.new shown.old
            shown.new more) (λ _. Keeps self.old self.new) }
    {
        match reaction {
            Reaction::Passes => Ok(true),
            Reaction::Takes(taken) => {
                self.answer(taken, size, shown)?;
                Ok(true)
            }
            Reaction::Fails {
                fault: _,
                aborts,
                shown: told,
            } => {
                self.abort(aborts, told, shown)?;
                Ok(false)
            }
        }
    }
}
