//! The laws of alterations: each but the last is the contract of a function that does nothing.

ghost use Rattle.std.specs.Prelude.{◌≡◌, not, [], None, IsOk, OnOk, OnErr, MatchResult};
ghost use Rattle.context_sets.specs.Alterations.{altered};
ghost use Rattle.context_sets.specs.HeldSets.{oldest, later};
ghost use Rattle.context_sets.specs.Policy.{peer_fault, IsFault};
ghost use Rattle.context_sets.specs.Results.{mismatch};
ghost use Rattle.context_sets.specs.Laws.{CrossingAgrees, AnswersFit, AgreeAgain, Settles};

use crate::alteration::Alteration;
use crate::contexts::Contexts;
use crate::fault::SetFault;
use crate::rules::Rules;
use osi_base::{Answers, Ids};

/// Two alterations that cross lead to one set, whichever is settled first.
pub fn crossing_agrees()
    ensures { CrossingAgrees }
{}

/// What the policy answers fits what was asked: the end that asked finds no fault in it, and its
/// set then changes as that of the end that answered.
pub fn answers_fit()
    ensures { AnswersFit }
{}

/// Two sets that agreed agree again after an answer and its confirmation.
pub fn agree_again()
    ensures { AgreeAgain }
{}

/// Takes answers that fit what was asked for longest.
fn confirm_fitting(asking: &mut Contexts, answers: &Answers)
    requires { mismatch (oldest asking.old.own) answers.now ≡ None }
    ensures set { asking.new.set ≡ altered (oldest asking.old.own) answers.now asking.old.set }
    ensures own { asking.new.own ≡ later asking.old.own }
{
    // Answers that fit are taken, so this can't fail.
    let _ = asking.confirm(answers);
}

/// Has one end answer what the other asked for longest, while these identifiers are in use at the
/// end that answers, and hands the answers back. Two sets that agreed agree again. A fault is the
/// first of what was asked, or want of memory; after it neither set has changed.
#[tactic(auto, using(crate::proofs::Fitting::answers_fit))]
pub fn settle_between(
    asking: &mut Contexts,
    answering: &mut Contexts,
    asked: &Alteration,
    used: &Ids,
    rules: &Rules,
) -> Result<(), SetFault>
    requires { oldest asking.old.own ≡ asked.now }
    ensures faulty { let first = peer_fault (not answering.old.initiator) answering.old.set []
        asked.now.added in MatchResult result (λ _. first ≡ None) (IsFault first) }
    ensures settles { OnOk result (Settles rules.now used.now asking.old asking.new answering.old
        answering.new) }
    ensures agree { OnOk result (asking.old.set ≡ answering.old.set →
        asking.new.set ≡ answering.new.set) }
    ensures settled { OnOk result (asking.new.own ≡ later asking.old.own) }
    ensures err { OnErr result (asking.new ≡ asking.old) }
    ensures err_answering { OnErr result (answering.new.set ≡ answering.old.set) }
{
    let answers = answering.answer(&asked.added, &asked.deleted, used, rules)?;
    confirm_fitting(asking, &answers);
    Ok(())
}
