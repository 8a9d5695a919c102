//! Lists of indications.

ghost use Rattle.std.specs.Prelude.{◌≡◌, ◌++◌, IfOk, OnOk, [], ◌∷◌, map};
ghost use Rattle.dialogue.specs.declared.indication.Indication.TheVariants as indications;
ghost use Rattle.end_rules.specs.Sets.{Alteration as rule_alteration};
ghost use Rattle.end_rules.specs.Faults.{cuts, losses};
ghost use Rattle.association_sends.specs.association_words.Seen.{seen_message};
ghost use Rattle.association_calls.specs.association_state.Seen.{seen};
ghost use Rattle.association_answers.specs.BroughtAs.{TakenAs};

use crate::brought::{Brought, one_message};
use association_calls::association_state_layer::Body;
use association_calls::open_invocations_layer::tell_cuts;
use association_sends::association_words_layer::Message;
use association_sets::Alteration;
use dialogue::{Indication, Indications};
use osi_base::{ListOf, NoMemory};
use std::alloc::Global;

/// One indication alone.
pub fn one_indication(alloc: Global, indication: Indication) -> Result<Indications, NoMemory>
    ensures { IfOk result (λ shown. shown ≡ indication ∷ []) }
{
    let mut shown = ListOf::new(alloc);
    shown.push(indication)?;
    Ok(shown)
}

/// One answer, and nothing that is shown.
pub fn with_answer(alloc: Global, message: Message) -> Result<Brought, NoMemory>
    ensures { IfOk result (TakenAs (seen_message message ∷ []) []) }
{
    Ok(Brought {
        answers: one_message(alloc, message)?,
        shown: ListOf::new(alloc),
    })
}

/// One indication, and no answer.
pub fn with_indication(alloc: Global, indication: Indication) -> Result<Brought, NoMemory>
    ensures { IfOk result (TakenAs [] (indication ∷ [])) }
{
    Ok(Brought {
        answers: ListOf::new(alloc),
        shown: one_indication(alloc, indication)?,
    })
}

/// No answer, and nothing that is shown.
pub fn with_nothing(alloc: Global) -> Brought
    ensures { TakenAs [] [] result }
{
    Brought {
        answers: ListOf::new(alloc),
        shown: ListOf::new(alloc),
    }
}

/// Tells that the open invocations are cut, children before their parents.
pub fn push_cuts(alloc: Global, body: &Body, shown: &mut Indications) -> Result<(), NoMemory>
    ensures { OnOk result (shown.new ≡ shown.old ++ cuts (seen body.now)) }
{
    let opens = body.calls.open_calls()?;
    tell_cuts(alloc, opens.as_slice(), shown)
}

/// Tells for each own alteration that it wasn't answered.
fn push_lost(own: &[Alteration], shown: &mut Indications) -> Result<(), NoMemory>
    ensures { OnOk result (shown.new ≡ shown.old
        ++ map (λ (a : rule_alteration). indications.AlterLost) own.now) }
{
    for _alteration in own {
        shown.push(Indication::AlterLost)?;
    }
    Ok(())
}

/// Tells for each own alteration that it wasn't answered.
pub fn push_losses(body: &Body, shown: &mut Indications) -> Result<(), NoMemory>
    ensures { OnOk result (shown.new ≡ shown.old ++ losses (seen body.now)) }
{
    push_lost(&body.sets.own, shown)
}
