//! Openings, refusals, releases and aborts (X.225 7.1 to 7.9, X.226 6.1, 6.4, X.227 7).

ghost use Rattle.std.specs.Prelude.{◌≡◌, ◌++◌, not, IfOk, OnOk, None, option_map, [], ◌∷◌};
ghost use Rattle.dialogue.specs.declared.indication.Indication.TheVariants as indications;
ghost use Rattle.end_rules.specs.Faults.{acse_fault, fault_if, cuts, over};
ghost use Rattle.end_rules.specs.Connecting.{connect_fault};
ghost use Rattle.end_rules.specs.Writing.{disconnect_message};
ghost use Rattle.end_rules.specs.State.{awaiting, NoAnswer};
ghost use Rattle.end_rules.specs.TakesAssociation.{association_fault, contexts_for, after_association, answers_to_association, shown_of_association, aborted_by_peer};
ghost use Rattle.association_words.specs.Seen.{seen_fault, seen_values, seen_association};
ghost use Rattle.association_answers.specs.association_state.Seen.{base_in, seen};
ghost use Rattle.association_answers.specs.BroughtAs.{TakenAs};

use crate::associated::{is_release_request, is_release_response};
use crate::connect_faults::connect_fault;
use crate::taking_accept::{accept_fault, take_accept};
use crate::taking_connect::take_connect;
use association_answers::association_sends_layer::disconnect_message;
use association_answers::association_state_layer::{Awaited, Basis, Body};
use association_answers::{Brought, end_association, one_message, push_cuts, with_indication};
use association_sets::copy_set;
use association_words::{AssociationWord, Fault, Value};
use dialogue::{Indication, Indications, Phase};
use osi_base::{Layer, ListOf, NoMemory, PresentationConnect, SetList};
use set_rules::set_for;

/// What may not stand in a CN.
fn connect_fault_in(
    basis: &Basis<'_>,
    presentation: &PresentationConnect,
    values: &[Value],
) -> Result<Option<Fault>, NoMemory>
    ensures { IfOk result (λ fault. option_map seen_fault fault ≡ connect_fault (base_in basis.now)
        presentation.now (seen_values values.now)) }
{
    let set = set_for(basis.alloc, basis.tables, &basis.config, presentation)?;
    Ok(connect_fault(basis, set.as_slice(), presentation, values))
}

/// A fault of association control unless this is so.
fn acse_fault_unless(basis: &Basis<'_>, so: bool) -> Option<Fault>
    ensures { option_map seen_fault result ≡ fault_if (not so) acse_fault }
{
    if so {
        None
    } else {
        Some(Fault::at(basis.alloc, Layer::Acse, 0, 0))
    }
}

/// Why a unit of the association may not be taken.
pub fn association_fault(
    basis: &Basis<'_>,
    body: &Body,
    word: &AssociationWord,
) -> Result<Option<Fault>, NoMemory>
    ensures { IfOk result (λ fault. option_map seen_fault fault ≡ association_fault (base_in
        basis.now) (seen body.now) (seen_association word.now)) }
{
    let _body = body;
    match word {
        AssociationWord::Connect {
            session: _,
            presentation,
            values,
        } => connect_fault_in(basis, presentation, values.as_slice()),
        AssociationWord::Accept {
            session: _,
            presentation,
            values,
        } => accept_fault(basis, presentation, values.as_slice()),
        AssociationWord::Finish {
            transport: _,
            values,
        } => Ok(acse_fault_unless(basis, is_release_request(values.as_slice()))),
        AssociationWord::Disconnect { values } => Ok(acse_fault_unless(
            basis,
            is_release_response(values.as_slice()),
        )),
        AssociationWord::Refuse { .. } => Ok(None),
        AssociationWord::Abort { .. } => Ok(None),
        AssociationWord::AbortAccept => Ok(None),
    }
}

/// The contexts on which an abort for a unit would go: those of a CN are answered as it comes.
pub fn contexts_for(
    basis: &Basis<'_>,
    body: &Body,
    word: &AssociationWord,
) -> Result<SetList, NoMemory>
    ensures { IfOk result (λ set. set ≡ contexts_for (base_in basis.now) (seen body.now)
        (seen_association word.now)) }
{
    match word {
        AssociationWord::Connect { presentation, .. } => {
            set_for(basis.alloc, basis.tables, &basis.config, presentation)
        }
        AssociationWord::Accept { .. } => own_contexts(basis, body),
        AssociationWord::Refuse { .. } => own_contexts(basis, body),
        AssociationWord::Finish { .. } => own_contexts(basis, body),
        AssociationWord::Disconnect { .. } => own_contexts(basis, body),
        AssociationWord::Abort { .. } => own_contexts(basis, body),
        AssociationWord::AbortAccept => own_contexts(basis, body),
    }
}

/// The contexts that were accepted.
fn own_contexts(basis: &Basis<'_>, body: &Body) -> Result<SetList, NoMemory>
    ensures { IfOk result (λ set. set ≡ (seen body.now).link.accepted) }
{
    copy_set(basis.alloc, body.link.accepted.as_slice())
}

/// What is shown as the association ends: the cuts, and then this.
fn shown_end(basis: &Basis<'_>, body: &Body, last: Indication) -> Result<Indications, NoMemory>
    ensures { IfOk result (λ shown. shown ≡ cuts (seen body.now) ++ last ∷ []) }
{
    let mut shown: Indications = ListOf::new(basis.alloc);
    let Ok(()) = push_cuts(basis.alloc, body, &mut shown) else {
        drop(last);
        return Err(NoMemory);
    };
    shown.push(last)?;
    Ok(shown)
}

/// The association ends without an answer, and this is shown.
fn end_quietly(basis: &Basis<'_>, body: &mut Body, last: Indication) -> Result<Brought, NoMemory>
    ensures body { OnOk result (seen body.new ≡ over (seen body.old)) }
    ensures taken { IfOk result (TakenAs [] (cuts (seen body.old) ++ last ∷ [])) }
{
    let shown = shown_end(basis, body, last)?;
    end_association(body);
    Ok(Brought {
        answers: ListOf::new(basis.alloc),
        shown,
    })
}

/// Takes FN.
fn take_finish(basis: &Basis<'_>, body: &mut Body) -> Result<Brought, NoMemory>
    ensures body { OnOk result (seen body.new ≡ over (seen body.old)) }
    ensures taken { IfOk result (TakenAs (disconnect_message (seen body.old) ∷ []) (cuts (seen
        body.old) ++ indications.Released ∷ [])) }
{
    let message = disconnect_message(basis.alloc, body)?;
    let answers = one_message(basis.alloc, message)?;
    let shown = shown_end(basis, body, Indication::Released)?;
    end_association(body);
    Ok(Brought { answers, shown })
}

/// Takes DN.
fn take_disconnect(basis: &Basis<'_>, body: &mut Body) -> Result<Brought, NoMemory>
    ensures body { OnOk result (seen body.new ≡ awaiting NoAnswer (over (seen body.old))) }
    ensures taken { IfOk result (TakenAs [] (cuts (seen body.old) ++ indications.Released ∷ [])) }
{
    let taken = end_quietly(basis, body, Indication::Released)?;
    body.link.awaits = Awaited::NoAnswer;
    Ok(taken)
}

/// What is told of an abort of the peer.
fn aborted_by_peer() -> Indication
    ensures { result ≡ aborted_by_peer }
{
    Indication::Aborted {
        own: false,
        layer: Layer::Session,
        place: 0,
        reason: 0,
    }
}

/// Takes a unit of the association, in which nothing is faulty.
pub fn take_association(
    basis: &Basis<'_>,
    body: &mut Body,
    word: AssociationWord,
) -> Result<Brought, NoMemory>
    requires { association_fault (base_in basis.now) (seen body.old) (seen_association word)
        ≡ None }
    ensures body { OnOk result (seen body.new ≡ after_association (base_in basis.now) (seen
        body.old) (seen_association word)) }
    ensures taken { IfOk result (TakenAs (answers_to_association (base_in basis.now) (seen body.old)
        (seen_association word)) (shown_of_association (base_in basis.now) (seen body.old)
        (seen_association word))) }
{
    let taken = match &word {
        AssociationWord::Connect {
            session,
            presentation,
            values,
        } => take_connect(basis, body, session, presentation, values.as_slice()),
        AssociationWord::Accept {
            session,
            presentation,
            values,
        } => take_accept(basis, body, session, presentation, values.as_slice()),
        AssociationWord::Refuse {
            transport: _,
            reason: _,
            presentation: _,
            values: _,
        } => {
            body.link.phase = Phase::Over;
            with_indication(basis.alloc, Indication::AssociationRefused)
        }
        AssociationWord::Finish {
            transport: _,
            values: _,
        } => take_finish(basis, body),
        AssociationWord::Disconnect { values: _ } => take_disconnect(basis, body),
        AssociationWord::Abort {
            transport: _,
            user: _,
        } => end_quietly(basis, body, aborted_by_peer()),
        AssociationWord::AbortAccept => end_quietly(basis, body, aborted_by_peer()),
    };
    drop(word);
    taken
}
