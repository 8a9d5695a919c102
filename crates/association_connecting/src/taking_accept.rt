//! How an AC is taken: what may not stand in it, what is shown, and what the end stands on then.

ghost use Rattle.std.specs.Prelude.{◌≡◌, ◌&&◌, ◌||◌, not, IfOk, OnOk, option_map, []};
ghost use Rattle.end_rules.specs.Base.{is_reliable};
ghost use Rattle.end_rules.specs.Units.{selected_with, manages_with};
ghost use Rattle.association_connecting.specs.Agreed.{seen_agreed};
ghost use Rattle.association_connecting.specs.Accepted.{values_fault, accepted_fault};
ghost use Rattle.std.specs.Option.{option_copied};
ghost use Rattle.end_rules.specs.Connecting.{the_one, user_of, rtse_in, information_fault, is_open_accept, lacks_accept, has_acse, has_rtse, set_accepted, agreed_for, accept_fault, after_accept, shown_at_accept};
ghost use Rattle.end_rules.specs.Faults.{rtse_fault, fault_if, or_fault};
ghost use Rattle.association_words.specs.Seen.{seen_fault, seen_values, seen_accepting};
ghost use Rattle.association_answers.specs.association_state.Seen.{base_in, seen};
ghost use Rattle.association_answers.specs.BroughtAs.{TakenAs};

use crate::answering::agreed_for;
use crate::associated::{accept_information_fault, is_accepting, rtse_in, user_of};
use crate::connect_faults::{has_acse, has_rtse};
use crate::joining::{Terms, join};
use association_answers::association_calls_layer::{manages_with, selected_with};
use association_answers::association_state_layer::{Basis, Body};
use association_answers::{Brought, push_losses};
use association_ground::{is_recovering, is_reliable};
use association_sets::fit_proposals;
use association_words::{Accepting, Fault, Value};
use dialogue::{Indication, Indications};
use osi_base::{Layer, ListOf, NoMemory, PresentationAccept, Rtse, SetItem};
use set_rules::{proposals, set_accepted};

/// Whether there is no RTOAC, or one with a window of 0.
fn lacks_accept(apdu: Option<&Rtse>) -> bool
    ensures { result ≡ lacks_accept (option_copied apdu.entry) }
{
    match apdu {
        Some(Rtse::OpenAccept { window, .. }) => *window == 0,
        _ => true,
    }
}

/// What may not stand in the user information of an AC.
fn transfer_fault(basis: &Basis<'_>, accepted: &[SetItem], values: &[Value]) -> Option<Fault>
    ensures { option_map seen_fault result ≡ or_fault (information_fault is_open_accept accepted.now
        (user_of (the_one (seen_values values.now)))) (fault_if (lacks_accept (rtse_in (user_of
        (the_one (seen_values values.now))))) rtse_fault) }
{
    let user = user_of(values);
    if let Some(fault) = accept_information_fault(basis, accepted, user) {
        return Some(fault);
    }
    if lacks_accept(rtse_in(user)) {
        return Some(Fault::at(basis.alloc, Layer::Rtse, 0, 4));
    }
    None
}

/// Whether the contexts of the association lack among the accepted ones.
fn lacks_contexts(basis: &Basis<'_>, accepted: &[SetItem]) -> bool
    ensures { result ≡ (not (has_acse accepted.now) || is_reliable basis.now.config.mode
        && not (has_rtse accepted.now)) }
{
    !has_acse(accepted) || is_reliable(basis.config.mode) && !has_rtse(accepted)
}

/// What may not stand in the values of an AC: there is no AARE that accepts; in reliable mode no
/// RTOAC.
fn values_fault(basis: &Basis<'_>, accepted: &[SetItem], values: &[Value]) -> Option<Fault>
    ensures { option_map seen_fault result
        ≡ values_fault (base_in basis.now) accepted.now (seen_values values.now) }
{
    if !is_accepting(values) {
        return Some(Fault::at(basis.alloc, Layer::Acse, 0, 0));
    }
    if is_reliable(basis.config.mode) {
        return transfer_fault(basis, accepted, values);
    }
    None
}

/// What may not stand in an AC whose results fit and accept these contexts.
fn accepted_fault(basis: &Basis<'_>, accepted: &[SetItem], values: &[Value]) -> Option<Fault>
    ensures { option_map seen_fault result
        ≡ accepted_fault (base_in basis.now) accepted.now (seen_values values.now) }
{
    if lacks_contexts(basis, accepted) {
        return Some(Fault::at(basis.alloc, Layer::Presentation, 0, 6));
    }
    values_fault(basis, accepted, values)
}

/// What may not stand in an AC: its results don't fit the proposals or refuse the contexts of the
/// association; it has no AARE that accepts; in reliable mode no RTOAC.
pub(crate) fn accept_fault(
    basis: &Basis<'_>,
    presentation: &PresentationAccept,
    values: &[Value],
) -> Result<Option<Fault>, NoMemory>
    ensures { IfOk result (λ fault. option_map seen_fault fault ≡ accept_fault (base_in basis.now)
        presentation.now (seen_values values.now)) }
{
    let own = proposals(basis.alloc, &basis.config)?;
    if !fit_proposals(own.as_slice(), presentation.results.as_slice()) {
        return Ok(Some(Fault::at(basis.alloc, Layer::Presentation, 0, 6)));
    }
    let accepted = set_accepted(basis.alloc, basis.tables, &basis.config, presentation)?;
    Ok(accepted_fault(basis, accepted.as_slice(), values))
}

/// What is shown of an AC.
fn shown_at_accept(basis: &Basis<'_>, body: &Body) -> Result<Indications, NoMemory>
    ensures { IfOk result (λ shown. shown ≡ shown_at_accept (seen body.now)) }
{
    let mut shown: Indications = ListOf::new(basis.alloc);
    if is_recovering(body.link.phase) {
        push_losses(body, &mut shown)?;
        shown.push(Indication::Recovered)?;
    } else {
        shown.push(Indication::Opened)?;
    }
    Ok(shown)
}

/// The terms of an AC that accepts these contexts.
fn terms_of<'a>(
    basis: &Basis<'_>,
    session: &Accepting,
    presentation: &PresentationAccept,
    values: &[Value],
    accepted: &'a [SetItem],
) -> Terms<'a>
    ensures accepted { result.accepted.now ≡ accepted.now }
    ensures selected { result.selected ≡ selected_with (base_in basis.now).mode
        (seen_accepting session.now).requirements }
    ensures manages { result.manages ≡ manages_with presentation.now.requirements
        (selected_with (base_in basis.now).mode (seen_accepting session.now).requirements) }
    ensures agreed { seen_agreed result.agreed
        ≡ agreed_for (base_in basis.now) (seen_values values.now) }
{
    let selected = selected_with(basis.config.mode, session.requirements);
    Terms {
        accepted,
        selected,
        manages: manages_with(&presentation.requirements, selected),
        agreed: agreed_for(basis, values),
    }
}

/// The association stands on the terms of an AC that accepts these contexts.
#[tactic(auto, using(crate::proofs::OnTerms::stands_on))]
fn stand_on(
    basis: &Basis<'_>,
    body: &mut Body,
    session: &Accepting,
    presentation: &PresentationAccept,
    values: &[Value],
    accepted: &[SetItem],
) -> Result<(), NoMemory>
    requires { accepted.now ≡ set_accepted (base_in basis.now) presentation.now }
    ensures { OnOk result (seen body.new ≡ after_accept (base_in basis.now) (seen body.old)
        (seen_accepting session.now) presentation.now (seen_values values.now)) }
{
    let terms = terms_of(basis, session, presentation, values, accepted);
    join(basis, body, &terms)
}

/// Takes an AC.
pub(crate) fn take_accept(
    basis: &Basis<'_>,
    body: &mut Body,
    session: &Accepting,
    presentation: &PresentationAccept,
    values: &[Value],
) -> Result<Brought, NoMemory>
    ensures body { OnOk result (seen body.new ≡ after_accept (base_in basis.now) (seen body.old)
        (seen_accepting session.now) presentation.now (seen_values values.now)) }
    ensures taken { IfOk result (TakenAs [] (shown_at_accept (seen body.old))) }
{
    let set = set_accepted(basis.alloc, basis.tables, &basis.config, presentation)?;
    let shown = shown_at_accept(basis, body)?;
    stand_on(basis, body, session, presentation, values, set.as_slice())?;
    Ok(Brought {
        answers: ListOf::new(basis.alloc),
        shown,
    })
}
