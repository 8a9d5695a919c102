//! How a CN is taken: it is accepted or refused.

ghost use Rattle.std.specs.Prelude.{◌≡◌, IfOk, OnOk, None, true, [], ◌∷◌, if◌then◌else◌};
ghost use Rattle.end_rules.specs.Connecting.{the_one, is_request, has_acse, set_for, connect_fault, recovers_in, begun_with, joined_with, accepted_connect, refused_connect, acceptance_message, refusal_message, after_connect, answer_to_connect, shown_opening, shown_at_connect};
ghost use Rattle.association_connecting.specs.Agreed.{seen_agreed};
ghost use Rattle.association_connecting.specs.Terms.{TermsOf};
ghost use Rattle.association_words.specs.Seen.{seen_values};
ghost use Rattle.association_answers.specs.association_state.Seen.{base_in, seen};
ghost use Rattle.association_answers.specs.BroughtAs.{TakenAs};

use crate::agreeing::names_recovery;
use crate::answering::{acceptance_message, agreed_for, refusal_message};
use crate::associated::{rtse_in, user_of};
use crate::connect_faults::is_refused;
use crate::joining::{Terms, begin, join, refuse};
use association_answers::association_calls_layer::{manages_with, selected_with};
use association_answers::association_state_layer::{Basis, Body};
use association_answers::{Brought, one_message, push_cuts, push_losses, with_answer};
use association_ground::{is_broken, is_reliable};
use association_words::Value;
use dialogue::{Indication, Indications};
use osi_base::{ListOf, NoMemory, PresentationConnect, SessionConnect, SetItem};
use set_rules::set_for;

/// Whether a CN names the association that is broken.
fn recovers_in(basis: &Basis<'_>, values: &[Value]) -> bool
    ensures { result ≡ recovers_in (base_in basis.now) (seen_values values.now) }
{
    is_reliable(basis.config.mode) && names_recovery(rtse_in(user_of(values)))
}

/// What is shown of an opening: one that reaches a broken end gives the old association up.
fn shown_opening(basis: &Basis<'_>, body: &Body, recovers: bool) -> Result<Indications, NoMemory>
    ensures { IfOk result (λ shown. shown ≡ shown_opening (seen body.now) recovers) }
{
    let mut shown: Indications = ListOf::new(basis.alloc);
    if recovers {
        push_losses(body, &mut shown)?;
        shown.push(Indication::Recovered)?;
        return Ok(shown);
    }
    if is_broken(body.link.phase) {
        push_cuts(basis.alloc, body, &mut shown)?;
        shown.push(Indication::GivenUp)?;
        shown.push(Indication::Opened)?;
        return Ok(shown);
    }
    shown.push(Indication::Opened)?;
    Ok(shown)
}

/// A CN that was read: what it says, and the contexts that stand as it is answered.
#[derive(Clone, Copy)]
pub(crate) struct Asked<'a> {
    pub session: &'a SessionConnect,
    pub presentation: &'a PresentationConnect,
    pub values: &'a [Value],
    pub accepted: &'a [SetItem],
}

/// The terms of a CN.
fn terms_of<'a>(basis: &Basis<'_>, asked: &Asked<'a>) -> Terms<'a>
    requires { asked.now.accepted.now ≡ set_for (base_in basis.now) asked.now.presentation.now }
    ensures { TermsOf (base_in basis.now) asked.now.session.now asked.now.presentation.now
        (seen_values asked.now.values.now) result }
{
    let selected = selected_with(basis.config.mode, asked.session.requirements);
    Terms {
        accepted: asked.accepted,
        selected,
        manages: manages_with(&asked.presentation.requirements, selected),
        agreed: agreed_for(basis, asked.values),
    }
}

/// What the end holds once a CN is accepted: an opening begins anew, a recovery goes on.
fn begin_and_join(
    basis: &Basis<'_>,
    body: &mut Body,
    session: &SessionConnect,
    recovers: bool,
    terms: &Terms<'_>,
) -> Result<(), NoMemory>
    ensures { OnOk result (seen body.new ≡ joined_with (base_in basis.now) terms.now.accepted.now
        terms.now.selected terms.now.manages (seen_agreed terms.now.agreed) (if recovers then seen
        body.old else begun_with (base_in basis.now) session.now)) }
{
    if !recovers {
        begin(basis, body, session)?;
    }
    join(basis, body, terms)
}

/// Accepts a CN.
fn accept(basis: &Basis<'_>, body: &mut Body, asked: &Asked<'_>) -> Result<Brought, NoMemory>
    requires accepted { asked.now.accepted.now ≡ set_for (base_in basis.now)
        asked.now.presentation.now }
    requires request { is_request (the_one (seen_values asked.now.values.now)) ≡ true }
    ensures body { OnOk result (seen body.new ≡ accepted_connect (base_in basis.now) (seen body.old)
        asked.now.session.now asked.now.presentation.now (seen_values asked.now.values.now)) }
    ensures taken { IfOk result (TakenAs (acceptance_message (base_in basis.now)
        asked.now.session.now asked.now.presentation.now (seen_values asked.now.values.now) ∷ [])
        (shown_opening (seen body.old) (recovers_in (base_in basis.now) (seen_values
        asked.now.values.now)))) }
{
    let terms = terms_of(basis, asked);
    let message = acceptance_message(basis, &terms, asked.presentation, asked.values)?;
    let recovers = recovers_in(basis, asked.values);
    let answers = one_message(basis.alloc, message)?;
    let shown = shown_opening(basis, body, recovers)?;
    begin_and_join(basis, body, asked.session, recovers, &terms)?;
    Ok(Brought { answers, shown })
}

/// Refuses a CN.
fn refuse_asked(basis: &Basis<'_>, body: &mut Body, asked: &Asked<'_>) -> Result<Brought, NoMemory>
    requires accepted { asked.now.accepted.now ≡ set_for (base_in basis.now)
        asked.now.presentation.now }
    requires request { has_acse asked.now.accepted.now ≡ true → is_request (the_one (seen_values
        asked.now.values.now)) ≡ true }
    ensures body { OnOk result (seen body.new ≡ refused_connect (seen body.old)) }
    ensures taken { IfOk result (TakenAs (refusal_message (base_in basis.now) (seen body.old)
        asked.now.session.now asked.now.presentation.now (seen_values asked.now.values.now) ∷ [])
        []) }
{
    let message = refusal_message(
        basis,
        body,
        asked.accepted,
        asked.session,
        asked.presentation,
        asked.values,
    )?;
    refuse(body);
    with_answer(basis.alloc, message)
}

/// Takes a CN, which is answered by AC or RF.
pub(crate) fn take_connect(
    basis: &Basis<'_>,
    body: &mut Body,
    session: &SessionConnect,
    presentation: &PresentationConnect,
    values: &[Value],
) -> Result<Brought, NoMemory>
    requires { connect_fault (base_in basis.now) presentation.now (seen_values values.now) ≡ None }
    ensures body { OnOk result (seen body.new ≡ after_connect (base_in basis.now) (seen body.old)
        session.now presentation.now (seen_values values.now)) }
    ensures taken { IfOk result (TakenAs (answer_to_connect (base_in basis.now) (seen body.old)
        session.now presentation.now (seen_values values.now)) (shown_at_connect (base_in basis.now)
        (seen body.old) session.now presentation.now (seen_values values.now))) }
{
    let set = set_for(basis.alloc, basis.tables, &basis.config, presentation)?;
    let accepted = set.as_slice();
    let asked = Asked {
        session,
        presentation,
        values,
        accepted,
    };
    if is_refused(basis, body, accepted, session, presentation, values) {
        refuse_asked(basis, body, &asked)
    } else {
        accept(basis, body, &asked)
    }
}
