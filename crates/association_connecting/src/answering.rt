//! The answers to a CN.

ghost use Rattle.std.specs.Prelude.{◌≡◌, IfOk, map, true, [], if◌then◌else◌};
ghost use Rattle.end_rules.specs.Connecting.{the_one, is_request, has_acse, lacks_request, set_for, results_for, rejecting_information, accepting_information, acceptance_message, refusal_message, agreed_for, transfer_rejection};
ghost use Rattle.association_words.specs.Seen.{seen_message, seen_information, seen_values};
ghost use Rattle.osi_base.specs.declared.session_word.SessionConnect.{SessionConnect};
ghost use Rattle.association_connecting.specs.Agreed.{seen_agreed};
ghost use Rattle.association_connecting.specs.Terms.{TermsOf};
ghost use Rattle.association_answers.specs.association_state.Seen.{base_in, seen};

use crate::agreeing::{Agreed, agreed_with, data_for};
use crate::associated::{context_named, rtse_in, user_of};
use crate::connect_faults::{has_acse, lacks_request, session_refuses, transfer_rejection};
use crate::joining::Terms;
use association_answers::association_sends_layer::{
    Response, accept_message, provider_refusal, refuse_message, rtse_context, rtse_information,
};
use association_answers::association_state_layer::{Basis, Body};
use association_words::{Information, Message, UserInformation, Value};
use osi_base::{AddAnswers, ListOf, NoMemory, PresentationConnect, Rtse, SessionConnect, SetItem};
use set_rules::opening_policy;

/// What the list of a CN is answered.
fn results_for(
    basis: &Basis<'_>,
    presentation: &PresentationConnect,
) -> Result<AddAnswers, NoMemory>
    ensures { IfOk result (λ answers. answers ≡ results_for (base_in basis.now) presentation.now) }
{
    opening_policy(
        basis.alloc,
        basis.tables,
        &basis.config,
        presentation.definitions.as_slice(),
    )
}

/// What is agreed with a CN.
pub(crate) fn agreed_for(basis: &Basis<'_>, values: &[Value]) -> Agreed
    ensures { seen_agreed result ≡ agreed_for (base_in basis.now) (seen_values values.now) }
{
    agreed_with(basis, rtse_in(user_of(values)))
}

/// The user information that accepts: RTOAC.
fn accepting_information(
    basis: &Basis<'_>,
    accepted: &[SetItem],
    values: &[Value],
) -> Result<UserInformation, NoMemory>
    ensures { IfOk result (λ user. map seen_information user ≡ accepting_information (base_in
        basis.now) accepted.now (seen_values values.now)) }
{
    let agreed = agreed_for(basis, values);
    let connection = data_for(basis, rtse_in(user_of(values)))?;
    let apdu = Rtse::OpenAccept {
        checkpoint: agreed.checkpoint,
        window: agreed.window,
        data: connection,
    };
    rtse_information(basis.alloc, basis.config.mode, accepted, apdu)
}

/// AC.
pub(crate) fn acceptance_message(
    basis: &Basis<'_>,
    terms: &Terms<'_>,
    presentation: &PresentationConnect,
    values: &[Value],
) -> Result<Message, NoMemory>
    requires { is_request (the_one (seen_values values.now)) ≡ true }
    ensures { (session : SessionConnect) → TermsOf (base_in basis.now) session presentation.now
        (seen_values values.now) terms.now → IfOk result (λ m. seen_message m ≡ acceptance_message
        (base_in basis.now) session presentation.now (seen_values values.now)) }
{
    let response = Response {
        context: context_named(basis, values)?,
        user: accepting_information(basis, terms.accepted, values)?,
    };
    let results = results_for(basis, presentation)?;
    accept_message(
        basis,
        terms.accepted,
        results,
        terms.selected,
        terms.manages,
        response,
    )
}

/// The user information that refuses: an RTORJ stands where it alone refuses.
fn rejecting_information(
    basis: &Basis<'_>,
    session: &SessionConnect,
    accepted: &[SetItem],
    reason: Option<u8>,
) -> Result<UserInformation, NoMemory>
    ensures { IfOk result (λ user. map seen_information user ≡ rejecting_information (base_in
        basis.now) session.now accepted.now reason) }
{
    let mut user: UserInformation = ListOf::new(basis.alloc);
    let Some(reason) = reason else {
        return Ok(user);
    };
    if session_refuses(basis, session) {
        return Ok(user);
    }
    user.push(Information::Transferring {
        id: rtse_context(accepted),
        apdu: Rtse::OpenReject {
            reason: i64::from(reason),
        },
    })?;
    Ok(user)
}

/// The user information of a refusal.
fn refusing_information(
    basis: &Basis<'_>,
    body: &Body,
    session: &SessionConnect,
    accepted: &[SetItem],
    values: &[Value],
) -> Result<UserInformation, NoMemory>
    ensures { IfOk result (λ user. map seen_information user ≡ (if lacks_request (base_in basis.now)
        accepted.now (seen_values values.now) then [] else rejecting_information (base_in basis.now)
        session.now accepted.now (transfer_rejection (base_in basis.now) (seen body.now)
        (seen_values values.now)))) }
{
    if lacks_request(basis, accepted, values) {
        return Ok(ListOf::new(basis.alloc));
    }
    let reason = transfer_rejection(basis, body, values);
    rejecting_information(basis, session, accepted, reason)
}

/// RF.
pub(crate) fn refusal_message(
    basis: &Basis<'_>,
    body: &Body,
    accepted: &[SetItem],
    session: &SessionConnect,
    presentation: &PresentationConnect,
    values: &[Value],
) -> Result<Message, NoMemory>
    requires accepted { accepted.now ≡ set_for (base_in basis.now) presentation.now }
    requires request { has_acse accepted.now ≡ true → is_request (the_one (seen_values values.now))
        ≡ true }
    ensures { IfOk result (λ m. seen_message m ≡ refusal_message (base_in basis.now) (seen body.now)
        session.now presentation.now (seen_values values.now)) }
{
    if presentation.default_context.is_some() || !has_acse(accepted) {
        return Ok(provider_refusal(basis.alloc));
    }
    let response = Response {
        context: context_named(basis, values)?,
        user: refusing_information(basis, body, session, accepted, values)?,
    };
    let results = results_for(basis, presentation)?;
    refuse_message(basis.alloc, accepted, results, response)
}
