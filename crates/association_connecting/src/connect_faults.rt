//! What may not stand in a CN, and why one is refused.

ghost use Rattle.std.specs.Prelude.{◌≡◌, option_map};
ghost use Rattle.end_rules.specs.Connecting.{set_for, has_acse, has_rtse, connect_fault, has_other_initial, gives_token, session_refuses, lacks_request, presentation_refuses, transfer_rejection, is_refused};
ghost use Rattle.association_words.specs.Seen.{seen_fault, seen_values};
ghost use Rattle.association_answers.specs.association_state.Seen.{base_in, seen};

use crate::agreeing::rejection_of;
use crate::associated::{is_request, request_information_fault, rtse_in, user_of};
use association_answers::association_calls_layer::{
    has_units, has_version_two, needed_units, selected_with,
};
use association_answers::association_state_layer::{Basis, Body};
use association_ground::is_reliable;
use association_words::{Fault, Value};
use osi_base::{Layer, PresentationConnect, SessionConnect, SetItem};
use set_rules::{has_context_of, is_faulty_proposal};

/// Whether association control is accepted.
pub(crate) fn has_acse(accepted: &[SetItem]) -> bool
    ensures { result ≡ has_acse accepted.now }
{
    has_context_of(&[2, 2, 1, 0, 1], accepted)
}

/// Whether reliable transfer is accepted.
pub(crate) fn has_rtse(accepted: &[SetItem]) -> bool
    ensures { result ≡ has_rtse accepted.now }
{
    has_context_of(&[2, 999, 5, 2], accepted)
}

/// What may not stand in a CN whose accepted contexts are these: its list is faulty; or, where
/// association control is accepted, it carries no AARQ; or, where reliable transfer is, the AARQ
/// carries what is no RTORQ.
pub(crate) fn connect_fault(
    basis: &Basis<'_>,
    accepted: &[SetItem],
    presentation: &PresentationConnect,
    values: &[Value],
) -> Option<Fault>
    requires { accepted.now ≡ set_for (base_in basis.now) presentation.now }
    ensures fault { option_map seen_fault result ≡ connect_fault (base_in basis.now)
        presentation.now (seen_values values.now) }
{
    if is_faulty_proposal(true, &[], presentation.definitions.as_slice()) {
        return Some(Fault::at(basis.alloc, Layer::Presentation, 0, 6));
    }
    if has_acse(accepted) && !is_request(values) {
        return Some(Fault::at(basis.alloc, Layer::Acse, 0, 0));
    }
    if is_reliable(basis.config.mode) && has_acse(accepted) && has_rtse(accepted) {
        return request_information_fault(basis, accepted, user_of(values));
    }
    None
}

/// Another initial number than 1.
fn has_other_initial(initial: Option<u32>) -> bool
    ensures { result ≡ has_other_initial initial }
{
    match initial {
        None => false,
        Some(number) => number != 1,
    }
}

/// A token at the responder: a pair of bits 01 of the token setting.
fn gives_token(setting: Option<u8>) -> bool
    ensures { result ≡ gives_token setting }
{
    match setting {
        None => false,
        Some(setting) => {
            setting % 4 == 1
                || (setting / 4) % 4 == 1
                || (setting / 16) % 4 == 1
                || (setting / 64) % 4 == 1
        }
    }
}

/// Whether the session refuses: version 2 lacks, or a unit that the mode needs; another initial
/// number than 1; a token at the responder.
pub(crate) fn session_refuses(basis: &Basis<'_>, session: &SessionConnect) -> bool
    ensures { result ≡ session_refuses (base_in basis.now) session.now }
{
    let mode = basis.config.mode;
    !has_version_two(session.version)
        || !has_units(
            needed_units(mode),
            selected_with(mode, session.requirements),
        )
        || has_other_initial(session.initial)
        || gives_token(session.token_setting)
}

/// Whether reliable transfer isn't accepted, or there is no RTORQ.
pub(crate) fn lacks_request(basis: &Basis<'_>, accepted: &[SetItem], values: &[Value]) -> bool
    ensures { result ≡ lacks_request (base_in basis.now) accepted.now (seen_values values.now) }
{
    is_reliable(basis.config.mode) && (!has_rtse(accepted) || rtse_in(user_of(values)).is_none())
}

/// Whether the presentation or association control refuses: a default context stands; association
/// control isn't accepted, or in reliable mode reliable transfer; or there is no RTORQ.
pub(crate) fn presentation_refuses(
    basis: &Basis<'_>,
    accepted: &[SetItem],
    presentation: &PresentationConnect,
    values: &[Value],
) -> bool
    requires { accepted.now ≡ set_for (base_in basis.now) presentation.now }
    ensures { result ≡ presentation_refuses (base_in basis.now) presentation.now (seen_values
        values.now) }
{
    presentation.default_context.is_some()
        || !has_acse(accepted)
        || lacks_request(basis, accepted, values)
}

/// The reason for which reliable transfer rejects, if it does.
pub(crate) fn transfer_rejection(basis: &Basis<'_>, body: &Body, values: &[Value]) -> Option<u8>
    ensures { result ≡ transfer_rejection (base_in basis.now) (seen body.now) (seen_values
        values.now) }
{
    if is_reliable(basis.config.mode) {
        rejection_of(body, rtse_in(user_of(values)))
    } else {
        None
    }
}

/// Whether a CN whose accepted contexts are these is refused.
pub(crate) fn is_refused(
    basis: &Basis<'_>,
    body: &Body,
    accepted: &[SetItem],
    session: &SessionConnect,
    presentation: &PresentationConnect,
    values: &[Value],
) -> bool
    requires { accepted.now ≡ set_for (base_in basis.now) presentation.now }
    ensures { result ≡ is_refused (base_in basis.now) (seen body.now) session.now presentation.now
        (seen_values values.now) }
{
    session_refuses(basis, session)
        || presentation_refuses(basis, accepted, presentation, values)
        || transfer_rejection(basis, body, values).is_some()
}
