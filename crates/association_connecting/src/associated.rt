//! Values of association control, and what they carry for reliable transfer.

ghost use Rattle.std.specs.Prelude.{◌≡◌, IfOk, true, map, option_map};
ghost use Rattle.std.specs.Option.{option_copied};
ghost use Rattle.end_rules.specs.Connecting.{the_one, is_request, is_accepting, user_of, context_named, rtse_in, is_on_rtse, is_open_request, is_open_accept, information_fault};
ghost use Rattle.end_rules.specs.TakesAssociation.{is_release_request, is_release_response};
ghost use Rattle.association_words.specs.Seen.{seen_fault, seen_information, seen_values};
ghost use Rattle.association_connecting.specs.Associated.{only_one, first_fault};

use association_answers::association_state_layer::Basis;
use association_sets::has_abstract;
use association_words::{Fault, Information, Value, ValueContent};
use osi_base::{Acse, Copied, Layer, NoMemory, Oid, Rtse, SetItem, pair_of};

/// The one value, where there is one.
pub(crate) fn only_one(values: &[Value]) -> Option<&Value>
    ensures { option_copied result ≡ only_one values.now }
{
    match values {
        [value] => Some(value),
        _ => None,
    }
}

/// Whether the one value is a request for an association.
#[tactic(auto, using(crate::proofs::Ones::the_one_is))]
pub(crate) fn is_request(values: &[Value]) -> bool
    ensures { result ≡ is_request (the_one (seen_values values.now)) }
{
    let Some(value) = only_one(values) else {
        return false;
    };
    match &value.content {
        ValueContent::Association {
            apdu: Acse::AssociateRequest { .. },
            ..
        } => true,
        _ => false,
    }
}

/// Whether the one value accepts an association.
#[tactic(auto, using(crate::proofs::Ones::the_one_is))]
pub(crate) fn is_accepting(values: &[Value]) -> bool
    ensures { result ≡ is_accepting (the_one (seen_values values.now)) }
{
    let Some(value) = only_one(values) else {
        return false;
    };
    match &value.content {
        ValueContent::Association {
            apdu: Acse::AssociateResponse { result: 0, .. },
            ..
        } => true,
        _ => false,
    }
}

/// Whether the one value asks for the release.
#[tactic(auto, using(crate::proofs::Ones::the_one_is))]
pub(crate) fn is_release_request(values: &[Value]) -> bool
    ensures { result ≡ is_release_request (the_one (seen_values values.now)) }
{
    let Some(value) = only_one(values) else {
        return false;
    };
    match &value.content {
        ValueContent::Association {
            apdu: Acse::ReleaseRequest { .. },
            ..
        } => true,
        _ => false,
    }
}

/// Whether the one value answers the release.
#[tactic(auto, using(crate::proofs::Ones::the_one_is))]
pub(crate) fn is_release_response(values: &[Value]) -> bool
    ensures { result ≡ is_release_response (the_one (seen_values values.now)) }
{
    let Some(value) = only_one(values) else {
        return false;
    };
    match &value.content {
        ValueContent::Association {
            apdu: Acse::ReleaseResponse { .. },
            ..
        } => true,
        _ => false,
    }
}

/// The application context that a request names.
#[tactic(auto, using(crate::proofs::Ones::the_one_is))]
pub(crate) fn context_named(basis: &Basis<'_>, values: &[Value]) -> Result<Oid, NoMemory>
    requires { is_request (the_one (seen_values values.now)) ≡ true }
    ensures { IfOk result (λ name. name ≡ context_named (the_one (seen_values values.now))) }
{
    let Some(value) = only_one(values) else {
        return Err(NoMemory);
    };
    match &value.content {
        ValueContent::Association {
            apdu: Acse::AssociateRequest { context, .. },
            ..
        } => context.copy(basis.alloc),
        _ => Err(NoMemory),
    }
}

/// The user information of the one value of association control.
#[tactic(auto, using(crate::proofs::Ones::the_one_is))]
pub(crate) fn user_of(values: &[Value]) -> &[Information]
    ensures { map seen_information result.now ≡ user_of (the_one (seen_values values.now)) }
{
    let Some(value) = only_one(values) else {
        return &[];
    };
    match &value.content {
        ValueContent::Association { user, .. } => user.as_slice(),
        _ => &[],
    }
}

/// The APDU of reliable transfer that stands first in user information.
pub(crate) fn rtse_in(user: &[Information]) -> Option<&Rtse>
    ensures { option_copied result ≡ rtse_in (map seen_information user.now) }
{
    match user.first() {
        None => None,
        Some(Information::Transferring { apdu, .. }) => Some(apdu),
        Some(Information::Other { .. }) => None,
    }
}

/// Whether the context is an accepted one of reliable transfer.
fn is_on_rtse(accepted: &[SetItem], id: u32) -> bool
    ensures { result ≡ is_on_rtse accepted.now id }
{
    has_abstract(pair_of(accepted, id), &[2, 999, 5, 2])
}

/// Whether it is RTORQ.
fn is_open_request(apdu: &Rtse) -> bool
    ensures { result ≡ is_open_request apdu.now }
{
    match apdu {
        Rtse::OpenRequest { .. } => true,
        _ => false,
    }
}

/// Whether it is RTOAC.
fn is_open_accept(apdu: &Rtse) -> bool
    ensures { result ≡ is_open_accept apdu.now }
{
    match apdu {
        Rtse::OpenAccept { .. } => true,
        _ => false,
    }
}

/// What may not stand as the first of user information: another context, or an APDU that isn't
/// meant, as is told.
fn information_fault(
    basis: &Basis<'_>,
    accepted: &[SetItem],
    first: &Information,
    meant: bool,
) -> Option<Fault>
    ensures { option_map seen_fault result ≡ first_fault accepted.now (seen_information first.now)
        meant }
{
    match first {
        Information::Other { .. } => Some(Fault::at(basis.alloc, Layer::Presentation, 0, 6)),
        Information::Transferring { id, .. } => {
            if !is_on_rtse(accepted, *id) {
                return Some(Fault::at(basis.alloc, Layer::Presentation, 0, 6));
            }
            if !meant {
                return Some(Fault::at(basis.alloc, Layer::Rtse, 0, 4));
            }
            None
        }
    }
}

/// What may not stand in the user information of a request.
pub(crate) fn request_information_fault(
    basis: &Basis<'_>,
    accepted: &[SetItem],
    user: &[Information],
) -> Option<Fault>
    ensures { option_map seen_fault result ≡ information_fault is_open_request accepted.now (map
        seen_information user.now) }
{
    let first = user.first()?;
    let meant = match first {
        Information::Transferring { apdu, .. } => is_open_request(apdu),
        Information::Other { .. } => false,
    };
    information_fault(basis, accepted, first, meant)
}

/// What may not stand in the user information of an acceptance.
pub(crate) fn accept_information_fault(
    basis: &Basis<'_>,
    accepted: &[SetItem],
    user: &[Information],
) -> Option<Fault>
    ensures { option_map seen_fault result ≡ information_fault is_open_accept accepted.now (map
        seen_information user.now) }
{
    let first = user.first()?;
    let meant = match first {
        Information::Transferring { apdu, .. } => is_open_accept(apdu),
        Information::Other { .. } => false,
    };
    information_fault(basis, accepted, first, meant)
}
