//! What session units carry.

ghost use Rattle.std.specs.Prelude.{◌≡◌, MatchOption};
ghost use Rattle.spdu_codec.specs.Places.{user_of};
ghost use Rattle.trace_units.specs.Units.{carrier_of, values_of, place_in, on};

use osi_base::{Octets, Pdv, PresentationWord, SessionWord};
use presentation_pdus::PpduPlace;

/// User data that may lack, with the kind of unit that carries them.
fn maybe(carrier: PpduPlace, user: &Option<Octets>) -> Option<(PpduPlace, &Octets)>
    ensures { MatchOption result (user.entry.now ≡ None) (λ x. (Some carrier ≡ Some x.0)
        × (user.entry.now ≡ Some x.1.now)) }
{
    match user {
        None => None,
        Some(octets) => Some((carrier, octets)),
    }
}

/// The user data of a session unit that carries some, with the kind of the unit.
pub(crate) fn carried(word: &SessionWord) -> Option<(PpduPlace, &Octets)>
    ensures { MatchOption result (user_of word.entry.now ≡ None)
        (λ x. (carrier_of word.entry.now ≡ Some x.0) × (user_of word.entry.now ≡ Some x.1.now)) }
{
    match word {
        SessionWord::Connect(connect) => Some((PpduPlace::Cn, &connect.user)),
        SessionWord::Accept { user, .. } => Some((PpduPlace::Ac, user)),
        SessionWord::Refuse { user, .. } => maybe(PpduPlace::Rf, user),
        SessionWord::Finish { user, .. } => Some((PpduPlace::Fn, user)),
        SessionWord::Disconnect { user } => Some((PpduPlace::Dn, user)),
        SessionWord::Abort { user, .. } => maybe(PpduPlace::Ab, user),
        SessionWord::PleaseTokens { user, .. } => maybe(PpduPlace::Pt, user),
        SessionWord::TypedData { user } => Some((PpduPlace::Td, user)),
        SessionWord::Data { user } => Some((PpduPlace::Dt, user)),
        SessionWord::Resynchronize { user, .. } => maybe(PpduPlace::Rs, user),
        SessionWord::ResynchronizeAck { user, .. } => maybe(PpduPlace::Ra, user),
        _ => None,
    }
}

/// The values that a unit of the presentation protocol carries.
pub(crate) fn values_of(unit: &PresentationWord) -> &[Pdv]
    ensures { result.now ≡ values_of unit.entry.now }
{
    match unit {
        PresentationWord::Connect(connect) => connect.user.as_slice(),
        PresentationWord::Accept(accept) => accept.user.as_slice(),
        PresentationWord::Reject(reject) => reject.user.as_slice(),
        PresentationWord::UserAbort { user, .. } => user.as_slice(),
        PresentationWord::Data { user } => user.as_slice(),
        _ => &[],
    }
}

/// Where user data begin.
pub(crate) fn place_in(place: Option<usize>) -> usize
    ensures { result ≡ place_in place }
{
    match place {
        None => 0,
        Some(place) => place,
    }
}

/// A place in user data that begin at another one.
pub(crate) fn on(place: usize, at: usize) -> u64
    ensures { result ≡ on place at }
{
    (place as u64).saturating_add(at as u64)
}
