//! Openings, releases and aborts.

ghost use Rattle.std.specs.Prelude.{◌≡◌};
ghost use Rattle.end_rules.specs.Messages.{unit_of_association};
ghost use Rattle.end_rules.specs.InPlace.{is_peers, asked_to_open, may_connect, may_accept, may_finish, awaits_release, may_abort, is_in_place};
ghost use Rattle.association_words.specs.Seen.{seen_association};
ghost use Rattle.association_pieces.specs.Link.{seen_awaited};
ghost use Rattle.association_calls.specs.association_state.Seen.{base_in, seen};

use association_calls::association_state_layer::{Awaited, Basis, Body};
use association_calls::{has_units, has_version_two, needed_units, selected_with};
use association_ground::{is_opening, is_reliable, is_up};
use association_words::{Accepting, AssociationWord};

/// Whether the end is up, and the peer has the turn.
pub(crate) fn is_peers(body: &Body) -> bool
    ensures { result ≡ is_peers (seen body.now) }
{
    is_up(body.link.phase) && !body.link.turn
}

/// Whether an own CN was sent, and neither accepted nor refused.
pub(crate) fn asked_to_open(basis: &Basis<'_>, body: &Body) -> bool
    ensures { result ≡ asked_to_open (base_in basis.now) (seen body.now) }
{
    basis.config.initiator && body.link.stage.is_carrying() && is_opening(body.link.phase)
}

/// Whether CN may come: an own CC was sent, and no CN came.
pub(crate) fn may_connect(basis: &Basis<'_>, body: &Body) -> bool
    ensures { result ≡ may_connect (base_in basis.now) (seen body.now) }
{
    !basis.config.initiator && body.link.stage.is_joined()
}

/// Whether AC may come: it names version 2 and the units that the mode can't do without.
pub(crate) fn may_accept(basis: &Basis<'_>, body: &Body, session: &Accepting) -> bool
    ensures { result ≡ may_accept (base_in basis.now) (seen body.now) session.now.version
        session.now.requirements }
{
    let mode = basis.config.mode;
    asked_to_open(basis, body)
        && has_version_two(session.version)
        && has_units(
            needed_units(mode),
            selected_with(mode, session.requirements),
        )
}

/// Whether FN may come: from the initiator, in reliable mode with the turn and with no activity in
/// progress.
pub(crate) fn may_finish(basis: &Basis<'_>, body: &Body) -> bool
    ensures { result ≡ may_finish (base_in basis.now) (seen body.now) }
{
    !basis.config.initiator
        && is_up(body.link.phase)
        && (!is_reliable(basis.config.mode) || !body.link.turn && !body.receiving.active)
}

/// Whether a release is awaited.
pub(crate) fn awaits_release(awaits: Awaited) -> bool
    ensures { result ≡ awaits_release (seen_awaited awaits) }
{
    match awaits {
        Awaited::ReleaseOf => true,
        _ => false,
    }
}

/// Whether AB and AA may come.
pub(crate) fn may_abort(body: &Body) -> bool
    ensures { result ≡ may_abort (seen body.now) }
{
    body.link.stage.is_joined() || body.link.stage.is_carrying()
}

/// Whether a unit of the association may stand where it comes.
pub(crate) fn is_association_in_place(
    basis: &Basis<'_>,
    body: &Body,
    word: &AssociationWord,
) -> bool
    ensures { result ≡ is_in_place (base_in basis.now) (seen body.now)
        (unit_of_association (seen_association word.now)) }
{
    match word {
        AssociationWord::Connect { .. } => may_connect(basis, body),
        AssociationWord::Accept { session, .. } => may_accept(basis, body, session),
        AssociationWord::Refuse { .. } => asked_to_open(basis, body),
        AssociationWord::Finish { .. } => may_finish(basis, body),
        AssociationWord::Disconnect { .. } => awaits_release(body.link.awaits),
        AssociationWord::Abort { .. } => may_abort(body),
        AssociationWord::AbortAccept => may_abort(body),
    }
}
