//! The rows that all calls have.

ghost use Rattle.std.specs.Prelude.{◌≡◌};
ghost use Rattle.end_rules.specs.Calling.{can_call, can_by_rows};
ghost use Rattle.association_state.specs.Seen.{base_in, seen};
ghost use Rattle.association_calls.specs.Replies.{IsRefusal};

use association_state::association_ground_layer::{
    is_bare, is_dead, is_initiators, is_of_bare_mode, is_phase_for,
};
use association_state::{Basis, Body};
use dialogue::{Call, CallRefusal};

/// Why a call is refused whatever its own rows say: the end is dead, the call is the initiator's,
/// the phase is another, or it isn't one of bare mode.
pub fn check_phase(basis: &Basis<'_>, body: &Body, call: &Call) -> Option<CallRefusal>
    ensures { IsRefusal (can_call (base_in basis.now) (seen body.now) call.now)
        (can_by_rows (base_in basis.now) (seen body.now) call.now) result }
{
    if is_dead(body.link.phase) {
        return Some(CallRefusal::Dead);
    }
    if is_initiators(call) && !basis.config.initiator {
        return Some(CallRefusal::NotInitiator);
    }
    if !is_phase_for(call, body.link.phase) {
        return Some(CallRefusal::WrongPhase(body.link.phase));
    }
    if is_bare(basis.config.mode) && !is_of_bare_mode(call) {
        return Some(CallRefusal::NotNegotiated);
    }
    None
}
