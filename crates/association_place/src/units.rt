//! Whether a unit of the session whose values aren't read yet may stand where it comes.

ghost use Rattle.std.specs.Prelude.{◌≡◌};
ghost use Rattle.end_rules.specs.InPlace.{may_accept, is_in_place};
ghost use Rattle.association_calls.specs.association_state.Seen.{base_in, seen};

use crate::activities::{
    awaits_discard, awaits_interrupt, is_receiving, may_confirm_end, may_end, may_resume, may_start,
};
use crate::association::{
    asked_to_open, awaits_release, may_abort, may_accept, may_connect, may_finish,
};
use crate::data::{may_send_data, may_send_typed};
use crate::marks::{
    awaits_restart, may_confirm_mark, may_give, may_give_all, may_mark, may_please, may_restart,
};
use association_calls::association_state_layer::{Basis, Body};
use association_ground::is_up;
use association_words::Accepting;
use osi_base::SessionWord;

/// Whether AC with these parameters may come.
fn accepts(basis: &Basis<'_>, body: &Body, version: Option<u8>, requirements: Option<u16>) -> bool
    ensures { result ≡ may_accept (base_in basis.now) (seen body.now) version requirements }
{
    let session = Accepting {
        options: None,
        version,
        initial: None,
        requirements,
    };
    may_accept(basis, body, &session)
}

/// Whether a unit of the session that wasn't read further may stand where it comes.
pub fn is_unit_in_place(basis: &Basis<'_>, body: &Body, unit: &SessionWord) -> bool
    ensures { result ≡ is_in_place (base_in basis.now) (seen body.now) unit.now }
{
    match unit {
        SessionWord::Connect(_) => may_connect(basis, body),
        SessionWord::Accept {
            version,
            requirements,
            ..
        } => accepts(basis, body, *version, *requirements),
        SessionWord::Refuse { .. } => asked_to_open(basis, body),
        SessionWord::Finish { .. } => may_finish(basis, body),
        SessionWord::Disconnect { .. } => awaits_release(body.link.awaits),
        SessionWord::Abort { .. } => may_abort(body),
        SessionWord::AbortAccept => may_abort(body),
        SessionWord::TypedData { .. } => may_send_typed(body),
        SessionWord::Data { .. } => may_send_data(basis, body),
        SessionWord::GiveTokens { tokens } => may_give(basis, body, *tokens),
        SessionWord::PleaseTokens { tokens, .. } => may_please(basis, body, *tokens),
        SessionWord::GiveTokensConfirm => may_give_all(basis, body),
        SessionWord::GiveTokensAck => is_up(body.link.phase) && body.link.gave,
        SessionWord::Mark { number } => may_mark(basis, body, *number),
        SessionWord::MarkAck { number } => may_confirm_mark(basis, body, *number),
        SessionWord::Resynchronize { number, .. } => may_restart(body, *number),
        SessionWord::ResynchronizeAck { number, .. } => awaits_restart(body.link.awaits, *number),
        SessionWord::ActivityStart { activity } => may_start(body, *activity),
        SessionWord::ActivityResume { activity, mark } => may_resume(body, *activity, *mark),
        SessionWord::ActivityInterrupt { .. } => is_receiving(body),
        SessionWord::ActivityInterruptAck => awaits_interrupt(body.link.awaits),
        SessionWord::ActivityDiscard { .. } => is_receiving(body),
        SessionWord::ActivityDiscardAck => awaits_discard(body.link.awaits),
        SessionWord::ActivityEnd { number } => may_end(body, *number),
        SessionWord::ActivityEndAck { number } => may_confirm_end(body, *number),
    }
}
