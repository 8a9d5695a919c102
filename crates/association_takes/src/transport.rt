//! The transport connection: CR, CC, DR and ER (X.224 6.5, 13).

ghost use Rattle.std.specs.Prelude.{◌≡◌, IfOk, OnOk, not, option_map};
ghost use Rattle.end_rules.specs.State.{Carrying};
ghost use Rattle.end_rules.specs.Writing.{connect_message, is_recovering};
ghost use Rattle.end_rules.specs.Faults.{transport_fault, fault_if};
ghost use Rattle.end_rules.specs.TakesTransport.{is_size, may_request, may_respond, transport_unit_fault, phase_asked, stage_asked, at_stage, after_transport, answer_to_request, answers_to_transport, shown_of_transport};
ghost use Rattle.association_words.specs.Seen.{seen_fault, seen_message, seen_transport};
ghost use Rattle.association_pieces.specs.Link.{seen_stage};
ghost use Rattle.association_hearing.specs.association_state.Seen.{base_in, seen};
ghost use Rattle.association_hearing.specs.association_answers.BroughtAs.{TakenAs};

use association_ground::{is_recovering, is_waiting};
use association_hearing::association_answers_layer::{
    Brought, with_answer, with_indication, with_nothing,
};
use association_hearing::association_sends_layer::connect_message;
use association_hearing::association_state_layer::{Basis, Body, Stage};
use association_words::{Fault, Message, TransportUnit};
use dialogue::{Indication, Phase};
use osi_base::{Layer, NoMemory};

/// Whether the code is one of a size, 128 to 8,192 octets, or none is named.
fn is_size(size: Option<u8>) -> bool
    ensures { result ≡ is_size size }
{
    match size {
        None => true,
        Some(code) => 7 <= code && code <= 13,
    }
}

/// Whether CR may come: to a responder that has no association yet, or whose association is broken.
fn may_request(basis: &Basis<'_>, body: &Body) -> bool
    ensures { result ≡ may_request (base_in basis.now) (seen body.now) }
{
    !basis.config.initiator && body.link.stage.is_unused() && is_waiting(body.link.phase)
}

/// Whether CC and DR may come.
fn may_respond(basis: &Basis<'_>, body: &Body) -> bool
    ensures { result ≡ may_respond (base_in basis.now) (seen body.now) }
{
    basis.config.initiator && body.link.stage.is_asked()
}

/// Whether a unit may stand where it comes.
fn may_come(basis: &Basis<'_>, body: &Body, unit: &TransportUnit) -> bool
    ensures { transport_unit_fault (base_in basis.now) (seen body.now) (seen_transport unit.now) ≡
        fault_if (not result) transport_fault }
{
    match unit {
        TransportUnit::ConnectionRequest { .. } => may_request(basis, body),
        TransportUnit::ConnectionConfirm { size, .. } => {
            may_respond(basis, body) && is_size(*size)
        }
        TransportUnit::DisconnectRequest { .. } => may_respond(basis, body),
        TransportUnit::TransportError => false,
    }
}

/// Why a transport unit may not stand where it comes; an ER never may, nor may a CC with a size
/// other than 128 to 8,192 octets.
pub fn transport_fault(basis: &Basis<'_>, body: &Body, unit: &TransportUnit) -> Option<Fault>
    ensures { option_map seen_fault result ≡ transport_unit_fault (base_in basis.now)
        (seen body.now) (seen_transport unit.now) }
{
    if may_come(basis, body, unit) {
        None
    } else {
        Some(Fault::at(basis.alloc, Layer::Transport, 0, 0))
    }
}

/// The phase after a CR: one with another size is refused.
fn phase_asked(phase: Phase, accepted: bool) -> Phase
    ensures { result ≡ phase_asked phase accepted }
{
    match phase {
        Phase::Broken => Phase::Broken,
        _ => {
            if accepted {
                Phase::Opening
            } else {
                Phase::Over
            }
        }
    }
}

fn stage_asked(accepted: bool) -> Stage
    ensures { seen_stage result ≡ stage_asked accepted }
{
    if accepted {
        Stage::Joined
    } else {
        Stage::Asked
    }
}

/// CC, or DR where the size is another.
fn answer_to_request(source: u16, size: Option<u8>, accepted: bool) -> Message
    ensures { seen_message result ≡ answer_to_request source size accepted }
{
    if accepted {
        Message::Transport(TransportUnit::ConnectionConfirm {
            destination: source,
            size,
        })
    } else {
        Message::Transport(TransportUnit::DisconnectRequest {
            destination: source,
        })
    }
}

/// Takes a CR.
fn take_request(body: &mut Body, source: u16, size: Option<u8>) -> Message
    ensures body { seen body.new ≡ at_stage (stage_asked (is_size size)) (phase_asked
        (seen body.old).link.phase (is_size size)) (seen body.old) }
    ensures answer { seen_message result ≡ answer_to_request source size (is_size size) }
{
    let accepted = is_size(size);
    body.link.phase = phase_asked(body.link.phase, accepted);
    body.link.stage = stage_asked(accepted);
    answer_to_request(source, size, accepted)
}

/// Takes a CC, which brings the CN.
fn take_confirm(basis: &Basis<'_>, body: &mut Body) -> Result<Message, NoMemory>
    ensures body { OnOk result (seen body.new ≡ at_stage Carrying (seen body.old).link.phase
        (seen body.old)) }
    ensures answer { IfOk result (λ m. seen_message m ≡ connect_message (base_in basis.now)
        (is_recovering (seen body.old).link.phase)) }
{
    let message = connect_message(basis, is_recovering(body.link.phase))?;
    body.link.stage = Stage::Carrying;
    Ok(message)
}

/// Takes a transport unit.
pub fn take_transport(
    basis: &Basis<'_>,
    body: &mut Body,
    unit: TransportUnit,
) -> Result<Brought, NoMemory>
    ensures body { OnOk result (seen body.new ≡ after_transport (base_in basis.now) (seen body.old)
        (seen_transport unit)) }
    ensures taken { IfOk result (TakenAs (answers_to_transport (base_in basis.now) (seen body.old)
        (seen_transport unit)) (shown_of_transport (seen_transport unit))) }
{
    match unit {
        TransportUnit::ConnectionRequest {
            source,
            size,
            calling: _,
            called: _,
        } => {
            let message = take_request(body, source, size);
            with_answer(basis.alloc, message)
        }
        TransportUnit::ConnectionConfirm {
            destination: _,
            size: _,
        } => {
            let message = take_confirm(basis, body)?;
            with_answer(basis.alloc, message)
        }
        TransportUnit::DisconnectRequest { destination: _ } => {
            body.link.phase = Phase::Over;
            with_indication(basis.alloc, Indication::AssociationRefused)
        }
        TransportUnit::TransportError => Ok(with_nothing(basis.alloc)),
    }
}
