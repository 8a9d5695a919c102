//! Phases, which calls may be made in them, and what a call was answered.

ghost use Rattle.std.specs.Prelude.{◌≡◌};
ghost use Rattle.end_rules.specs.State.{is_up, is_broken, passes_over};
ghost use Rattle.end_rules.specs.Calling.{is_dead, is_idle, may_abort_in, is_phase_for, is_initiators, is_of_bare_mode};
ghost use Rattle.end_rules.specs.InPlace.{is_opening};
ghost use Rattle.end_rules.specs.Invoking.{is_memory};
ghost use Rattle.end_rules.specs.TakesTransport.{is_waiting};
ghost use Rattle.end_rules.specs.Writing.{is_recovering};

use dialogue::{Call, CallRefusal, Phase};

/// Whether a call was answered that memory was refused.
pub fn is_memory(answer: &Result<Option<i64>, CallRefusal>) -> bool
    ensures { result ≡ is_memory answer.now }
{
    matches!(answer, Err(CallRefusal::NoMemory))
}

/// Whether an allocation was refused before.
pub fn is_dead(phase: Phase) -> bool
    ensures { result ≡ is_dead phase }
{
    match phase {
        Phase::Dead => true,
        _ => false,
    }
}

/// Whether nothing was asked yet.
pub fn is_idle(phase: Phase) -> bool
    ensures { result ≡ is_idle phase }
{
    match phase {
        Phase::Idle => true,
        _ => false,
    }
}

/// Whether the association is to be recovered.
pub fn is_broken(phase: Phase) -> bool
    ensures { result ≡ is_broken phase }
{
    match phase {
        Phase::Broken => true,
        _ => false,
    }
}

/// Whether the association stands.
pub fn is_up(phase: Phase) -> bool
    ensures { result ≡ is_up phase }
{
    match phase {
        Phase::Up => true,
        _ => false,
    }
}

fn may_abort(phase: Phase) -> bool
    ensures { result ≡ may_abort_in phase }
{
    match phase {
        Phase::Opening | Phase::Up | Phase::Releasing | Phase::Recovering => true,
        _ => false,
    }
}

/// Whether what comes is passed over.
pub fn passes_over(phase: Phase) -> bool
    ensures { result ≡ passes_over phase }
{
    match phase {
        Phase::Over | Phase::Dead => true,
        _ => false,
    }
}

/// Whether the call may be made in the phase.
pub fn is_phase_for(call: &Call, phase: Phase) -> bool
    ensures { result ≡ is_phase_for call.now phase }
{
    match call {
        Call::Open => is_idle(phase),
        Call::Recover => is_broken(phase),
        Call::Abort => may_abort(phase),
        _ => is_up(phase),
    }
}

/// Whether it is a call of the initiator alone.
pub fn is_initiators(call: &Call) -> bool
    ensures { result ≡ is_initiators call.now }
{
    match call {
        Call::Open | Call::Recover | Call::Release => true,
        _ => false,
    }
}

/// Whether it is a call of bare mode.
pub fn is_of_bare_mode(call: &Call) -> bool
    ensures { result ≡ is_of_bare_mode call.now }
{
    match call {
        Call::Invoke { .. } | Call::Answer { .. } | Call::Refuse { .. } => true,
        _ => false,
    }
}

/// Whether an opening or a recovery isn't answered yet.
pub fn is_opening(phase: Phase) -> bool
    ensures { result ≡ is_opening phase }
{
    match phase {
        Phase::Opening | Phase::Recovering => true,
        _ => false,
    }
}

/// Whether a recovery isn't answered yet.
pub fn is_recovering(phase: Phase) -> bool
    ensures { result ≡ is_recovering phase }
{
    match phase {
        Phase::Recovering => true,
        _ => false,
    }
}

/// Whether a responder waits for a connection.
pub fn is_waiting(phase: Phase) -> bool
    ensures { result ≡ is_waiting phase }
{
    match phase {
        Phase::Idle | Phase::Broken => true,
        _ => false,
    }
}
