//! A break of the connection.

ghost use Rattle.std.specs.Prelude.{◌≡◌};
ghost use Rattle.end_rules.specs.History.{broken_phase, after_broke};
ghost use Rattle.association_hearing.specs.association_state.Seen.{base_in, seen};

use association_ground::is_reliable;
use association_hearing::association_state_layer::{Awaited, Basis, Body, Stage};
use association_hearing::suspend;
use dialogue::{Mode, Phase};

/// The phase after a break (this project's own rule).
fn broken_phase(mode: Mode, phase: Phase) -> Phase
    ensures { result ≡ broken_phase mode phase }
{
    match phase {
        Phase::Idle => Phase::Idle,
        Phase::Over => Phase::Over,
        Phase::Dead => Phase::Dead,
        Phase::Opening => Phase::Over,
        Phase::Up | Phase::Releasing | Phase::Broken | Phase::Recovering => match mode {
            Mode::Reliable => Phase::Broken,
            Mode::Direct => Phase::Over,
            Mode::Bare => Phase::Over,
        },
    }
}

/// The connection broke: nothing went over the next one, and nothing is awaited; a transfer in
/// progress is suspended; out of reliable mode the open invocations are cut.
pub fn connection_broke(basis: &Basis<'_>, body: &mut Body)
    ensures { seen body.new ≡ after_broke (base_in basis.now) (seen body.old) }
{
    suspend(body);
    body.link.phase = broken_phase(basis.config.mode, body.link.phase);
    body.link.stage = Stage::Unused;
    body.link.gave = false;
    body.link.awaits = Awaited::NoAnswer;
    body.receiving.active = false;
    if !is_reliable(basis.config.mode) {
        body.calls.clear();
    }
}
