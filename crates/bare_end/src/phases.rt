//! The phase after a break.

ghost use Rattle.std.specs.Prelude.{◌≡◌};
ghost use Rattle.dialogue.specs.declared.config.Mode.TheVariants.{Bare};
ghost use Rattle.end_rules.specs.History.{broken_phase};

use dialogue::Phase;

/// The phase after a break.
pub fn broken(phase: Phase) -> Phase
    ensures { result ≡ broken_phase Bare phase }
{
    match phase {
        Phase::Idle => Phase::Idle,
        Phase::Dead => Phase::Dead,
        Phase::Over
        | Phase::Opening
        | Phase::Up
        | Phase::Releasing
        | Phase::Broken
        | Phase::Recovering => Phase::Over,
    }
}
