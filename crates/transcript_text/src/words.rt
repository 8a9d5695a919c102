//! The words of sides, modes and phases in texts.

ghost use Rattle.std.specs.Prelude.{◌≡◌};
ghost use Rattle.dialogue.specs.Sides.{other};
ghost use Rattle.transcript_text.specs.Words.{side_word, mode_word, phase_word};

use dialogue::{Mode, Phase};
use osi_base::Side;

/// The letter of an end.
pub fn side_word(side: Side) -> &'static str
    ensures { result.now ≡ side_word side }
{
    match side {
        Side::A => "A",
        Side::B => "B",
    }
}

/// The other end.
pub fn other(side: Side) -> Side
    ensures { result ≡ other side }
{
    match side {
        Side::A => Side::B,
        Side::B => Side::A,
    }
}

/// The word of a mode.
pub fn mode_word(mode: Mode) -> &'static str
    ensures { result.now ≡ mode_word mode }
{
    match mode {
        Mode::Bare => "bare",
        Mode::Direct => "direct",
        Mode::Reliable => "reliable",
    }
}

/// The word of a phase.
pub fn phase_word(phase: Phase) -> &'static str
    ensures { result.now ≡ phase_word phase }
{
    match phase {
        Phase::Idle => "idle",
        Phase::Opening => "opening",
        Phase::Up => "up",
        Phase::Releasing => "releasing",
        Phase::Broken => "broken",
        Phase::Recovering => "recovering",
        Phase::Over => "over",
        Phase::Dead => "dead",
    }
}
