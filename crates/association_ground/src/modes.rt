//! Modes, and the functional units that each proposes.

ghost use Rattle.std.specs.Prelude.{◌≡◌};
ghost use Rattle.end_rules.specs.Base.{is_bare, is_direct, is_reliable};
ghost use Rattle.end_rules.specs.Units.{proposed_units};

use dialogue::Mode;

/// Whether it is bare mode.
pub fn is_bare(mode: Mode) -> bool
    ensures { result ≡ is_bare mode }
{
    match mode {
        Mode::Bare => true,
        Mode::Direct | Mode::Reliable => false,
    }
}

/// Whether it is direct mode.
pub fn is_direct(mode: Mode) -> bool
    ensures { result ≡ is_direct mode }
{
    match mode {
        Mode::Direct => true,
        Mode::Bare | Mode::Reliable => false,
    }
}

/// Whether it is reliable mode.
pub fn is_reliable(mode: Mode) -> bool
    ensures { result ≡ is_reliable mode }
{
    match mode {
        Mode::Reliable => true,
        Mode::Bare | Mode::Direct => false,
    }
}

/// The functional units that an initiator proposes.
pub fn proposed_units(mode: Mode) -> u16
    ensures { result ≡ proposed_units mode }
{
    match mode {
        Mode::Reliable => 1097,
        Mode::Direct | Mode::Bare => 1066,
    }
}
