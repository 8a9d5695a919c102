//! Functional units of the session and what they allow (X.225 5.9, 8.3.1; X.226 6.3, 6.7).

ghost use Rattle.std.specs.Prelude.{◌≡◌};
ghost use Rattle.end_rules.specs.Units.{has_units, has_marks, has_restarts, has_activities, has_typed_data, proposed_units, needed_units, selected_with, has_version_two, has_both, manages_with, has_token};
ghost use Rattle.association_state.specs.Seen.{base_in, seen};

use association_state::association_ground_layer::{is_direct, is_reliable, proposed_units};
use association_state::{Basis, Body};
use dialogue::Mode;
use osi_base::BitString;

/// Whether all these bits are set.
pub fn has_units(bits: u16, requirements: u16) -> bool
    ensures { result ≡ has_units bits requirements }
{
    requirements & bits == bits
}

/// Whether minor synchronize is among these units.
pub fn has_marks(requirements: u16) -> bool
    ensures { result ≡ has_marks requirements }
{
    has_units(8, requirements)
}

/// Whether resynchronize is among these units.
pub fn has_restarts(requirements: u16) -> bool
    ensures { result ≡ has_restarts requirements }
{
    has_units(32, requirements)
}

/// Whether activity management is among these units.
pub fn has_activities(requirements: u16) -> bool
    ensures { result ≡ has_activities requirements }
{
    has_units(64, requirements)
}

/// Whether typed data is among these units.
pub fn has_typed_data(requirements: u16) -> bool
    ensures { result ≡ has_typed_data requirements }
{
    has_units(1024, requirements)
}

/// The functional units that a mode needs.
pub fn needed_units(mode: Mode) -> u16
    ensures { result ≡ needed_units mode }
{
    match mode {
        Mode::Reliable => 73,
        Mode::Direct | Mode::Bare => 2,
    }
}

/// The units of both ends; a parameter that lacks selects none.
pub fn selected_with(mode: Mode, theirs: Option<u16>) -> u16
    ensures { result ≡ selected_with mode theirs }
{
    proposed_units(mode) & theirs.unwrap_or(0)
}

/// Whether version 2 of the session protocol is among these (X.225 8.3.1).
pub fn has_version_two(versions: Option<u8>) -> bool
    ensures { result ≡ has_version_two versions }
{
    match versions {
        None => false,
        Some(versions) => has_units(2, versions as u16),
    }
}

/// Both bits of the presentation requirements: context management and restoration (X.226 8.2.1.9).
fn has_both(requirements: &Option<BitString>) -> bool
    ensures { result ≡ has_both requirements.now }
{
    match requirements {
        None => false,
        Some(bits) => bits.has(0) && bits.has(1),
    }
}

/// Whether context management and restoration are selected: both are proposed, typed data is
/// selected, and marks with restarts or activities are.
pub fn manages_with(requirements: &Option<BitString>, selected: u16) -> bool
    ensures { result ≡ manages_with requirements.now selected }
{
    has_both(requirements)
        && has_typed_data(selected)
        && (has_marks(selected) && has_restarts(selected) || has_activities(selected))
}

/// Whether there is a token that can be given and asked for.
pub fn has_token(basis: &Basis<'_>, body: &Body) -> bool
    ensures { result ≡ has_token (base_in basis.now) (seen body.now) }
{
    is_reliable(basis.config.mode) || is_direct(basis.config.mode) && has_marks(body.link.selected)
}
