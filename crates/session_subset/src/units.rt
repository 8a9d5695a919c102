//! The functional units of the session protocol, and what a CONNECT must say of them.

ghost use Rattle.std.specs.Prelude.{◌≡◌};
ghost use Rattle.session_subset.specs.Units.{has_bit, both_have, selected, are_enough, version_is_2, is_at_responder, starts_at_1, keeps_tokens, is_acceptable};

use osi_base::SessionConnect;

/// The functional units that both ends want (X.215 8.1), out of those that the mode uses.
#[derive(Clone, Copy, Debug, PartialEq, Eq)]
pub struct FunctionalUnits {
    /// The half-duplex functional unit, of reliable mode.
    pub half_duplex: bool,
    /// The duplex functional unit, of direct mode.
    pub duplex: bool,
    /// The minor synchronize functional unit, of both modes.
    pub minor_synchronize: bool,
    /// The resynchronize functional unit, of direct mode.
    pub resynchronize: bool,
    /// The activity management functional unit, of reliable mode.
    pub activity_management: bool,
    /// The typed data functional unit, of both modes.
    pub typed_data: bool,
}

/// Whether this bit is set.
fn has_bit(requirements: u16, bit: u16) -> bool
    ensures { result ≡ has_bit requirements bit }
{
    requirements & bit != 0
}

fn both_have(proposed: u16, answered: u16, bit: u16) -> bool
    ensures { result ≡ both_have proposed answered bit }
{
    has_bit(proposed, bit) && has_bit(answered, bit)
}

/// The units of the mode that both ends want.
pub fn selected(reliable: bool, proposed: u16, answered: u16) -> FunctionalUnits
    ensures { result ≡ selected reliable proposed answered }
{
    FunctionalUnits {
        half_duplex: reliable && both_have(proposed, answered, 0x0001),
        duplex: !reliable && both_have(proposed, answered, 0x0002),
        minor_synchronize: both_have(proposed, answered, 0x0008),
        resynchronize: !reliable && both_have(proposed, answered, 0x0020),
        activity_management: reliable && both_have(proposed, answered, 0x0040),
        typed_data: both_have(proposed, answered, 0x0400),
    }
}

/// Whether these are the units without which the mode can't work.
pub fn are_enough(reliable: bool, units: FunctionalUnits) -> bool
    ensures { result ≡ are_enough reliable units }
{
    if reliable {
        units.half_duplex && units.minor_synchronize && units.activity_management
    } else {
        units.duplex
    }
}

/// Whether version 2 is there.
pub fn version_is_2(version: Option<u8>) -> bool
    ensures { result ≡ version_is_2 version }
{
    match version {
        Some(bits) => bits & 0x02 != 0,
        None => false,
    }
}

/// Whether the first mark will have number 1.
fn starts_at_1(initial: Option<u32>) -> bool
    ensures { result ≡ starts_at_1 initial }
{
    match initial {
        Some(number) => number == 1,
        None => true,
    }
}

/// Whether no token is put at the responder.
fn keeps_tokens(setting: Option<u8>) -> bool
    ensures { result ≡ keeps_tokens setting }
{
    match setting {
        Some(bits) => {
            bits / 64 % 4 != 1 && bits / 16 % 4 != 1 && bits / 4 % 4 != 1 && bits % 4 != 1
        }
        None => true,
    }
}

/// Whether a responder of this mode may accept a CONNECT (X.225 8.3.1): version 2 is there (22),
/// the requirements (20) have the units that the mode needs, the initial number (23), if there is
/// one, is 1, and no token is put at the responder (26). One that isn't acceptable is taken, and is
/// to be refused.
pub fn is_acceptable(reliable: bool, connect: &SessionConnect) -> bool
    ensures { result ≡ is_acceptable reliable connect.now }
{
    let wanted = connect.requirements.unwrap_or(0);
    version_is_2(connect.version)
        && are_enough(reliable, selected(reliable, wanted, wanted))
        && starts_at_1(connect.initial)
        && keeps_tokens(connect.token_setting)
}
