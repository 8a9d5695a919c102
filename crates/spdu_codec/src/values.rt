//! The values of parameters.

ghost use Rattle.std.specs.Prelude.{◌≡◌, ◌≤◌, IfSome};
ghost use Rattle.spdu_codec.specs.Values.{octet_of, pair_of, number_of, mark_of};

/// The last number of an activity.
const LAST_NUMBER: u32 = 999_999;

/// The octet of a value that has one.
pub(crate) fn octet_of(value: &[u8]) -> Option<u8>
    ensures { result ≡ octet_of value.now }
{
    match value {
        [octet] => Some(*octet),
        _ => None,
    }
}

/// The number in a value of two octets.
pub(crate) fn pair_of(value: &[u8]) -> Option<u16>
    ensures { result ≡ pair_of value.now }
{
    match value {
        [high, low] => Some(u16::from(*high) * 256 + u16::from(*low)),
        _ => None,
    }
}

/// The number that digits without a leading zero tell, 1 to 999,999.
#[tactic(auto, unfolding(crate::specs::Values::more_digits))]
pub(crate) fn number_of(value: &[u8]) -> Option<u32>
    ensures { result ≡ number_of value.now }
{
    if value.is_empty() || value[0] == b'0' {
        return None;
    }
    let mut number = 0;
    let mut digits = value;
    while let [digit, rest @ ..] = digits {
        if *digit < b'0' || *digit > b'9' {
            return None;
        }
        number = 10 * number + u32::from(*digit - b'0');
        if number > LAST_NUMBER {
            return None;
        }
        digits = rest;
    }
    Some(number)
}

/// The same, or 0 for a single zero.
pub(crate) fn mark_of(value: &[u8]) -> Option<u32>
    ensures { result ≡ mark_of value.now }
{
    match value {
        [b'0'] => Some(0),
        _ => number_of(value),
    }
}
