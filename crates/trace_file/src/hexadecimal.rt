//! Octets as hexadecimal digits.

ghost use Rattle.std.specs.Prelude.{◌≡◌, ◌<◌, ◌∷◌, length, IfOk, MatchOption};
ghost use Rattle.trace_file.specs.Reading.{more_octets, added};

use osi_base::{NoMemory, Octets, octet_of_digits};

/// The first two octets and those behind them.
fn first_pair(field: &[u8]) -> Option<(u8, u8, &[u8])>
    ensures { MatchOption result (length field.now < 2) (λ x. field.now ≡ x.0 ∷ x.1 ∷ x.2.now) }
{
    match field {
        [high, low, rest @ ..] => Some((*high, *low, rest)),
        _ => None,
    }
}

/// Puts the octets of a field of digits behind others; false where they aren't pairs of digits, and
/// then some of them may be put.
#[tactic(auto, unfolding(crate::specs::Reading::more_octets))]
pub(crate) fn push_field(octets: &mut Octets, field: &[u8]) -> Result<bool, NoMemory>
    ensures { IfOk result (λ whole. added whole octets.new ≡ more_octets octets.old field.now) }
{
    let mut rest = field;
    while let Some((high, low, more)) = first_pair(rest) {
        let Some(octet) = octet_of_digits(high, low) else {
            return Ok(false);
        };
        octets.push(octet)?;
        rest = more;
    }
    Ok(rest.is_empty())
}
