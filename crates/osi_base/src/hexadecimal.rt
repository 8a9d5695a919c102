//! Octets of two hexadecimal digits each.

ghost use Rattle.std.specs.Prelude.{◌≡◌, ◌<◌, IfSome};
ghost use Rattle.osi_base.specs.Hexadecimal.{digit_of, octet_of};

/// The number of a hexadecimal digit, in either case.
fn digit_of(digit: u8) -> Option<u8>
    ensures value { result ≡ digit_of digit }
    ensures small { IfSome result (λ n. n < 16) }
{
    match digit {
        b'0'..=b'9' => Some(digit - b'0'),
        b'A'..=b'F' => Some(digit - b'A' + 10),
        b'a'..=b'f' => Some(digit - b'a' + 10),
        _ => None,
    }
}

/// The octet of two hexadecimal digits.
pub fn octet_of_digits(high: u8, low: u8) -> Option<u8>
    ensures { result ≡ octet_of high low }
{
    let high = digit_of(high)?;
    let low = digit_of(low)?;
    Some(16 * high + low)
}
