//! Decimal numbers.

ghost use Rattle.std.specs.Prelude.{◌≡◌, ◌^◌, ◌+◌, ◌-◌, ◌<◌, ℕ, pos, negsuc, Some, None};
ghost use Rattle.std.specs.Option.{option_map};
ghost use Rattle.value_text.specs.Numbers.{leads_well, lengthened, below, natural_of, number_of, identifier_of, integer_of, negative};

/// Whether the text isn't empty and has no leading zero.
fn leads_well(text: &[u8]) -> bool
    ensures { result ≡ leads_well text.now }
{
    match text {
        [] => false,
        [_] => true,
        [first, ..] => *first != b'0',
    }
}

/// The number with one more digit at its end, below 2^64.
fn lengthened(value: u64, digit: u8) -> Option<u64>
    ensures { result ≡ lengthened value digit }
{
    if !digit.is_ascii_digit() {
        return None;
    }
    value.checked_mul(10)?.checked_add(u64::from(digit - b'0'))
}

/// The number that the text writes in decimal digits without a leading zero, below 2^64.
#[tactic(auto, using(crate::proofs::Numbers::read_none, crate::proofs::Numbers::read_some, crate::proofs::Numbers::read_end))]
pub(crate) fn decimal_natural(text: &[u8]) -> Option<u64>
    ensures { result ≡ below (2 ^ 64) (natural_of text.now) }
{
    if !leads_well(text) {
        return None;
    }
    let mut value: u64 = 0;
    for digit in text {
        value = lengthened(value, *digit)?;
    }
    Some(value)
}

/// The number below 2^32 that the text writes in decimal digits without a leading zero; else
/// `None`.
pub fn decimal_number(text: &[u8]) -> Option<u32>
    ensures { result ≡ number_of text.now }
{
    u32::try_from(decimal_natural(text)?).ok()
}

/// The identifier of an invocation: the number below 2^63 that the text writes in decimal digits
/// without a leading zero; else `None`.
pub fn invocation_identifier(text: &[u8]) -> Option<i64>
    ensures { result ≡ identifier_of text.now }
{
    i64::try_from(decimal_natural(text)?).ok()
}

/// The opposite of a number that isn't 0.
fn negative(number: u64) -> Option<i64>
    ensures { result ≡ negative number }
{
    let less = i64::try_from(number.checked_sub(1)?).ok()?;
    Some(-1 - less)
}

/// The number that the text writes in decimal, with a `-` before it where it is below 0.
pub fn decimal_integer(text: &[u8]) -> Option<i64>
    ensures { result ≡ integer_of text.now }
{
    match text {
        [b'-', digits @ ..] => negative(decimal_natural(digits)?),
        _ => invocation_identifier(text),
    }
}
