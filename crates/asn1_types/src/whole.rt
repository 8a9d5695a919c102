//! One whole value of any type, as octets, and what stands behind one (X.690 8.1).

ghost use Rattle.std.specs.Prelude.{◌≡◌, ◌≤◌, length, drop, option_map, IfSome};
ghost use Rattle.asn1_types.specs.Whole.{number_256, behind_digits, behind_high, behind_identifier, behind_counted, behind_sized, is_constructed, is_marked, is_ended, behind_values, behind_whole, is_whole};

/// What stands behind the digits of a tag number (X.690 8.1.2.4.2).
fn behind_digits(digits: &[u8]) -> Option<&[u8]>
    ensures behind { option_map (λ rest. rest.now) result ≡ behind_digits digits.now }
    ensures within { IfSome result (λ more. length more.now ≤ length digits.now) }
{
    for (index, digit) in digits.iter().enumerate() {
        if *digit < 128 {
            return Some(&digits[index + 1..]);
        }
    }
    None
}

/// What stands behind the digits of a tag number of 31 or more without a leading zero digit.
fn behind_high(digits: &[u8]) -> Option<&[u8]>
    ensures behind { option_map (λ rest. rest.now) result ≡ behind_high digits.now }
    ensures within { IfSome result (λ more. length more.now ≤ length digits.now) }
{
    match digits {
        [] | [0..=30, ..] | [128, ..] => None,
        _ => behind_digits(digits),
    }
}

/// What stands behind an identifier of any class and number but UNIVERSAL 0 (X.690 8.1.2).
pub fn behind_identifier(octets: &[u8]) -> Option<&[u8]>
    ensures behind { option_map (λ rest. rest.now) result ≡ behind_identifier octets.now }
    ensures within { IfSome result (λ more. length more.now ≤ length octets.now) }
{
    match octets {
        [] | [0, ..] | [32, ..] => None,
        [first, rest @ ..] => {
            if *first % 32 == 31 {
                behind_high(rest)
            } else {
                Some(rest)
            }
        }
    }
}

/// The number that at most 8 octets are, the most significant first.
#[inline(always)]
pub fn number_256(octets: &[u8]) -> u64
    requires { length octets.now ≤ 8 }
    ensures { result ≡ number_256 0 octets.now }
{
    let mut number: u64 = 0;
    for octet in octets {
        number = 256 * number + *octet as u64;
    }
    number
}

/// What stands behind `size` octets of a length, and then that many octets (X.690 8.1.3.5).
fn behind_counted(size: usize, rest: &[u8]) -> Option<&[u8]>
    ensures behind { option_map (λ rest. rest.now) result ≡ behind_counted size rest.now }
    ensures within { IfSome result (λ more. length more.now ≤ length rest.now) }
{
    if size < 1 || 8 < size || rest.len() < size {
        return None;
    }
    let count = number_256(&rest[..size]);
    let contents = &rest[size..];
    if (contents.len() as u64) < count {
        return None;
    }
    Some(&contents[count as usize..])
}

/// What stands behind a definite length, and then that many octets (X.690 8.1.3.3).
fn behind_sized(octets: &[u8]) -> Option<&[u8]>
    ensures behind { option_map (λ rest. rest.now) result ≡ behind_sized octets.now }
    ensures within { IfSome result (λ more. length more.now ≤ length octets.now) }
{
    match octets {
        [] => None,
        [first, rest @ ..] => {
            if *first < 128 {
                let count = *first as usize;
                if rest.len() < count {
                    return None;
                }
                Some(&rest[count..])
            } else {
                behind_counted(*first as usize - 128, rest)
            }
        }
    }
}

/// Whether an identifier of a constructed value stands here (X.690 8.1.2.5).
fn is_constructed(octets: &[u8]) -> bool
    ensures { result ≡ is_constructed octets.now }
{
    match octets {
        [] => false,
        [first, ..] => *first / 32 % 2 == 1,
    }
}

/// Whether an indefinite length stands here (X.690 8.1.3.6).
pub fn is_marked(octets: &[u8]) -> bool
    ensures { result ≡ is_marked octets.now }
{
    match octets {
        [] => false,
        [first, ..] => *first == 128,
    }
}

/// Whether end-of-contents stand here (X.690 8.1.5).
pub fn is_ended(octets: &[u8]) -> bool
    ensures { result ≡ is_ended octets.now }
{
    match octets {
        [] | [_] => false,
        [first, second, ..] => *first == 0 && *second == 0,
    }
}

/// What stands behind so many octets.
fn behind(count: usize, octets: &[u8]) -> &[u8]
    requires { count ≤ length octets.now }
    ensures is { result.now ≡ drop count octets.now }
    ensures within { length result.now ≤ length octets.now }
{
    &octets[count..]
}

/// What stands behind whole values and end-of-contents.
#[cycle(wholes)]
fn behind_values(levels: u32, octets: &[u8]) -> Option<&[u8]>
    ensures behind { option_map (λ rest. rest.now) result ≡ behind_values (behind_whole levels)
        (length octets.now) octets.now }
    ensures within { IfSome result (λ more. length more.now ≤ length octets.now) }
{
    let mut rest = octets;
    for _turn in 0..octets.len() {
        if is_ended(rest) {
            return Some(behind(2, rest));
        }
        rest = behind_whole(levels, rest)?;
    }
    None
}

/// What stands behind one whole value with at most `levels` levels in indefinite contents.
#[cycle(wholes)]
pub fn behind_whole(levels: u32, octets: &[u8]) -> Option<&[u8]>
    ensures behind { option_map (λ rest. rest.now) result ≡ behind_whole levels octets.now }
    ensures within { IfSome result (λ more. length more.now ≤ length octets.now) }
{
    if levels == 0 {
        return None;
    }
    let rest = behind_identifier(octets)?;
    if is_marked(rest) && is_constructed(octets) {
        behind_values(levels - 1, behind(1, rest))
    } else {
        behind_sized(rest)
    }
}

/// Whether these octets are one whole value of any type (X.690 8.1): any identifier but UNIVERSAL
/// 0, and a definite length with that many octets, or an indefinite length with whole values and
/// end-of-contents, 32 levels deep at most.
#[tactic(auto, unfolding(crate::specs::Whole::is_whole))]
pub fn is_whole(octets: &[u8]) -> bool
    ensures { result ≡ is_whole octets.now }
{
    match behind_whole(32, octets) {
        Some([]) => true,
        _ => false,
    }
}
