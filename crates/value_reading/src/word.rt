//! Words of a text, and the spaces around them.

ghost use Rattle.std.specs.Prelude.{◌≡◌, ◌≤◌, length, take, drop, option_map};
ghost use Rattle.value_reading.specs.Words.{len_to, is_sign, word_len, word, behind_word, after_spaces, behind_sign, after_comma, closed_by, after_brace};

/// How many octets stand before the first such mark, or all of them.
#[tactic(auto, using(crate::proofs::Until::goes_on, crate::proofs::Until::stops_here, crate::proofs::Until::ends))]
pub fn len_to(text: &[u8], mark: u8) -> usize
    ensures value { result ≡ len_to mark text.now }
    ensures within { result ≤ length text.now }
{
    for place in 0..text.len() {
        if text[place] == mark {
            return place;
        }
    }
    text.len()
}

/// Whether this octet ends a word: a space, a quote, a comma, a colon or a brace.
fn is_sign(octet: u8) -> bool
    ensures { result ≡ is_sign octet }
{
    octet == b' '
        || octet == b'"'
        || octet == b'\''
        || octet == b','
        || octet == b':'
        || octet == b'{'
        || octet == b'}'
}

/// How many octets stand before the first sign.
#[tactic(auto, using(crate::proofs::Until::goes_on, crate::proofs::Until::stops_here, crate::proofs::Until::ends))]
fn word_len(text: &[u8]) -> usize
    ensures value { result ≡ word_len text.now }
    ensures within { result ≤ length text.now }
{
    for place in 0..text.len() {
        if is_sign(text[place]) {
            return place;
        }
    }
    text.len()
}

/// What stands before the first sign.
pub(crate) fn word(text: &[u8]) -> &[u8]
    ensures { result.now ≡ word text.now }
{
    &text[..word_len(text)]
}

/// The first sign and what follows it.
pub(crate) fn behind_word(text: &[u8]) -> &[u8]
    ensures { result.now ≡ behind_word text.now }
{
    &text[word_len(text)..]
}

/// A text without the spaces before it.
pub fn after_spaces(text: &[u8]) -> &[u8]
    ensures { result.now ≡ after_spaces text.now }
{
    let mut rest = text;
    while let [b' ', more @ ..] = rest {
        rest = more;
    }
    rest
}

/// What follows this sign and the spaces behind it, where a text begins with it.
pub(crate) fn behind_sign(text: &[u8], sign: u8) -> Option<&[u8]>
    ensures { option_map (λ rest. rest.now) result ≡ behind_sign sign text.now }
{
    match text {
        [first, rest @ ..] if *first == sign => Some(after_spaces(rest)),
        _ => None,
    }
}

/// What follows a comma and the spaces around it.
pub(crate) fn after_comma(text: &[u8]) -> Option<&[u8]>
    ensures { option_map (λ rest. rest.now) result ≡ after_comma text.now }
{
    behind_sign(after_spaces(text), b',')
}

/// What follows the brace with which a text begins.
pub(crate) fn closed_by(text: &[u8]) -> Option<&[u8]>
    ensures { option_map (λ rest. rest.now) result ≡ closed_by text.now }
{
    match text {
        [b'}', rest @ ..] => Some(rest),
        _ => None,
    }
}

/// What follows the brace that closes, and the spaces before it.
pub(crate) fn after_brace(text: &[u8]) -> Option<&[u8]>
    ensures { option_map (λ rest. rest.now) result ≡ after_brace text.now }
{
    closed_by(after_spaces(text))
}

/// A text from this place on.
pub(crate) fn from(text: &[u8], place: usize) -> &[u8]
    requires { place ≤ length text.now }
    ensures { result.now ≡ drop place text.now }
{
    &text[place..]
}

/// A text up to this place.
pub(crate) fn up_to(text: &[u8], place: usize) -> &[u8]
    requires { place ≤ length text.now }
    ensures { result.now ≡ take place text.now }
{
    &text[..place]
}
