//! The words of the notation, and the numbers that tokens write.

ghost use Rattle.std.specs.Prelude.{◌≡◌, ◌≤◌, IfSome, true};
ghost use Rattle.std.specs.List.{list_any, list_all};
ghost use Rattle.std.specs.Char.{is_ascii_digit};
ghost use Rattle.notation_tokens.specs.Lexeme.{same};
ghost use Rattle.notation_tokens.specs.Forms.{is_word, goes_on_well};
ghost use Rattle.notation_tokens.specs.Words.{is_name_of_type, is_name_of_value, is_quoted, is_unsupported, is_type_name, is_value_name, is_decimal, number, int, text_kind_word, root_name, end_word, bool_word};

use crate::token::TokenKind;

/// Whether two texts have the same octets.
#[tactic(auto, unfolding(crate::specs::Lexeme::same))]
pub fn is_same(left: &[u8], right: &[u8]) -> bool
    ensures { result ≡ same left.now right.now }
{
    left == right
}

/// Whether the text is one of these words.
pub fn is_one_of(text: &[u8], words: &[&[u8]]) -> bool
    ensures { result ≡ list_any (λ word. same text.now word.now) words.now }
{
    words.iter().any(|word| is_same(text, word))
}

/// Whether octets go on with a word behind its first letter, and end it: letters, digits and single
/// hyphens inside.
fn ends_word(text: &[u8]) -> bool
    ensures { result ≡ goes_on_well true text.now }
{
    let mut is_bare = true;
    let mut rest = text;
    while let [octet, behind @ ..] = rest {
        if *octet == b'-' {
            if !is_bare {
                return false;
            }
            is_bare = false;
        } else {
            if !octet.is_ascii_alphanumeric() {
                return false;
            }
            is_bare = true;
        }
        rest = behind;
    }
    is_bare
}

/// Whether octets are a Word: an ASCII letter, and then letters, digits and single hyphens inside.
pub fn is_word(text: &[u8]) -> bool
    ensures { result ≡ is_word text.now }
{
    match text {
        [first, rest @ ..] => first.is_ascii_alphabetic() && ends_word(rest),
        _ => false,
    }
}

/// Whether octets are a Name: a Word that begins with an upper-case letter, and that the grammar
/// neither quotes nor leaves out.
pub fn is_name_of_type(text: &[u8]) -> bool
    ensures { result ≡ is_name_of_type text.now }
{
    is_word(text) && is_upper_name(TokenKind::Word, text)
}

/// Whether octets are a name: a Word that begins with a lower-case letter.
pub fn is_name_of_value(text: &[u8]) -> bool
    ensures { result ≡ is_name_of_value text.now }
{
    is_word(text) && is_lower_name(TokenKind::Word, text)
}

/// Whether the grammar quotes this word, so that it is no name.
#[tactic(auto, unfolding(crate::specs::Words::is_quoted))]
pub fn is_quoted_word(text: &[u8]) -> bool
    ensures { result ≡ is_quoted text.now }
{
    is_one_of(
        text,
        &[
            b"DEFINITIONS",
            b"EXPLICIT",
            b"IMPLICIT",
            b"TAGS",
            b"BEGIN",
            b"END",
            b"IMPORTS",
            b"FROM",
            b"OPERATION",
            b"ERROR",
            b"ARGUMENT",
            b"OPTIONAL",
            b"DEFAULT",
            b"RESULT",
            b"RETURN",
            b"ERRORS",
            b"LINKED",
            b"SYNCHRONOUS",
            b"IDEMPOTENT",
            b"ALWAYS",
            b"RESPONDS",
            b"INVOKE",
            b"PRIORITY",
            b"RESULT-PRIORITY",
            b"CODE",
            b"PARAMETER",
            b"TRUE",
            b"FALSE",
            b"UNIVERSAL",
            b"APPLICATION",
            b"PRIVATE",
            b"BOOLEAN",
            b"NULL",
            b"INTEGER",
            b"ENUMERATED",
            b"OCTET",
            b"STRING",
            b"SIZE",
            b"BIT",
            b"OBJECT",
            b"IDENTIFIER",
            b"UTF8String",
            b"IA5String",
            b"VisibleString",
            b"PrintableString",
            b"NumericString",
            b"SEQUENCE",
            b"OF",
            b"SET",
            b"CHOICE",
            b"MIN",
            b"MAX",
        ],
    )
}

/// Whether this word or sign belongs to what is left out of the notation.
#[tactic(auto, unfolding(crate::specs::Words::is_unsupported))]
pub fn is_unsupported_word(text: &[u8]) -> bool
    ensures { result ≡ is_unsupported text.now }
{
    is_one_of(
        text,
        &[
            b"AUTOMATIC",
            b"EXPORTS",
            b"...",
            b"REAL",
            b"ANY",
            b"CLASS",
            b"COMPONENTS",
            b"WITH",
            b"EMBEDDED",
            b"EXTERNAL",
            b"TYPE-IDENTIFIER",
            b"ABSENT",
            b"PRESENT",
            b"/*",
        ],
    )
}

/// Whether each octet is a digit.
fn all_digits(text: &[u8]) -> bool
    ensures { result ≡ list_all is_ascii_digit text.now }
{
    text.iter().all(|octet| octet.is_ascii_digit())
}

/// Whether the text is digits without a leading zero.
fn is_decimal_text(text: &[u8]) -> bool
    ensures { result ≡ is_decimal text.now }
{
    match text {
        [] => false,
        [digit] => digit.is_ascii_digit(),
        [first, rest @ ..] => first.is_ascii_digit() && *first != b'0' && all_digits(rest),
    }
}

/// The number that digits without a leading zero write, where it is at most `most`.
#[tactic(auto, unfolding(crate::specs::Words::number))]
pub fn natural(text: &[u8], most: u64) -> Option<u64>
    ensures value { result ≡ number most text.now }
    ensures most { IfSome result (λ value. value ≤ most) }
{
    if !is_decimal_text(text) {
        return None;
    }
    match str::from_utf8(text) {
        Ok(digits) => match digits.parse::<u64>() {
            Ok(value) => if value <= most { Some(value) } else { None },
            Err(_) => None,
        },
        Err(_) => None,
    }
}

/// The integer that digits without a leading zero write, with a `-` before them or none.
#[tactic(auto, unfolding(crate::specs::Words::int))]
pub fn integer(text: &[u8]) -> Option<i64>
    ensures { result ≡ int text.now }
{
    match text {
        [] => None,
        [b'-', digits @ ..] => match natural(digits, 1 << 63) {
            None | Some(0) => None,
            Some(value) => Some(-1 - (value - 1) as i64),
        },
        _ => match natural(text, i64::MAX as u64) {
            None => None,
            Some(value) => Some(value as i64),
        },
    }
}

/// Whether this is a name that begins with an upper-case letter and isn't a word of the grammar's.
#[tactic(auto, unfolding(crate::specs::Words::is_type_name))]
pub fn is_upper_name(kind: TokenKind, text: &[u8]) -> bool
    ensures { result ≡ is_type_name kind text.now }
{
    match (kind, text) {
        (TokenKind::Word, [first, ..]) => {
            first.is_ascii_uppercase() && !is_quoted_word(text) && !is_unsupported_word(text)
        }
        _ => false,
    }
}

/// Whether this is a name that begins with a lower-case letter.
#[tactic(auto, unfolding(crate::specs::Words::is_value_name))]
pub fn is_lower_name(kind: TokenKind, text: &[u8]) -> bool
    ensures { result ≡ is_value_name kind text.now }
{
    match (kind, text) {
        (TokenKind::Word, [first, ..]) => first.is_ascii_lowercase(),
        _ => false,
    }
}

/// The number of the kind of text that this word stands for.
#[tactic(auto, unfolding(crate::specs::Words::text_kind_word))]
pub fn text_word(text: &[u8]) -> Option<u8>
    ensures { result ≡ text_kind_word text.now }
{
    if is_same(text, b"UTF8String") {
        Some(0)
    } else if is_same(text, b"IA5String") {
        Some(1)
    } else if is_same(text, b"VisibleString") {
        Some(2)
    } else if is_same(text, b"PrintableString") {
        Some(3)
    } else if is_same(text, b"NumericString") {
        Some(4)
    } else {
        None
    }
}

/// The first arc that this word stands for alone.
#[tactic(auto, unfolding(crate::specs::Words::root_name))]
pub fn arc_word(text: &[u8]) -> Option<u32>
    ensures value { result ≡ root_name text.now }
    ensures most { IfSome result (λ root. root ≤ 2) }
{
    if is_same(text, b"itu-t") || is_same(text, b"ccitt") {
        Some(0)
    } else if is_same(text, b"iso") {
        Some(1)
    } else if is_same(text, b"joint-iso-itu-t") || is_same(text, b"joint-iso-ccitt") {
        Some(2)
    } else {
        None
    }
}

/// The end of a range that this word or number stands for.
#[tactic(auto, unfolding(crate::specs::Words::end_word))]
pub fn range_end(text: &[u8]) -> Option<i64>
    ensures { result ≡ end_word text.now }
{
    if is_same(text, b"MIN") {
        Some(i64::MIN)
    } else if is_same(text, b"MAX") {
        Some(i64::MAX)
    } else {
        integer(text)
    }
}

/// The truth value that this word stands for.
#[tactic(auto, unfolding(crate::specs::Words::bool_word))]
pub fn truth(text: &[u8]) -> Option<bool>
    ensures { result ≡ bool_word text.now }
{
    if is_same(text, b"TRUE") {
        Some(true)
    } else if is_same(text, b"FALSE") {
        Some(false)
    } else {
        None
    }
}
