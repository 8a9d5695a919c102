//! How a text is cut from the left into tokens, white space and comments, up to where that stops.

ghost use Rattle.std.specs.Prelude.{◌≡◌, ◌≤◌, ◌<◌, ◌+◌, ◌^◌, Some, length, IfOk};
ghost use Rattle.osi_base.specs.Limits.{most_module_octets};
ghost use Rattle.notation_tokens.specs.Forms.{is_blank};
ghost use Rattle.notation_tokens.specs.Lexing.{behind_octets, goes_on_length, word_length, digits_length, number_length, sign_length, single_sign_length, comment_length, piece_of, fits_in, lexed_of};

use crate::faults::NotationKind;
use crate::token::{Place, Token, TokenKind, Tokens};
use osi_base::{ListOf, NoMemory};
use std::alloc::Global;

/// The greatest number of octets of a text.
pub const MOST_MODULE_OCTETS: usize = 1_048_576;

/// The greatest number of tokens of a text.
const MOST_TOKENS: usize = 65_536;

/// What stands first in a text.
#[derive(Clone, Copy, Debug, PartialEq, Eq)]
pub(crate) enum Piece {
    /// So many octets of white space or of a comment.
    Passed(usize),
    /// A token of this kind and length.
    Cut(TokenKind, usize),
    /// An octet that begins nothing.
    Bad,
}

/// The tokens of a text, and where cutting stopped: at the end, or for this reason.
#[derive(Debug, Drop)]
pub struct Lexed {
    /// The tokens that were cut, in text order.
    pub tokens: Tokens,
    /// Why cutting stopped before the end; `None` where it came to the end.
    pub stop: Option<NotationKind>,
    /// The place where cutting stopped.
    pub place: Place,
}

/// The place behind these octets.
fn past(place: Place, octets: &[u8]) -> Place
    requires line { place.line + length octets.now < 2 ^ 32 }
    requires column { place.column + length octets.now < 2 ^ 32 }
    ensures value { result ≡ behind_octets place octets.now }
    ensures line { result.line ≤ place.line + length octets.now }
    ensures column { result.column ≤ place.column + length octets.now }
{
    let mut line = place.line;
    let mut column = place.column;
    for octet in octets {
        if *octet == b'\n' {
            line += 1;
            column = 1;
        } else {
            column += 1;
        }
    }
    Place { line, column }
}

/// How far a word goes on behind its first letter.
fn word_rest(text: &[u8]) -> usize
    ensures value { result ≡ goes_on_length text.now }
    ensures within { result ≤ length text.now }
{
    let mut rest = text;
    while let [octet, behind @ ..] = rest {
        let goes_on = octet.is_ascii_alphanumeric()
            || *octet == b'-' && matches!(behind, [next, ..] if next.is_ascii_alphanumeric());
        if !goes_on {
            break;
        }
        rest = behind;
    }
    text.len() - rest.len()
}

/// The length of the word that stands first, or 0.
fn word(text: &[u8]) -> usize
    ensures value { result ≡ word_length text.now }
    ensures within { result ≤ length text.now }
{
    match text {
        [first, behind @ ..] if first.is_ascii_alphabetic() => 1 + word_rest(behind),
        _ => 0,
    }
}

/// How many digits stand first.
fn digits(text: &[u8]) -> usize
    ensures value { result ≡ digits_length text.now }
    ensures within { result ≤ length text.now }
{
    let mut rest = text;
    while let [octet, behind @ ..] = rest {
        if !octet.is_ascii_digit() {
            break;
        }
        rest = behind;
    }
    text.len() - rest.len()
}

/// The length of the number that stands first, or 0.
fn number(text: &[u8]) -> usize
    ensures value { result ≡ number_length text.now }
    ensures within { result ≤ length text.now }
{
    match text {
        [b'-', behind @ ..] => match digits(behind) {
            0 => 0,
            length => 1 + length,
        },
        _ => digits(text),
    }
}

/// The length of the sign that stands first, or 0.
fn sign(text: &[u8]) -> usize
    ensures value { result ≡ sign_length text.now }
    ensures within { result ≤ length text.now }
{
    if text.starts_with(b"::=") || text.starts_with(b"...") {
        3
    } else if text.starts_with(b"..") || text.starts_with(b"/*") {
        2
    } else {
        single_sign(text)
    }
}

/// The length of the sign of one octet that stands first, or 0.
fn single_sign(text: &[u8]) -> usize
    ensures value { result ≡ single_sign_length text.now }
    ensures within { result ≤ length text.now }
{
    match text {
        [first, ..] if b"{}()[],;:|".contains(first) => 1,
        _ => 0,
    }
}

/// The length of a comment behind the two hyphens that begin it.
fn comment(text: &[u8]) -> usize
    ensures value { result ≡ comment_length text.now }
    ensures within { result ≤ length text.now }
{
    let mut rest = text;
    while let [octet, behind @ ..] = rest {
        if *octet == b'\n' {
            return text.len() - rest.len();
        }
        if rest.starts_with(b"--") {
            return text.len() - rest.len() + 2;
        }
        rest = behind;
    }
    text.len()
}

/// What stands first in a text.
#[tactic(auto, unfolding(crate::specs::Lexing::piece_of))]
fn first_piece(text: &[u8]) -> Piece
    ensures value { result ≡ piece_of text.now }
    ensures within { fits_in result (length text.now) }
{
    let [first, ..] = text else {
        return Piece::Bad;
    };
    if is_white(*first) {
        return Piece::Passed(1);
    }
    if text.starts_with(b"--") {
        return Piece::Passed(2 + comment(&text[2..]));
    }
    let length = word(text);
    if length > 0 {
        return Piece::Cut(TokenKind::Word, length);
    }
    let length = number(text);
    if length > 0 {
        return Piece::Cut(TokenKind::Number, length);
    }
    let length = sign(text);
    if length > 0 {
        return Piece::Cut(TokenKind::Sign, length);
    }
    Piece::Bad
}

/// Whether this octet is white space.
fn is_white(octet: u8) -> bool
    ensures { result ≡ is_blank octet }
{
    matches!(octet, b'\t' | b'\n' | b'\r' | b' ')
}

/// What was cut up to a place where cutting stopped for this reason.
fn lexed_until(tokens: Tokens, kind: NotationKind, place: Place) -> Lexed
    ensures { result ≡ record { tokens = tokens; stop = Some kind; place = place } }
{
    Lexed {
        tokens,
        stop: Some(kind),
        place,
    }
}

/// The tokens of a text of at most 1,048,576 octets, and where cutting stops: at the text's end, or
/// at the first octet that begins nothing or the first token past the limit.
///
/// # Errors
///
/// Where an allocation is refused.
pub fn cut_text(alloc: Global, text: &[u8]) -> Result<Lexed, NoMemory>
    requires { length text.now ≤ most_module_octets }
    ensures { IfOk result (λ lexed. lexed ≡ lexed_of text.now) }
{
    let mut tokens = ListOf::new(alloc);
    let mut rest = text;
    let mut from = 0;
    let mut place = Place { line: 1, column: 1 };
    while !rest.is_empty() {
        match first_piece(rest) {
            Piece::Passed(length) => {
                let (front, behind) = rest.split_at(length);
                place = past(place, front);
                from += length;
                rest = behind;
            }
            Piece::Cut(kind, length) => {
                if tokens.len() == MOST_TOKENS {
                    return Ok(lexed_until(tokens, NotationKind::TooManyTokens, place));
                }
                tokens.push(Token {
                    kind,
                    from,
                    to: from + length,
                    line: place.line,
                    column: place.column,
                })?;
                let (front, behind) = rest.split_at(length);
                place = past(place, front);
                from += length;
                rest = behind;
            }
            Piece::Bad => return Ok(lexed_until(tokens, NotationKind::BadCharacter, place)),
        }
    }
    Ok(Lexed {
        tokens,
        stop: None,
        place,
    })
}
