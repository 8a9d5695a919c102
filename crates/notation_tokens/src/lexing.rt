//! The tokens of a text, or its first fault.

ghost use Rattle.std.specs.Prelude.{◌≡◌, ◌≤◌, length, IfOk, IfErr};
ghost use Rattle.notation_tokens.specs.Texts.{Answers, fault_at, tokens_of};
ghost use Rattle.notation_tokens.specs.Tokens.{AreTokens};
ghost use Rattle.notation_tokens.specs.Stops.{IsCuttingFault};

use crate::faults::{NotationFault, NotationKind};
use crate::token::{Place, Tokens};
use crate::token_cutting::{MOST_MODULE_OCTETS, cut_text};
use std::alloc::Global;

/// The fault of this kind at a place.
pub fn fault_at(place: Place, kind: NotationKind) -> NotationFault
    ensures { result ≡ fault_at place kind }
{
    NotationFault::At {
        line: place.line,
        column: place.column,
        kind,
    }
}

/// The fault of a text of more than 1,048,576 octets.
pub const TEXT_TOO_LONG: NotationFault = NotationFault::At {
    line: 1,
    column: 1,
    kind: NotationKind::TextTooLong,
};

/// The tokens of a text of at most 1,048,576 octets and 65,536 tokens, cut longest first.
///
/// # Errors
///
/// `At`, with the first of these: `TextTooLong` at line 1, column 1; `BadCharacter` at an octet
/// outside comments that begins no token and is no white space; `TooManyTokens` at the first
/// token past the limit. `NoMemory` where an allocation is refused.
pub fn lex(alloc: Global, text: &[u8]) -> Result<Tokens, NotationFault>
    // The tokens lie in order, each the longest of its kind, with its place.
    ensures tokens { IfOk result (λ tokens. AreTokens text.now 0 tokens) }
    // Where there are none, the text is too long, or an octet that begins nothing or one token too
    // many stands behind tokens.
    ensures first { IfErr result (λ e. IsCuttingFault text.now e) }
    // Which tokens or fault it is.
    ensures exact { Answers result (tokens_of text.now) }
{
    cut_whole(alloc, text)
}

/// The tokens of a text, or its first fault.
#[tactic(auto, unfolding(crate::specs::Texts::tokens_of))]
fn cut_whole(alloc: Global, text: &[u8]) -> Result<Tokens, NotationFault>
    ensures { Answers result (tokens_of text.now) }
{
    if text.len() > MOST_MODULE_OCTETS {
        return Err(TEXT_TOO_LONG);
    }
    let lexed = cut_text(alloc, text)?;
    match lexed.stop {
        None => Ok(lexed.tokens),
        Some(kind) => Err(fault_at(lexed.place, kind)),
    }
}
