//! Tokens and their places.

ghost use Rattle.std.specs.Prelude.{◌≡◌};

use osi_base::{ListOf, Name};

/// What a token is.
#[derive(Clone, Copy, Debug, PartialEq, Eq)]
pub enum TokenKind {
    /// A word.
    Word,
    /// A number.
    Number,
    /// A sign.
    Sign,
}

/// A token: its octets in the text run from `from` up to before `to`; line and column count from 1,
/// columns in octets.
#[derive(Clone, Copy, Debug, PartialEq, Eq)]
pub struct Token {
    /// What the token is.
    pub kind: TokenKind,
    /// The place of its first octet in the text, counted in octets from 0.
    pub from: usize,
    /// The place just behind its last octet, counted in octets from 0.
    pub to: usize,
    /// The line it stands on, counted from 1.
    pub line: u32,
    /// The column of its first octet, counted in octets from 1.
    pub column: u32,
}

/// Tokens in text order.
pub type Tokens = ListOf<Token>;

/// Where a token stands: line and column from 1, columns in octets.
#[derive(Clone, Copy, Debug, PartialEq, Eq)]
pub struct Place {
    /// The line, counted from 1.
    pub line: u32,
    /// The column, counted in octets from 1.
    pub column: u32,
}

impl Token {
    /// Where the token stands.
    pub fn place(&self) -> Place
        ensures line { result.line ≡ self.now.line }
        ensures column { result.column ≡ self.now.column }
    {
        Place {
            line: self.line,
            column: self.column,
        }
    }
}

/// A name and the place of its token: line and column from 1, columns in octets.
#[derive(Debug, Drop)]
pub struct Located {
    /// The name.
    pub text: Name,
    /// The line its token stands on, counted from 1.
    pub line: u32,
    /// The column of its token, counted in octets from 1.
    pub column: u32,
}
