//! The lines of a text, one after the other.

ghost use Rattle.std.specs.Prelude.{◌≡◌, ◌+◌, ◌<◌, ◌≤◌, ◌∷◌, [], ◌==◌, ◌^◌, length, position, MatchOption};
ghost use Rattle.script_lines.specs.Lines.{pieces, lines_of};

use std::marker::Model;

/// The place of the first separator, counted from 0.
fn find(text: &[u8], separator: u8) -> Option<usize>
    ensures { result ≡ position (λ octet. octet == separator) text.now }
{
    text.iter().position(|octet| *octet == separator)
}

/// The octets before the first separator, and those after it, where there is one.
#[tactic(auto, using(crate::proofs::Pieces::pieces_one, crate::proofs::Pieces::pieces_more, crate::proofs::Pieces::position_within))]
fn cut(text: &[u8], separator: u8) -> (&[u8], Option<&[u8]>)
    ensures pieces { MatchOption result.1 (pieces separator text.entry.now ≡ result.0.now ∷ [])
        (λ rest. pieces separator text.entry.now ≡ result.0.now ∷ pieces separator rest.now) }
    ensures shorter { MatchOption result.1 (length result.0.now ≡ length text.entry.now)
        (λ rest. length result.0.now + 1 + length rest.now ≡ length text.entry.now) }
{
    match find(text, separator) {
        None => (text, None),
        Some(at) => (&text[..at], Some(&text[at + 1..])),
    }
}

/// The lines of a text that weren't handed out yet, and the number of the first of them, counted
/// from 1. Contracts see the lines as a list.
#[derive(Drop)]
pub struct Lines<'a> {
    rest: Option<&'a [u8]>,
    number: u32,
}

impl<'a> Model for Lines<'a> {
    ghost use Rattle.script_lines.specs.Lines.{NumberedLines, numbered, IsCounted};

    ghost Value = { NumberedLines };

    ghost view = { λ lines. numbered lines.number lines.rest };

    ghost invariant = { λ lines. IsCounted lines.number lines.rest };
}

impl<'a> Lines<'a> {
    /// The lines of this text, which has less than 2^31 octets: so each has a number of 32 bits.
    pub fn new(text: &'a [u8]) -> Lines<'a>
        requires { length text.now < 2 ^ 31 }
        ensures { result ≡ record { number = 1; lines = lines_of text.now } }
    {
        Lines {
            rest: Some(text),
            number: 1,
        }
    }

    /// The number of the line that comes next.
    pub fn number(&self) -> u32
        ensures { result ≡ self.now.number }
    {
        self.number
    }

    /// The next line; `None` behind the last one.
    pub fn next(&mut self) -> Option<&'a [u8]>
        ensures none { MatchOption result (self.old.lines ≡ [])
            (λ line. self.old.lines ≡ line.now ∷ self.new.lines) }
        ensures number { MatchOption result (self.new ≡ self.old)
            (λ line. self.new.number ≡ self.old.number + 1) }
    {
        let (line, rest) = cut(self.rest?, b'\n');
        self.rest = rest;
        self.number += 1;
        Some(line)
    }
}
