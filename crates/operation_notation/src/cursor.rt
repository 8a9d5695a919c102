//! Where the parser stands, and the tokens that it takes one at a time.

ghost use Rattle.std.specs.Prelude.{◌≡◌, ◌≤◌, List, length, IfOk, IsTrue, IfSome, is_some, ◌==◌};
ghost use Rattle.notation_tokens.specs.Lexeme.{Lexeme, IsSpan, lexemes, same, begins, goes_on};
ghost use Rattle.std.specs.List.{AllByRecursion, list_any};
ghost use Rattle.notation_tokens.specs.Words.{type_name_of, value_name_of, number_of, int_of, end_of, bool_of, text_kind_of, arc_name_of, root_name};
ghost use Rattle.notation_tokens.specs.Forms.{is_word};
ghost use Rattle.operation_notation.specs.ReadingModules.{class_kind};
ghost use Rattle.operation_notation.specs.Reading.{Gives, kind_at, word_at, type_name_at, value_name_at, number_at, number_64_at, int_at, end_at, bool_at, place_of, Shortens};
ghost use Rattle.operation_notation.specs.ReadingTypes.{dflt_at, type_words, starts_type, starts_name, root_word, text_kind, arc_name_at, text_kind_at};

use crate::fault::Refusal;
use crate::module::{DfltText, DfltValue};
use notation_tokens::words::{
    arc_word, integer, is_lower_name, is_one_of, is_same, is_unsupported_word, is_upper_name,
    natural, range_end, text_word, truth,
};
use notation_tokens::{Located, NotationKind, Place, Token};
use osi_base::{Name, NoMemory};
use std::alloc::Global;
use std::marker::Model;

/// The tokens that are left, over their text.
#[derive(Drop)]
pub(crate) struct Cursor<'t> {
    source: &'t [u8],
    tokens: &'t [Token],
}

impl<'t> Model for Cursor<'t> {
    ghost use Rattle.std.specs.Prelude.{List, length};
    ghost use Rattle.std.specs.List.{AllByRecursion};
    ghost use Rattle.notation_tokens.specs.Lexeme.{Lexeme, IsSpan, lexemes};

    ghost Value = { List Lexeme };

    ghost view = { λ c. lexemes c.source.now c.tokens.now };

    ghost invariant = { λ c.
        AllByRecursion (IsSpan c.source.now (length c.source.now)) c.tokens.now };
}

/// The name that a word's octets are, at a place.
fn located(alloc: Global, text: &[u8], place: Place) -> Result<Located, NoMemory>
    requires { IsTrue (is_word text.now) }
    ensures { IfOk result (λ name. name ≡ record {
      text = text.now;
      line = place.line;
      column = place.column;
    }) }
{
    let text = str::from_utf8(text).unwrap();
    Ok(Located {
        text: Name::from_str(alloc, text)?,
        line: place.line,
        column: place.column,
    })
}

/// Whether a type begins with this word or sign.
fn is_type_word(text: &[u8]) -> bool
    ensures { result ≡ list_any (same text.now) type_words }
{
    is_one_of(
        text,
        &[
            b"[",
            b"SEQUENCE",
            b"SET",
            b"CHOICE",
            b"BOOLEAN",
            b"NULL",
            b"INTEGER",
            b"ENUMERATED",
            b"OCTET",
            b"BIT",
            b"OBJECT",
            b"UTF8String",
            b"IA5String",
            b"VisibleString",
            b"PrintableString",
            b"NumericString",
        ],
    )
}

impl<'t> Cursor<'t> {
    /// Stands at the first of these tokens of a text.
    pub fn new(source: &'t [u8], tokens: &'t [Token]) -> Cursor<'t>
        requires { AllByRecursion (IsSpan source.now (length source.now)) tokens.now }
        ensures { result ≡ lexemes source.now tokens.now }
    {
        Cursor { source, tokens }
    }

    /// Whether the next token is this word.
    pub fn is(&self, word: &[u8]) -> bool
        ensures { result ≡ begins word.now self.now }
    {
        match self.tokens {
            [] => false,
            [token, ..] => is_same(&self.source[token.from..token.to], word),
        }
    }

    /// Whether there is a next token, and it isn't this word.
    pub fn goes_on(&self, word: &[u8]) -> bool
        ensures { result ≡ goes_on word.now self.now }
    {
        match self.tokens {
            [] => false,
            [token, ..] => !is_same(&self.source[token.from..token.to], word),
        }
    }

    /// Whether no token is left.
    pub fn is_done(&self) -> bool
        ensures { result ≡ (length self.now == 0) }
    {
        self.tokens.is_empty()
    }

    /// The kind of fault that the next token is where it can't stand.
    #[tactic(auto, unfolding(crate::specs::Reading::kind_at))]
    pub fn kind(&self) -> NotationKind
        ensures { result ≡ kind_at self.now }
    {
        match self.tokens {
            [] => NotationKind::UnexpectedToken,
            [token, ..] => {
                if is_unsupported_word(&self.source[token.from..token.to]) {
                    NotationKind::Unsupported
                } else {
                    NotationKind::UnexpectedToken
                }
            }
        }
    }

    /// The kind of fault that the next token is where an imported class must stand.
    #[tactic(auto, unfolding(crate::specs::ReadingModules::class_kind))]
    pub fn class_kind(&self) -> NotationKind
        ensures { result ≡ class_kind self.now }
    {
        match self.tokens {
            [] => NotationKind::UnexpectedToken,
            [token, ..] => {
                let text = &self.source[token.from..token.to];
                if is_upper_name(token.kind, text) || is_lower_name(token.kind, text) {
                    NotationKind::Unsupported
                } else {
                    self.kind()
                }
            }
        }
    }

    /// The place of the next token, or 0 and 0 where there is none.
    pub fn place(&self) -> Place
        ensures { result ≡ place_of self.now }
    {
        match self.tokens {
            [] => Place { line: 0, column: 0 },
            [token, ..] => token.place(),
        }
    }

    /// Goes past this word, and tells where it stands.
    #[tactic(auto, unfolding(crate::specs::Reading::word_at, notation_tokens::specs::Words::word_of))]
    pub fn expect(&mut self, word: &[u8]) -> Result<Place, Refusal>
        ensures gives { Gives result self.new (word_at word.now self.old) }
        ensures takes { Shortens result self.old self.new }
    {
        match self.tokens {
            [token, rest @ ..] if is_same(&self.source[token.from..token.to], word) => {
                self.tokens = rest;
                Ok(token.place())
            }
            _ => Err(Refusal::Fault(self.kind())),
        }
    }

    /// A name that begins with a lower-case letter.
    #[tactic(auto, unfolding(crate::specs::Reading::value_name_at, notation_tokens::specs::Words::value_name_of))]
    pub fn value_name(&mut self, alloc: Global) -> Result<Located, Refusal>
        ensures gives { Gives result self.new (value_name_at self.old) }
        ensures takes { Shortens result self.old self.new }
    {
        match self.tokens {
            [token, rest @ ..] if is_lower_name(token.kind, &self.source[token.from..token.to]) => {
                let name = located(alloc, &self.source[token.from..token.to], token.place())?;
                self.tokens = rest;
                Ok(name)
            }
            _ => Err(Refusal::Fault(self.kind())),
        }
    }

    /// A name that begins with an upper-case letter and isn't a word of the grammar's.
    #[tactic(auto, unfolding(crate::specs::Reading::type_name_at, notation_tokens::specs::Words::type_name_of))]
    pub fn type_name(&mut self, alloc: Global) -> Result<Located, Refusal>
        ensures gives { Gives result self.new (type_name_at self.old) }
        ensures takes { Shortens result self.old self.new }
    {
        match self.tokens {
            [token, rest @ ..] if is_upper_name(token.kind, &self.source[token.from..token.to]) => {
                let name = located(alloc, &self.source[token.from..token.to], token.place())?;
                self.tokens = rest;
                Ok(name)
            }
            _ => Err(Refusal::Fault(self.kind())),
        }
    }

    /// A number without a sign, at most `most`.
    #[tactic(auto, unfolding(crate::specs::Reading::number_at))]
    pub fn number(&mut self, most: u64) -> Result<u64, Refusal>
        ensures gives { Gives result self.new (number_at most self.old) }
        ensures takes { Shortens result self.old self.new }
        ensures most { IfOk result (λ value. value ≤ most) }
    {
        if let [token, rest @ ..] = self.tokens
            && let Some(value) = natural(&self.source[token.from..token.to], most)
        {
            self.tokens = rest;
            return Ok(value);
        }
        Err(Refusal::Fault(self.kind()))
    }

    /// A number without a sign, among those of 64 bits with one.
    #[tactic(auto, unfolding(crate::specs::Reading::number_64_at))]
    pub fn number_64(&mut self) -> Result<i64, Refusal>
        ensures gives { Gives result self.new (number_64_at self.old) }
        ensures takes { Shortens result self.old self.new }
    {
        let value = self.number(i64::MAX as u64)?;
        Ok(value as i64)
    }

    /// An integer of 64 bits.
    #[tactic(auto, unfolding(crate::specs::Reading::int_at))]
    pub fn int(&mut self) -> Result<i64, Refusal>
        ensures gives { Gives result self.new (int_at self.old) }
        ensures takes { Shortens result self.old self.new }
    {
        if let [token, rest @ ..] = self.tokens
            && let Some(value) = integer(&self.source[token.from..token.to])
        {
            self.tokens = rest;
            return Ok(value);
        }
        Err(Refusal::Fault(self.kind()))
    }

    /// An end of a range.
    #[tactic(auto, unfolding(crate::specs::Reading::end_at))]
    pub fn range_end(&mut self) -> Result<i64, Refusal>
        ensures gives { Gives result self.new (end_at self.old) }
        ensures takes { Shortens result self.old self.new }
    {
        if let [token, rest @ ..] = self.tokens
            && let Some(value) = range_end(&self.source[token.from..token.to])
        {
            self.tokens = rest;
            return Ok(value);
        }
        Err(Refusal::Fault(self.kind()))
    }

    /// TRUE or FALSE.
    #[tactic(auto, unfolding(crate::specs::Reading::bool_at))]
    pub fn truth(&mut self) -> Result<bool, Refusal>
        ensures gives { Gives result self.new (bool_at self.old) }
        ensures takes { Shortens result self.old self.new }
    {
        if let [token, rest @ ..] = self.tokens
            && let Some(value) = truth(&self.source[token.from..token.to])
        {
            self.tokens = rest;
            return Ok(value);
        }
        Err(Refusal::Fault(self.kind()))
    }

    /// The default of a part: TRUE, FALSE, an integer or the name of an item.
    #[tactic(auto, unfolding(crate::specs::ReadingTypes::dflt_at, crate::specs::GrammarTypes::dflt_of, crate::specs::Reading::value_name_at, notation_tokens::specs::Words::value_name_of))]
    pub fn dflt(&mut self, alloc: Global) -> Result<DfltText, Refusal>
        ensures gives { Gives result self.new (dflt_at self.old) }
        ensures takes { Shortens result self.old self.new }
    {
        if let [token, rest @ ..] = self.tokens
            && let Some(value) = truth(&self.source[token.from..token.to])
        {
            self.tokens = rest;
            return Ok(DfltText {
                line: token.line,
                column: token.column,
                value: DfltValue::Truth(value),
            });
        }
        if let [token, rest @ ..] = self.tokens
            && let Some(number) = integer(&self.source[token.from..token.to])
        {
            self.tokens = rest;
            return Ok(DfltText {
                line: token.line,
                column: token.column,
                value: DfltValue::Number(number),
            });
        }
        let name = self.value_name(alloc)?;
        Ok(DfltText {
            line: name.line,
            column: name.column,
            value: DfltValue::Item(name.text),
        })
    }

    /// The word of a kind of text.
    #[tactic(auto, unfolding(crate::specs::ReadingTypes::text_kind_at))]
    pub fn text_kind(&mut self) -> Result<u8, Refusal>
        ensures gives { Gives result self.new (text_kind_at self.old) }
        ensures takes { Shortens result self.old self.new }
    {
        if let [token, rest @ ..] = self.tokens
            && let Some(value) = text_word(&self.source[token.from..token.to])
        {
            self.tokens = rest;
            return Ok(value);
        }
        Err(Refusal::Fault(self.kind()))
    }

    /// A name before the number of an arc, which isn't kept.
    #[tactic(auto, unfolding(crate::specs::ReadingTypes::arc_name_at, notation_tokens::specs::Words::arc_name_of))]
    pub fn arc_name(&mut self) -> Result<Place, Refusal>
        ensures gives { Gives result self.new (arc_name_at self.old) }
        ensures takes { Shortens result self.old self.new }
    {
        match self.tokens {
            [token, rest @ ..] if is_lower_name(token.kind, &self.source[token.from..token.to]) => {
                self.tokens = rest;
                Ok(token.place())
            }
            _ => Err(Refusal::Fault(self.kind())),
        }
    }

    /// Whether the next token is a name that begins with a lower-case letter.
    pub fn starts_name(&self) -> bool
        ensures { result ≡ starts_name self.now }
    {
        match self.tokens {
            [] => false,
            [token, ..] => is_lower_name(token.kind, &self.source[token.from..token.to]),
        }
    }

    /// The first arc that the next token stands for alone.
    pub fn root_word(&self) -> Option<u32>
        ensures value { result ≡ root_word self.now }
        ensures most { IfSome result (λ root. root ≤ 2) }
    {
        match self.tokens {
            [] => None,
            [token, ..] => arc_word(&self.source[token.from..token.to]),
        }
    }

    /// Whether the next token is the word of a kind of text.
    pub fn is_text_kind(&self) -> bool
        ensures { result ≡ is_some (text_kind self.now) }
    {
        match self.tokens {
            [] => false,
            [token, ..] => text_word(&self.source[token.from..token.to]).is_some(),
        }
    }

    /// Whether the next token is one with which a type begins.
    pub fn starts_type(&self) -> bool
        ensures { result ≡ starts_type self.now }
    {
        match self.tokens {
            [] => false,
            [token, ..] => {
                let text = &self.source[token.from..token.to];
                is_type_word(text) || is_upper_name(token.kind, text)
            }
        }
    }
}
