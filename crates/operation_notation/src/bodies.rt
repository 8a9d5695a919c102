//! Parsing the bodies of operations and errors.

ghost use Rattle.std.specs.Prelude.{◌≡◌, ◌≤◌, codes, length};
ghost use Rattle.operation_notation.specs.GrammarTypes.{narrow};
ghost use Rattle.operation_notation.specs.Reading.{Gives, behind, listed_at, value_name_at, Shortens};
ghost use Rattle.operation_notation.specs.ReadingModules.{flag_at, flag_2_at, flag_or_at, passed_flag_at, use_at, maybe_use_at, names_at, named_list_at, priority_at, passed_priority_at, invoke_priority_at, local_at, global_at, code_value_at, code_at, maybe_code_at, signature_at, manner_at, operation_at, error_at};

use crate::cursor::Cursor;
use crate::fault::Refusal;
use crate::module::{CodeText, ErrText, Locateds, OpText, UseText};
use notation_tokens::{Located, Place};
use osi_base::ListOf;
use std::alloc::Global;

/// What an operation takes and gives.
#[derive(Debug, Drop)]
pub(crate) struct Signature {
    pub argument: Option<UseText>,
    pub result: Option<UseText>,
    pub returns: bool,
}

impl<'t> Cursor<'t> {
    /// A truth value behind a word.
    #[tactic(auto, unfolding(crate::specs::ReadingModules::flag_at))]
    pub fn flag(&mut self, word: &[u8]) -> Result<bool, Refusal>
        ensures gives { Gives result self.new (flag_at word.now self.old) }
        ensures takes { Shortens result self.old self.new }
    {
        self.expect(word)?;
        self.truth()
    }

    /// A truth value behind two words.
    #[tactic(auto, unfolding(crate::specs::ReadingModules::flag_2_at))]
    pub fn flag_behind_two(&mut self, word: &[u8], next: &[u8]) -> Result<bool, Refusal>
        ensures gives { Gives result self.new (flag_2_at word.now next.now self.old) }
        ensures takes { Shortens result self.old self.new }
    {
        self.expect(word)?;
        self.expect(next)?;
        self.truth()
    }

    /// A truth value behind two words, which is true where they don't stand.
    #[tactic(auto, unfolding(crate::specs::ReadingModules::flag_or_at))]
    pub fn flag_or(&mut self, word: &[u8], next: &[u8]) -> Result<bool, Refusal>
        ensures gives { Gives result self.new (flag_or_at word.now next.now self.old) }
        ensures keeps { length self.new ≤ length self.old }
    {
        if self.is(word) {
            self.flag_behind_two(word, next)
        } else {
            Ok(true)
        }
    }

    /// A truth value behind a word, or nothing.
    #[tactic(auto, unfolding(crate::specs::ReadingModules::passed_flag_at))]
    pub fn passed_flag(&mut self, word: &[u8]) -> Result<Option<bool>, Refusal>
        ensures gives { Gives result self.new (passed_flag_at word.now self.old) }
        ensures keeps { length self.new ≤ length self.old }
    {
        if self.is(word) {
            Ok(Some(self.flag(word)?))
        } else {
            Ok(None)
        }
    }

    /// A type behind a word.
    #[tactic(auto, unfolding(crate::specs::ReadingModules::use_at))]
    pub fn use_text(&mut self, alloc: Global, word: &[u8]) -> Result<UseText, Refusal>
        ensures gives { Gives result self.new (use_at narrow word.now self.old) }
        ensures takes { Shortens result self.old self.new }
    {
        let place = self.expect(word)?;
        let of = self.outer_type(alloc)?;
        let optional = if self.is(b"OPTIONAL") {
            self.flag(b"OPTIONAL")?
        } else {
            false
        };
        Ok(UseText {
            line: place.line,
            column: place.column,
            of,
            optional,
        })
    }

    /// A type behind a word, or nothing.
    #[tactic(auto, unfolding(crate::specs::ReadingModules::maybe_use_at))]
    pub fn maybe_use(&mut self, alloc: Global, word: &[u8]) -> Result<Option<UseText>, Refusal>
        ensures gives { Gives result self.new (maybe_use_at narrow word.now self.old) }
        ensures keeps { length self.new ≤ length self.old }
    {
        if self.is(word) {
            Ok(Some(self.use_text(alloc, word)?))
        } else {
            Ok(None)
        }
    }

    /// A name behind a bar.
    pub fn next_name(&mut self, alloc: Global) -> Result<Located, Refusal>
        ensures gives { Gives result self.new (behind (codes "|") value_name_at self.old) }
        ensures takes { Shortens result self.old self.new }
    {
        self.expect(b"|")?;
        self.value_name(alloc)
    }

    /// Names parted by bars.
    #[tactic(auto, using(crate::proofs::Loops::goes, crate::proofs::Loops::listed_starts))]
    pub fn listed_names(&mut self, alloc: Global) -> Result<Locateds, Refusal>
        ensures gives { Gives result self.new (listed_at (codes "|") value_name_at self.old) }
        ensures takes { Shortens result self.old self.new }
    {
        let mut names = ListOf::new(alloc);
        names.push(self.value_name(alloc)?)?;
        while self.is(b"|") {
            names.push(self.next_name(alloc)?)?;
        }
        Ok(names)
    }

    /// Names in braces.
    #[tactic(auto, unfolding(crate::specs::ReadingModules::names_at))]
    pub fn names(&mut self, alloc: Global) -> Result<Locateds, Refusal>
        ensures gives { Gives result self.new (names_at self.old) }
        ensures takes { Shortens result self.old self.new }
    {
        self.expect(b"{")?;
        let names = self.listed_names(alloc)?;
        self.expect(b"}")?;
        Ok(names)
    }

    /// Names in braces behind a word, or no names.
    #[tactic(auto, unfolding(crate::specs::ReadingModules::named_list_at))]
    pub fn named_list(&mut self, alloc: Global, word: &[u8]) -> Result<Locateds, Refusal>
        ensures gives { Gives result self.new (named_list_at word.now self.old) }
        ensures keeps { length self.new ≤ length self.old }
    {
        if self.is(word) {
            self.expect(word)?;
            self.names(alloc)
        } else {
            Ok(ListOf::new(alloc))
        }
    }

    /// A priority, which isn't kept.
    #[tactic(auto, unfolding(crate::specs::ReadingModules::priority_at))]
    pub fn priority(&mut self) -> Result<Place, Refusal>
        ensures gives { Gives result self.new (priority_at self.old) }
        ensures takes { Shortens result self.old self.new }
    {
        self.expect(b"{")?;
        self.number_64()?;
        self.expect(b"}")
    }

    /// A priority behind a word, or nothing.
    #[tactic(auto, unfolding(crate::specs::ReadingModules::passed_priority_at))]
    pub fn passed_priority(&mut self, word: &[u8]) -> Result<Option<Place>, Refusal>
        ensures gives { Gives result self.new (passed_priority_at word.now self.old) }
        ensures keeps { length self.new ≤ length self.old }
    {
        if self.is(word) {
            self.expect(word)?;
            Ok(Some(self.priority()?))
        } else {
            Ok(None)
        }
    }

    /// The priority of an invocation, or nothing.
    #[tactic(auto, unfolding(crate::specs::ReadingModules::invoke_priority_at))]
    pub fn invoke_priority(&mut self) -> Result<Option<Place>, Refusal>
        ensures gives { Gives result self.new (invoke_priority_at self.old) }
        ensures keeps { length self.new ≤ length self.old }
    {
        if self.is(b"INVOKE") {
            self.expect(b"INVOKE")?;
            self.expect(b"PRIORITY")?;
            Ok(Some(self.priority()?))
        } else {
            Ok(None)
        }
    }

    /// A local code.
    #[tactic(auto, unfolding(crate::specs::ReadingModules::local_at))]
    pub fn local_code(&mut self) -> Result<CodeText, Refusal>
        ensures gives { Gives result self.new (local_at self.old) }
        ensures takes { Shortens result self.old self.new }
    {
        let place = self.expect(b"local")?;
        self.expect(b":")?;
        let number = self.int()?;
        Ok(CodeText {
            line: place.line,
            column: place.column,
            local: Some(number),
            global: None,
        })
    }

    /// A global code.
    #[tactic(auto, unfolding(crate::specs::ReadingModules::global_at))]
    pub fn global_code(&mut self, alloc: Global) -> Result<CodeText, Refusal>
        ensures gives { Gives result self.new (global_at self.old) }
        ensures takes { Shortens result self.old self.new }
    {
        let place = self.expect(b"global")?;
        self.expect(b":")?;
        let oid = self.oid(alloc)?;
        Ok(CodeText {
            line: place.line,
            column: place.column,
            local: None,
            global: Some(oid),
        })
    }

    /// A code: an integer, or an object identifier.
    #[tactic(auto, unfolding(crate::specs::ReadingModules::code_value_at))]
    pub fn code_value(&mut self, alloc: Global) -> Result<CodeText, Refusal>
        ensures gives { Gives result self.new (code_value_at self.old) }
        ensures takes { Shortens result self.old self.new }
    {
        if self.is(b"local") {
            self.local_code()
        } else {
            self.global_code(alloc)
        }
    }

    /// A code behind the word CODE.
    #[tactic(auto, unfolding(crate::specs::ReadingModules::code_at))]
    pub fn code(&mut self, alloc: Global) -> Result<CodeText, Refusal>
        ensures gives { Gives result self.new (code_at self.old) }
        ensures takes { Shortens result self.old self.new }
    {
        self.expect(b"CODE")?;
        self.code_value(alloc)
    }

    /// A code behind the word CODE, or nothing.
    #[tactic(auto, unfolding(crate::specs::ReadingModules::maybe_code_at))]
    pub fn maybe_code(&mut self, alloc: Global) -> Result<Option<CodeText>, Refusal>
        ensures gives { Gives result self.new (maybe_code_at self.old) }
        ensures keeps { length self.new ≤ length self.old }
    {
        if self.is(b"CODE") {
            Ok(Some(self.code(alloc)?))
        } else {
            Ok(None)
        }
    }

    /// What an operation takes and gives.
    #[tactic(auto, unfolding(crate::specs::ReadingModules::signature_at))]
    fn signature(&mut self, alloc: Global) -> Result<Signature, Refusal>
        ensures gives { Gives result self.new (signature_at narrow self.old) }
        ensures keeps { length self.new ≤ length self.old }
    {
        let argument = self.maybe_use(alloc, b"ARGUMENT")?;
        let result = self.maybe_use(alloc, b"RESULT")?;
        let returns = self.flag_or(b"RETURN", b"RESULT")?;
        Ok(Signature {
            argument,
            result,
            returns,
        })
    }

    /// How an operation is carried out: of this only whether it always responds is kept.
    #[tactic(auto, unfolding(crate::specs::ReadingModules::manner_at))]
    fn manner(&mut self) -> Result<bool, Refusal>
        ensures gives { Gives result self.new (manner_at self.old) }
        ensures keeps { length self.new ≤ length self.old }
    {
        self.passed_flag(b"SYNCHRONOUS")?;
        self.passed_flag(b"IDEMPOTENT")?;
        let always = self.flag_or(b"ALWAYS", b"RESPONDS")?;
        self.invoke_priority()?;
        self.passed_priority(b"RESULT-PRIORITY")?;
        Ok(always)
    }

    /// The body of an operation, without its braces.
    #[tactic(auto, unfolding(crate::specs::ReadingModules::operation_at))]
    pub fn operation(&mut self, alloc: Global) -> Result<OpText, Refusal>
        ensures gives { Gives result self.new (operation_at narrow self.old) }
        ensures keeps { length self.new ≤ length self.old }
    {
        let signature = self.signature(alloc)?;
        let errors = self.named_list(alloc, b"ERRORS")?;
        let linked = self.named_list(alloc, b"LINKED")?;
        let always = self.manner()?;
        let code = self.maybe_code(alloc)?;
        Ok(OpText {
            argument: signature.argument,
            result: signature.result,
            returns: signature.returns,
            always,
            errors,
            linked,
            code,
        })
    }

    /// The body of an error, without its braces.
    #[tactic(auto, unfolding(crate::specs::ReadingModules::error_at))]
    pub fn error(&mut self, alloc: Global) -> Result<ErrText, Refusal>
        ensures gives { Gives result self.new (error_at narrow self.old) }
        ensures keeps { length self.new ≤ length self.old }
    {
        let parameter = self.maybe_use(alloc, b"PARAMETER")?;
        self.passed_priority(b"PRIORITY")?;
        let code = self.maybe_code(alloc)?;
        Ok(ErrText { parameter, code })
    }
}
