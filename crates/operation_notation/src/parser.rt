//! Parsing a text.

ghost use Rattle.std.specs.Prelude.{◌≡◌, ◌≤◌, length, IfOk, IfErr, Ok};
ghost use Rattle.std.specs.List.{AllByRecursion};
ghost use Rattle.notation_tokens.specs.Lexeme.{IsSpan, lexemes};
ghost use Rattle.operation_notation.specs.GrammarTypes.{narrow};
ghost use Rattle.operation_notation.specs.ReadingModules.{whole_at};
ghost use Rattle.notation_tokens.specs.Texts.{Answers};
ghost use Rattle.operation_notation.specs.Modules.{ReadsAsModule, module_of, refused, verdict};
ghost use Rattle.operation_notation.specs.Faults.{IsFirstFault};
ghost use Rattle.operation_notation.specs.WellFormed.{IsWellFormed};
ghost use Rattle.operation_notation.specs.declared.module.ModuleText.{ModuleText};

use crate::cursor::Cursor;
use crate::fault::Refusal;
use crate::module::ModuleText;
use notation_tokens::{
    Lexed, MOST_MODULE_OCTETS, NotationFault, NotationKind, TEXT_TOO_LONG, cut_text, fault_at,
};
use std::alloc::Global;

/// The fault of this kind where a parser stands.
fn fault_of(lexed: &Lexed, cursor: &Cursor<'_>, kind: NotationKind) -> NotationFault
    ensures { refused lexed.now cursor.now kind ≡ Err result }
{
    if !cursor.is_done() {
        return fault_at(cursor.place(), kind);
    }
    match lexed.stop {
        None => fault_at(lexed.place, kind),
        Some(stop) => fault_at(lexed.place, stop),
    }
}

/// The module that the tokens of a text are.
fn parse(alloc: Global, text: &[u8], lexed: &Lexed) -> Result<ModuleText, NotationFault>
    requires { AllByRecursion (IsSpan text.now (length text.now)) lexed.now.tokens }
    ensures { Answers result (verdict lexed.now
        (whole_at narrow (lexemes text.now lexed.now.tokens))) }
{
    let mut cursor = Cursor::new(text, lexed.tokens.as_slice());
    match cursor.whole(alloc) {
        Ok(module) => match lexed.stop {
            None => Ok(module),
            Some(kind) => Err(fault_at(lexed.place, kind)),
        },
        Err(Refusal::NoMemory) => Err(NotationFault::NoMemory),
        Err(Refusal::Fault(kind)) => Err(fault_of(lexed, &cursor, kind)),
    }
}

/// The module that a text is.
///
/// # Errors
///
/// `At`, with the first fault in the text: what `lex` refuses, `UnexpectedToken` at a token that
/// can't stand where it stands or right behind the text's last octet where it ends too early, and
/// `Unsupported` at a part of the notation that isn't supported. `TextTooLong` comes before all.
/// `NoMemory` where an allocation is refused.
pub fn parse_module(alloc: Global, text: &[u8]) -> Result<ModuleText, NotationFault>
    // What is read is derived by the grammar.
    ensures found { IfOk result (λ m. ReadsAsModule text.now m) }
    // What the grammar derives is read, unless memory runs out.
    ensures only { (m : ModuleText) → ReadsAsModule text.now m → Answers result (Ok m) }
    // What is read is well formed.
    ensures well { IfOk result IsWellFormed }
    // What is refused is the text's first fault.
    ensures first { IfErr result (λ fault. IsFirstFault text.now fault) }
    // Which module or fault it is.
    ensures exact { Answers result (module_of text.now) }
{
    read(alloc, text)
}

/// The module that a text is, or its first fault.
#[tactic(auto, unfolding(crate::specs::Modules::module_of), using(notation_tokens::proofs::Spans::lexed_spans))]
fn read(alloc: Global, text: &[u8]) -> Result<ModuleText, NotationFault>
    ensures { Answers result (module_of text.now) }
{
    if text.len() > MOST_MODULE_OCTETS {
        return Err(TEXT_TOO_LONG);
    }
    let lexed = cut_text(alloc, text)?;
    parse(alloc, text, &lexed)
}
