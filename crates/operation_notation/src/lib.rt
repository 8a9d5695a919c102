//! The notation of remote operations (X.880, in this project's profile): its grammar, and the
//! parser that reads a module's text.
#![tactic(auto)]

mod assignments;
mod bodies;
mod cursor;
mod fault;
mod laws;
mod module;
mod oid;
mod parser;
mod structured_types;
mod types;

pub use laws::{module_or_fault, one_fault, one_reading};
pub use module::{
    Assigned, Assignment, Assignments, CodeText, DfltText, DfltValue, ErrText, ItemText, ItemTexts,
    Locateds, ModuleText, OpText, PartText, PartTexts, PlainText, RangeText, TagText, TypeText,
    UseText,
};
// The tokens that a text is cut into, and the faults that `lex` and `parse_module` give.
pub use notation_tokens::{Located, NotationFault, NotationKind, Token, TokenKind, Tokens, lex};
pub use parser::parse_module;
