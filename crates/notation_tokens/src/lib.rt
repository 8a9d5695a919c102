//! The tokens of the notation of remote operations (X.680 12, in this project's profile): how a
//! text is cut into them, and which words, names and numbers they are.
#![tactic(auto)]

mod faults;
mod lexing;
mod token;
mod token_cutting;
pub mod words;

pub use faults::{NotationFault, NotationKind, RefusedAt};
pub use lexing::{TEXT_TOO_LONG, fault_at, lex};
pub use token::{Located, Place, Token, TokenKind, Tokens};
pub use token_cutting::{Lexed, MOST_MODULE_OCTETS, cut_text};
