//! Values of types printed as texts, in the value notation of X.680, by their types and by their
//! form; decimal numbers printed and read; a text that grows.
#![tactic(auto)]

mod decimal;
mod print;
mod text;
mod value;

pub use decimal::{decimal_integer, decimal_number, invocation_identifier};
pub use print::put_typed;
pub use text::Text;
pub use value::{put_oid, put_value};
