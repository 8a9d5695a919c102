//! Types and values of ASN.1 (X.680), whatever the transfer syntax: values, tables whose rows are
//! types, and which values fit a type; beside them where a whole value in BER or DER ends (X.690
//! 8.1).
#![tactic(auto)]

mod clash;
mod defaults;
mod nesting;
mod numbered;
mod opening;
mod refusal;
mod row;
mod row_by_itself;
mod table;
mod text;
mod value;
mod whole;

pub use defaults::{has_default_value, may_be_absent};
pub use numbered::{class_numbered, kind_numbered};
pub use opening::{begins, is_no_tag, same_class, text_number};
pub use refusal::RowRefusal;
pub use row::{Class, Item, Named, Part, Parts, Tag, TextKind, TypeId, TypeRow};
pub use table::TypeTable;
pub use text::{are_bits, are_octets, is_item, is_text};
pub use value::{MaybeVals, Node, Val, Vals, empty_slots};
pub use whole::{behind_identifier, behind_whole, is_ended, is_marked, is_whole, number_256};
