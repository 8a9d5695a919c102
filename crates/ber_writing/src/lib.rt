//! Values of the types of `asn1_types`, written in DER (X.690), with what that needs: their
//! lengths, the order of a SET OF's items, and which values fit their type.
#![tactic(auto)]

mod compare;
mod contents;
mod fields;
mod fitting;
mod head;
mod length;
mod octet;
mod order;
mod pieces;
mod size;
mod sort;
mod writing;

pub use fitting::fits;
pub use length::{arcs_len, ber_len, definite_len, integer_len};
pub use order::is_less;
pub use size::packed_size;
pub use sort::{follows_last, in_order};
pub use writing::{ber_octets, ber_write};
