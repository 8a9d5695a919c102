//! Types and values of ASN.1 (X.680) in BER and DER (X.690), as one crate: rows and tables of
//! types, values and which of them fit, reading, writing and their laws. It has no code of its own;
//! each part stands in the crate that its line below names.
#![tactic(auto)]

pub use asn1_types::{
    Class, Item, MaybeVals, Named, Node, Part, Parts, RowRefusal, TextKind, TypeId, TypeRow,
    TypeTable, Val, Vals, has_default_value, is_whole, may_be_absent,
};
pub use ber_reading::{MOST_VALUE_OCTETS, Read, ReadFault, ber_read, ber_read_within, der_read};
pub use ber_spelling::{
    beginning_is_short, der_is_ber, der_is_ber_in_form, der_is_whole, der_is_written,
    fault_is_first, fault_stays, none_begins, one_of_three, read_is_spelled, read_stays,
    short_is_within, spelled_fits, spelled_is_read, unused_bits_are_cleared, unused_bits_are_zeros,
    wider_is_long, wider_stays, written_is_read, written_is_spelled,
};
pub use ber_writing::{ber_len, ber_octets, ber_write, fits, in_order, is_less};
