//! Which octets spell a value in BER and DER (X.690), as definitions with their laws; and the
//! reading of single fields, on which `ber_reading` is built.
#![tactic(auto)]

mod fault;
mod fields;
mod laws;
mod order;
mod plain_values;
mod primitives;
mod spot;
mod strings;
mod tag;
mod whole;

// The tag that `expect_tag` and `tag_or` look for.
pub use asn1_types::Tag;
pub use fault::ReadFault;
pub use fields::{class_of, extent, identifier_octets, look_ahead, refusal};
pub use laws::{
    beginning_is_short, der_is_ber, der_is_ber_in_form, der_is_whole, der_is_written,
    fault_is_first, fault_stays, none_begins, one_of_three, read_is_spelled, read_stays,
    short_is_within, spelled_fits, spelled_is_read, unused_bits_are_cleared, unused_bits_are_zeros,
    wider_is_long, wider_stays, written_is_read, written_is_spelled,
};
pub use order::{RANKS, rank_of, tag_rank};
pub use plain_values::{boolean, enumerated, integer, is_other_number, null, object_id};
pub use primitives::{integer_of, is_padded};
pub use spot::{Ahead, Gathered, Opened, Scope, Spot, StringKind, StringRule};
pub use strings::{bit_string, octet_string, text};
pub use tag::{expect_tag, tag_or};
pub use whole::whole_value;
