//! The packed syntax, this project's own, for the types of `asn1_types`: one spelling for each
//! value, without tags and without lengths of values that hold values.
#![tactic(auto)]

mod fault;
mod field_writing;
mod fields;
mod laws;
mod measure;
mod object_ids;
mod octets;
mod reading;
mod spot;
mod strings;
mod whole_values;
mod writing;

pub use fault::PackedFault;
pub use laws::{
    beginning_is_short, fault_is_first, fault_stays, fitting_packs, none_begins, one_of_three,
    one_spelling, read_is_spelled, read_stays, short_is_within, spelled_is_read, wider_is_long,
    wider_stays, written_is_read,
};
pub use measure::{arcs_len, integer_len, packed_len};
pub use whole_values::{MOST_VALUE_OCTETS, Read, packed_read, packed_read_within};
pub use writing::packed_write;
