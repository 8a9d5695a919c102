//! What the codecs of the upper layers' protocol data units share (X.226 8, X.227 9, X.228 9):
//! fixed tables of types, whole values of them, the fields of values read and made, presentation
//! data values, and reasons.
#![tactic(auto)]

mod building;
mod laws;
mod lists;
mod making;
mod pdu;
mod pdvs;
mod reasons;
mod values;

pub use building::{explicit, implicit, joined_rows, parts, table_of, tagged};
pub use laws::{spelled_is_whole, whole_is_spelled};
pub use lists::{InValue, list_in, list_of};
pub use making::{
    any, bits, bits_part, chosen, integer, name_part, number_part, object_id, octets, present,
    sequence,
};
pub use pdu::{PduFault, all_of, fault_of, whole};
pub use pdvs::{pdv_in, pdv_value};
pub use reasons::{reason_in, reason_value};
pub use values::{
    alternative, chosen_in, maybe_bits, maybe_octets, maybe_oid, number_or, octet_or, octets_in,
    oid_in, part_in, small_number_or,
};
