//! Packets over a byte stream (RFC 1006) and the transport units in them (X.224, class 0): the
//! units of a stream in any cutting, and their one spelling.
#![tactic(auto)]

mod header;
mod header_stops;
mod laws;
mod numbers;
mod packet;
mod parameters;
mod reader;
mod reader_state;
mod writer;

pub use laws::{
    any_cutting, fault_stays, fault_stays_held, faulty_begins_no_packet, less_than_a_packet,
    one_of_three, one_split, right_before_a_fault, spelled_unit_is_read, split_is_read,
    stream_is_read, streams_join, unit_is_spelled, up_with_its_last_octet, written_tsdu_is_read,
    written_tsdu_is_split, written_units, written_units_are_read,
};
pub use packet::{ConnectionFields, Packet, Packets, TFault, TFed};
pub use reader::TReader;
pub use writer::{write_confirm, write_connect, write_disconnect, write_problem, write_tsdu};
