//! How octets that come are read as messages of an association, as definitions with laws and worked
//! messages: what stands first on the line, and what it means under a set of contexts (X.225 8.3,
//! X.226 8, X.227 9, X.228 9). `association_intake` and `association_meaning` are the code that
//! follows them.
// Definitions that proofs of worked messages unfold, so that these are computed.
#![tactic(auto, unfolding(tpkt::specs::Header::with_size, tpkt::specs::Header::with_parameter, tpkt::specs::Header::value_at, tpkt::specs::Header::parameter_at, tpkt::specs::Header::parameters_at, tpkt::specs::Header::ends_at, tpkt::specs::Header::data_at, tpkt::specs::Header::code_at, tpkt::specs::Header::indicator_at, tpkt::specs::Header::length_at, tpkt::specs::Header::header_at, tpkt::specs::Reader::after, spdu_codec::specs::Places::user_among, spdu_codec::specs::Places::head_at, spdu_codec::specs::Places::user_places, spdu_codec::specs::Reading::length_at, spdu_codec::specs::Reading::value_at, spdu_codec::specs::Reading::scan, spdu_codec::specs::Reading::unit_at, spdu_codec::specs::Reading::units_at, spdu_codec::specs::Values::more_digits, ber_spelling::specs::Fields::digits_at, ber_spelling::specs::Fields::high_at, ber_spelling::specs::Fields::identifier_at, ber_spelling::specs::Fields::announced_at, ber_spelling::specs::Fields::long_at, ber_spelling::specs::Fields::definite_at, ber_spelling::specs::Fields::extent_at, ber_spelling::specs::Fields::contents_at, ber_spelling::specs::Fields::look_at, ber_spelling::specs::Primitives::integer_of, ber_spelling::specs::Primitives::arcs_of, ber_spelling::specs::Reading::within, ber_spelling::specs::Rules::primitive_at, ber_spelling::specs::Rules::items_at, ber_spelling::specs::Rules::segment_at, ber_spelling::specs::Rules::segmented_at, ber_spelling::specs::Rules::string_at, ber_spelling::specs::Rules::open_at, ber_spelling::specs::Rules::close_at, ber_spelling::specs::Rules::explicit_at, ber_spelling::specs::Rules::part_at, ber_spelling::specs::Rules::parts_at, ber_spelling::specs::Rules::sequence_at, ber_spelling::specs::Rules::slot_at, ber_spelling::specs::Rules::choice_at, ber_spelling::specs::Rules::whole_at, ber_spelling::specs::Rules::any_at, ber_spelling::specs::Rules::reads, ber_spelling::specs::Rules::value_at, ber_spelling::specs::Rules::read_at, passed_fields::specs::Reading::known_at, passed_fields::specs::Reading::field_at, presentation_pdus::specs::Selected::half_at, presentation_pdus::specs::Units::ppdu_run, acse::specs::Fields::any_apdu_at, packed_codec::specs::Fields::announced_at, packed_codec::specs::Fields::field_at, packed_codec::specs::Fields::octet_at, packed_codec::specs::Fields::count_at, packed_codec::specs::Laws::packs, packed_codec::specs::Numbers::integer_octets, packed_codec::specs::ObjectIds::base_128, packed_codec::specs::ObjectIds::arcs_octets, packed_codec::specs::Reading::within, packed_codec::specs::Rules::boolean_at, packed_codec::specs::Rules::null_at, packed_codec::specs::Rules::sized_at, packed_codec::specs::Rules::number_at, packed_codec::specs::Rules::string_at, packed_codec::specs::Rules::bits_at, packed_codec::specs::Rules::present_at, packed_codec::specs::Rules::part_at, packed_codec::specs::Rules::parts_at, packed_codec::specs::Rules::sequence_at, packed_codec::specs::Rules::items_at, packed_codec::specs::Rules::list_at, packed_codec::specs::Rules::set_item_at, packed_codec::specs::Rules::set_items_at, packed_codec::specs::Rules::set_of_at, packed_codec::specs::Rules::choice_at, packed_codec::specs::Rules::reads, packed_codec::specs::Rules::read_at, packed_codec::specs::Writing::packed, end_wire::specs::Heads::spelled_head, end_wire::specs::Heads::value_at, end_wire::specs::Heads::head_at, asn1_types::specs::Defaults::takes_default, asn1_types::specs::Rows::nesting, asn1_types::specs::Rows::openings, asn1_types::specs::Table::refusal, asn1_types::specs::Tags::front_rank, asn1_types::specs::Whole::behind_values, asn1_types::specs::Whole::behind_whole, asn1_types::specs::Whole::is_whole, asn1_types::specs::Writing::base_128, asn1_types::specs::Writing::base_256, asn1_types::specs::Writing::integer_octets, asn1_types::specs::Writing::risen_parts, asn1_types::specs::Writing::set_parts, asn1_types::specs::Writing::writes, asn1_types::specs::Writing::written))]

mod cases;
mod laws;
mod layer_of_values;

pub use cases::{
    aborts_are_read, alterations_are_read, connection_is_read, faulty_units_are_told,
    faulty_values_are_told, marks_are_read, namesakes_are_told_apart, release_is_read,
    values_are_read,
};
// Passed on: crates above name these through this one.
pub use end_wire::apdu_codec_layer;
pub use laws::{
    alterations_are_read_back, associations_are_read_back, beginnings_are_short,
    data_are_read_back, layers_are_read_back, remote_is_read_back, session_words_are_read_back,
    transport_units_stand_first, written_stands_first,
};
pub use layer_of_values::LayerOfValues;
// Passed on: crates above name these through this one.
pub use presentation_pdus as presentation_pdus_layer;
