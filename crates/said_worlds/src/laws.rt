//! Each law is the contract of a function that does nothing but cite others.

ghost use Rattle.said_worlds.specs.Laws.{DirectIsSaid, EndsAreMet, ReliableIsSaid};

use transfer_laws::association_reading_layer::{
    alterations_are_read_back, associations_are_read_back, data_are_read_back,
    layers_are_read_back, remote_is_read_back,
};

/// What is presumed of the messages of two ends whose lines are octets holds of two ends of direct
/// mode: each may be written, and means itself where it is taken.
pub fn direct_ends_are_said()
    ensures law { DirectIsSaid }
{
    alterations_are_read_back();
    data_are_read_back();
    remote_is_read_back();
    layers_are_read_back();
    associations_are_read_back();
}

/// So it does of two ends of reliable mode.
pub fn reliable_ends_are_said()
    ensures law { ReliableIsSaid }
{
    alterations_are_read_back();
    data_are_read_back();
    remote_is_read_back();
    layers_are_read_back();
    associations_are_read_back();
}

/// There are such ends, in both modes.
pub fn ends_are_met()
    ensures law { EndsAreMet }
{}
