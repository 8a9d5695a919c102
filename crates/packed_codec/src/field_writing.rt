//! Writing values of one field, and values behind a size.

ghost use Rattle.std.specs.Prelude.{◌+◌, ◌≤◌, length};
ghost use Rattle.packed_codec.specs.Writing.{boolean_written, number_written, octets_written, text_written, object_id_written, bits_written, IsPut};

use crate::octets::{put_counted, put_number, put_object_id, put_octet};
use asn1_types::{Node, Val};

pub(crate) fn put_boolean(value: &Val, out: &mut [u8], at: usize) -> usize
    requires { at + length (boolean_written value.now) ≤ length out.old }
    ensures { IsPut (boolean_written value.now) at out.old out.new result }
{
    match &value.node {
        Node::Bool(truth) => put_octet(if *truth { 1 } else { 0 }, out, at),
        _ => at,
    }
}

/// An INTEGER or ENUMERATED.
pub(crate) fn put_integer(value: &Val, out: &mut [u8], at: usize) -> usize
    requires { at + length (number_written value.now) ≤ length out.old }
    ensures { IsPut (number_written value.now) at out.old out.new result }
{
    match &value.node {
        Node::Int(number) => put_number(*number, out, at),
        _ => at,
    }
}

pub(crate) fn put_octet_string(value: &Val, out: &mut [u8], at: usize) -> usize
    requires { at + length (octets_written value.now) ≤ length out.old }
    ensures { IsPut (octets_written value.now) at out.old out.new result }
{
    match &value.node {
        Node::Octets(octets) => put_counted(octets.as_slice(), out, at),
        _ => at,
    }
}

pub(crate) fn put_text(value: &Val, out: &mut [u8], at: usize) -> usize
    requires { at + length (text_written value.now) ≤ length out.old }
    ensures { IsPut (text_written value.now) at out.old out.new result }
{
    match &value.node {
        Node::Text(octets) => put_counted(octets.as_slice(), out, at),
        _ => at,
    }
}

pub(crate) fn put_oid(value: &Val, out: &mut [u8], at: usize) -> usize
    requires { at + length (object_id_written value.now) ≤ length out.old }
    ensures { IsPut (object_id_written value.now) at out.old out.new result }
{
    match &value.node {
        Node::ObjectId(oid) => put_object_id(oid.arcs(), out, at),
        _ => at,
    }
}

pub(crate) fn put_bit_string(value: &Val, out: &mut [u8], at: usize) -> usize
    requires { at + length (bits_written value.now) ≤ length out.old }
    ensures { IsPut (bits_written value.now) at out.old out.new result }
{
    match &value.node {
        Node::Bits { octets, unused } => {
            let behind = put_octet(*unused, out, at);
            put_counted(octets.as_slice(), out, behind)
        }
        _ => at,
    }
}
