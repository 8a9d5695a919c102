//! Values written into a room, and octet for octet as the standard spells them (X.690 8.6.2).

use crate::tables::{Row, table};
use ber_codec::{Node, TypeId, TypeTable, Val, ber_len, ber_octets, ber_write};
use osi_base::Octets;
use std::alloc::Global;
use std::process::Abort;
use std::test::*;

/// The BIT STRING '0101'B.
fn bits(rt: &impl Abort, alloc: Global) -> Val {
    Val {
        node: Node::Bits {
            octets: Octets::from_slice(alloc, &[0x50]).expect(rt, "memory"),
            unused: 4,
        },
    }
}

/// Whether a value is written as the first four of these octets, of which the last two were there.
fn is_in_front(rt: &impl Abort, table: &TypeTable, value: &Val, octets: &[u8]) -> bool {
    assert!(rt; ber_len(table, TypeId(0), value) == 4);
    let mut room = [0xAA; 6];
    ber_write(table, TypeId(0), value, &mut room) == 4 && room.as_slice() == octets
}

/// Whether a value is written as these octets.
fn is_written(
    rt: &impl Abort,
    alloc: Global,
    table: &TypeTable,
    value: &Val,
    octets: &[u8],
) -> bool {
    let written = ber_octets(alloc, table, TypeId(0), value).expect(rt, "memory");
    let is_so = written.as_slice() == octets;
    drop(written);
    is_so
}

/// Written before two octets that stay.
#[test]
fn writes_into_the_front_of_a_room(rt: HostRuntime) {
    let table = table(&rt, rt.alloc(), &[Row::BitString]);
    let value = bits(&rt, rt.alloc());
    let is_in_front = is_in_front(&rt, &table, &value, &[0x03, 0x02, 0x04, 0x50, 0xAA, 0xAA]);
    let is_written = is_written(&rt, rt.alloc(), &table, &value, &[0x03, 0x02, 0x04, 0x50]);
    drop(value);
    drop(table);
    assert!(rt; is_in_front && is_written);
}
