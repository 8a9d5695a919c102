//! Putting fields behind one another.

ghost use Rattle.std.specs.Prelude.{◌≡◌, ◌++◌, ◌≤◌, length, OnOk};
ghost use Rattle.byteorder.specs.Endian.{big_bytes};
ghost use Rattle.packed_codec.specs.Writing.{counted, packed};
ghost use Rattle.table_file.specs.FieldTypes.{field_types};
ghost use Rattle.table_file.specs.Files.{integer_file, number_file, oid_file, truth_file};

use crate::field_types::{INTEGER, OBJECT_ID};
use asn1_types::{Node, TypeId, TypeTable, Val};
use byteorder::{BigEndian, ByteOrder};
use osi_base::{Copied, NoMemory, Octets, Oid};
use packed_codec::packed_write;
use std::alloc::Global;

/// Puts a count, in four octets.
pub(crate) fn put_count(out: &mut Octets, count: usize) -> Result<(), NoMemory>
    ensures { OnOk result (out.new ≡ out.old ++ big_bytes 4 count) }
{
    let mut octets = [0; 4];
    BigEndian::write_u32(&mut octets, (count % 0x1_0000_0000) as u32);
    out.extend(&octets)
}

/// Puts octets behind their count.
pub(crate) fn put_counted(out: &mut Octets, octets: &[u8]) -> Result<(), NoMemory>
    ensures { OnOk result (out.new ≡ out.old ++ counted octets.now) }
{
    put_count(out, octets.len())?;
    out.extend(octets)
}

/// Puts a BOOLEAN, or the mark of a part that may be absent.
pub(crate) fn put_truth(out: &mut Octets, truth: bool) -> Result<(), NoMemory>
    ensures { OnOk result (out.new ≡ out.old ++ truth_file truth) }
{
    if truth { out.push(1) } else { out.push(0) }
}

/// Puts the packed spelling of a value, which has at most 200 octets.
fn put_value(types: &TypeTable, of: TypeId, value: &Val, out: &mut Octets) -> Result<(), NoMemory>
    requires { length (packed types.now of.0 value.now) ≤ 200 }
    ensures { OnOk result (out.new ≡ out.old ++ packed types.now of.0 value.now) }
{
    let mut room = [0u8; 200];
    let len = packed_write(types, of, value, &mut room);
    out.extend(&room[..len])
}

/// Puts an INTEGER.
#[tactic(auto, unfolding(packed_codec::specs::Writing::packed))]
pub(crate) fn put_integer(types: &TypeTable, number: i64, out: &mut Octets) -> Result<(), NoMemory>
    requires { types.now ≡ field_types }
    ensures { OnOk result (out.new ≡ out.old ++ integer_file number) }
{
    let value = Val {
        node: Node::Int(number),
    };
    put_value(types, INTEGER, &value, out)
}

/// Puts a number without a sign.
pub(crate) fn put_number(types: &TypeTable, number: u32, out: &mut Octets) -> Result<(), NoMemory>
    requires { types.now ≡ field_types }
    ensures { OnOk result (out.new ≡ out.old ++ number_file number) }
{
    put_integer(types, i64::from(number), out)
}

/// Puts an OBJECT IDENTIFIER.
#[tactic(auto, unfolding(packed_codec::specs::Writing::packed))]
pub(crate) fn put_oid(
    alloc: Global,
    types: &TypeTable,
    oid: &Oid,
    out: &mut Octets,
) -> Result<(), NoMemory>
    requires { types.now ≡ field_types }
    ensures { OnOk result (out.new ≡ out.old ++ oid_file oid.now) }
{
    let _arcs = oid.arcs();
    let value = Val {
        node: Node::ObjectId(oid.copy(alloc)?),
    };
    put_value(types, OBJECT_ID, &value, out)
}
