//! Values that APDUs of remote operations carry: what the octets spell, without asking `fits`. The
//! roles of bare mode (`rose_roles`) read values that fit alone.

ghost use Rattle.std.specs.Prelude.{◌≡◌, ◌<◌, length, IfOk, true, false, nat_eq};
ghost use Rattle.std.specs.Option.{option_copied};
ghost use Rattle.osi_base.specs.declared.syntax.Syntax.TheVariants as syntaxes;
ghost use Rattle.osi_base.specs.Limits.{most_octets};
ghost use Rattle.end_wire.specs.Heads.{value_at, typed_at, carried_at, value_or_lack, room_in};
ghost use Rattle.module_contents.specs.Said.{spelled_or, value_needed};

use asn1_types::{TypeId, TypeTable, Val};
use ber_reading::{ReadFault, ber_read, der_read};
use osi_base::{NoMemory, Octets, Syntax};
use packed_codec::{PackedFault, packed_read_within};
use std::alloc::Global;
use stub_tables::Use;

/// The value of a row that all of these octets spell in BER.
#[tactic(auto, unfolding(end_wire::specs::Heads::value_at))]
fn ber_value(
    alloc: Global,
    types: &TypeTable,
    of: TypeId,
    octets: &[u8],
) -> Result<Option<Val>, NoMemory>
    requires { of.0 < length types.now }
    ensures { IfOk result (λ v. spelled_or v ≡ value_at syntaxes.Ber types.now most_octets of.0
        octets.now) }
{
    match ber_read(alloc, types, of, octets) {
        Ok(read) => {
            if read.used == octets.len() {
                Ok(Some(read.value))
            } else {
                Ok(None)
            }
        }
        Err(ReadFault::NoMemory) => Err(NoMemory),
        Err(_) => Ok(None),
    }
}

/// The value of a row that all of these octets spell in DER.
#[tactic(auto, unfolding(end_wire::specs::Heads::value_at))]
fn der_value(
    alloc: Global,
    types: &TypeTable,
    of: TypeId,
    octets: &[u8],
) -> Result<Option<Val>, NoMemory>
    requires { of.0 < length types.now }
    ensures { IfOk result (λ v. spelled_or v ≡ value_at syntaxes.Der types.now most_octets of.0
        octets.now) }
{
    match der_read(alloc, types, of, octets) {
        Ok(read) => {
            if read.used == octets.len() {
                Ok(Some(read.value))
            } else {
                Ok(None)
            }
        }
        Err(ReadFault::NoMemory) => Err(NoMemory),
        Err(_) => Ok(None),
    }
}

/// The value of a row that all of these octets, as many as have room, spell in the packed syntax.
#[tactic(auto, unfolding(end_wire::specs::Heads::value_at))]
fn packed_value(
    alloc: Global,
    types: &TypeTable,
    of: TypeId,
    octets: &[u8],
    room: u32,
) -> Result<Option<Val>, NoMemory>
    requires { of.0 < length types.now }
    ensures { IfOk result (λ v. spelled_or v ≡ value_at syntaxes.Packed types.now
        (room_in syntaxes.Packed room) of.0 octets.now) }
{
    match packed_read_within(alloc, types, of, octets, room.min(262_144)) {
        Ok(read) => {
            if read.used == octets.len() {
                Ok(Some(read.value))
            } else {
                Ok(None)
            }
        }
        Err(PackedFault::NoMemory) => Err(NoMemory),
        Err(_) => Ok(None),
    }
}

/// The value of a row that there is.
fn row_value(
    alloc: Global,
    syntax: Syntax,
    types: &TypeTable,
    of: TypeId,
    octets: &[u8],
    room: u32,
) -> Result<Option<Val>, NoMemory>
    requires { of.0 < length types.now }
    ensures { IfOk result (λ v. spelled_or v ≡ value_at syntax types.now (room_in syntax room) of.0
        octets.now) }
{
    match syntax {
        Syntax::Ber => ber_value(alloc, types, of, octets),
        Syntax::Der => der_value(alloc, types, of, octets),
        Syntax::Packed => packed_value(alloc, types, of, octets, room),
    }
}

/// The value of a row, where there is one, that all of these octets spell.
fn some_row_value(
    alloc: Global,
    syntax: Syntax,
    types: &TypeTable,
    of: TypeId,
    octets: &[u8],
    room: u32,
) -> Result<Option<Val>, NoMemory>
    ensures { IfOk result (λ v. spelled_or v ≡ value_at syntax types.now (room_in syntax room) of.0
        octets.now) }
{
    if types.has(of) {
        row_value(alloc, syntax, types, of, octets, room)
    } else {
        Ok(None)
    }
}

/// The value of this type, where there is one, that all of these octets spell.
fn typed_value(
    alloc: Global,
    syntax: Syntax,
    types: &TypeTable,
    of: Option<TypeId>,
    octets: &[u8],
    room: u32,
) -> Result<Option<Val>, NoMemory>
    ensures { IfOk result (λ v. spelled_or v ≡ typed_at syntax types.now (room_in syntax room) of
        octets.now) }
{
    match of {
        None => Ok(None),
        Some(of) => some_row_value(alloc, syntax, types, of, octets, room),
    }
}

/// The value that must be carried where it is used so.
pub(crate) fn needed(
    alloc: Global,
    syntax: Syntax,
    types: &TypeTable,
    used: Option<&Use>,
    octets: &Option<Octets>,
    room: u32,
) -> Result<Option<Val>, NoMemory>
    ensures { IfOk result (λ v. v ≡ value_needed (carried_at syntax types.now (room_in syntax room)
        (option_copied used.entry) octets.now)) }
{
    let (Some(used), Some(octets)) = (used, octets) else {
        return Ok(None);
    };
    typed_value(alloc, syntax, types, used.inner, octets.as_slice(), room)
}

/// The value that is carried, or its lack where that is allowed; `None` where it is neither.
pub(crate) fn carried(
    alloc: Global,
    syntax: Syntax,
    types: &TypeTable,
    used: Option<&Use>,
    octets: &Option<Octets>,
    room: u32,
) -> Result<Option<Option<Val>>, NoMemory>
    ensures { IfOk result (λ v. v ≡ value_or_lack (option_copied used.entry)
        (carried_at syntax types.now (room_in syntax room) (option_copied used.entry) octets.now)) }
{
    let Some(used) = used else { return Ok(None) };
    let Some(octets) = octets else {
        if used.may_lack() {
            return Ok(Some(None));
        }
        return Ok(None);
    };
    match typed_value(alloc, syntax, types, used.inner, octets.as_slice(), room)? {
        Some(value) => Ok(Some(Some(value))),
        None => Ok(None),
    }
}
