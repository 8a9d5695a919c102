//! Reading what an APDU carries: a role takes a value only where `fits` holds of it, which
//! `module_contents` doesn't ask of the values that it reads.

ghost use Rattle.std.specs.Prelude.{◌≡◌, ◌<◌, length, IfOk, Some, true, false};
ghost use Rattle.osi_base.specs.declared.syntax.Syntax.TheVariants as syntaxes;
ghost use Rattle.rose_roles.specs.Values.{IsReadAs, IsAllowedIn};

use asn1_types::{TypeId, TypeTable, Val};
use ber_reading::{ReadFault, ber_read, der_read};
use ber_writing::fits;
use osi_base::{NoMemory, Octets, Syntax};
use packed_codec::{PackedFault, packed_read_within};
use std::alloc::Global;
use stub_tables::Use;

/// The value that fits and that all of these octets spell in BER.
fn fitting_in_ber(
    alloc: Global,
    types: &TypeTable,
    of: TypeId,
    octets: &[u8],
    room: u32,
) -> Result<Option<Val>, NoMemory>
    requires { of.0 < length types.now }
    ensures { IfOk result (IsReadAs syntaxes.Ber types.now room of.0 octets.now) }
{
    match ber_read(alloc, types, of, octets) {
        Ok(read) => {
            if read.used == octets.len() && fits(types, of, &read.value) {
                Ok(Some(read.value))
            } else {
                Ok(None)
            }
        }
        Err(ReadFault::NoMemory) => Err(NoMemory),
        Err(_) => Ok(None),
    }
}

/// The value that fits and that all of these octets spell in DER.
fn fitting_in_der(
    alloc: Global,
    types: &TypeTable,
    of: TypeId,
    octets: &[u8],
    room: u32,
) -> Result<Option<Val>, NoMemory>
    requires { of.0 < length types.now }
    ensures { IfOk result (IsReadAs syntaxes.Der types.now room of.0 octets.now) }
{
    match der_read(alloc, types, of, octets) {
        Ok(read) => {
            if read.used == octets.len() && fits(types, of, &read.value) {
                Ok(Some(read.value))
            } else {
                Ok(None)
            }
        }
        Err(ReadFault::NoMemory) => Err(NoMemory),
        Err(_) => Ok(None),
    }
}

/// The value that fits and that all of these octets, as many as have room, spell in the packed
/// syntax.
fn fitting_in_packed(
    alloc: Global,
    types: &TypeTable,
    of: TypeId,
    octets: &[u8],
    room: u32,
) -> Result<Option<Val>, NoMemory>
    requires { of.0 < length types.now }
    ensures { IfOk result (IsReadAs syntaxes.Packed types.now room of.0 octets.now) }
{
    match packed_read_within(alloc, types, of, octets, room.min(262_144)) {
        Ok(read) => {
            if read.used == octets.len() && fits(types, of, &read.value) {
                Ok(Some(read.value))
            } else {
                Ok(None)
            }
        }
        Err(PackedFault::NoMemory) => Err(NoMemory),
        Err(_) => Ok(None),
    }
}

/// The value of this type that fits and that all of these octets spell; in the packed syntax they
/// have a limit.
fn fitting_value(
    alloc: Global,
    syntax: Syntax,
    types: &TypeTable,
    of: TypeId,
    octets: &[u8],
    room: u32,
) -> Result<Option<Val>, NoMemory>
    requires { of.0 < length types.now }
    ensures { IfOk result (IsReadAs syntax types.now room of.0 octets.now) }
{
    match syntax {
        Syntax::Ber => fitting_in_ber(alloc, types, of, octets, room),
        Syntax::Der => fitting_in_der(alloc, types, of, octets, room),
        Syntax::Packed => fitting_in_packed(alloc, types, of, octets, room),
    }
}

/// The value of the row that fits, where there is such a row.
fn row_value(
    alloc: Global,
    syntax: Syntax,
    types: &TypeTable,
    of: TypeId,
    octets: &[u8],
    room: u32,
) -> Result<Option<Val>, NoMemory>
    ensures { IfOk result (IsReadAs syntax types.now room of.0 octets.now) }
{
    if types.has(of) {
        fitting_value(alloc, syntax, types, of, octets, room)
    } else {
        Ok(None)
    }
}

/// The value that is carried, or its lack; `None` where neither is one that is carried there.
pub(crate) fn allowed(
    alloc: Global,
    syntax: Syntax,
    types: &TypeTable,
    used: &Use,
    octets: &Option<Octets>,
    room: u32,
) -> Result<Option<Option<Val>>, NoMemory>
    ensures { IfOk result (IsAllowedIn syntax types.now room used.now octets.now) }
{
    match (used.inner, octets) {
        (None, None) => Ok(Some(None)),
        (None, Some(_)) => Ok(None),
        (Some(_), None) => {
            if used.optional {
                Ok(Some(None))
            } else {
                Ok(None)
            }
        }
        (Some(of), Some(octets)) => {
            match row_value(alloc, syntax, types, of, octets.as_slice(), room)? {
                Some(value) => Ok(Some(Some(value))),
                None => Ok(None),
            }
        }
    }
}
