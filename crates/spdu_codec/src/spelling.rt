//! Writes codes, lengths and parameters (X.225 8.2).

ghost use Rattle.std.specs.Prelude.{◌≡◌, ◌+◌, ◌<◌, ◌++◌, ◌∷◌, [], length, OnOk};
ghost use Rattle.std.specs.Option.{option_map};
ghost use Rattle.spdu_codec.specs.Written.{written_length, coded, spelled, optional, group_of, octet, pair, numeral, mark_numeral};

use osi_base::{NoMemory, Octets};
use std::alloc::Global;

fn push_length(out: &mut Octets, len: usize) -> Result<(), NoMemory>
    ensures { OnOk result (out.new ≡ out.old ++ written_length len) }
{
    if len < 255 {
        return out.push(len as u8);
    }
    out.extend(&[255, (len / 256 % 256) as u8, (len % 256) as u8])
}

/// A code, a length, and so many octets.
pub(crate) fn push_coded(out: &mut Octets, code: u8, value: &[u8]) -> Result<(), NoMemory>
    ensures { OnOk result (out.new ≡ out.old ++ coded code value.now) }
{
    out.push(code)?;
    push_length(out, value.len())?;
    out.extend(value)
}

/// A parameter of any octets that may lack.
pub(crate) fn push_octets(
    out: &mut Octets,
    code: u8,
    value: &Option<Octets>,
) -> Result<(), NoMemory>
    ensures { OnOk result (out.new ≡ out.old ++ spelled (optional code value.now)) }
{
    match value {
        None => Ok(()),
        Some(value) => push_coded(out, code, value.as_slice()),
    }
}

/// A parameter of one octet that may lack.
pub(crate) fn push_octet(out: &mut Octets, code: u8, value: Option<u8>) -> Result<(), NoMemory>
    ensures { OnOk result (out.new ≡ out.old ++ spelled (optional code (option_map octet value))) }
{
    match value {
        None => Ok(()),
        Some(octet) => out.extend(&[code, 1, octet]),
    }
}

/// A parameter of two octets that may lack.
pub(crate) fn push_pair(out: &mut Octets, code: u8, value: Option<u16>) -> Result<(), NoMemory>
    ensures { OnOk result (out.new ≡ out.old ++ spelled (optional code (option_map pair value))) }
{
    match value {
        None => Ok(()),
        Some(pair) => out.extend(&[code, 2, (pair / 256) as u8, (pair % 256) as u8]),
    }
}

/// A group, which is left out where nothing is in it.
pub(crate) fn push_group(out: &mut Octets, code: u8, items: &[u8]) -> Result<(), NoMemory>
    ensures { OnOk result (out.new ≡ out.old ++ group_of code items.now) }
{
    if items.is_empty() {
        return Ok(());
    }
    push_coded(out, code, items)
}

fn push_digits(out: &mut Octets, number: u32) -> Result<(), NoMemory>
    ensures { OnOk result (out.new ≡ out.old ++ numeral number) }
{
    if number == 0 {
        return Ok(());
    }
    push_digits(out, number / 10)?;
    out.push(b'0' + (number % 10) as u8)?;
    Ok(())
}

/// A parameter of a number in digits.
pub(crate) fn push_number(
    alloc: Global,
    out: &mut Octets,
    code: u8,
    number: u32,
) -> Result<(), NoMemory>
    ensures { OnOk result (out.new ≡ out.old ++ coded code (numeral number)) }
{
    let mut digits = Octets::new(alloc);
    push_digits(&mut digits, number)?;
    push_coded(out, code, digits.as_slice())
}

/// A parameter of a number in digits that may lack.
pub(crate) fn push_some_number(
    alloc: Global,
    out: &mut Octets,
    code: u8,
    value: Option<u32>,
) -> Result<(), NoMemory>
    ensures { OnOk result (out.new
        ≡ out.old ++ spelled (optional code (option_map numeral value))) }
{
    match value {
        None => Ok(()),
        Some(number) => push_number(alloc, out, code, number),
    }
}

/// A parameter of a mark's number, which may be 0.
pub(crate) fn push_mark(
    alloc: Global,
    out: &mut Octets,
    code: u8,
    mark: u32,
) -> Result<(), NoMemory>
    ensures { OnOk result (out.new ≡ out.old ++ coded code (mark_numeral mark)) }
{
    if mark == 0 {
        return out.extend(&[code, 1, b'0']);
    }
    push_number(alloc, out, code, mark)
}
