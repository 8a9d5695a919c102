//! Writes packets in their one spelling.

ghost use Rattle.std.specs.Prelude.{◌≡◌, ◌+◌, ◌≤◌, ◌<◌, ◌++◌, [], ◌∷◌, length, true, false, OnOk, IfOk};
ghost use Rattle.std.specs.List.{flat_map};
ghost use Rattle.osi_base.specs.Limits.{IsUnitSize, unit_most, last_octet, most_header_fields};
ghost use Rattle.tpkt.specs.Wire.{two, packet, header, parameter};
ghost use Rattle.tpkt.specs.Written.{part_packet, written_tsdu, size_parameter, selector_parameter, connection_fields, control_packet, HasRoom};

use crate::numbers::push_number;
use crate::packet::ConnectionFields;
use osi_base::{NoMemory, Octets};
use std::alloc::Global;

fn push_part(out: &mut Octets, octets: &[u8], last: bool) -> Result<(), NoMemory>
    requires { length octets.now + 3 ≤ unit_most }
    ensures { OnOk result (out.new ≡ out.old ++ part_packet (last, octets.now)) }
{
    out.extend(&[3, 0])?;
    push_number(out, octets.len() as u16 + 7)?;
    out.extend(&[2, 0xF0])?;
    out.push(if last { 0x80 } else { 0 })?;
    out.extend(octets)
}

/// The packets of a TSDU (RFC 1006 6; X.224 13.7): DTs of at most `size` octets, of which three are
/// header. Each but the last is as long as it may be, and the last has the mark of the TSDU's end.
/// The size is 128 to 65,531. `NoMemory` where memory runs out.
pub fn write_tsdu(alloc: Global, tsdu: &[u8], size: u32) -> Result<Octets, NoMemory>
    requires { IsUnitSize size }
    ensures { IfOk result (λ octets. octets ≡ written_tsdu size tsdu.now) }
{
    let most = size as usize - 3;
    let mut out = Octets::new(alloc);
    let mut rest = tsdu;
    while rest.len() > most {
        let (part, more) = rest.split_at(most);
        push_part(&mut out, part, false)?;
        rest = more;
    }
    push_part(&mut out, rest, true)?;
    Ok(out)
}

fn push_size(out: &mut Octets, size: Option<u8>) -> Result<(), NoMemory>
    ensures { OnOk result (out.new ≡ out.old ++ flat_map parameter (size_parameter size)) }
{
    match size {
        None => Ok(()),
        Some(size) => out.extend(&[0xC0, 1, size]),
    }
}

fn push_selector(out: &mut Octets, code: u8, selector: &[u8]) -> Result<(), NoMemory>
    requires { length selector.now ≤ last_octet }
    ensures { OnOk result (out.new
        ≡ out.old ++ flat_map parameter (selector_parameter code selector.now)) }
{
    if selector.is_empty() {
        return Ok(());
    }
    out.extend(&[code, selector.len() as u8])?;
    out.extend(selector)
}

/// A packet of a unit whose header has these fields and fills it.
fn control(alloc: Global, fields: &[u8]) -> Result<Octets, NoMemory>
    requires { length fields.now ≤ most_header_fields }
    ensures { IfOk result (λ octets. octets ≡ control_packet fields.now) }
{
    let mut out = Octets::new(alloc);
    out.extend(&[3, 0])?;
    push_number(&mut out, fields.len() as u16 + 5)?;
    out.push(fields.len() as u8)?;
    out.extend(fields)?;
    Ok(out)
}

fn connection(alloc: Global, code: u8, ends: &ConnectionFields) -> Result<Octets, NoMemory>
    requires { HasRoom ends.now }
    ensures { IfOk result (λ octets. octets ≡ control_packet (connection_fields code ends.now)) }
{
    let mut fields = Octets::new(alloc);
    fields.push(code)?;
    push_number(&mut fields, ends.destination)?;
    push_number(&mut fields, ends.source)?;
    fields.push(0)?;
    push_size(&mut fields, ends.size)?;
    push_selector(&mut fields, 0xC1, ends.calling.as_slice())?;
    push_selector(&mut fields, 0xC2, ends.called.as_slice())?;
    control(alloc, fields.as_slice())
}

/// The packet of a connection request, CR (X.224 13.3), of class 0: the references, and the size
/// and the selectors where they are there. Its header has room for at most 254 octets. `NoMemory`
/// where memory runs out.
pub fn write_connect(alloc: Global, ends: &ConnectionFields) -> Result<Octets, NoMemory>
    requires { HasRoom ends.now }
    ensures { IfOk result (λ octets. octets ≡ control_packet (connection_fields 224 ends.now)) }
{
    connection(alloc, 0xE0, ends)
}

/// The packet of a connection confirm, CC (X.224 13.4), as that of a request.
pub fn write_confirm(alloc: Global, ends: &ConnectionFields) -> Result<Octets, NoMemory>
    requires { HasRoom ends.now }
    ensures { IfOk result (λ octets. octets ≡ control_packet (connection_fields 208 ends.now)) }
{
    connection(alloc, 0xD0, ends)
}

/// The packet of a disconnect request, DR (X.224 13.5): the references and the reason, without
/// parameters. `NoMemory` where memory runs out.
pub fn write_disconnect(
    alloc: Global,
    destination: u16,
    source: u16,
    reason: u8,
) -> Result<Octets, NoMemory>
    ensures { IfOk result (λ octets. octets
        ≡ control_packet (128 ∷ two destination ++ two source ++ reason ∷ [])) }
{
    let mut fields = Octets::new(alloc);
    fields.push(0x80)?;
    push_number(&mut fields, destination)?;
    push_number(&mut fields, source)?;
    fields.push(reason)?;
    control(alloc, fields.as_slice())
}

/// The packet of a unit that tells an error, ER (X.224 13.12): the reference of the end that it
/// goes to and the cause, without parameters. `NoMemory` where memory runs out.
pub fn write_problem(alloc: Global, destination: u16, cause: u8) -> Result<Octets, NoMemory>
    ensures { IfOk result (λ octets. octets
        ≡ control_packet (112 ∷ two destination ++ cause ∷ [])) }
{
    let mut fields = Octets::new(alloc);
    fields.push(0x70)?;
    push_number(&mut fields, destination)?;
    fields.push(cause)?;
    control(alloc, fields.as_slice())
}
