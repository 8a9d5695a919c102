//! Presentation data values out of values and into them (X.226 8.4.2).

ghost use Rattle.std.specs.Prelude.{◌≡◌, IfOk};
ghost use Rattle.std.specs.Option.{option_copied};
ghost use Rattle.fixed_tables.specs.Pdvs.{bits_or_none, content_in, content_value, pdv_in, pdv_value};

use crate::making::{any, bits, chosen, integer, name_part, octets, sequence};
use crate::values::{
    alternative, chosen_in, maybe_bits, maybe_oid, octets_in, part_in, small_number_or,
};
use asn1_types::Val;
use osi_base::{BitString, NoMemory, Octets, Pdv, PdvContent};
use std::alloc::Global;

fn bits_or_none(alloc: Global, string: Option<BitString>) -> BitString
    ensures { result ≡ bits_or_none string }
{
    match string {
        Some(string) => string,
        None => BitString {
            octets: Octets::new(alloc),
            unused: 0,
        },
    }
}

fn content_in(alloc: Global, value: Option<&Val>) -> Result<PdvContent, NoMemory>
    ensures { IfOk result (λ x. x ≡ content_in (option_copied value.entry)) }
{
    let inner = chosen_in(value);
    match alternative(value) {
        0 => Ok(PdvContent::SingleAsn1Type(octets_in(alloc, inner)?)),
        1 => Ok(PdvContent::OctetAligned(octets_in(alloc, inner)?)),
        _ => {
            let string = maybe_bits(alloc, inner)?;
            Ok(PdvContent::Arbitrary(bits_or_none(alloc, string)))
        }
    }
}

/// The presentation data value that a value says.
pub fn pdv_in(alloc: Global, value: &Val) -> Result<Pdv, NoMemory>
    ensures { IfOk result (λ x. x ≡ pdv_in value.now) }
{
    Ok(Pdv {
        transfer: maybe_oid(alloc, part_in(0, Some(value)))?,
        id: small_number_or(part_in(1, Some(value)), 0),
        content: content_in(alloc, part_in(2, Some(value)))?,
    })
}

fn content_value(alloc: Global, content: &PdvContent) -> Result<Val, NoMemory>
    ensures { IfOk result (λ v. v ≡ content_value content.now) }
{
    match content {
        PdvContent::SingleAsn1Type(value) => chosen(alloc, 0, any(alloc, value)?),
        PdvContent::OctetAligned(value) => chosen(alloc, 1, octets(alloc, value)?),
        PdvContent::Arbitrary(string) => chosen(alloc, 2, bits(alloc, string)?),
    }
}

/// The value that says a presentation data value.
pub fn pdv_value(alloc: Global, pdv: &Pdv) -> Result<Val, NoMemory>
    ensures { IfOk result (λ v. v ≡ pdv_value pdv.now) }
{
    let transfer = name_part(alloc, &pdv.transfer)?;
    let content = content_value(alloc, &pdv.content)?;
    let id = integer(pdv.id as i64);
    Ok(sequence(vec![in alloc; transfer, Some(id), Some(content)]?))
}
