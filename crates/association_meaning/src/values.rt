//! What presentation data values mean, each under the pair of its context.

ghost use Rattle.std.specs.Prelude.{◌≡◌, IfOk};
ghost use Rattle.std.specs.Option.{option_copied};
ghost use Rattle.osi_base.specs.OctetPlaces.{HasPlaces};
ghost use Rattle.association_intake.specs.association_reading.Places.{pdv_places};
ghost use Rattle.association_intake.specs.association_reading.Values as reading;
ghost use Rattle.association_words.specs.Seen.{seen_value, seen_values};
ghost use Rattle.association_meaning.specs.Grounds.{GivesAs};

use crate::basis::{Halt, ReadingBasis};
use crate::contexts::{Carrier, check, first_wrong};
use crate::layer_apdus::content_by;
use crate::names::name_carried;
use association_intake::association_reading_layer::LayerOfValues;
use association_words::{Value, Values};
use osi_base::{Copied, ListOf, NoMemory, Pair, Pdv, SetItem, pair_of};
use std::alloc::Global;

/// A pair, where there is one.
fn copied(alloc: Global, pair: Option<&Pair>) -> Result<Option<Pair>, NoMemory>
    ensures { IfOk result (λ copy. copy ≡ option_copied pair.entry) }
{
    match pair {
        None => Ok(None),
        Some(pair) => Ok(Some(pair.copy(alloc)?)),
    }
}

/// A value under the pair of its context, where there is one.
fn value_by(
    basis: &ReadingBasis<'_>,
    carried: LayerOfValues,
    pair: Option<&Pair>,
    pdv: &Pdv,
) -> Result<Value, Halt>
    ensures { GivesAs seen_value result (reading.value_by basis.now.tables.now carried
        (option_copied pair.entry) pdv.now) }
{
    let named = copied(basis.alloc, pair)?;
    let content = content_by(basis, carried, pair, pdv.content.octets().as_slice())?;
    Ok(Value {
        id: pdv.id,
        pair: named,
        content,
    })
}

/// A value under a set.
pub(crate) fn value_in(
    basis: &ReadingBasis<'_>,
    carried: LayerOfValues,
    set: &[SetItem],
    pdv: &Pdv,
) -> Result<Value, Halt>
    ensures { GivesAs seen_value result (reading.value_in basis.now.tables.now carried set.now
        pdv.now) }
{
    value_by(basis, carried, pair_of(set, pdv.id), pdv)
}

/// Values under a set, one after the other.
fn all_in(
    basis: &ReadingBasis<'_>,
    carried: LayerOfValues,
    set: &[SetItem],
    pdvs: &[Pdv],
) -> Result<Values, Halt>
    ensures { GivesAs seen_values result (reading.all_values (reading.value_in basis.now.tables.now
        carried set.now) pdvs.now) }
{
    let mut values: Values = ListOf::new(basis.alloc);
    for pdv in pdvs {
        let value = value_in(basis, carried, set, pdv)?;
        values.push(value)?;
    }
    Ok(values)
}

/// Values of a message that carries these: the contexts and forms of all, then what each is.
pub(crate) fn values_under(
    basis: &ReadingBasis<'_>,
    set: &[SetItem],
    carried: LayerOfValues,
    carrier: &Carrier<'_>,
    pdvs: &[Pdv],
) -> Result<Values, Halt>
    requires { HasPlaces carrier.now.start carrier.now.user.now }
    ensures { GivesAs seen_values result (reading.values_under basis.now.tables.now set.now
        carried (pdv_places carrier.now.place carrier.now.start carrier.now.user.now) pdvs.now) }
{
    let name = name_carried(basis.tables, carried);
    check(basis, carrier, first_wrong(name, set, pdvs))?;
    all_in(basis, carried, set, pdvs)
}
