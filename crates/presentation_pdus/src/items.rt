//! Items of lists out of values and into them.

ghost use Rattle.std.specs.Prelude.{◌≡◌, IfOk, option_map};
ghost use Rattle.std.specs.Option.{option_copied};
ghost use Rattle.asn1_types.specs.Value as tree;
ghost use Rattle.presentation_pdus.specs.Items.{number_value, number_in, octet_in, name_in, list_value, some_list, definition_value, definition_in, answer_value, answer_in, restored_value, restored_in};
ghost use Rattle.fixed_tables.specs.Pdvs.{pdv_value, pdv_in};

use asn1_types::Val;
use fixed_tables::{
    InValue, integer, list_in, list_of, maybe_oid, name_part, object_id, octet_or, oid_in, part_in,
    pdv_in, pdv_value, sequence, small_number_or,
};
use osi_base::{AddAnswer, ListOf, NoMemory, Oid, Pdv, Proposal, RestoredItem};
use std::alloc::Global;

/// Identifiers of contexts.
pub(crate) struct Identifiers;

impl InValue for Identifiers {
    type Item = u32;

    ghost item_in = { number_in };

    ghost item_value = { number_value };

    fn item(_alloc: Global, value: &Val) -> Result<u32, NoMemory> {
        Ok(small_number_or(Some(value), 0))
    }

    fn val(_alloc: Global, item: &u32) -> Result<Val, NoMemory> {
        Ok(integer(*item as i64))
    }
}

/// Answers to deletions.
pub(crate) struct Deletions;

impl InValue for Deletions {
    type Item = u8;

    ghost item_in = { octet_in };

    ghost item_value = { number_value };

    fn item(_alloc: Global, value: &Val) -> Result<u8, NoMemory> {
        Ok(octet_or(Some(value), 0))
    }

    fn val(_alloc: Global, item: &u8) -> Result<Val, NoMemory> {
        Ok(integer(*item as i64))
    }
}

/// Names of transfer syntaxes.
pub(crate) struct Names;

impl InValue for Names {
    type Item = Oid;

    ghost item_in = { name_in };

    ghost item_value = { tree.object_id };

    fn item(alloc: Global, value: &Val) -> Result<Oid, NoMemory> {
        oid_in(alloc, Some(value))
    }

    fn val(alloc: Global, item: &Oid) -> Result<Val, NoMemory> {
        object_id(alloc, item)
    }
}

/// Definitions of contexts.
pub(crate) struct Definitions;

impl InValue for Definitions {
    type Item = Proposal;

    ghost item_in = { definition_in };

    ghost item_value = { definition_value };

    fn item(alloc: Global, value: &Val) -> Result<Proposal, NoMemory> {
        Ok(Proposal {
            id: small_number_or(part_in(0, Some(value)), 0),
            abstract_name: oid_in(alloc, part_in(1, Some(value)))?,
            transfers: list_in::<Names>(alloc, part_in(2, Some(value)))?,
        })
    }

    fn val(alloc: Global, item: &Proposal) -> Result<Val, NoMemory> {
        let parts = vec![in alloc;
            Some(integer(item.id as i64)),
            Some(object_id(alloc, &item.abstract_name)?),
            Some(list_of::<Names>(alloc, item.transfers.as_slice())?),
        ]?;
        Ok(sequence(parts))
    }
}

/// A name as a part.
/// A small number as a part.
pub(crate) fn octet_part(number: Option<u8>) -> Option<Val>
    ensures { result ≡ option_map number_value number }
{
    match number {
        Some(number) => Some(integer(number as i64)),
        None => None,
    }
}

/// The reason of a provider.
pub(crate) fn why_in(value: Option<&Val>) -> Option<u8>
    ensures { result ≡ option_map octet_in (option_copied value.entry) }
{
    match value {
        Some(value) => Some(octet_or(Some(value), 0)),
        None => None,
    }
}

/// Results of definitions.
pub(crate) struct Results;

impl InValue for Results {
    type Item = AddAnswer;

    ghost item_in = { answer_in };

    ghost item_value = { answer_value };

    fn item(alloc: Global, value: &Val) -> Result<AddAnswer, NoMemory> {
        Ok(AddAnswer {
            result: octet_or(part_in(0, Some(value)), 0),
            transfer: maybe_oid(alloc, part_in(1, Some(value)))?,
            reason: why_in(part_in(2, Some(value))),
        })
    }

    fn val(alloc: Global, item: &AddAnswer) -> Result<Val, NoMemory> {
        let parts = vec![in alloc;
            Some(integer(item.result as i64)),
            name_part(alloc, &item.transfer)?,
            octet_part(item.reason),
        ]?;
        Ok(sequence(parts))
    }
}

/// Contexts that are restored.
pub(crate) struct Restored;

impl InValue for Restored {
    type Item = RestoredItem;

    ghost item_in = { restored_in };

    ghost item_value = { restored_value };

    fn item(alloc: Global, value: &Val) -> Result<RestoredItem, NoMemory> {
        Ok(RestoredItem {
            id: small_number_or(part_in(0, Some(value)), 0),
            transfer: oid_in(alloc, part_in(1, Some(value)))?,
        })
    }

    fn val(alloc: Global, item: &RestoredItem) -> Result<Val, NoMemory> {
        let parts = vec![in alloc;
            Some(integer(item.id as i64)),
            Some(object_id(alloc, &item.transfer)?),
        ]?;
        Ok(sequence(parts))
    }
}

/// Presentation data values.
pub(crate) struct DataValues;

impl InValue for DataValues {
    type Item = Pdv;

    ghost item_in = { pdv_in };

    ghost item_value = { pdv_value };

    fn item(alloc: Global, value: &Val) -> Result<Pdv, NoMemory> {
        pdv_in(alloc, value)
    }

    fn val(alloc: Global, item: &Pdv) -> Result<Val, NoMemory> {
        pdv_value(alloc, item)
    }
}

/// A list as a part; one of no items doesn't stand.
pub(crate) fn some_list<T: InValue>(
    alloc: Global,
    items: &[T::Item],
) -> Result<Option<Val>, NoMemory>
    ensures { IfOk result (λ part. part ≡ some_list T.item_value items.now) }
{
    match items {
        [] => Ok(None),
        items => Ok(Some(list_of::<T>(alloc, items)?)),
    }
}

/// A list that may lack, as a part.
pub(crate) fn maybe_list<T: InValue>(
    alloc: Global,
    list: &Option<ListOf<T::Item>>,
) -> Result<Option<Val>, NoMemory>
    ensures { IfOk result (λ part. part ≡ option_map (list_value T.item_value) list.now) }
{
    match list {
        Some(list) => Ok(Some(list_of::<T>(alloc, list.as_slice())?)),
        None => Ok(None),
    }
}
