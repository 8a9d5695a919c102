//! The parts of rows: names, numbers, items and parts of types.

ghost use Rattle.std.specs.Prelude.{◌≡◌, Some, [], IfOk};
ghost use Rattle.table_file.specs.FieldTypes.{field_types};
ghost use Rattle.table_file.specs.Reading.{Gives, spot_of};
ghost use Rattle.table_file.specs.RowParts as found;

use crate::fault::Stop;
use crate::fields::{counted, integer, text, truth};
use crate::spot::Spot;
use asn1_types::{Item, Named, Part, Parts, TypeId, TypeTable};
use notation_tokens::words::is_name_of_value;
use osi_base::{Indices, ListOf, Name, NoMemory};
use std::alloc::Global;
use std::str;

/// Which types of parts a version has.
#[derive(Clone, Copy)]
pub enum Version {
    /// Without defaults and without SET OF.
    One,
    /// With defaults and with SET OF.
    Two,
}

/// A number of 32 bits.
pub(crate) fn number_32(number: i64) -> Option<u32>
    ensures { result ≡ found.number_32 number }
{
    u32::try_from(number).ok()
}

/// A name that begins with a lower-case letter, if it is one.
#[tactic(auto, unfolding(crate::specs::RowParts::name_at))]
pub(crate) fn name<'a>(alloc: Global, spot: Spot<'a>) -> Result<(Option<Name>, Spot<'a>), Stop>
    ensures { Gives (λ x. (x.0, spot_of x.1)) result (found.name_at (spot_of spot.entry)) }
{
    let (octets, after) = text(spot)?;
    if !is_name_of_value(octets) {
        return Ok((None, after));
    }
    let octets = str::from_utf8(octets).unwrap();
    Ok((Some(Name::from_str(alloc, octets)?), after))
}

/// A row's number, if it is one.
#[tactic(auto, unfolding(crate::specs::RowParts::row_number_at))]
pub(crate) fn row_number<'a>(
    alloc: Global,
    fields: &TypeTable,
    spot: Spot<'a>,
) -> Result<(Option<TypeId>, Spot<'a>), Stop>
    requires { fields.now ≡ field_types }
    ensures { Gives (λ x. (x.0, spot_of x.1)) result (found.row_number_at (spot_of spot.entry)) }
{
    let (number, after) = integer(alloc, fields, spot)?;
    match number_32(number) {
        Some(number) => Ok((Some(TypeId(number)), after)),
        None => Ok((None, after)),
    }
}

/// One more behind those so far, if all are sound.
fn joined<T: Drop>(before: Option<ListOf<T>>, one: Option<T>) -> Result<Option<ListOf<T>>, NoMemory>
    ensures { IfOk result (λ all. all ≡ found.joined before one) }
{
    match (before, one) {
        (Some(mut all), Some(one)) => {
            all.push(one)?;
            Ok(Some(all))
        }
        _ => Ok(None),
    }
}

/// An item of an ENUMERATED.
#[tactic(auto, unfolding(crate::specs::RowParts::item_at))]
fn item<'a>(
    alloc: Global,
    fields: &TypeTable,
    spot: Spot<'a>,
) -> Result<(Option<Item>, Spot<'a>), Stop>
    requires { fields.now ≡ field_types }
    ensures { Gives (λ x. (x.0, spot_of x.1)) result (found.item_at (spot_of spot.entry)) }
{
    let (name, behind) = name(alloc, spot)?;
    let (number, after) = integer(alloc, fields, behind)?;
    match name {
        Some(name) => Ok((Some(Item { name, number }), after)),
        None => Ok((None, after)),
    }
}

/// One more, behind those so far.
#[tactic(auto, unfolding(crate::specs::RowParts::joins))]
fn one_item<'a>(
    alloc: Global,
    fields: &TypeTable,
    before: Option<Named>,
    spot: Spot<'a>,
) -> Result<(Option<Named>, Spot<'a>), Stop>
    requires { fields.now ≡ field_types }
    ensures { Gives (λ x. (x.0, spot_of x.1)) result
        (found.joins found.item_at before (spot_of spot.entry)) }
{
    let (one, after) = item(alloc, fields, spot)?;
    Ok((joined(before, one)?, after))
}

/// The items of an ENUMERATED.
pub(crate) fn items<'a>(
    alloc: Global,
    fields: &TypeTable,
    spot: Spot<'a>,
) -> Result<(Option<Named>, Spot<'a>), Stop>
    requires { fields.now ≡ field_types }
    ensures { Gives (λ x. (x.0, spot_of x.1)) result
        (found.list_at found.item_at (spot_of spot.entry)) }
{
    let (number, behind) = counted(spot)?;
    let mut spot = behind;
    let mut all = Some(ListOf::new(alloc));
    for _index in 0..number {
        let (more, next) = one_item(alloc, fields, all, spot)?;
        all = more;
        spot = next;
    }
    Ok((all, spot))
}

/// The default of a part, which only version 2 has.
#[tactic(auto, unfolding(crate::specs::RowParts::default_at))]
fn default<'a>(
    alloc: Global,
    fields: &TypeTable,
    version: Version,
    spot: Spot<'a>,
) -> Result<(Option<i64>, Spot<'a>), Stop>
    requires { fields.now ≡ field_types }
    ensures { Gives (λ x. (x.0, spot_of x.1)) result
        (found.default_at version (spot_of spot.entry)) }
{
    match version {
        Version::One => Ok((None, spot)),
        Version::Two => {
            let (is_there, behind) = truth(spot)?;
            if !is_there {
                return Ok((None, behind));
            }
            let (number, after) = integer(alloc, fields, behind)?;
            Ok((Some(number), after))
        }
    }
}

/// A part of these, if they are sound.
fn part_of(
    name: Option<Name>,
    inner: Option<TypeId>,
    optional: bool,
    default: Option<i64>,
) -> Option<Part>
    ensures { result ≡ found.part_of name inner optional default }
{
    match (name, inner) {
        (Some(name), Some(inner)) => Some(Part {
            name,
            inner,
            optional,
            default,
        }),
        _ => None,
    }
}

/// A part of a SEQUENCE or SET, or an alternative of a CHOICE.
#[tactic(auto, unfolding(crate::specs::RowParts::part_at))]
fn part<'a>(
    alloc: Global,
    fields: &TypeTable,
    version: Version,
    spot: Spot<'a>,
) -> Result<(Option<Part>, Spot<'a>), Stop>
    requires { fields.now ≡ field_types }
    ensures { Gives (λ x. (x.0, spot_of x.1)) result (found.part_at version (spot_of spot.entry)) }
{
    let (name, behind_name) = name(alloc, spot)?;
    let (inner, behind_inner) = row_number(alloc, fields, behind_name)?;
    let (optional, behind_mark) = truth(behind_inner)?;
    let (default, after) = default(alloc, fields, version, behind_mark)?;
    Ok((part_of(name, inner, optional, default), after))
}

/// One more, behind those so far.
#[tactic(auto, unfolding(crate::specs::RowParts::joins))]
fn one_part<'a>(
    alloc: Global,
    fields: &TypeTable,
    version: Version,
    before: Option<Parts>,
    spot: Spot<'a>,
) -> Result<(Option<Parts>, Spot<'a>), Stop>
    requires { fields.now ≡ field_types }
    ensures { Gives (λ x. (x.0, spot_of x.1)) result
        (found.joins (found.part_at version) before (spot_of spot.entry)) }
{
    let (one, after) = part(alloc, fields, version, spot)?;
    Ok((joined(before, one)?, after))
}

/// The parts of a type.
pub(crate) fn parts<'a>(
    alloc: Global,
    fields: &TypeTable,
    version: Version,
    spot: Spot<'a>,
) -> Result<(Option<Parts>, Spot<'a>), Stop>
    requires { fields.now ≡ field_types }
    ensures { Gives (λ x. (x.0, spot_of x.1)) result
        (found.list_at (found.part_at version) (spot_of spot.entry)) }
{
    let (number, behind) = counted(spot)?;
    let mut spot = behind;
    let mut all = Some(ListOf::new(alloc));
    for _index in 0..number {
        let (more, next) = one_part(alloc, fields, version, all, spot)?;
        all = more;
        spot = next;
    }
    Ok((all, spot))
}

/// A place in another table, if it has so many rows.
#[tactic(auto, unfolding(crate::specs::RowParts::index_at))]
fn index<'a>(
    alloc: Global,
    fields: &TypeTable,
    most: usize,
    spot: Spot<'a>,
) -> Result<(Option<u32>, Spot<'a>), Stop>
    requires { fields.now ≡ field_types }
    ensures { Gives (λ x. (x.0, spot_of x.1)) result (found.index_at most (spot_of spot.entry)) }
{
    let (number, after) = integer(alloc, fields, spot)?;
    match number_32(number) {
        Some(number) if (number as usize) < most => Ok((Some(number), after)),
        _ => Ok((None, after)),
    }
}

/// One more, behind those so far.
#[tactic(auto, unfolding(crate::specs::RowParts::joins))]
fn one_index<'a>(
    alloc: Global,
    fields: &TypeTable,
    most: usize,
    before: Option<Indices>,
    spot: Spot<'a>,
) -> Result<(Option<Indices>, Spot<'a>), Stop>
    requires { fields.now ≡ field_types }
    ensures { Gives (λ x. (x.0, spot_of x.1)) result
        (found.joins (found.index_at most) before (spot_of spot.entry)) }
{
    let (one, after) = index(alloc, fields, most, spot)?;
    Ok((joined(before, one)?, after))
}

/// Places in another table.
pub(crate) fn indices<'a>(
    alloc: Global,
    fields: &TypeTable,
    most: usize,
    spot: Spot<'a>,
) -> Result<(Option<Indices>, Spot<'a>), Stop>
    requires { fields.now ≡ field_types }
    ensures { Gives (λ x. (x.0, spot_of x.1)) result
        (found.list_at (found.index_at most) (spot_of spot.entry)) }
{
    let (number, behind) = counted(spot)?;
    let mut spot = behind;
    let mut all = Some(ListOf::new(alloc));
    for _index in 0..number {
        let (more, next) = one_index(alloc, fields, most, all, spot)?;
        all = more;
        spot = next;
    }
    Ok((all, spot))
}
