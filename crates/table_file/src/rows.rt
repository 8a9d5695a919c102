//! The rows of types.

ghost use Rattle.std.specs.Prelude.{◌≡◌, MatchResult, Some, Ok, Err};
ghost use Rattle.asn1_types.specs.declared.row.TypeRow.{TypeRow as Row};
ghost use Rattle.table_file.specs.FieldTypes.{field_types};
ghost use Rattle.table_file.specs.Reading.{Gives, spot_of};
ghost use Rattle.table_file.specs.Rows as found;

use crate::fault::Stop;
use crate::fields::{counted, integer, octet, truth};
use crate::row_parts::{Version, items, number_32, parts, row_number};
use crate::spot::Spot;
use asn1_types::{
    Class, Parts, RowRefusal, TypeId, TypeRow, TypeTable, class_numbered, kind_numbered,
};
use std::alloc::Global;

/// The range of an INTEGER.
#[tactic(auto, unfolding(crate::specs::Rows::range_at))]
fn range<'a>(
    alloc: Global,
    fields: &TypeTable,
    spot: Spot<'a>,
) -> Result<(Option<TypeRow>, Spot<'a>), Stop>
    requires { fields.now ≡ field_types }
    ensures { Gives (λ x. (x.0, spot_of x.1)) result (found.range_at (spot_of spot.entry)) }
{
    let (low, behind) = integer(alloc, fields, spot)?;
    let (high, after) = integer(alloc, fields, behind)?;
    Ok((Some(TypeRow::Integer { low, high }), after))
}

/// The most octets of an OCTET STRING.
#[tactic(auto, unfolding(crate::specs::Rows::most_at))]
fn octets<'a>(
    alloc: Global,
    fields: &TypeTable,
    spot: Spot<'a>,
) -> Result<(Option<TypeRow>, Spot<'a>), Stop>
    requires { fields.now ≡ field_types }
    ensures { Gives (λ x. (x.0, spot_of x.1)) result (found.most_at (spot_of spot.entry)) }
{
    let (most, after) = integer(alloc, fields, spot)?;
    match number_32(most) {
        Some(most) => Ok((Some(TypeRow::OctetString { most }), after)),
        None => Ok((None, after)),
    }
}

/// The kind of a text.
#[tactic(auto, unfolding(crate::specs::Rows::kind_at))]
fn text<'a>(
    alloc: Global,
    fields: &TypeTable,
    spot: Spot<'a>,
) -> Result<(Option<TypeRow>, Spot<'a>), Stop>
    requires { fields.now ≡ field_types }
    ensures { Gives (λ x. (x.0, spot_of x.1)) result (found.kind_at (spot_of spot.entry)) }
{
    let (number, after) = integer(alloc, fields, spot)?;
    match kind_numbered(number) {
        Some(kind) => Ok((Some(TypeRow::Text(kind)), after)),
        None => Ok((None, after)),
    }
}

/// A tag of these over a row, if they are sound.
fn tag_of(
    class: Option<Class>,
    number: Option<u32>,
    explicit: bool,
    inner: Option<TypeId>,
) -> Option<TypeRow>
    ensures { result ≡ found.tag_of class number explicit inner }
{
    match (class, number, inner) {
        (Some(class), Some(number), Some(inner)) => Some(TypeRow::Tagged {
            class,
            number,
            explicit,
            inner,
        }),
        _ => None,
    }
}

/// A tag over a row.
#[tactic(auto, unfolding(crate::specs::Rows::tagged_at))]
fn tagged<'a>(
    alloc: Global,
    fields: &TypeTable,
    spot: Spot<'a>,
) -> Result<(Option<TypeRow>, Spot<'a>), Stop>
    requires { fields.now ≡ field_types }
    ensures { Gives (λ x. (x.0, spot_of x.1)) result (found.tagged_at (spot_of spot.entry)) }
{
    let (class, behind_class) = integer(alloc, fields, spot)?;
    let (number, behind_number) = integer(alloc, fields, behind_class)?;
    let (explicit, behind_mark) = truth(behind_number)?;
    let (inner, after) = row_number(alloc, fields, behind_mark)?;
    let row = tag_of(class_numbered(class), number_32(number), explicit, inner);
    Ok((row, after))
}

/// A type of parts: a SEQUENCE, SET or CHOICE.
#[derive(Clone, Copy)]
pub enum Made {
    /// A SEQUENCE.
    Sequence,
    /// A SET.
    Set,
    /// A CHOICE.
    Choice,
}

fn row_of(made: Made, parts: Parts) -> TypeRow
    ensures { result ≡ found.made_row made parts }
{
    match made {
        Made::Sequence => TypeRow::Sequence(parts),
        Made::Set => TypeRow::Set(parts),
        Made::Choice => TypeRow::Choice(parts),
    }
}

#[tactic(auto, unfolding(crate::specs::Rows::of_parts_at))]
fn of_parts<'a>(
    alloc: Global,
    fields: &TypeTable,
    version: Version,
    made: Made,
    spot: Spot<'a>,
) -> Result<(Option<TypeRow>, Spot<'a>), Stop>
    requires { fields.now ≡ field_types }
    ensures { Gives (λ x. (x.0, spot_of x.1)) result
        (found.of_parts_at version (found.made_row made) (spot_of spot.entry)) }
{
    let (found, after) = parts(alloc, fields, version, spot)?;
    match found {
        Some(parts) => Ok((Some(row_of(made, parts)), after)),
        None => Ok((None, after)),
    }
}

/// An ENUMERATED.
#[tactic(auto, unfolding(crate::specs::Rows::enumerated_at))]
fn enumerated<'a>(
    alloc: Global,
    fields: &TypeTable,
    spot: Spot<'a>,
) -> Result<(Option<TypeRow>, Spot<'a>), Stop>
    requires { fields.now ≡ field_types }
    ensures { Gives (λ x. (x.0, spot_of x.1)) result (found.enumerated_at (spot_of spot.entry)) }
{
    let (found, after) = items(alloc, fields, spot)?;
    match found {
        Some(items) => Ok((Some(TypeRow::Enumerated(items)), after)),
        None => Ok((None, after)),
    }
}

/// A SEQUENCE OF.
#[tactic(auto, unfolding(crate::specs::Rows::sequence_of_at))]
fn list<'a>(
    alloc: Global,
    fields: &TypeTable,
    spot: Spot<'a>,
) -> Result<(Option<TypeRow>, Spot<'a>), Stop>
    requires { fields.now ≡ field_types }
    ensures { Gives (λ x. (x.0, spot_of x.1)) result (found.sequence_of_at (spot_of spot.entry)) }
{
    let (found, after) = row_number(alloc, fields, spot)?;
    match found {
        Some(inner) => Ok((Some(TypeRow::SequenceOf(inner)), after)),
        None => Ok((None, after)),
    }
}

/// A SET OF, which only version 2 has.
#[tactic(auto, unfolding(crate::specs::Rows::set_of_at))]
fn set_of<'a>(
    alloc: Global,
    fields: &TypeTable,
    version: Version,
    place: usize,
    spot: Spot<'a>,
) -> Result<(Option<TypeRow>, Spot<'a>), Stop>
    requires { fields.now ≡ field_types }
    ensures { Gives (λ x. (x.0, spot_of x.1)) result
        (found.set_of_at version place (spot_of spot.entry)) }
{
    match version {
        Version::One => Err(Stop::Bad(place)),
        Version::Two => {
            let (found, after) = row_number(alloc, fields, spot)?;
            match found {
                Some(inner) => Ok((Some(TypeRow::SetOf(inner)), after)),
                None => Ok((None, after)),
            }
        }
    }
}

/// A row, if its names and numbers have their forms.
#[tactic(auto, unfolding(crate::specs::Rows::row_at))]
fn row<'a>(
    alloc: Global,
    fields: &TypeTable,
    version: Version,
    spot: Spot<'a>,
) -> Result<(Option<TypeRow>, Spot<'a>), Stop>
    requires { fields.now ≡ field_types }
    ensures { Gives (λ x. (x.0, spot_of x.1)) result (found.row_at version (spot_of spot.entry)) }
{
    let (which, behind) = octet(spot)?;
    match which {
        0 => Ok((Some(TypeRow::Boolean), behind)),
        1 => range(alloc, fields, behind),
        2 => enumerated(alloc, fields, behind),
        3 => Ok((Some(TypeRow::Null), behind)),
        4 => octets(alloc, fields, behind),
        5 => Ok((Some(TypeRow::BitString), behind)),
        6 => Ok((Some(TypeRow::ObjectId), behind)),
        7 => text(alloc, fields, behind),
        8 => of_parts(alloc, fields, version, Made::Sequence, behind),
        9 => of_parts(alloc, fields, version, Made::Set, behind),
        10 => list(alloc, fields, behind),
        11 => of_parts(alloc, fields, version, Made::Choice, behind),
        12 => tagged(alloc, fields, behind),
        13 => set_of(alloc, fields, version, spot.place, behind),
        _ => Err(Stop::Bad(spot.place)),
    }
}

/// Puts a row behind the others, if it is sound there.
fn add(types: &mut TypeTable, row: Option<TypeRow>, place: usize) -> Result<(), Stop>
    ensures { Gives (λ _. types.new) result (found.added place types.old row) }
{
    match row {
        Some(row) => match types.add(row) {
            Ok(_) => Ok(()),
            Err(RowRefusal::NoMemory) => Err(Stop::NoMemory),
            Err(_) => Err(Stop::Bad(place)),
        },
        None => Err(Stop::Bad(place)),
    }
}

/// One row more, which is judged.
#[tactic(auto, unfolding(crate::specs::Rows::adds))]
fn one_row<'a>(
    alloc: Global,
    fields: &TypeTable,
    version: Version,
    types: &mut TypeTable,
    spot: Spot<'a>,
) -> Result<Spot<'a>, Stop>
    requires { fields.now ≡ field_types }
    ensures { Gives (λ after. (types.new, spot_of after)) result
        (found.adds version types.old (spot_of spot.entry)) }
{
    let (row, after) = row(alloc, fields, version, spot)?;
    add(types, row, spot.place)?;
    Ok(after)
}

/// All rows, each of which is judged before the next is read.
pub(crate) fn rows<'a>(
    alloc: Global,
    fields: &TypeTable,
    version: Version,
    spot: Spot<'a>,
) -> Result<(TypeTable, Spot<'a>), Stop>
    requires { fields.now ≡ field_types }
    ensures { Gives (λ x. (x.0, spot_of x.1)) result (found.rows_at version (spot_of spot.entry)) }
{
    let (number, behind) = counted(spot)?;
    let mut spot = behind;
    let mut types = TypeTable::new(alloc);
    for _index in 0..number {
        let next = one_row(alloc, fields, version, &mut types, spot)?;
        spot = next;
    }
    Ok((types, spot))
}
