//! Loading a table file.

ghost use Rattle.std.specs.Prelude.{◌≡◌, ◌≤◌, length, OnOk};
ghost use Rattle.osi_base.specs.Limits.{text_most};
ghost use Rattle.table_file.specs.FieldTypes.{field_types};
ghost use Rattle.table_file.specs.Reading.{Gives, spot_of};
ghost use Rattle.table_file.specs.Contents.{contents_of};
ghost use Rattle.table_file.specs.Loading.{version_at, module_name_at, contents_at, file_at, ended, load_of, Loads};

use crate::fault::{LoadFault, Stop};
use crate::field_types::field_types;
use crate::fields::{object_id, text};
use crate::names_and_codes::Names;
use crate::row_parts::Version;
use crate::rows::rows;
use crate::sections::{errors, operations};
use crate::spot::Spot;
use asn1_types::TypeTable;
use notation_tokens::words::is_name_of_type;
use osi_base::{Kind, Name};
use std::alloc::Global;
use std::str;
use stub_tables::Tables;

/// How many octets a table file may have.
pub const MOST_OCTETS: usize = 16_777_216;

/// How many items the lists of a table file may have together.
const MOST_ITEMS: u32 = 131_072;

/// The version of a file that begins as a table file does.
#[tactic(auto, unfolding(crate::specs::Loading::version_at))]
fn version(bytes: &[u8]) -> Result<Version, Stop>
    ensures gives { Gives (λ version. version) result (version_at bytes.now) }
    ensures head { OnOk result (6 ≤ length bytes.now) }
{
    match bytes {
        [a, b, c, d, high, low, ..] => {
            if !(*a == b'O' && *b == b'T' && (*c == b'A' && *d == b'B')) {
                return Err(Stop::Bad(0));
            }
            if *high == 0 && *low == 1 {
                Ok(Version::One)
            } else if *high == 0 && *low == 2 {
                Ok(Version::Two)
            } else {
                Err(Stop::Bad(4))
            }
        }
        _ => Err(Stop::Cut),
    }
}

/// The module's name.
#[tactic(auto, unfolding(crate::specs::Loading::module_name_at))]
fn module_name<'a>(alloc: Global, spot: Spot<'a>) -> Result<(Name, Spot<'a>), Stop>
    ensures { Gives (λ x. (x.0, spot_of x.1)) result (module_name_at (spot_of spot.entry)) }
{
    let (octets, after) = text(spot)?;
    if !is_name_of_type(octets) {
        return Err(Stop::Bad(spot.place));
    }
    let octets = str::from_utf8(octets).unwrap();
    Ok((Name::from_str(alloc, octets)?, after))
}

/// The tables that stand behind the version.
#[tactic(auto, unfolding(crate::specs::Loading::contents_at))]
fn contents<'a>(
    alloc: Global,
    fields: &TypeTable,
    version: Version,
    spot: Spot<'a>,
) -> Result<(Tables, Spot<'a>), Stop>
    requires { fields.now ≡ field_types }
    ensures { Gives (λ x. (contents_of x.0, spot_of x.1)) result
        (contents_at version (spot_of spot.entry)) }
{
    let (name, behind_name) = module_name(alloc, spot)?;
    let (name_oid, behind_oid) = object_id(alloc, fields, behind_name)?;
    let (types, behind_types) = rows(alloc, fields, version, behind_oid)?;
    let mut names = Names::new(alloc);
    let (errors, behind_errors) = errors(alloc, fields, &types, &mut names, behind_types)?;
    let (operations, after) = operations(
        alloc,
        fields,
        &types,
        &errors,
        &mut names,
        behind_errors,
    )?;
    let tables = Tables {
        name,
        name_oid,
        types,
        operations,
        errors,
    };
    Ok((tables, after))
}

/// The tables of a file within the limit, and what stands behind them.
#[tactic(auto, unfolding(crate::specs::Loading::file_at))]
fn file<'a>(alloc: Global, bytes: &'a [u8]) -> Result<(Tables, Spot<'a>), Stop>
    requires { length bytes.now ≤ text_most }
    ensures { Gives (λ x. (contents_of x.0, spot_of x.1)) result (file_at bytes.now) }
{
    let version = version(bytes)?;
    let spot = Spot {
        place: 6,
        rest: &bytes[6..],
        left: MOST_ITEMS,
    };
    let fields = field_types(alloc)?;
    contents(alloc, &fields, version, spot)
}

/// Octets within the limit as a file; `is_long` says that more follow.
fn whole(alloc: Global, bytes: &[u8], is_long: bool) -> Result<Tables, LoadFault>
    requires { length bytes.now ≤ text_most }
    ensures { Loads result (ended is_long (length bytes.now) (file_at bytes.now)) }
{
    match file(alloc, bytes) {
        Ok((tables, after)) => {
            if after.rest.is_empty() && !is_long {
                return Ok(tables);
            }
            Err(LoadFault::At {
                place: after.place,
                kind: Kind::Extra,
            })
        }
        Err(Stop::Cut) => Err(LoadFault::At {
            place: bytes.len(),
            kind: if is_long { Kind::Extra } else { Kind::Missing },
        }),
        Err(Stop::Bad(place)) => Err(LoadFault::At {
            place,
            kind: Kind::Content,
        }),
        Err(Stop::NoMemory) => Err(LoadFault::NoMemory),
    }
}

/// The tables of a table file of version 1 or 2.
///
/// # Errors
///
/// `At` where the octets aren't one whole table file with sound rows: the first faulty place, and
/// its kind. A row is judged once it is whole and before the next is read. `NoMemory` where an
/// allocation is refused.
#[tactic(auto, unfolding(crate::specs::Loading::load_of))]
pub fn load(alloc: Global, bytes: &[u8]) -> Result<Tables, LoadFault>
    ensures { Loads result (load_of bytes.now) }
{
    if bytes.len() > MOST_OCTETS {
        whole(alloc, &bytes[..MOST_OCTETS], true)
    } else {
        whole(alloc, bytes, false)
    }
}
