//! APDUs of association control read, with the fields that are passed over.

ghost use Rattle.std.specs.Prelude.{◌≡◌, length, IfOk};
ghost use Rattle.osi_base.specs.Limits.{most_octets};
ghost use Rattle.osi_base.specs.OctetPlaces.{HasPlaces};
ghost use Rattle.ber_spelling.specs.Reading.{Gives, GoesOn, opened_of, spot_of};
ghost use Rattle.passed_fields.specs.Known.{HaveRows};
ghost use Rattle.passed_fields.specs.AllOctets.{front_at};
ghost use Rattle.acse.specs.Rows.{acse_rows, row_count, HasRowsAndPlaces};
ghost use Rattle.acse.specs.Fields.{request_fields, request_passed, response_fields, response_passed, release_fields, release_passed, abort_fields, abort_passed, apdu_at, of_number, any_apdu_at};

use asn1_types::{Class, TypeTable, Val, same_class};
use ber_spelling::{Opened, ReadFault, Scope, Spot, Tag, identifier_octets, refusal};
use fixed_tables::chosen;
use osi_base::Kind;
use passed_fields::{Field, Fields, Passed, fields};
use std::alloc::Global;

fn request_fields() -> [Field; 3]
    ensures { result ≡ request_fields }
{
    [
        Field::of_row(Class::Context, 0, 12, true),
        Field::of_row(Class::Context, 1, 13, false),
        Field::of_row(Class::Context, 30, 11, true),
    ]
}

fn response_fields() -> [Field; 4]
    ensures { result ≡ response_fields }
{
    [
        Field::of_row(Class::Context, 1, 13, false),
        Field::of_row(Class::Context, 2, 16, false),
        Field::of_row(Class::Context, 3, 20, false),
        Field::of_row(Class::Context, 30, 11, true),
    ]
}

fn release_fields() -> [Field; 1]
    ensures { result ≡ release_fields }
{
    [Field::of_row(Class::Context, 0, 23, true)]
}

fn abort_fields() -> [Field; 2]
    ensures { result ≡ abort_fields }
{
    [
        Field::of_row(Class::Context, 0, 27, false),
        Field::of_row(Class::Context, 30, 11, true),
    ]
}

/// The APDU whose tag has this number.
fn apdu<'a>(
    alloc: Global,
    table: &TypeTable,
    which: u32,
    known: &[Field],
    passed: &[Passed],
    scope: &Scope,
    opened: &Opened<'a>,
    spot: Spot<'a>,
) -> Result<(Val, Spot<'a>), ReadFault>
    requires rows { HaveRows table.now known.now }
    requires whole { HasPlaces spot.place spot.rest.now }
    ensures gives { Gives (λ x. (x.0, spot_of x.1)) result
        (apdu_at table.now which known.now passed.now scope.now (opened_of opened.now)
        (spot_of spot.entry)) }
    ensures stops { IfOk result (λ x. GoesOn spot.entry.place (length spot.entry.rest.now) x.1) }
{
    let tag = Tag {
        class: Class::Application,
        number: which,
    };
    let shape = Fields { known, passed };
    let (value, after) = fields(alloc, table, &shape, tag, scope, opened, spot)?;
    Ok((chosen(alloc, which, value)?, after))
}

/// AARQ, whose tag has number 0.
#[tactic(auto, using(crate::proofs::Shapes::request_rows))]
fn request_apdu<'a>(
    alloc: Global,
    table: &TypeTable,
    scope: &Scope,
    opened: &Opened<'a>,
    spot: Spot<'a>,
) -> Result<(Val, Spot<'a>), ReadFault>
    requires whole { HasRowsAndPlaces table.now spot }
    ensures gives { Gives (λ x. (x.0, spot_of x.1)) result
        (apdu_at table.now 0 request_fields request_passed scope.now
        (opened_of opened.now) (spot_of spot.entry)) }
    ensures stops { IfOk result (λ x. GoesOn spot.entry.place (length spot.entry.rest.now) x.1) }
{
    let known = request_fields();
    let passed = [Passed::anywhere(2, 29)];
    apdu(alloc, table, 0, &known, &passed, scope, opened, spot)
}

/// AARE, whose tag has number 1.
#[tactic(auto, using(crate::proofs::Shapes::response_rows))]
fn response_apdu<'a>(
    alloc: Global,
    table: &TypeTable,
    scope: &Scope,
    opened: &Opened<'a>,
    spot: Spot<'a>,
) -> Result<(Val, Spot<'a>), ReadFault>
    requires whole { HasRowsAndPlaces table.now spot }
    ensures gives { Gives (λ x. (x.0, spot_of x.1)) result
        (apdu_at table.now 1 response_fields response_passed scope.now
        (opened_of opened.now) (spot_of spot.entry)) }
    ensures stops { IfOk result (λ x. GoesOn spot.entry.place (length spot.entry.rest.now) x.1) }
{
    let known = response_fields();
    let passed = [Passed::anywhere(0, 0), Passed::anywhere(4, 29)];
    apdu(alloc, table, 1, &known, &passed, scope, opened, spot)
}

/// RLRQ and RLRE, by the number of their tag: they have the same fields.
#[tactic(auto, using(crate::proofs::Shapes::release_rows))]
fn release_apdu<'a>(
    alloc: Global,
    table: &TypeTable,
    which: u32,
    scope: &Scope,
    opened: &Opened<'a>,
    spot: Spot<'a>,
) -> Result<(Val, Spot<'a>), ReadFault>
    requires whole { HasRowsAndPlaces table.now spot }
    ensures gives { Gives (λ x. (x.0, spot_of x.1)) result
        (apdu_at table.now which release_fields release_passed scope.now
        (opened_of opened.now) (spot_of spot.entry)) }
    ensures stops { IfOk result (λ x. GoesOn spot.entry.place (length spot.entry.rest.now) x.1) }
{
    let known = release_fields();
    let passed = [Passed::anywhere(1, 30)];
    apdu(alloc, table, which, &known, &passed, scope, opened, spot)
}

/// ABRT, whose tag has number 4.
#[tactic(auto, using(crate::proofs::Shapes::abort_rows))]
fn abort_apdu<'a>(
    alloc: Global,
    table: &TypeTable,
    scope: &Scope,
    opened: &Opened<'a>,
    spot: Spot<'a>,
) -> Result<(Val, Spot<'a>), ReadFault>
    requires whole { HasRowsAndPlaces table.now spot }
    ensures gives { Gives (λ x. (x.0, spot_of x.1)) result
        (apdu_at table.now 4 abort_fields abort_passed scope.now
        (opened_of opened.now) (spot_of spot.entry)) }
    ensures stops { IfOk result (λ x. GoesOn spot.entry.place (length spot.entry.rest.now) x.1) }
{
    let known = abort_fields();
    let passed = [Passed::anywhere(1, 29)];
    apdu(alloc, table, 4, &known, &passed, scope, opened, spot)
}

/// The APDU whose tag has the number that was read.
fn of_number<'a>(
    alloc: Global,
    table: &TypeTable,
    scope: &Scope,
    opened: &Opened<'a>,
    spot: Spot<'a>,
) -> Result<(Val, Spot<'a>), ReadFault>
    requires whole { HasRowsAndPlaces table.now spot }
    ensures gives { Gives (λ x. (x.0, spot_of x.1)) result
        (of_number table.now scope.now (opened_of opened.now) (spot_of spot.entry)) }
    ensures stops { IfOk result (λ x. GoesOn spot.entry.place (length spot.entry.rest.now) x.1) }
{
    if opened.number == 0 {
        return request_apdu(alloc, table, scope, opened, spot);
    }
    if opened.number == 1 {
        return response_apdu(alloc, table, scope, opened, spot);
    }
    if opened.number == 2 {
        return release_apdu(alloc, table, 2, scope, opened, spot);
    }
    if opened.number == 3 {
        return release_apdu(alloc, table, 3, scope, opened, spot);
    }
    if opened.number == 4 {
        return abort_apdu(alloc, table, scope, opened, spot);
    }
    Err(refusal(opened.start.place, Kind::Tag))
}

/// Any of the five.
#[tactic(auto, unfolding(crate::specs::Fields::any_apdu_at))]
fn any_apdu<'a>(
    alloc: Global,
    table: &TypeTable,
    scope: &Scope,
    opened: &Opened<'a>,
    spot: Spot<'a>,
) -> Result<(Val, Spot<'a>), ReadFault>
    requires whole { HasRowsAndPlaces table.now spot }
    ensures gives { Gives (λ x. (x.0, spot_of x.1)) result
        (any_apdu_at table.now scope.now (opened_of opened.now) (spot_of spot.entry)) }
    ensures stops { IfOk result (λ x. GoesOn spot.entry.place (length spot.entry.rest.now) x.1) }
{
    if same_class(opened.class, Class::Application) {
        of_number(alloc, table, scope, opened, spot)
    } else {
        Err(refusal(opened.start.place, Kind::Tag))
    }
}

/// The APDU that the octets, at most 262,144, begin with, and how many it has.
pub(crate) fn front(
    alloc: Global,
    table: &TypeTable,
    bytes: &[u8],
) -> Result<(Val, usize), ReadFault>
    requires rows { length table.now ≡ row_count }
    ensures gives { Gives (λ x. x) result (front_at (any_apdu_at table.now) most_octets bytes.now) }
{
    let scope = Scope {
        levels: 32,
        limit: 262_144,
        end: None,
        marked: false,
        strict: false,
    };
    let start = Spot {
        place: 0,
        rest: bytes,
    };
    let (opened, spot) = identifier_octets(&scope, start)?;
    let (value, after) = any_apdu(alloc, table, &scope, &opened, spot)?;
    Ok((value, after.place))
}
