//! Units of the presentation protocol read from the left.

ghost use Rattle.std.specs.Prelude.{◌≡◌, length, IfOk, [], Some, None};
ghost use Rattle.osi_base.specs.Limits.{most_spelled};
ghost use Rattle.osi_base.specs.OctetPlaces.{HasPlaces};
ghost use Rattle.ber_spelling.specs.Reading.{Gives, GoesOn, IsBehind, opened_of, spot_of};
ghost use Rattle.ber_spelling.specs.declared.fault.ReadFault.TheVariants.{NotSpelled};
ghost use Rattle.ber_spelling.specs.Rules.{reads, plain};
ghost use Rattle.passed_fields.specs.Known.{HaveRows};
ghost use Rattle.passed_fields.specs.AllOctets.{front_at};
ghost use Rattle.passed_fields.specs.Reading.{fielded_at};
ghost use Rattle.presentation_pdus.specs.Rows.{row_count, HasRowsAndPlaces};
ghost use Rattle.presentation_pdus.specs.Fields.{context_tag, sequence_tag, user_tag, mode_row, connect_fields, connect_passed, accept_fields, accept_passed, reject_fields, alter_fields, alter_ack_fields, restart_fields, user_abort_fields, provider_abort_fields};
ghost use Rattle.presentation_pdus.specs.Selected.{again_kind, has_context, half_at, both, halves_done, no_half, halves_at, selected_at};
ghost use Rattle.presentation_pdus.specs.Units.{unit_at, connect_at, accept_at, alteration_at, abort_at, data_at, ppdu_run};

use crate::fields::{
    accept_fields, alter_ack_fields, alter_fields, connect_fields, provider_abort_fields,
    reject_fields, restart_fields, user_abort_fields,
};
use crate::place::PpduPlace;
use asn1_types::{Class, TypeId, TypeTable, Val, same_class};
use ber_reading::value;
use ber_spelling::{
    Ahead, Opened, ReadFault, Scope, Spot, Tag, expect_tag, extent, identifier_octets, look_ahead,
    refusal,
};
use fixed_tables::{chosen, sequence};
use osi_base::{Kind, NoMemory};
use passed_fields::{Field, Fields, Passed, fields, some_values};
use std::alloc::Global;

/// The mode selector and the fields of normal mode, as far as they stand.
type Halves = (Option<Val>, Option<Val>);

fn context_tag(number: u32) -> Tag
    ensures { result ≡ context_tag number }
{
    Tag {
        class: Class::Context,
        number,
    }
}

fn sequence_tag() -> Tag
    ensures { result ≡ sequence_tag }
{
    Tag {
        class: Class::Universal,
        number: 16,
    }
}

fn has_context(opened: &Opened, number: u64) -> bool
    ensures { result ≡ has_context (opened_of opened.now) number }
{
    same_class(opened.class, Class::Context) && opened.number == number
}

/// The fault of a second mode selector, or of second fields.
fn again(opened: &Opened) -> ReadFault
    ensures { result ≡ NotSpelled opened.now.start.place (again_kind opened.now.constructed) }
{
    let kind = if opened.constructed {
        Kind::Extra
    } else {
        Kind::Tag
    };
    refusal(opened.start.place, kind)
}

/// The mode selector or the fields, each once.
#[tactic(auto, unfolding(crate::specs::Selected::half_at))]
fn half<'a>(
    alloc: Global,
    table: &TypeTable,
    shape: &Fields,
    before: Halves,
    scope: &Scope,
    opened: &Opened<'a>,
    spot: Spot<'a>,
) -> Result<(Halves, Spot<'a>), ReadFault>
    requires rows { HaveRows table.now shape.now.known.now }
    requires all { length table.now ≡ row_count }
    requires behind { IsBehind opened.now spot }
    ensures gives { Gives (λ x. (x.0, spot_of x.1)) result
        (half_at (reads table.now mode_row plain)
        (fielded_at table.now shape.now.known.now shape.now.passed.now (context_tag 2)) before
        scope.now (opened_of opened.now) (spot_of spot.entry)) }
    ensures stops { IfOk result (λ x. GoesOn spot.entry.place (length spot.entry.rest.now) x.1) }
{
    let (mode, under) = before;
    if has_context(opened, 0) {
        return match mode {
            None => {
                let (mode, after) = value(
                    alloc,
                    table,
                    TypeId(31),
                    None,
                    None,
                    scope,
                    opened,
                    spot,
                )?;
                Ok(((Some(mode), under), after))
            }
            Some(_) => Err(again(opened)),
        };
    }
    if has_context(opened, 2) {
        return match under {
            None => {
                let (under, after) = fields(
                    alloc,
                    table,
                    shape,
                    context_tag(2),
                    scope,
                    opened,
                    spot,
                )?;
                Ok(((mode, Some(under)), after))
            }
            Some(_) => Err(again(opened)),
        };
    }
    Err(refusal(opened.start.place, Kind::Extra))
}

/// The SET of both, if both stand.
fn both(alloc: Global, halves: Halves) -> Result<Option<Val>, NoMemory>
    ensures { IfOk result (λ value. value ≡ halves_done halves) }
{
    let (mode, under) = halves;
    let Some(mode) = mode else {
        return Ok(None);
    };
    let Some(under) = under else {
        return Ok(None);
    };
    Ok(Some(sequence(vec![in alloc; Some(mode), Some(under)]?)))
}

/// The mode selector and the fields, up to the end of the contents.
fn all_halves<'a>(
    alloc: Global,
    table: &TypeTable,
    shape: &Fields,
    scope: &Scope,
    spot: Spot<'a>,
) -> Result<(Val, Spot<'a>), ReadFault>
    requires rows { HaveRows table.now shape.now.known.now }
    requires whole { HasRowsAndPlaces table.now spot }
    ensures gives { Gives (λ x. (x.0, spot_of x.1)) result
        (halves_at (reads table.now mode_row plain)
        (fielded_at table.now shape.now.known.now shape.now.passed.now (context_tag 2)) scope.now
        (spot_of spot.entry)) }
    ensures stops { IfOk result (λ x. GoesOn spot.entry.place (length spot.entry.rest.now) x.1) }
{
    let mut halves: Halves = (None, None);
    let mut spot = spot;
    for _turn in 0..spot.rest.len() + 1 {
        match look_ahead(scope, spot)? {
            Ahead::Ended { place, after } => {
                let Some(value) = both(alloc, halves)? else {
                    return Err(refusal(place, Kind::Missing));
                };
                return Ok((value, after));
            }
            Ahead::Begun(opened, after) => {
                let (more, next) = half(alloc, table, shape, halves, scope, &opened, after)?;
                halves = more;
                spot = next;
            }
        }
    }
    Err(ReadFault::Short)
}

/// CP or CPA: the mode selector and the fields of normal mode in a SET.
fn selected<'a>(
    alloc: Global,
    table: &TypeTable,
    shape: &Fields,
    scope: &Scope,
    opened: &Opened<'a>,
    spot: Spot<'a>,
) -> Result<(Val, Spot<'a>), ReadFault>
    requires rows { HaveRows table.now shape.now.known.now }
    requires whole { HasRowsAndPlaces table.now spot }
    ensures gives { Gives (λ x. (x.0, spot_of x.1)) result
        (selected_at (reads table.now mode_row plain)
        (fielded_at table.now shape.now.known.now shape.now.passed.now (context_tag 2)) scope.now
        (opened_of opened.now) (spot_of spot.entry)) }
    ensures stops { IfOk result (λ x. GoesOn spot.entry.place (length spot.entry.rest.now) x.1) }
{
    let set_tag = Tag {
        class: Class::Universal,
        number: 17,
    };
    expect_tag(set_tag, true, opened)?;
    let (inside, spot) = extent(scope, spot)?;
    all_halves(alloc, table, shape, &inside, spot)
}

/// CP, 0, or CPA, 1.
fn with_mode<'a>(
    alloc: Global,
    table: &TypeTable,
    which: u32,
    known: &[Field],
    passed: &[Passed],
    scope: &Scope,
    opened: &Opened<'a>,
    spot: Spot<'a>,
) -> Result<(Val, Spot<'a>), ReadFault>
    requires rows { HaveRows table.now known.now }
    requires whole { HasRowsAndPlaces table.now spot }
    ensures gives { Gives (λ x. (x.0, spot_of x.1)) result
        (unit_at which (selected_at (reads table.now mode_row plain)
        (fielded_at table.now known.now passed.now (context_tag 2))) scope.now
        (opened_of opened.now) (spot_of spot.entry)) }
    ensures stops { IfOk result (λ x. GoesOn spot.entry.place (length spot.entry.rest.now) x.1) }
{
    let shape = Fields { known, passed };
    let (value, after) = selected(alloc, table, &shape, scope, opened, spot)?;
    Ok((chosen(alloc, which, value)?, after))
}

/// A unit of fields, none of which is passed over.
fn plain_unit<'a>(
    alloc: Global,
    table: &TypeTable,
    which: u32,
    known: &[Field],
    tag: Tag,
    scope: &Scope,
    opened: &Opened<'a>,
    spot: Spot<'a>,
) -> Result<(Val, Spot<'a>), ReadFault>
    requires rows { HaveRows table.now known.now }
    requires whole { HasPlaces spot.place spot.rest.now }
    ensures gives { Gives (λ x. (x.0, spot_of x.1)) result
        (unit_at which (fielded_at table.now known.now [] tag) scope.now (opened_of opened.now)
        (spot_of spot.entry)) }
    ensures stops { IfOk result (λ x. GoesOn spot.entry.place (length spot.entry.rest.now) x.1) }
{
    let shape = Fields { known, passed: &[] };
    let (value, after) = fields(alloc, table, &shape, tag, scope, opened, spot)?;
    Ok((chosen(alloc, which, value)?, after))
}

/// Presentation data values.
fn data<'a>(
    alloc: Global,
    table: &TypeTable,
    scope: &Scope,
    opened: &Opened<'a>,
    spot: Spot<'a>,
) -> Result<(Val, Spot<'a>), ReadFault>
    requires whole { HasRowsAndPlaces table.now spot }
    ensures gives { Gives (λ x. (x.0, spot_of x.1)) result
        (data_at table.now scope.now (opened_of opened.now) (spot_of spot.entry)) }
    ensures stops { IfOk result (λ x. GoesOn spot.entry.place (length spot.entry.rest.now) x.1) }
{
    let user_tag = Tag {
        class: Class::Application,
        number: 1,
    };
    let (value, after) = some_values(alloc, table, TypeId(14), user_tag, scope, opened, spot)?;
    Ok((chosen(alloc, 9, value)?, after))
}

/// AC or ACA.
#[tactic(auto, using(crate::proofs::Shapes::alter_rows, crate::proofs::Shapes::alter_ack_rows))]
fn alteration<'a>(
    alloc: Global,
    table: &TypeTable,
    scope: &Scope,
    opened: &Opened<'a>,
    spot: Spot<'a>,
) -> Result<(Val, Spot<'a>), ReadFault>
    requires whole { HasRowsAndPlaces table.now spot }
    ensures gives { Gives (λ x. (x.0, spot_of x.1)) result
        (alteration_at table.now scope.now (opened_of opened.now) (spot_of spot.entry)) }
    ensures stops { IfOk result (λ x. GoesOn spot.entry.place (length spot.entry.rest.now) x.1) }
{
    if opened.number == 0 {
        let known = alter_fields();
        plain_unit(alloc, table, 3, &known, context_tag(0), scope, opened, spot)
    } else {
        let known = alter_ack_fields();
        plain_unit(alloc, table, 4, &known, context_tag(1), scope, opened, spot)
    }
}

/// ARU or ARP.
#[tactic(auto, using(crate::proofs::Shapes::user_abort_rows, crate::proofs::Shapes::provider_abort_rows))]
fn abort<'a>(
    alloc: Global,
    table: &TypeTable,
    scope: &Scope,
    opened: &Opened<'a>,
    spot: Spot<'a>,
) -> Result<(Val, Spot<'a>), ReadFault>
    requires whole { HasRowsAndPlaces table.now spot }
    ensures gives { Gives (λ x. (x.0, spot_of x.1)) result
        (abort_at table.now scope.now (opened_of opened.now) (spot_of spot.entry)) }
    ensures stops { IfOk result (λ x. GoesOn spot.entry.place (length spot.entry.rest.now) x.1) }
{
    if same_class(opened.class, Class::Context) {
        let known = user_abort_fields();
        plain_unit(alloc, table, 7, &known, context_tag(0), scope, opened, spot)
    } else {
        let known = provider_abort_fields();
        plain_unit(alloc, table, 8, &known, sequence_tag(), scope, opened, spot)
    }
}

/// CP.
#[tactic(auto, using(crate::proofs::Shapes::connect_rows))]
fn connect<'a>(
    alloc: Global,
    table: &TypeTable,
    scope: &Scope,
    opened: &Opened<'a>,
    spot: Spot<'a>,
) -> Result<(Val, Spot<'a>), ReadFault>
    requires whole { HasRowsAndPlaces table.now spot }
    ensures gives { Gives (λ x. (x.0, spot_of x.1)) result
        (unit_at 0 (connect_at table.now) scope.now (opened_of opened.now) (spot_of spot.entry)) }
    ensures stops { IfOk result (λ x. GoesOn spot.entry.place (length spot.entry.rest.now) x.1) }
{
    let known = connect_fields();
    let passed = [Passed::until_place(11, 14, 7)];
    with_mode(alloc, table, 0, &known, &passed, scope, opened, spot)
}

/// CPA.
#[tactic(auto, using(crate::proofs::Shapes::accept_rows))]
fn accept<'a>(
    alloc: Global,
    table: &TypeTable,
    scope: &Scope,
    opened: &Opened<'a>,
    spot: Spot<'a>,
) -> Result<(Val, Spot<'a>), ReadFault>
    requires whole { HasRowsAndPlaces table.now spot }
    ensures gives { Gives (λ x. (x.0, spot_of x.1)) result
        (unit_at 1 (accept_at table.now) scope.now (opened_of opened.now) (spot_of spot.entry)) }
    ensures stops { IfOk result (λ x. GoesOn spot.entry.place (length spot.entry.rest.now) x.1) }
{
    let known = accept_fields();
    let passed = [Passed::until_place(11, 14, 5)];
    with_mode(alloc, table, 1, &known, &passed, scope, opened, spot)
}

/// CPR.
#[tactic(auto, using(crate::proofs::Shapes::reject_rows))]
fn reject<'a>(
    alloc: Global,
    table: &TypeTable,
    scope: &Scope,
    opened: &Opened<'a>,
    spot: Spot<'a>,
) -> Result<(Val, Spot<'a>), ReadFault>
    requires whole { HasRowsAndPlaces table.now spot }
    ensures gives { Gives (λ x. (x.0, spot_of x.1)) result
        (unit_at 2 (fielded_at table.now reject_fields [] sequence_tag) scope.now
        (opened_of opened.now) (spot_of spot.entry)) }
    ensures stops { IfOk result (λ x. GoesOn spot.entry.place (length spot.entry.rest.now) x.1) }
{
    let known = reject_fields();
    plain_unit(alloc, table, 2, &known, sequence_tag(), scope, opened, spot)
}

/// RS, 5, or RSA, 6.
#[tactic(auto, using(crate::proofs::Shapes::restart_rows))]
fn restart<'a>(
    alloc: Global,
    table: &TypeTable,
    which: u32,
    scope: &Scope,
    opened: &Opened<'a>,
    spot: Spot<'a>,
) -> Result<(Val, Spot<'a>), ReadFault>
    requires whole { HasRowsAndPlaces table.now spot }
    ensures gives { Gives (λ x. (x.0, spot_of x.1)) result
        (unit_at which (fielded_at table.now restart_fields [] sequence_tag) scope.now
        (opened_of opened.now) (spot_of spot.entry)) }
    ensures stops { IfOk result (λ x. GoesOn spot.entry.place (length spot.entry.rest.now) x.1) }
{
    let known = restart_fields();
    plain_unit(
        alloc,
        table,
        which,
        &known,
        sequence_tag(),
        scope,
        opened,
        spot,
    )
}

/// The unit that a session unit of this kind carries.
#[tactic(auto, unfolding(crate::specs::Units::ppdu_run))]
fn unit<'a>(
    alloc: Global,
    table: &TypeTable,
    place: PpduPlace,
    scope: &Scope,
    opened: &Opened<'a>,
    spot: Spot<'a>,
) -> Result<(Val, Spot<'a>), ReadFault>
    requires whole { HasRowsAndPlaces table.now spot }
    ensures gives { Gives (λ x. (x.0, spot_of x.1)) result
        (ppdu_run table.now place scope.now (opened_of opened.now) (spot_of spot.entry)) }
    ensures stops { IfOk result (λ x. GoesOn spot.entry.place (length spot.entry.rest.now) x.1) }
{
    match place {
        PpduPlace::Cn => connect(alloc, table, scope, opened, spot),
        PpduPlace::Ac => accept(alloc, table, scope, opened, spot),
        PpduPlace::Rf => reject(alloc, table, scope, opened, spot),
        PpduPlace::Fn => data(alloc, table, scope, opened, spot),
        PpduPlace::Dn => data(alloc, table, scope, opened, spot),
        PpduPlace::Ab => abort(alloc, table, scope, opened, spot),
        PpduPlace::Pt => data(alloc, table, scope, opened, spot),
        PpduPlace::Td => alteration(alloc, table, scope, opened, spot),
        PpduPlace::Dt => data(alloc, table, scope, opened, spot),
        PpduPlace::Rs => restart(alloc, table, 5, scope, opened, spot),
        PpduPlace::Ra => restart(alloc, table, 6, scope, opened, spot),
    }
}

/// The unit that the octets begin with, and how many it has.
pub(crate) fn front(
    alloc: Global,
    table: &TypeTable,
    place: PpduPlace,
    bytes: &[u8],
) -> Result<(Val, usize), ReadFault>
    requires all { length table.now ≡ row_count }
    ensures gives { Gives (λ x. x) result (front_at (ppdu_run table.now place) most_spelled
        bytes.now) }
{
    let scope = Scope {
        levels: 32,
        limit: u32::MAX,
        end: None,
        marked: false,
        strict: false,
    };
    let start = Spot {
        place: 0,
        rest: bytes,
    };
    let (opened, spot) = identifier_octets(&scope, start)?;
    let (value, after) = unit(alloc, table, place, &scope, &opened, spot)?;
    Ok((value, after.place))
}
