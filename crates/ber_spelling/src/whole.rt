//! One whole value of any type (X.690 8.1).

ghost use Rattle.std.specs.Prelude.{◌≢◌, IfErr, ◌≡◌, length, Some, IfOk};
ghost use Rattle.osi_base.specs.OctetPlaces.{HasPlaces};
ghost use Rattle.ber_spelling.specs.Reading.{Gives, spot_of, opened_of, behind_of, GoesOn};
ghost use Rattle.ber_spelling.specs.Rules.{all_items_at, sized_at, marked_at, whole_at};

use crate::fault::ReadFault;
use crate::fields::{contents, extent, look_ahead, refusal};
use crate::spot::{Ahead, Opened, Scope, Spot};
use asn1_types::{is_marked, is_no_tag};
use osi_base::Kind;

/// A definite length, and that many octets.
fn sized<'a>(scope: &Scope, spot: Spot<'a>) -> Result<Spot<'a>, ReadFault>
    requires { HasPlaces spot.place spot.rest.now }
    ensures gives { Gives behind_of result (sized_at scope.now (spot_of spot.entry)) }
    ensures no_memory { IfErr result (λ e. e ≢ ReadFault.NoMemory) }
    ensures stops { IfOk result (λ to. GoesOn spot.entry.place (length spot.entry.rest.now) to) }
{
    let (_, _, after) = contents(scope, spot)?;
    Ok(after)
}

/// Whole values up to the end of the contents.
#[cycle(wholes)]
fn whole_values<'a>(levels: u32, scope: &Scope, spot: Spot<'a>) -> Result<Spot<'a>, ReadFault>
    requires { HasPlaces spot.place spot.rest.now }
    ensures gives { Gives behind_of result (all_items_at (whole_at levels) (λ u. Some u) tt
        scope.now (spot_of spot.entry)) }
    ensures no_memory { IfErr result (λ e. e ≢ ReadFault.NoMemory) }
    ensures stops { IfOk result (λ to. GoesOn spot.entry.place (length spot.entry.rest.now) to) }
{
    let mut spot = spot;
    for _turn in 0..spot.rest.len() + 1 {
        match look_ahead(scope, spot)? {
            Ahead::Ended { after, .. } => return Ok(after),
            Ahead::Begun(opened, after) => spot = whole_value(levels, scope, &opened, after)?,
        }
    }
    Err(ReadFault::Short)
}

/// An indefinite length, and whole values.
#[cycle(wholes)]
fn marked<'a>(levels: u32, scope: &Scope, spot: Spot<'a>) -> Result<Spot<'a>, ReadFault>
    requires { HasPlaces spot.place spot.rest.now }
    ensures gives { Gives behind_of result
        (marked_at (all_items_at (whole_at levels) (λ u. Some u) tt) scope.now
        (spot_of spot.entry)) }
    ensures no_memory { IfErr result (λ e. e ≢ ReadFault.NoMemory) }
    ensures stops { IfOk result (λ to. GoesOn spot.entry.place (length spot.entry.rest.now) to) }
{
    let (inside, spot) = extent(scope, spot)?;
    whole_values(levels, &inside, spot)
}

/// Where reading goes on behind a whole value of any type of so many levels, whose identifier was
/// read; or the first fault in it.
#[cycle(wholes)]
pub fn whole_value<'a>(
    levels: u32,
    scope: &Scope,
    opened: &Opened<'a>,
    spot: Spot<'a>,
) -> Result<Spot<'a>, ReadFault>
    requires { HasPlaces spot.place spot.rest.now }
    ensures gives { Gives behind_of result (whole_at levels tt scope.now (opened_of opened.now)
        (spot_of spot.entry)) }
    ensures no_memory { IfErr result (λ e. e ≢ ReadFault.NoMemory) }
    ensures stops { IfOk result (λ to. GoesOn spot.entry.place (length spot.entry.rest.now) to) }
{
    if levels == 0 || is_no_tag(opened.class, opened.number) {
        return Err(refusal(opened.start.place, Kind::Tag));
    }
    let anew = Scope {
        levels,
        limit: scope.limit,
        end: scope.end,
        marked: scope.marked,
        strict: false,
    };
    if is_marked(spot.rest) && opened.constructed {
        marked(levels - 1, &anew, spot)
    } else {
        sized(&anew, spot)
    }
}
