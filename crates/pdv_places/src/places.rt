//! The places of the fields of presentation data values (X.226 8.4.2).

ghost use Rattle.std.specs.Prelude.{◌≡◌, ◌++◌, ◌<◌, map, [], ◌∷◌, IfOk, OnOk};
ghost use Rattle.std.specs.List.{flat_map};
ghost use Rattle.osi_base.specs.OctetPlaces.{HasPlaces};
ghost use Rattle.association_reading.specs.Places as reading;
ghost use Rattle.pdv_places.specs.Seen.{spot_of, begins_with, user_data_of, HasSmallPlaces, HaveSmallPlaces, seen_places, place_in, places_at};

use crate::spots::{Spot, contents_of, values_in};
use association_reading::presentation_pdus_layer::PpduPlace;
use osi_base::NoMemory;
use std::alloc::Global;

/// Of one value: the places of the contents of its transfer syntax name and of its identifier, and
/// of its form with its identifier.
#[derive(Clone, Copy, Debug, PartialEq, Eq)]
pub struct PdvPlaces {
    /// The place of the contents of the transfer syntax name; 0 where there is no name.
    pub name: usize,
    /// The place of the contents of the presentation context identifier; 0 where there is none.
    pub identifier: usize,
    /// The place of the form of the value, from its own identifier octets on.
    pub form: usize,
}

/// A field of a presentation data value.
#[derive(Clone, Copy, Debug, PartialEq, Eq)]
pub enum PdvField {
    /// The transfer syntax name.
    Name,
    /// The presentation context identifier.
    Identifier,
    /// The form in which the value is written.
    Form,
}

/// Whether the value begins with this octet.
fn begins_with(first: u8, spot: &Spot<'_>) -> bool
    requires { 0 < first }
    ensures { result ≡ begins_with first (spot_of spot.now) }
{
    match spot.rest {
        [] => false,
        [octet, ..] => *octet == first,
    }
}

/// The place of the contents of the first value that begins with this octet.
fn first_contents(first: u8, spots: &[Spot<'_>]) -> usize
    requires some { 0 < first }
    requires fit { HaveSmallPlaces spots.now }
    ensures { result ≡ reading.first_contents
        (reading.beginning_with first (map spot_of spots.now)) }
{
    for spot in spots {
        if begins_with(first, spot) {
            return contents_of(*spot).place;
        }
    }
    0
}

/// The place of the last value.
#[tactic(auto, using(crate::proofs::Fitting::last_is))]
fn last_start(spots: &[Spot<'_>]) -> usize
    ensures { result ≡ reading.last_start (map spot_of spots.now) }
{
    let mut start = 0;
    for spot in spots {
        start = spot.place;
    }
    start
}

/// The places of a value's fields: an OBJECT IDENTIFIER, which may lack, an INTEGER and the form.
fn places_of(alloc: Global, pdv: Spot<'_>) -> Result<PdvPlaces, NoMemory>
    requires { HasSmallPlaces pdv }
    ensures { IfOk result (λ at. seen_places at ≡ reading.places_of (spot_of pdv.entry)) }
{
    let fields = values_in(alloc, pdv)?;
    Ok(PdvPlaces {
        name: first_contents(6, &fields),
        identifier: first_contents(2, &fields),
        form: last_start(&fields),
    })
}

/// Puts a value that begins with this octet behind the others.
#[tactic(auto, using(crate::proofs::Fitting::fit_on))]
fn push_if<'a>(first: u8, spot: Spot<'a>, found: &mut Vec<Spot<'a>>) -> Result<(), NoMemory>
    requires some { 0 < first }
    requires fit { HasSmallPlaces spot }
    requires found_fit { HaveSmallPlaces found.old.items }
    ensures is { OnOk result (map spot_of found.new.items ≡ map spot_of found.old.items
        ++ reading.beginning_with first (spot_of spot.entry ∷ [])) }
    ensures fit { OnOk result (HaveSmallPlaces found.new.items) }
{
    if begins_with(first, &spot) {
        found.push(spot)?;
    }
    Ok(())
}

/// Puts those values that begin with this octet behind the others.
fn push_beginning<'a>(
    first: u8,
    spots: &[Spot<'a>],
    found: &mut Vec<Spot<'a>>,
) -> Result<(), NoMemory>
    requires some { 0 < first }
    requires fit { HaveSmallPlaces spots.now }
    requires found_fit { HaveSmallPlaces found.old.items }
    ensures is { OnOk result (map spot_of found.new.items ≡ map spot_of found.old.items
        ++ reading.beginning_with first (map spot_of spots.now)) }
    ensures fit { OnOk result (HaveSmallPlaces found.new.items) }
{
    for spot in spots {
        push_if(first, *spot, found)?;
    }
    Ok(())
}

/// User data, [APPLICATION 1], among the values in these.
#[tactic(auto, using(crate::proofs::Fitting::fit_on, crate::proofs::Fitting::fit_first, crate::proofs::Fitting::fit_rest))]
fn user_data_in<'a>(alloc: Global, spots: &[Spot<'a>]) -> Result<Vec<Spot<'a>>, NoMemory>
    requires { HaveSmallPlaces spots.now }
    ensures is { IfOk result (λ v. map spot_of v.items ≡ flat_map user_data_of
        (map spot_of spots.now)) }
    ensures fit { IfOk result (λ v. HaveSmallPlaces v.items) }
{
    let mut found = Vec::new(alloc);
    for spot in spots {
        let values = values_in(alloc, *spot)?;
        push_beginning(97, &values, &mut found)?;
    }
    Ok(found)
}

/// The values in a unit that begin with this octet.
fn fields_of<'a>(alloc: Global, first: u8, unit: Spot<'a>) -> Result<Vec<Spot<'a>>, NoMemory>
    requires some { 0 < first }
    requires fits { HasSmallPlaces unit }
    ensures is { IfOk result (λ v. map spot_of v.items ≡ reading.beginning_with first
        (reading.values_in (spot_of unit.entry))) }
    ensures fit { IfOk result (λ v. HaveSmallPlaces v.items) }
{
    let values = values_in(alloc, unit)?;
    let mut found = Vec::new(alloc);
    push_beginning(first, &values, &mut found)?;
    Ok(found)
}

/// The unit where it is user data.
fn whole_unit<'a>(alloc: Global, unit: Spot<'a>) -> Result<Vec<Spot<'a>>, NoMemory>
    requires { HasSmallPlaces unit }
    ensures is { IfOk result (λ v. map spot_of v.items ≡ reading.beginning_with 97
        (spot_of unit.entry ∷ [])) }
    ensures fit { IfOk result (λ v. HaveSmallPlaces v.items) }
{
    let mut found = Vec::new(alloc);
    if begins_with(97, &unit) {
        found.push(unit)?;
    }
    Ok(found)
}

/// User data in the fields [2] of CP and CPA.
fn inner_data<'a>(alloc: Global, unit: Spot<'a>) -> Result<Vec<Spot<'a>>, NoMemory>
    requires { HasSmallPlaces unit }
    ensures is { IfOk result (λ v. map spot_of v.items ≡ flat_map user_data_of
        (reading.beginning_with 162 (reading.values_in (spot_of unit.entry)))) }
    ensures fit { IfOk result (λ v. HaveSmallPlaces v.items) }
{
    let fields = fields_of(alloc, 162, unit)?;
    user_data_in(alloc, &fields)
}

/// User data: the unit itself, a field of it, or a field of the fields [2] of CP and CPA.
fn user_data<'a>(
    alloc: Global,
    carrier: PpduPlace,
    unit: Spot<'a>,
) -> Result<Vec<Spot<'a>>, NoMemory>
    requires { HasSmallPlaces unit }
    ensures is { IfOk result (λ v. map spot_of v.items ≡ reading.user_data carrier
        (spot_of unit.entry)) }
    ensures fit { IfOk result (λ v. HaveSmallPlaces v.items) }
{
    match carrier {
        PpduPlace::Cn => inner_data(alloc, unit),
        PpduPlace::Ac => inner_data(alloc, unit),
        PpduPlace::Rf => fields_of(alloc, 97, unit),
        PpduPlace::Ab => fields_of(alloc, 97, unit),
        PpduPlace::Fn => whole_unit(alloc, unit),
        PpduPlace::Dn => whole_unit(alloc, unit),
        PpduPlace::Pt => whole_unit(alloc, unit),
        PpduPlace::Td => whole_unit(alloc, unit),
        PpduPlace::Dt => whole_unit(alloc, unit),
        PpduPlace::Rs => whole_unit(alloc, unit),
        PpduPlace::Ra => whole_unit(alloc, unit),
    }
}

/// All values in these.
#[tactic(auto, using(crate::proofs::Fitting::fit_on, crate::proofs::Fitting::fit_first, crate::proofs::Fitting::fit_rest))]
fn all_values<'a>(alloc: Global, spots: &[Spot<'a>]) -> Result<Vec<Spot<'a>>, NoMemory>
    requires { HaveSmallPlaces spots.now }
    ensures is { IfOk result (λ v. map spot_of v.items ≡ flat_map reading.values_in
        (map spot_of spots.now)) }
    ensures fit { IfOk result (λ v. HaveSmallPlaces v.items) }
{
    let mut all = Vec::new(alloc);
    for spot in spots {
        let values = values_in(alloc, *spot)?;
        push_all(&values, &mut all)?;
    }
    Ok(all)
}

/// Puts values behind the others.
#[tactic(auto, using(crate::proofs::Fitting::fit_on, crate::proofs::Fitting::fit_first, crate::proofs::Fitting::fit_rest))]
fn push_all<'a>(spots: &[Spot<'a>], all: &mut Vec<Spot<'a>>) -> Result<(), NoMemory>
    requires fit { HaveSmallPlaces spots.now }
    requires all_fit { HaveSmallPlaces all.old.items }
    ensures is { OnOk result (map spot_of all.new.items ≡ map spot_of all.old.items
        ++ map spot_of spots.now) }
    ensures fit { OnOk result (HaveSmallPlaces all.new.items) }
{
    for spot in spots {
        all.push(*spot)?;
    }
    Ok(())
}

/// The places of the value with this number, counted from 0; all are 0 where there is none.
#[tactic(auto, using(crate::proofs::Fitting::at_there, crate::proofs::Fitting::at_gone, crate::proofs::Fitting::fits_at))]
fn places_at(alloc: Global, which: usize, values: &[Spot<'_>]) -> Result<PdvPlaces, NoMemory>
    requires { HaveSmallPlaces values.now }
    ensures { IfOk result (λ at. seen_places at ≡ places_at which
        (map reading.places_of (map spot_of values.now))) }
{
    if which >= values.len() {
        return Ok(PdvPlaces {
            name: 0,
            identifier: 0,
            form: 0,
        });
    }
    places_of(alloc, values[which])
}

/// The place of a field of these.
fn place_in(field: PdvField, places: PdvPlaces) -> usize
    ensures { result ≡ place_in field (seen_places places) }
{
    match field {
        PdvField::Name => places.name,
        PdvField::Identifier => places.identifier,
        PdvField::Form => places.form,
    }
}

/// The place of a field of the value with this number, counted from 0, of a unit of the
/// presentation that begins at this place of its TSDU; 0 where it has none. It looks at each octet
/// a bounded number of times.
pub fn field_place(
    alloc: Global,
    carrier: PpduPlace,
    start: usize,
    octets: &[u8],
    which: usize,
    field: PdvField,
) -> Result<usize, NoMemory>
    requires { HasPlaces start octets.now }
    ensures { IfOk result (λ place. place
        ≡ place_in field (places_at which (reading.pdv_places carrier start octets.now))) }
{
    let unit = Spot {
        place: start,
        rest: octets,
    };
    let data = user_data(alloc, carrier, unit)?;
    let values = all_values(alloc, &data)?;
    Ok(place_in(field, places_at(alloc, which, &values)?))
}

/// As `field_place`, of the value that all of these octets are, as those of a transfer are.
pub fn transfer_place(alloc: Global, octets: &[u8], field: PdvField) -> Result<usize, NoMemory>
    ensures { IfOk result (λ place. place
        ≡ place_in field (reading.places_of (reading.spot_at 0 octets.now))) }
{
    let value = Spot {
        place: 0,
        rest: octets,
    };
    Ok(place_in(field, places_of(alloc, value)?))
}
