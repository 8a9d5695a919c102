//! Whether presentation data values may stand where they came (X.226 8.4.2).

ghost use Rattle.std.specs.Prelude.{◌≡◌};
ghost use Rattle.std.specs.Option.{option_copied};
ghost use Rattle.osi_base.specs.OctetPlaces.{HasPlaces};
ghost use Rattle.association_intake.specs.association_reading.Places.{pdv_places};
ghost use Rattle.association_intake.specs.association_reading.Contexts as reading;
ghost use Rattle.association_meaning.specs.Grounds.{GivesAs};
ghost use Rattle.association_meaning.specs.Steps as steps;

use crate::basis::{Halt, ReadingBasis, fault_at};
use crate::names::acse_name;
use association_ground::same_name;
use osi_base::{Layer, Oid, Pair, Pdv, PdvContent, SetItem, Syntax, pair_of};
use pdv_places::{PdvField, field_place};
use presentation_pdus::PpduPlace;

/// Where values stand: in what kind of unit of the session, where its user data begin in the TSDU,
/// and the octets of the user data.
#[derive(Clone, Copy)]
pub(crate) struct Carrier<'a> {
    pub place: PpduPlace,
    pub start: usize,
    pub user: &'a [u8],
}

/// A value that may not stand where it came: its number, counted from 0, and the field.
#[derive(Clone, Copy)]
pub(crate) struct Wrong {
    pub which: usize,
    pub field: PdvField,
}

/// Whether the name that stands is that of the syntax.
fn is_named(syntax: Syntax, name: &Option<Oid>) -> bool
    ensures { result ≡ reading.is_named syntax name.now }
{
    match name {
        None => true,
        Some(name) => same_name(name.arcs(), syntax.arcs()),
    }
}

/// Whether a value stands in a form that is read in this syntax.
fn is_form(syntax: Syntax, content: &PdvContent) -> bool
    ensures { result ≡ reading.is_form syntax content.now }
{
    match content {
        PdvContent::OctetAligned(_) => true,
        PdvContent::SingleAsn1Type(_) => match syntax {
            Syntax::Ber => true,
            Syntax::Der => true,
            Syntax::Packed => false,
        },
        PdvContent::Arbitrary(_) => false,
    }
}

/// The form, where it is wrong.
pub(crate) fn form_wrong(syntax: Syntax, content: &PdvContent) -> Option<PdvField>
    ensures { result ≡ steps.form_wrong syntax content.now }
{
    if is_form(syntax, content) {
        None
    } else {
        Some(PdvField::Form)
    }
}

/// Whether values of this abstract syntax stand in a message that carries those of that one.
fn is_carried(carried: &[u32], name: &[u32]) -> bool
    ensures { result ≡ reading.is_carried carried.now name.now }
{
    same_name(name, carried) || same_name(name, acse_name())
}

/// The first wrong field of a value: its context is absent or of another abstract syntax, another
/// transfer syntax name, another form.
pub(crate) fn pdv_wrong(carried: &[u32], pdv: &Pdv, pair: Option<&Pair>) -> Option<PdvField>
    ensures { result ≡ steps.pdv_wrong carried.now pdv.now (option_copied pair.entry) }
{
    let Some(pair) = pair else {
        return Some(PdvField::Identifier);
    };
    if !is_named(pair.transfer, &pdv.transfer) {
        return Some(PdvField::Name);
    }
    if !is_carried(carried, pair.abstract_name.arcs()) {
        return Some(PdvField::Identifier);
    }
    form_wrong(pair.transfer, &pdv.content)
}

/// The first of these values that may not stand under this set in a message that carries those of
/// this abstract syntax.
pub(crate) fn first_wrong(carried: &[u32], set: &[SetItem], pdvs: &[Pdv]) -> Option<Wrong>
    ensures { result ≡ steps.first_wrong 0 (steps.under_set carried.now set.now) pdvs.now }
{
    for (which, pdv) in pdvs.iter().enumerate() {
        if let Some(field) = pdv_wrong(carried, pdv, pair_of(set, pdv.id)) {
            return Some(Wrong { which, field });
        }
    }
    None
}

/// Ends the association where a value is wrong: an invalid unit (6) at the place of the field.
pub(crate) fn check(
    basis: &ReadingBasis<'_>,
    carrier: &Carrier<'_>,
    wrong: Option<Wrong>,
) -> Result<(), Halt>
    requires { HasPlaces carrier.now.start carrier.now.user.now }
    ensures { GivesAs (λ _. tt) result (steps.checked (steps.told_wrong (pdv_places
        carrier.now.place carrier.now.start carrier.now.user.now) wrong)) }
{
    let Some(wrong) = wrong else { return Ok(()) };
    let place = field_place(
        basis.alloc,
        carrier.place,
        carrier.start,
        carrier.user,
        wrong.which,
        wrong.field,
    )?;
    fault_at(basis.alloc, Layer::Presentation, place, 6)
}
