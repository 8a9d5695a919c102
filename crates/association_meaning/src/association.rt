//! Values in openings, refusals, releases and aborts (X.226 6.1, 6.4; X.227 7; X.228 7.1).

ghost use Rattle.std.specs.Prelude.{◌≡◌, IfOk, if◌then◌else◌};
ghost use Rattle.osi_base.specs.declared.syntax.Syntax.TheVariants as syntaxes;
ghost use Rattle.osi_base.specs.Syntax as syntax_names;
ghost use Rattle.osi_base.specs.OctetPlaces.{HasPlaces};
ghost use Rattle.acse.specs.Fields.{acse_at};
ghost use Rattle.end_rules.specs.Connecting as connecting;
ghost use Rattle.association_intake.specs.association_reading.Places.{pdv_places};
ghost use Rattle.association_intake.specs.association_reading.Values as values_read;
ghost use Rattle.association_intake.specs.association_reading.Association as reading;
ghost use Rattle.association_words.specs.Seen.{seen_content, seen_value, seen_values};
ghost use Rattle.association_meaning.specs.Grounds.{association_base, GivesAs};
ghost use Rattle.association_meaning.specs.Steps as steps;

use crate::basis::{Halt, ReadingBasis};
use crate::contexts::{Carrier, Wrong, check, form_wrong, pdv_wrong};
use crate::layer_apdus::{acse_content, associated};
use crate::names::{acse_name, rtse_name};
use crate::user_information::{AcseKind, and_informed};
use crate::values::{value_in, values_under};
use acse::AcseFault;
use association_ground::{is_reliable, same_name};
use association_intake::association_reading_layer::LayerOfValues;
use association_sets::fit_proposals;
use association_words::{Value, ValueContent, Values};
use osi_base::{
    Acse, ListOf, NoMemory, Octets, Oid, Pair, Pdv, PresentationAccept, PresentationConnect,
    PresentationReject, Proposal, SetItem, SetList, Syntax, pair_of,
};
use set_rules::{
    accepted_for, has_context_of, is_faulty_proposal, proposals, set_accepted, set_for,
};

/// Whether the value stands on a proposed context of association control.
fn is_left(definitions: &[Proposal], pdv: &Pdv) -> bool
    ensures { result ≡ reading.is_left definitions.now pdv.now }
{
    for proposal in definitions {
        if proposal.id == pdv.id && same_name(proposal.abstract_name.arcs(), acse_name()) {
            return true;
        }
    }
    false
}

/// The first wrong value, apart from those of association control, which isn't accepted.
fn first_wrong_unless_left(definitions: &[Proposal], set: &[SetItem], pdvs: &[Pdv]) -> Option<Wrong>
    ensures { result ≡ steps.first_wrong 0 (steps.unless_left definitions.now (steps.under_set
        syntax_names.acse_name set.now)) pdvs.now }
{
    for (which, pdv) in pdvs.iter().enumerate() {
        if !is_left(definitions, pdv) {
            if let Some(field) = pdv_wrong(acse_name(), pdv, pair_of(set, pdv.id)) {
                return Some(Wrong { which, field });
            }
        }
    }
    None
}

/// What a value is of which nothing is asked: the APDU of association control that its octets
/// spell, or its octets.
fn left_content(basis: &ReadingBasis<'_>, octets: &[u8]) -> Result<ValueContent, NoMemory>
    ensures { IfOk result (λ content. seen_content content ≡ reading.left_content octets.now
        (acse_at octets.now)) }
{
    match basis.codecs.acse.read(basis.alloc, octets) {
        Ok(apdu) => associated(basis.alloc, apdu),
        Err(AcseFault::At { .. }) => {
            Ok(ValueContent::Unread(Octets::from_slice(basis.alloc, octets)?))
        }
        Err(AcseFault::NoMemory) => Err(NoMemory),
    }
}

/// A value of which nothing is asked where it is of association control.
fn value_or_left(
    basis: &ReadingBasis<'_>,
    definitions: &[Proposal],
    set: &[SetItem],
    pdv: &Pdv,
) -> Result<Value, Halt>
    ensures { GivesAs seen_value result (reading.value_or_left (association_base
        basis.now.tables.now basis.now.config.now) definitions.now set.now pdv.now) }
{
    if !is_left(definitions, pdv) {
        return value_in(basis, LayerOfValues::Association, set, pdv);
    }
    Ok(Value {
        id: pdv.id,
        pair: None,
        content: left_content(basis, pdv.content.octets().as_slice())?,
    })
}

/// Values of a CN that doesn't get association control.
fn left_values(
    basis: &ReadingBasis<'_>,
    definitions: &[Proposal],
    set: &[SetItem],
    carrier: &Carrier<'_>,
    pdvs: &[Pdv],
) -> Result<Values, Halt>
    requires { HasPlaces carrier.now.start carrier.now.user.now }
    ensures { GivesAs seen_values result (reading.left_values (association_base basis.now.tables.now
        basis.now.config.now) definitions.now set.now (pdv_places carrier.now.place
        carrier.now.start carrier.now.user.now) pdvs.now) }
{
    check(
        basis,
        carrier,
        first_wrong_unless_left(definitions, set, pdvs),
    )?;
    all_or_left(basis, definitions, set, pdvs)
}

/// Each value, of which nothing is asked where it is of association control.
fn all_or_left(
    basis: &ReadingBasis<'_>,
    definitions: &[Proposal],
    set: &[SetItem],
    pdvs: &[Pdv],
) -> Result<Values, Halt>
    ensures { GivesAs seen_values result (values_read.all_values (reading.value_or_left
        (association_base basis.now.tables.now basis.now.config.now) definitions.now set.now)
        pdvs.now) }
{
    let mut values: Values = ListOf::new(basis.alloc);
    for pdv in pdvs {
        let value = value_or_left(basis, definitions, set, pdv)?;
        values.push(value)?;
    }
    Ok(values)
}

/// Values of a CN that gets association control.
fn values_associated(
    basis: &ReadingBasis<'_>,
    presentation: &PresentationConnect,
    set: &[SetItem],
    carrier: &Carrier<'_>,
) -> Result<Values, Halt>
    requires { HasPlaces carrier.now.start carrier.now.user.now }
    ensures { GivesAs seen_values result (steps.values_associated (association_base
        basis.now.tables.now basis.now.config.now) presentation.now set.now (pdv_places
        carrier.now.place carrier.now.start carrier.now.user.now)) }
{
    let values = values_under(
        basis,
        set,
        LayerOfValues::Association,
        carrier,
        presentation.user.as_slice(),
    )?;
    and_informed(basis, set, AcseKind::Request, values)
}

/// Values of a CN whose list may stand.
fn values_for(
    basis: &ReadingBasis<'_>,
    presentation: &PresentationConnect,
    set: &[SetItem],
    carrier: &Carrier<'_>,
) -> Result<Values, Halt>
    requires { HasPlaces carrier.now.start carrier.now.user.now }
    ensures { GivesAs seen_values result (steps.values_for (association_base basis.now.tables.now
        basis.now.config.now) presentation.now set.now (pdv_places carrier.now.place
        carrier.now.start carrier.now.user.now)) }
{
    if has_context_of(acse_name(), set) {
        values_associated(basis, presentation, set, carrier)
    } else {
        let definitions = presentation.definitions.as_slice();
        left_values(
            basis,
            definitions,
            set,
            carrier,
            presentation.user.as_slice(),
        )
    }
}

/// Values of a CN. A list that is faulty ends the association before they are looked at.
pub(crate) fn connect_values(
    basis: &ReadingBasis<'_>,
    presentation: &PresentationConnect,
    carrier: &Carrier<'_>,
) -> Result<Values, Halt>
    requires { HasPlaces carrier.now.start carrier.now.user.now }
    ensures { GivesAs seen_values result (reading.connect_values (association_base
        basis.now.tables.now basis.now.config.now) presentation.now (pdv_places carrier.now.place
        carrier.now.start carrier.now.user.now)) }
{
    if is_faulty_proposal(true, &[], presentation.definitions.as_slice()) {
        return Ok(ListOf::new(basis.alloc));
    }
    let set = set_for(basis.alloc, basis.tables, basis.config, presentation)?;
    values_for(basis, presentation, set.as_slice(), carrier)
}

/// Whether an AC stands: its results fit, and the contexts of the association are among those that
/// it accepts.
fn stands(
    basis: &ReadingBasis<'_>,
    presentation: &PresentationAccept,
    accepted: &[SetItem],
) -> Result<bool, NoMemory>
    requires { accepted.now ≡ connecting.set_accepted (association_base basis.now.tables.now
        basis.now.config.now) presentation.now }
    ensures { IfOk result (λ b. b ≡ reading.stands (association_base basis.now.tables.now
        basis.now.config.now) presentation.now) }
{
    let proposed = proposals(basis.alloc, basis.config)?;
    let fit = fit_proposals(proposed.as_slice(), presentation.results.as_slice());
    let transfers = !is_reliable(basis.config.mode) || has_context_of(rtse_name(), accepted);
    Ok(fit && has_context_of(acse_name(), accepted) && transfers)
}

/// Values of an AC that stands, which accepts these contexts.
fn accepted_values(
    basis: &ReadingBasis<'_>,
    presentation: &PresentationAccept,
    accepted: &[SetItem],
    carrier: &Carrier<'_>,
) -> Result<Values, Halt>
    requires { HasPlaces carrier.now.start carrier.now.user.now }
    ensures { GivesAs seen_values result (steps.accepted_values (association_base
        basis.now.tables.now basis.now.config.now) presentation.now accepted.now (pdv_places
        carrier.now.place carrier.now.start carrier.now.user.now)) }
{
    let pdvs = presentation.user.as_slice();
    let values = values_under(basis, accepted, LayerOfValues::Association, carrier, pdvs)?;
    and_informed(basis, accepted, AcseKind::Acceptance, values)
}

/// Values of an AC. One that doesn't stand ends the association before they are looked at.
pub(crate) fn accept_values(
    basis: &ReadingBasis<'_>,
    presentation: &PresentationAccept,
    carrier: &Carrier<'_>,
) -> Result<Values, Halt>
    requires { HasPlaces carrier.now.start carrier.now.user.now }
    ensures { GivesAs seen_values result (reading.accept_values (association_base
        basis.now.tables.now basis.now.config.now) presentation.now (pdv_places carrier.now.place
        carrier.now.start carrier.now.user.now)) }
{
    let set = set_accepted(basis.alloc, basis.tables, basis.config, presentation)?;
    let accepted = set.as_slice();
    if !stands(basis, presentation, accepted)? {
        return Ok(ListOf::new(basis.alloc));
    }
    accepted_values(basis, presentation, accepted, carrier)
}

/// The first value whose form isn't read in BER.
fn first_form_wrong(pdvs: &[Pdv]) -> Option<Wrong>
    ensures { result ≡ steps.first_wrong 0 steps.unasked pdvs.now }
{
    for (which, pdv) in pdvs.iter().enumerate() {
        if let Some(field) = form_wrong(Syntax::Ber, &pdv.content) {
            return Some(Wrong { which, field });
        }
    }
    None
}

/// A value of association control in BER, whatever its context.
fn unasked_value(basis: &ReadingBasis<'_>, pdv: &Pdv) -> Result<Value, Halt>
    ensures { GivesAs seen_value result (reading.unasked_value pdv.now) }
{
    let abstract_name = Oid::from_slice(basis.alloc, acse_name())?;
    let content = acse_content(basis, pdv.content.octets().as_slice())?;
    Ok(Value {
        id: pdv.id,
        pair: Some(Pair {
            abstract_name,
            transfer: Syntax::Ber,
        }),
        content,
    })
}

/// Values of a refusal or of an abort, of which no contexts are asked.
fn unasked_values(
    basis: &ReadingBasis<'_>,
    carrier: &Carrier<'_>,
    pdvs: &[Pdv],
) -> Result<Values, Halt>
    requires { HasPlaces carrier.now.start carrier.now.user.now }
    ensures { GivesAs seen_values result (reading.unasked_values (pdv_places carrier.now.place
        carrier.now.start carrier.now.user.now) pdvs.now) }
{
    check(basis, carrier, first_form_wrong(pdvs))?;
    all_unasked(basis, pdvs)
}

/// Each value of association control in BER, whatever its context.
fn all_unasked(basis: &ReadingBasis<'_>, pdvs: &[Pdv]) -> Result<Values, Halt>
    ensures { GivesAs seen_values result (values_read.all_values reading.unasked_value pdvs.now) }
{
    let mut values: Values = ListOf::new(basis.alloc);
    for pdv in pdvs {
        let value = unasked_value(basis, pdv)?;
        values.push(value)?;
    }
    Ok(values)
}

/// The contexts that a refusal accepts.
fn set_refused(
    basis: &ReadingBasis<'_>,
    presentation: &PresentationReject,
) -> Result<SetList, NoMemory>
    ensures { IfOk result (λ set. set ≡ reading.set_refused (association_base basis.now.tables.now
        basis.now.config.now) presentation.now) }
{
    accepted_for(basis.alloc, basis.config, presentation.results.as_slice())
}

/// Values of an RF.
pub(crate) fn refuse_values(
    basis: &ReadingBasis<'_>,
    presentation: &PresentationReject,
    carrier: &Carrier<'_>,
) -> Result<Values, Halt>
    requires { HasPlaces carrier.now.start carrier.now.user.now }
    ensures { GivesAs seen_values result (reading.refuse_values (association_base
        basis.now.tables.now basis.now.config.now) presentation.now (pdv_places carrier.now.place
        carrier.now.start carrier.now.user.now)) }
{
    let set = set_refused(basis, presentation)?;
    let values = unasked_values(basis, carrier, presentation.user.as_slice())?;
    and_informed(basis, set.as_slice(), AcseKind::Response, values)
}

/// Values of an AB.
pub(crate) fn abort_values(
    basis: &ReadingBasis<'_>,
    accepted: &[SetItem],
    carrier: &Carrier<'_>,
    pdvs: &[Pdv],
) -> Result<Values, Halt>
    requires { HasPlaces carrier.now.start carrier.now.user.now }
    ensures { GivesAs seen_values result (reading.abort_values (association_base
        basis.now.tables.now basis.now.config.now) accepted.now (pdv_places carrier.now.place
        carrier.now.start carrier.now.user.now) pdvs.now) }
{
    let values = unasked_values(basis, carrier, pdvs)?;
    and_informed(basis, accepted, AcseKind::Abort, values)
}
