//! What each kind of unit of the session means, by its unit of the presentation (X.225 8.3, X.226
//! 8.2 to 8.4).

ghost use Rattle.std.specs.Prelude.{◌≡◌, [], IfOk};
ghost use Rattle.osi_base.specs.OctetPlaces.{HasPlaces};
ghost use Rattle.presentation_pdus.specs.declared.place.PpduPlace.TheVariants as places;
ghost use Rattle.presentation_pdus.specs.Units.{ppdu_at};
ghost use Rattle.association_intake.specs.association_reading.Meaning as reading;
ghost use Rattle.association_intake.specs.association_reading.Places.{pdv_places};
ghost use Rattle.association_words.specs.Seen.{seen_values, seen_accepting, seen_abort, seen_word};
ghost use Rattle.association_meaning.specs.Grounds.{association_base, GivesAs};
ghost use Rattle.association_intake.specs.Seen.{HasUserPlaces};
ghost use Rattle.association_meaning.specs.Steps as steps;
ghost use Rattle.association_meaning.specs.Words as words;

use crate::association::{abort_values, accept_values, connect_values, refuse_values};
use crate::basis::{Halt, ReadingBasis, fault_at, misplaced};
use crate::contexts::Carrier;
use crate::values::values_under;
use association_ground::is_reliable;
use association_intake::association_reading_layer::LayerOfValues;
use association_words::{AbortData, Accepting, AssociationWord, DataWord, MarkWord, Values, Word};
use osi_base::{
    Copied, Layer, ListOf, NoMemory, Octets, Pdv, Pdvs, PresentationAccept, PresentationConnect,
    PresentationReject, PresentationWord, SessionConnect, SetItem,
};
use presentation_pdus::{PpduFault, PpduPlace, ppdu_fault_is_first};
use std::alloc::Global;

/// The unit of the presentation that user data are. The place of a fault counts from the TSDU.
fn unit_in(basis: &ReadingBasis<'_>, carrier: &Carrier<'_>) -> Result<PresentationWord, Halt>
    requires { HasPlaces carrier.now.start carrier.now.user.now }
    ensures { GivesAs (λ unit. unit) result (steps.read_unit carrier.now.start (ppdu_at
        carrier.now.place carrier.now.user.now)) }
{
    ppdu_fault_is_first();
    match basis
        .codecs
        .ppdus
        .read(basis.alloc, carrier.place, carrier.user)
    {
        Ok(unit) => Ok(unit),
        Err(PpduFault::At { place, reason, .. }) => fault_at(
            basis.alloc,
            Layer::Presentation,
            carrier.start + place,
            reason,
        ),
        Err(PpduFault::NoMemory) => Err(Halt::NoMemory),
    }
}

/// A CN without its user data.
fn without_user(alloc: Global, session: &SessionConnect) -> Result<SessionConnect, NoMemory>
    ensures { IfOk result (λ s. s ≡ record session.now { user = [] }) }
{
    Ok(SessionConnect {
        calling_reference: session.calling_reference.copy(alloc)?,
        common_reference: session.common_reference.copy(alloc)?,
        options: session.options,
        version: session.version,
        initial: session.initial,
        token_setting: session.token_setting,
        requirements: session.requirements,
        calling: session.calling.copy(alloc)?,
        called: session.called.copy(alloc)?,
        user: Octets::new(alloc),
    })
}

/// CP in the user data of CN.
fn connect_in(basis: &ReadingBasis<'_>, carrier: &Carrier<'_>) -> Result<PresentationConnect, Halt>
    requires { HasPlaces carrier.now.start carrier.now.user.now }
    ensures { GivesAs (λ p. p) result (words.connect_in carrier.now.start (ppdu_at carrier.now.place
        carrier.now.user.now)) }
{
    let unit = unit_in(basis, carrier)?;
    match unit {
        PresentationWord::Connect(presentation) => Ok(presentation),
        PresentationWord::Accept(_) => misplaced(basis.alloc, unit),
        PresentationWord::Reject(_) => misplaced(basis.alloc, unit),
        PresentationWord::Alter { .. } => misplaced(basis.alloc, unit),
        PresentationWord::AlterAck { .. } => misplaced(basis.alloc, unit),
        PresentationWord::Resynchronize { .. } => misplaced(basis.alloc, unit),
        PresentationWord::ResynchronizeAck { .. } => misplaced(basis.alloc, unit),
        PresentationWord::UserAbort { .. } => misplaced(basis.alloc, unit),
        PresentationWord::ProviderAbort { .. } => misplaced(basis.alloc, unit),
        PresentationWord::Data { .. } => misplaced(basis.alloc, unit),
    }
}

/// CPA in the user data of AC.
fn accept_in(basis: &ReadingBasis<'_>, carrier: &Carrier<'_>) -> Result<PresentationAccept, Halt>
    requires { HasPlaces carrier.now.start carrier.now.user.now }
    ensures { GivesAs (λ p. p) result (words.accept_in carrier.now.start (ppdu_at carrier.now.place
        carrier.now.user.now)) }
{
    let unit = unit_in(basis, carrier)?;
    match unit {
        PresentationWord::Accept(presentation) => Ok(presentation),
        PresentationWord::Connect(_) => misplaced(basis.alloc, unit),
        PresentationWord::Reject(_) => misplaced(basis.alloc, unit),
        PresentationWord::Alter { .. } => misplaced(basis.alloc, unit),
        PresentationWord::AlterAck { .. } => misplaced(basis.alloc, unit),
        PresentationWord::Resynchronize { .. } => misplaced(basis.alloc, unit),
        PresentationWord::ResynchronizeAck { .. } => misplaced(basis.alloc, unit),
        PresentationWord::UserAbort { .. } => misplaced(basis.alloc, unit),
        PresentationWord::ProviderAbort { .. } => misplaced(basis.alloc, unit),
        PresentationWord::Data { .. } => misplaced(basis.alloc, unit),
    }
}

/// CPR in the user data of RF.
fn reject_in(basis: &ReadingBasis<'_>, carrier: &Carrier<'_>) -> Result<PresentationReject, Halt>
    requires { HasPlaces carrier.now.start carrier.now.user.now }
    ensures { GivesAs (λ p. p) result (words.reject_in carrier.now.start (ppdu_at carrier.now.place
        carrier.now.user.now)) }
{
    let unit = unit_in(basis, carrier)?;
    match unit {
        PresentationWord::Reject(presentation) => Ok(presentation),
        PresentationWord::Connect(_) => misplaced(basis.alloc, unit),
        PresentationWord::Accept(_) => misplaced(basis.alloc, unit),
        PresentationWord::Alter { .. } => misplaced(basis.alloc, unit),
        PresentationWord::AlterAck { .. } => misplaced(basis.alloc, unit),
        PresentationWord::Resynchronize { .. } => misplaced(basis.alloc, unit),
        PresentationWord::ResynchronizeAck { .. } => misplaced(basis.alloc, unit),
        PresentationWord::UserAbort { .. } => misplaced(basis.alloc, unit),
        PresentationWord::ProviderAbort { .. } => misplaced(basis.alloc, unit),
        PresentationWord::Data { .. } => misplaced(basis.alloc, unit),
    }
}

/// Values that stand alone in user data.
fn data_in(basis: &ReadingBasis<'_>, carrier: &Carrier<'_>) -> Result<Pdvs, Halt>
    requires { HasPlaces carrier.now.start carrier.now.user.now }
    ensures { GivesAs (λ p. p) result (words.data_in carrier.now.start (ppdu_at carrier.now.place
        carrier.now.user.now)) }
{
    let unit = unit_in(basis, carrier)?;
    match unit {
        PresentationWord::Data { user } => Ok(user),
        PresentationWord::Connect(_) => misplaced(basis.alloc, unit),
        PresentationWord::Accept(_) => misplaced(basis.alloc, unit),
        PresentationWord::Reject(_) => misplaced(basis.alloc, unit),
        PresentationWord::Alter { .. } => misplaced(basis.alloc, unit),
        PresentationWord::AlterAck { .. } => misplaced(basis.alloc, unit),
        PresentationWord::Resynchronize { .. } => misplaced(basis.alloc, unit),
        PresentationWord::ResynchronizeAck { .. } => misplaced(basis.alloc, unit),
        PresentationWord::UserAbort { .. } => misplaced(basis.alloc, unit),
        PresentationWord::ProviderAbort { .. } => misplaced(basis.alloc, unit),
    }
}

/// CN with CP.
pub(crate) fn connect_meaning(
    basis: &ReadingBasis<'_>,
    session: &SessionConnect,
    start: usize,
) -> Result<Word, Halt>
    requires { HasPlaces start session.now.user }
    ensures { GivesAs seen_word result (words.connected (association_base basis.now.tables.now
        basis.now.config.now) session.now start (words.connect_in start (ppdu_at places.Cn
        session.now.user))) }
{
    let carrier = Carrier {
        place: PpduPlace::Cn,
        start,
        user: session.user.as_slice(),
    };
    let presentation = connect_in(basis, &carrier)?;
    let values = connect_values(basis, &presentation, &carrier)?;
    let session = without_user(basis.alloc, session)?;
    Ok(Word::OfAssociation(AssociationWord::Connect {
        session,
        presentation: PresentationConnect {
            user: ListOf::new(basis.alloc),
            ..presentation
        },
        values,
    }))
}

/// AC with CPA.
pub(crate) fn accept_meaning(
    basis: &ReadingBasis<'_>,
    session: Accepting,
    start: usize,
    user: &[u8],
) -> Result<Word, Halt>
    requires { HasPlaces start user.now }
    ensures { GivesAs seen_word result (words.accepted (association_base basis.now.tables.now
        basis.now.config.now) (seen_accepting session) start user.now (words.accept_in start
        (ppdu_at places.Ac user.now))) }
{
    let carrier = Carrier {
        place: PpduPlace::Ac,
        start,
        user,
    };
    let presentation = accept_in(basis, &carrier)?;
    let values = accept_values(basis, &presentation, &carrier)?;
    Ok(Word::OfAssociation(AssociationWord::Accept {
        session,
        presentation: PresentationAccept {
            user: ListOf::new(basis.alloc),
            ..presentation
        },
        values,
    }))
}

/// RF with CPR.
fn refuse_meaning(
    basis: &ReadingBasis<'_>,
    transport: Option<u8>,
    reason: Option<u8>,
    start: usize,
    user: &[u8],
) -> Result<Word, Halt>
    requires { HasPlaces start user.now }
    ensures { GivesAs seen_word result (words.refused (association_base basis.now.tables.now
        basis.now.config.now) transport reason start user.now (words.reject_in start (ppdu_at
        places.Rf user.now))) }
{
    let carrier = Carrier {
        place: PpduPlace::Rf,
        start,
        user,
    };
    let presentation = reject_in(basis, &carrier)?;
    let values = refuse_values(basis, &presentation, &carrier)?;
    Ok(Word::OfAssociation(AssociationWord::Refuse {
        transport,
        reason,
        presentation: Some(PresentationReject {
            user: ListOf::new(basis.alloc),
            ..presentation
        }),
        values,
    }))
}

/// RF with CPR, or without user data.
pub(crate) fn refused_with(
    basis: &ReadingBasis<'_>,
    transport: Option<u8>,
    reason: Option<u8>,
    start: usize,
    user: &Option<Octets>,
) -> Result<Word, Halt>
    requires { HasUserPlaces start user.now }
    ensures { GivesAs seen_word result (words.refused_with (association_base basis.now.tables.now
        basis.now.config.now) transport reason start user.now) }
{
    match user {
        None => Ok(Word::OfAssociation(AssociationWord::Refuse {
            transport,
            reason,
            presentation: None,
            values: ListOf::new(basis.alloc),
        })),
        Some(user) => refuse_meaning(basis, transport, reason, start, user.as_slice()),
    }
}

/// Values of ARU in the user data of AB.
fn user_abort(
    basis: &ReadingBasis<'_>,
    accepted: &[SetItem],
    carrier: &Carrier<'_>,
    pdvs: &[Pdv],
) -> Result<AbortData, Halt>
    requires { HasPlaces carrier.now.start carrier.now.user.now }
    ensures { GivesAs seen_abort result (words.user_abort (association_base basis.now.tables.now
        basis.now.config.now) accepted.now (pdv_places carrier.now.place carrier.now.start
        carrier.now.user.now) pdvs.now) }
{
    let values = abort_values(basis, accepted, carrier, pdvs)?;
    Ok(AbortData::UserValues(values))
}

/// What ARU or ARP in the user data of AB says.
fn abort_in(
    basis: &ReadingBasis<'_>,
    accepted: &[SetItem],
    carrier: &Carrier<'_>,
) -> Result<AbortData, Halt>
    requires { HasPlaces carrier.now.start carrier.now.user.now }
    ensures { GivesAs seen_abort result (words.abort_in (association_base basis.now.tables.now
        basis.now.config.now) accepted.now carrier.now.start carrier.now.user.now carrier.now.place
        (ppdu_at carrier.now.place carrier.now.user.now)) }
{
    let unit = unit_in(basis, carrier)?;
    match unit {
        PresentationWord::UserAbort { user, .. } => {
            user_abort(basis, accepted, carrier, user.as_slice())
        }
        PresentationWord::ProviderAbort { reason, .. } => {
            drop(unit);
            Ok(AbortData::ProviderReason { reason })
        }
        PresentationWord::Connect(_) => misplaced(basis.alloc, unit),
        PresentationWord::Accept(_) => misplaced(basis.alloc, unit),
        PresentationWord::Reject(_) => misplaced(basis.alloc, unit),
        PresentationWord::Alter { .. } => misplaced(basis.alloc, unit),
        PresentationWord::AlterAck { .. } => misplaced(basis.alloc, unit),
        PresentationWord::Resynchronize { .. } => misplaced(basis.alloc, unit),
        PresentationWord::ResynchronizeAck { .. } => misplaced(basis.alloc, unit),
        PresentationWord::Data { .. } => misplaced(basis.alloc, unit),
    }
}

/// AB with ARU or ARP.
fn abort_meaning(
    basis: &ReadingBasis<'_>,
    accepted: &[SetItem],
    transport: Option<u8>,
    start: usize,
    user: &[u8],
) -> Result<Word, Halt>
    requires { HasPlaces start user.now }
    ensures { GivesAs seen_word result (words.aborted (association_base basis.now.tables.now
        basis.now.config.now) accepted.now transport start user.now) }
{
    let carrier = Carrier {
        place: PpduPlace::Ab,
        start,
        user,
    };
    let user = abort_in(basis, accepted, &carrier)?;
    Ok(Word::OfAssociation(AssociationWord::Abort { transport, user }))
}

/// AB with ARU or ARP, or without user data.
pub(crate) fn aborted_with(
    basis: &ReadingBasis<'_>,
    accepted: &[SetItem],
    transport: Option<u8>,
    start: usize,
    user: &Option<Octets>,
) -> Result<Word, Halt>
    requires { HasUserPlaces start user.now }
    ensures { GivesAs seen_word result (words.aborted_with (association_base basis.now.tables.now
        basis.now.config.now) accepted.now transport start user.now) }
{
    match user {
        None => Ok(Word::OfAssociation(AssociationWord::Abort {
            transport,
            user: AbortData::NoData,
        })),
        Some(user) => abort_meaning(basis, accepted, transport, start, user.as_slice()),
    }
}

/// Values alone in user data under the held set.
fn values_with(
    basis: &ReadingBasis<'_>,
    held: &[SetItem],
    carried: LayerOfValues,
    carrier: &Carrier<'_>,
) -> Result<Values, Halt>
    requires { HasPlaces carrier.now.start carrier.now.user.now }
    ensures { GivesAs seen_values result (words.values_with basis.now.tables.now held.now
        carried carrier.now.place carrier.now.start carrier.now.user.now) }
{
    let pdvs = data_in(basis, carrier)?;
    values_under(basis, held, carried, carrier, pdvs.as_slice())
}

/// FN, with values of association control.
pub(crate) fn finish_meaning(
    basis: &ReadingBasis<'_>,
    held: &[SetItem],
    transport: Option<u8>,
    start: usize,
    user: &[u8],
) -> Result<Word, Halt>
    requires { HasPlaces start user.now }
    ensures { GivesAs seen_word result (words.finished basis.now.tables.now held.now transport start
        user.now) }
{
    let carrier = Carrier {
        place: PpduPlace::Fn,
        start,
        user,
    };
    let values = values_with(basis, held, LayerOfValues::Association, &carrier)?;
    Ok(Word::OfAssociation(AssociationWord::Finish { transport, values }))
}

/// DN, with values of association control.
pub(crate) fn disconnect_meaning(
    basis: &ReadingBasis<'_>,
    held: &[SetItem],
    start: usize,
    user: &[u8],
) -> Result<Word, Halt>
    requires { HasPlaces start user.now }
    ensures { GivesAs seen_word result (words.disconnected basis.now.tables.now held.now start
        user.now) }
{
    let carrier = Carrier {
        place: PpduPlace::Dn,
        start,
        user,
    };
    let values = values_with(basis, held, LayerOfValues::Association, &carrier)?;
    Ok(Word::OfAssociation(AssociationWord::Disconnect { values }))
}

/// The values that DT carries.
fn carried_by_data(basis: &ReadingBasis<'_>) -> LayerOfValues
    ensures { result ≡ reading.carried_by_data (association_base basis.now.tables.now
        basis.now.config.now) }
{
    if is_reliable(basis.config.mode) {
        LayerOfValues::Transfer
    } else {
        LayerOfValues::Module
    }
}

/// DT, with the module's values, in reliable mode with parts of transfers.
pub(crate) fn data_meaning(
    basis: &ReadingBasis<'_>,
    held: &[SetItem],
    start: usize,
    user: &[u8],
) -> Result<Word, Halt>
    requires { HasPlaces start user.now }
    ensures { GivesAs seen_word result (words.sent (association_base basis.now.tables.now
        basis.now.config.now) held.now start user.now) }
{
    let carrier = Carrier {
        place: PpduPlace::Dt,
        start,
        user,
    };
    let values = values_with(basis, held, carried_by_data(basis), &carrier)?;
    Ok(Word::OfData(DataWord::Values(values)))
}

/// PT that carries values.
fn plea_meaning(
    basis: &ReadingBasis<'_>,
    held: &[SetItem],
    tokens: u8,
    start: usize,
    user: &[u8],
) -> Result<Word, Halt>
    requires { HasPlaces start user.now }
    ensures { GivesAs seen_word result (words.pleaded basis.now.tables.now held.now tokens start
        user.now) }
{
    let carrier = Carrier {
        place: PpduPlace::Pt,
        start,
        user,
    };
    let values = values_with(basis, held, LayerOfValues::Transfer, &carrier)?;
    Ok(Word::OfMarks(MarkWord::Please {
        tokens: Some(tokens),
        values,
    }))
}

/// PT. A plea without a token item says nothing, whatever it carries.
pub(crate) fn pleaded_with(
    basis: &ReadingBasis<'_>,
    held: &[SetItem],
    tokens: Option<u8>,
    start: usize,
    user: &Option<Octets>,
) -> Result<Word, Halt>
    requires { HasUserPlaces start user.now }
    ensures { GivesAs seen_word result (words.pleaded_with basis.now.tables.now held.now tokens
        start user.now) }
{
    let Some(tokens) = tokens else {
        return Ok(Word::OfMarks(MarkWord::Please {
            tokens: None,
            values: ListOf::new(basis.alloc),
        }));
    };
    match user {
        None => Ok(Word::OfMarks(MarkWord::Please {
            tokens: Some(tokens),
            values: ListOf::new(basis.alloc),
        })),
        Some(user) => plea_meaning(basis, held, tokens, start, user.as_slice()),
    }
}

/// TD with AC or ACA.
pub(crate) fn typed_meaning(
    basis: &ReadingBasis<'_>,
    start: usize,
    user: &[u8],
) -> Result<Word, Halt>
    requires { HasPlaces start user.now }
    ensures { GivesAs seen_word result (words.typed start (ppdu_at places.Td user.now)) }
{
    let carrier = Carrier {
        place: PpduPlace::Td,
        start,
        user,
    };
    let unit = unit_in(basis, &carrier)?;
    match unit {
        PresentationWord::Alter { add, delete } => {
            Ok(Word::OfData(DataWord::AlterContext { add, delete }))
        }
        PresentationWord::AlterAck { answers } => {
            Ok(Word::OfData(DataWord::AlterContextAck { answers }))
        }
        PresentationWord::Connect(_) => misplaced(basis.alloc, unit),
        PresentationWord::Accept(_) => misplaced(basis.alloc, unit),
        PresentationWord::Reject(_) => misplaced(basis.alloc, unit),
        PresentationWord::Resynchronize { .. } => misplaced(basis.alloc, unit),
        PresentationWord::ResynchronizeAck { .. } => misplaced(basis.alloc, unit),
        PresentationWord::UserAbort { .. } => misplaced(basis.alloc, unit),
        PresentationWord::ProviderAbort { .. } => misplaced(basis.alloc, unit),
        PresentationWord::Data { .. } => misplaced(basis.alloc, unit),
    }
}

/// RS with its list.
fn restart_meaning(
    basis: &ReadingBasis<'_>,
    number: u32,
    start: usize,
    user: &[u8],
) -> Result<Word, Halt>
    requires { HasPlaces start user.now }
    ensures { GivesAs seen_word result (words.restarted number start (ppdu_at places.Rs user.now)) }
{
    let carrier = Carrier {
        place: PpduPlace::Rs,
        start,
        user,
    };
    let unit = unit_in(basis, &carrier)?;
    match unit {
        PresentationWord::Resynchronize { restored } => Ok(Word::OfMarks(MarkWord::Restart {
            number,
            list: restored,
        })),
        PresentationWord::Connect(_) => misplaced(basis.alloc, unit),
        PresentationWord::Accept(_) => misplaced(basis.alloc, unit),
        PresentationWord::Reject(_) => misplaced(basis.alloc, unit),
        PresentationWord::Alter { .. } => misplaced(basis.alloc, unit),
        PresentationWord::AlterAck { .. } => misplaced(basis.alloc, unit),
        PresentationWord::ResynchronizeAck { .. } => misplaced(basis.alloc, unit),
        PresentationWord::UserAbort { .. } => misplaced(basis.alloc, unit),
        PresentationWord::ProviderAbort { .. } => misplaced(basis.alloc, unit),
        PresentationWord::Data { .. } => misplaced(basis.alloc, unit),
    }
}

/// RS with its list, or without user data.
pub(crate) fn restarted_with(
    basis: &ReadingBasis<'_>,
    number: u32,
    start: usize,
    user: &Option<Octets>,
) -> Result<Word, Halt>
    requires { HasUserPlaces start user.now }
    ensures { GivesAs seen_word result (words.restarted_with number start user.now) }
{
    match user {
        None => Ok(Word::OfMarks(MarkWord::Restart { number, list: None })),
        Some(user) => restart_meaning(basis, number, start, user.as_slice()),
    }
}

/// RA with its list.
fn restart_ack_meaning(
    basis: &ReadingBasis<'_>,
    number: u32,
    start: usize,
    user: &[u8],
) -> Result<Word, Halt>
    requires { HasPlaces start user.now }
    ensures { GivesAs seen_word result (words.restart_acked number start (ppdu_at places.Ra
        user.now)) }
{
    let carrier = Carrier {
        place: PpduPlace::Ra,
        start,
        user,
    };
    let unit = unit_in(basis, &carrier)?;
    match unit {
        PresentationWord::ResynchronizeAck { restored } => {
            Ok(Word::OfMarks(MarkWord::RestartAck {
                number,
                list: restored,
            }))
        }
        PresentationWord::Connect(_) => misplaced(basis.alloc, unit),
        PresentationWord::Accept(_) => misplaced(basis.alloc, unit),
        PresentationWord::Reject(_) => misplaced(basis.alloc, unit),
        PresentationWord::Alter { .. } => misplaced(basis.alloc, unit),
        PresentationWord::AlterAck { .. } => misplaced(basis.alloc, unit),
        PresentationWord::Resynchronize { .. } => misplaced(basis.alloc, unit),
        PresentationWord::UserAbort { .. } => misplaced(basis.alloc, unit),
        PresentationWord::ProviderAbort { .. } => misplaced(basis.alloc, unit),
        PresentationWord::Data { .. } => misplaced(basis.alloc, unit),
    }
}

/// RA with its list, or without user data.
pub(crate) fn restart_acked_with(
    basis: &ReadingBasis<'_>,
    number: u32,
    start: usize,
    user: &Option<Octets>,
) -> Result<Word, Halt>
    requires { HasUserPlaces start user.now }
    ensures { GivesAs seen_word result (words.restart_acked_with number start user.now) }
{
    match user {
        None => Ok(Word::OfMarks(MarkWord::RestartAck { number, list: None })),
        Some(user) => restart_ack_meaning(basis, number, start, user.as_slice()),
    }
}
