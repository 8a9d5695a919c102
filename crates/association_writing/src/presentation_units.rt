//! The unit of the presentation protocol that each word carries (X.226 8.2, 8.3), and its octets.

ghost use Rattle.std.specs.Prelude.{◌≡◌, IfOk, Some, pos, option_map};
ghost use Rattle.osi_base.specs.declared.presentation_word.PresentationWord.TheVariants as pdus;
ghost use Rattle.end_rules.specs.Messages.{natural};
ghost use Rattle.association_words.specs.Seen.{seen_values, seen_abort, seen_association, seen_data, seen_marks, seen_word};
ghost use Rattle.association_wire.specs.Values.{pdvs_of};
ghost use Rattle.association_wire.specs.Units.{data_unit, reject_unit, abort_unit, unit_of_association, unit_of_data, unit_of_marks, presentation_unit, user_octets};

use crate::values::pdvs_of;
use association_codecs::Codecs;
use association_words::{AbortData, AssociationWord, DataWord, MarkWord, Value, Word};
use osi_base::{
    Copied, NoMemory, Octets, PresentationAccept, PresentationConnect, PresentationReject,
    PresentationWord,
};
use std::alloc::Global;
use stub_tables::Tables;

/// User data alone; none where there is no value.
fn data_unit(
    alloc: Global,
    codecs: &Codecs,
    tables: &Tables,
    values: &[Value],
) -> Result<Option<PresentationWord>, NoMemory>
    ensures { IfOk result (λ unit. unit ≡ data_unit tables.now (seen_values values.now)) }
{
    if values.is_empty() {
        return Ok(None);
    }
    Ok(Some(PresentationWord::Data {
        user: pdvs_of(alloc, codecs, tables, values)?,
    }))
}

/// The unit of a word of the association.
fn unit_of_association(
    alloc: Global,
    codecs: &Codecs,
    tables: &Tables,
    word: &AssociationWord,
) -> Result<Option<PresentationWord>, NoMemory>
    ensures { IfOk result (λ unit. unit ≡ unit_of_association tables.now
        (seen_association word.now)) }
{
    match word {
        AssociationWord::Connect {
            presentation,
            values,
            ..
        } => connect_unit(alloc, codecs, tables, presentation, values.as_slice()),
        AssociationWord::Accept {
            presentation,
            values,
            ..
        } => accept_unit(alloc, codecs, tables, presentation, values.as_slice()),
        AssociationWord::Refuse {
            presentation,
            values,
            ..
        } => refuse_unit(alloc, codecs, tables, presentation, values.as_slice()),
        AssociationWord::Finish { values, .. } => {
            data_unit(alloc, codecs, tables, values.as_slice())
        }
        AssociationWord::Disconnect { values } => {
            data_unit(alloc, codecs, tables, values.as_slice())
        }
        AssociationWord::Abort { user, .. } => abort_unit(alloc, codecs, tables, user),
        AssociationWord::AbortAccept => Ok(None),
    }
}

/// CP.
fn connect_unit(
    alloc: Global,
    codecs: &Codecs,
    tables: &Tables,
    presentation: &PresentationConnect,
    values: &[Value],
) -> Result<Option<PresentationWord>, NoMemory>
    ensures { IfOk result (λ unit. unit
        ≡ Some (pdus.Connect (record presentation.now
        { user = pdvs_of tables.now (seen_values values.now) }))) }
{
    let user = pdvs_of(alloc, codecs, tables, values)?;
    let unit = presentation.copy(alloc)?;
    Ok(Some(PresentationWord::Connect(PresentationConnect { user, ..unit })))
}

/// CPA.
fn accept_unit(
    alloc: Global,
    codecs: &Codecs,
    tables: &Tables,
    presentation: &PresentationAccept,
    values: &[Value],
) -> Result<Option<PresentationWord>, NoMemory>
    ensures { IfOk result (λ unit. unit
        ≡ Some (pdus.Accept (record presentation.now
        { user = pdvs_of tables.now (seen_values values.now) }))) }
{
    let user = pdvs_of(alloc, codecs, tables, values)?;
    let unit = presentation.copy(alloc)?;
    Ok(Some(PresentationWord::Accept(PresentationAccept { user, ..unit })))
}

/// CPR, where there is one.
fn refuse_unit(
    alloc: Global,
    codecs: &Codecs,
    tables: &Tables,
    presentation: &Option<PresentationReject>,
    values: &[Value],
) -> Result<Option<PresentationWord>, NoMemory>
    ensures { IfOk result (λ unit. unit
        ≡ option_map (reject_unit tables.now (seen_values values.now)) presentation.now) }
{
    let Some(presentation) = presentation else {
        return Ok(None);
    };
    let user = pdvs_of(alloc, codecs, tables, values)?;
    let unit = presentation.copy(alloc)?;
    Ok(Some(PresentationWord::Reject(PresentationReject { user, ..unit })))
}

/// The provider's reason, where one below 0 counts as 0.
fn natural(reason: Option<i64>) -> Option<i64>
    ensures { result ≡ option_map pos (option_map natural reason) }
{
    match reason {
        None => None,
        Some(reason) => Some(reason.max(0)),
    }
}

/// ARU, whose list of contexts isn't written, or ARP.
fn abort_unit(
    alloc: Global,
    codecs: &Codecs,
    tables: &Tables,
    user: &AbortData,
) -> Result<Option<PresentationWord>, NoMemory>
    ensures { IfOk result (λ unit. unit ≡ abort_unit tables.now (seen_abort user.now)) }
{
    match user {
        AbortData::NoData => Ok(None),
        AbortData::ProviderReason { reason } => Ok(Some(PresentationWord::ProviderAbort {
            reason: natural(*reason),
            event: None,
        })),
        AbortData::UserValues(values) => Ok(Some(PresentationWord::UserAbort {
            contexts: None,
            user: pdvs_of(alloc, codecs, tables, values.as_slice())?,
        })),
    }
}

/// The unit of a word with values, or of an alteration.
fn unit_of_data(
    alloc: Global,
    codecs: &Codecs,
    tables: &Tables,
    word: &DataWord,
) -> Result<Option<PresentationWord>, NoMemory>
    ensures { IfOk result (λ unit. unit ≡ unit_of_data tables.now (seen_data word.now)) }
{
    match word {
        DataWord::Values(values) => data_unit(alloc, codecs, tables, values.as_slice()),
        DataWord::AlterContext { add, delete } => Ok(Some(PresentationWord::Alter {
            add: add.copy(alloc)?,
            delete: delete.copy(alloc)?,
        })),
        DataWord::AlterContextAck { answers } => Ok(Some(PresentationWord::AlterAck {
            answers: answers.copy(alloc)?,
        })),
    }
}

/// The unit of a restart or a plea, which the other words of marks lack.
fn unit_of_marks(
    alloc: Global,
    codecs: &Codecs,
    tables: &Tables,
    word: &MarkWord,
) -> Result<Option<PresentationWord>, NoMemory>
    ensures { IfOk result (λ unit. unit ≡ unit_of_marks tables.now (seen_marks word.now)) }
{
    match word {
        MarkWord::Restart { list, .. } => Ok(Some(PresentationWord::Resynchronize {
            restored: list.copy(alloc)?,
        })),
        MarkWord::RestartAck { list, .. } => Ok(Some(PresentationWord::ResynchronizeAck {
            restored: list.copy(alloc)?,
        })),
        MarkWord::Please { values, .. } => data_unit(alloc, codecs, tables, values.as_slice()),
        MarkWord::Mark { .. } => Ok(None),
        MarkWord::MarkAck { .. } => Ok(None),
        MarkWord::Give { .. } => Ok(None),
        MarkWord::GiveConfirm => Ok(None),
        MarkWord::GiveAck => Ok(None),
    }
}

/// The unit of a word, where it carries one.
fn presentation_unit(
    alloc: Global,
    codecs: &Codecs,
    tables: &Tables,
    word: &Word,
) -> Result<Option<PresentationWord>, NoMemory>
    ensures { IfOk result (λ unit. unit ≡ presentation_unit tables.now (seen_word word.now)) }
{
    match word {
        Word::OfAssociation(word) => unit_of_association(alloc, codecs, tables, word),
        Word::OfData(word) => unit_of_data(alloc, codecs, tables, word),
        Word::OfMarks(word) => unit_of_marks(alloc, codecs, tables, word),
        Word::OfActivities(_) => Ok(None),
    }
}

/// User data of the session unit that carries the word.
pub(crate) fn user_octets(
    alloc: Global,
    codecs: &Codecs,
    tables: &Tables,
    word: &Word,
) -> Result<Option<Octets>, NoMemory>
    ensures { IfOk result (λ user. user ≡ user_octets tables.now (seen_word word.now)) }
{
    match presentation_unit(alloc, codecs, tables, word)? {
        None => Ok(None),
        Some(unit) => {
            let octets = codecs.ppdus.write(alloc, &unit);
            drop(unit);
            Ok(Some(octets?))
        }
    }
}
