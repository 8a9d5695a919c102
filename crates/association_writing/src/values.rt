//! Presentation data values as an association carries them (X.226 8.4.2, X.227 9, X.228 9).

ghost use Rattle.std.specs.Prelude.{◌≡◌, map, IfOk, None};
ghost use Rattle.osi_base.specs.declared.rtse_word.Rtse.TheVariants as rtses;
ghost use Rattle.acse.specs.Written.{written_acse};
ghost use Rattle.rtse_apdus.specs.Written.{written_rtse};
ghost use Rattle.rtse_apdus.specs.Transfer.{written_transfer};
ghost use Rattle.apdu_spelling.specs.Writing.{written_apdu};
ghost use Rattle.end_rules.specs.Hearing.{syntax_of};
ghost use Rattle.association_words.specs.Seen.{seen_information, seen_content, seen_value, seen_item};
ghost use Rattle.association_writing.specs.Room.{item_pdv};
ghost use Rattle.association_wire.specs.Values.{external_of, with_user, content_octets, in_form, pdv_of, pdvs_of};

use association_codecs::Codecs;
use association_words::{Information, TransferItem, Value, ValueContent, syntax_of};
use osi_base::{
    Acse, Copied, External, Externals, ListOf, NoMemory, Octets, Pdv, PdvContent, Pdvs, Rtse,
    Syntax,
};
use std::alloc::Global;
use stub_tables::{Apdu, Tables};

/// An item of user information in octets.
fn external_of(
    alloc: Global,
    codecs: &Codecs,
    information: &Information,
) -> Result<External, NoMemory>
    ensures { IfOk result (λ external. external ≡ external_of (seen_information information.now)) }
{
    match information {
        Information::Transferring { id, apdu } => Ok(External {
            id: *id,
            value: codecs.rtse.write(alloc, apdu)?,
        }),
        Information::Other { id, octets } => Ok(External {
            id: *id,
            value: octets.copy(alloc)?,
        }),
    }
}

/// User information in octets.
fn externals_of(alloc: Global, codecs: &Codecs, user: &[Information]) -> Result<Externals, NoMemory>
    ensures { IfOk result (λ externals. externals ≡ map external_of
        (map seen_information user.now)) }
{
    let mut externals = ListOf::new(alloc);
    for information in user {
        externals.push(external_of(alloc, codecs, information)?)?;
    }
    Ok(externals)
}

/// An APDU of association control with its user information.
fn with_user(
    alloc: Global,
    codecs: &Codecs,
    user: &[Information],
    apdu: &Acse,
) -> Result<Acse, NoMemory>
    ensures { IfOk result (λ whole. whole ≡ with_user (map seen_information user.now) apdu.now) }
{
    match apdu {
        Acse::AssociateRequest {
            version,
            context,
            ..
        } => Ok(Acse::AssociateRequest {
            version: version.copy(alloc)?,
            context: context.copy(alloc)?,
            user: externals_of(alloc, codecs, user)?,
        }),
        Acse::AssociateResponse {
            context,
            result,
            diagnostic,
            ..
        } => Ok(Acse::AssociateResponse {
            context: context.copy(alloc)?,
            result: *result,
            diagnostic: *diagnostic,
            user: externals_of(alloc, codecs, user)?,
        }),
        Acse::ReleaseRequest { reason } => Ok(Acse::ReleaseRequest { reason: *reason }),
        Acse::ReleaseResponse { reason } => Ok(Acse::ReleaseResponse { reason: *reason }),
        Acse::Abort { source, .. } => Ok(Acse::Abort {
            source: *source,
            user: externals_of(alloc, codecs, user)?,
        }),
    }
}

/// The octets of an APDU of association control with its user information.
fn association_octets(
    alloc: Global,
    codecs: &Codecs,
    apdu: &Acse,
    user: &[Information],
) -> Result<Octets, NoMemory>
    ensures { IfOk result (λ octets. octets
        ≡ written_acse (with_user (map seen_information user.now) apdu.now)) }
{
    let whole = with_user(alloc, codecs, user, apdu)?;
    codecs.acse.write(alloc, &whole)
}

/// The octets of a part of a transfer.
fn part_octets(alloc: Global, codecs: &Codecs, octets: &Octets) -> Result<Octets, NoMemory>
    ensures { IfOk result (λ text. text ≡ written_rtse (rtses.Transfer octets.now)) }
{
    let part = Rtse::Transfer {
        octets: octets.copy(alloc)?,
    };
    codecs.rtse.write(alloc, &part)
}

/// The one spelling of a value in a transfer syntax. Octets that spell no APDU are their own.
pub fn write_content(
    alloc: Global,
    codecs: &Codecs,
    tables: &Tables,
    syntax: Syntax,
    content: &ValueContent,
) -> Result<Octets, NoMemory>
    ensures { IfOk result (λ octets. octets ≡ content_octets tables.now syntax
        (seen_content content.now)) }
{
    match content {
        ValueContent::Remote { apdu, .. } => codecs.heads.write(alloc, syntax, tables, apdu),
        ValueContent::Unread(octets) => octets.copy(alloc),
        ValueContent::Association { apdu, user } => {
            association_octets(alloc, codecs, apdu, user.as_slice())
        }
        ValueContent::Plea { priority } => codecs.rtse.write(
            alloc,
            &Rtse::TurnPlease {
                priority: *priority,
            },
        ),
        ValueContent::Part(octets) => part_octets(alloc, codecs, octets),
    }
}

/// The form in which octets of this syntax stand.
fn in_form(syntax: Syntax, octets: Octets) -> PdvContent
    ensures { result ≡ in_form syntax octets }
{
    match syntax {
        Syntax::Ber => PdvContent::SingleAsn1Type(octets),
        Syntax::Der => PdvContent::SingleAsn1Type(octets),
        Syntax::Packed => PdvContent::OctetAligned(octets),
    }
}

/// A value with its context, which doesn't tell the transfer syntax (X.226 8.4.2).
pub fn write_value(
    alloc: Global,
    codecs: &Codecs,
    tables: &Tables,
    value: &Value,
) -> Result<Pdv, NoMemory>
    ensures { IfOk result (λ pdv. pdv ≡ pdv_of tables.now (seen_value value.now)) }
{
    let syntax = syntax_of(&value.pair);
    let octets = write_content(alloc, codecs, tables, syntax, &value.content)?;
    Ok(Pdv {
        transfer: None,
        id: value.id,
        content: in_form(syntax, octets),
    })
}

/// Values in their order.
pub(crate) fn pdvs_of(
    alloc: Global,
    codecs: &Codecs,
    tables: &Tables,
    values: &[Value],
) -> Result<Pdvs, NoMemory>
    ensures { IfOk result (λ pdvs. pdvs ≡ pdvs_of tables.now (map seen_value values.now)) }
{
    let mut pdvs = ListOf::new(alloc);
    for value in values {
        pdvs.push(write_value(alloc, codecs, tables, value)?)?;
    }
    Ok(pdvs)
}

/// The value of an APDU on a context.
fn item_pdv(
    alloc: Global,
    codecs: &Codecs,
    tables: &Tables,
    id: u32,
    syntax: Syntax,
    apdu: &Apdu,
) -> Result<Pdv, NoMemory>
    ensures { IfOk result (λ pdv. pdv ≡ record {
      transfer = None;
      id = id;
      content = in_form syntax (written_apdu tables.now syntax apdu.now);
    }) }
{
    let octets = codecs.heads.write(alloc, syntax, tables, apdu)?;
    Ok(Pdv {
        transfer: None,
        id,
        content: in_form(syntax, octets),
    })
}

/// The octets of a transfer of an APDU (X.228 7.3).
pub fn write_item(
    alloc: Global,
    codecs: &Codecs,
    tables: &Tables,
    item: &TransferItem,
) -> Result<Octets, NoMemory>
    ensures { IfOk result (λ octets. octets ≡ written_transfer
        (item_pdv tables.now (seen_item item.now))) }
{
    let pdv = item_pdv(
        alloc,
        codecs,
        tables,
        item.id,
        item.pair.transfer,
        &item.apdu,
    )?;
    codecs.transfers.write(alloc, &pdv)
}
