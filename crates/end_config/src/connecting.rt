//! The CP of an initiator.

ghost use Rattle.std.specs.Prelude.{◌≡◌, ◌++◌, ◌∷◌, [], IfOk, OnOk, Some, None, true, false, pos};
ghost use Rattle.osi_base.specs.declared.presentation_word.PresentationWord.TheVariants as unit;
ghost use Rattle.osi_base.specs.Syntax.{acse_name, rtse_name};
ghost use Rattle.association_ground.specs.end_rules.Base.{ber_name, application_context};
ghost use Rattle.association_ground.specs.end_rules.Writing.{proposal_in_ber, own_proposals, requirement_bits};
ghost use Rattle.end_config.specs.Connecting.{connection_data, transfer_request, externals};
ghost use Rattle.end_config.specs.Connecting.{request_pdv, connect_of, connect_octets};

use acse::write_acse;
use association_ground::application_context;
use dialogue::{Config, Mode};
use osi_base::{
    Acse, BitString, ConnectionData, Copied, External, Externals, ListOf, NoMemory, Octets, Oid,
    Oids, Pdv, PdvContent, Pdvs, Ppdu, PresentationConnect, Proposal, Proposals, Rtse,
};
use presentation_pdus::write_ppdu;
use rtse_apdus::write_rtse;
use std::alloc::Global;

/// A context that an initiator proposes of itself, in BER.
fn proposal_in_ber(alloc: Global, id: u32, name: Oid) -> Result<Proposal, NoMemory>
    ensures { IfOk result (λ p. p ≡ proposal_in_ber id name) }
{
    let mut transfers: Oids = ListOf::new(alloc);
    transfers.push(Oid::from_slice(alloc, &[2, 1, 1])?)?;
    Ok(Proposal {
        id,
        abstract_name: name,
        transfers,
    })
}

/// The contexts that an initiator proposes of itself.
fn own_proposals(alloc: Global, mode: Mode) -> Result<Proposals, NoMemory>
    ensures { IfOk result (λ ps. ps ≡ own_proposals mode) }
{
    let mut proposals: Proposals = ListOf::new(alloc);
    proposals.push(proposal_in_ber(alloc, 1, Oid::from_slice(alloc, &[2, 2, 1, 0, 1])?)?)?;
    match mode {
        Mode::Reliable => {
            let name = Oid::from_slice(alloc, &[2, 999, 5, 2])?;
            proposals.push(proposal_in_ber(alloc, 3, name)?)?;
            Ok(proposals)
        }
        Mode::Direct => Ok(proposals),
        Mode::Bare => Ok(proposals),
    }
}

/// Puts copies of contexts behind others.
fn push_all(alloc: Global, proposals: &mut Proposals, contexts: &[Proposal]) -> Result<(), NoMemory>
    ensures { OnOk result (proposals.new ≡ proposals.old ++ contexts.now) }
{
    for context in contexts {
        proposals.push(context.copy(alloc)?)?;
    }
    Ok(())
}

/// Whether an association is opened, or which one is recovered.
fn connection_data(
    alloc: Global,
    config: &Config,
    recovers: bool,
) -> Result<ConnectionData, NoMemory>
    ensures { IfOk result (λ d. d ≡ connection_data config.now recovers) }
{
    if recovers {
        Ok(ConnectionData::Recover {
            reference: config.reference.copy(alloc)?,
            common: config.common.copy(alloc)?,
        })
    } else {
        Ok(ConnectionData::Open(Octets::from_slice(alloc, &[5, 0])?))
    }
}

/// The request of reliable transfer.
fn transfer_request(alloc: Global, config: &Config, recovers: bool) -> Result<Octets, NoMemory>
    ensures { IfOk result (λ os. os ≡ transfer_request config.now recovers) }
{
    let data = connection_data(alloc, config, recovers)?;
    let request = Rtse::OpenRequest {
        checkpoint: config.checkpoint,
        window: config.window,
        mode: 1,
        data,
    };
    write_rtse(alloc, &request)
}

/// The user information of the request for an association.
fn externals(alloc: Global, config: &Config, recovers: bool) -> Result<Externals, NoMemory>
    ensures { IfOk result (λ es. es ≡ externals config.now config.now.mode recovers) }
{
    let mut user: Externals = ListOf::new(alloc);
    match config.mode {
        Mode::Reliable => {
            let value = transfer_request(alloc, config, recovers)?;
            user.push(External { id: 3, value })?;
            Ok(user)
        }
        Mode::Direct => Ok(user),
        Mode::Bare => Ok(user),
    }
}

/// The request for an association, as a presentation data value.
fn request_pdv(alloc: Global, config: &Config, recovers: bool) -> Result<Pdv, NoMemory>
    ensures { IfOk result (λ p. p ≡ request_pdv config.now recovers) }
{
    let context = application_context(alloc, config.mode)?;
    let user = externals(alloc, config, recovers)?;
    let request = Acse::AssociateRequest {
        version: None,
        context,
        user,
    };
    Ok(Pdv {
        transfer: None,
        id: 1,
        content: PdvContent::SingleAsn1Type(write_acse(alloc, &request)?),
    })
}

/// Context management and restoration.
fn both_requirements(alloc: Global) -> Result<BitString, NoMemory>
    ensures { IfOk result (λ bits. bits ≡ requirement_bits true) }
{
    Ok(BitString {
        octets: Octets::from_slice(alloc, &[192])?,
        unused: 6,
    })
}

/// The CP with which an initiator opens or recovers an association.
fn connect(alloc: Global, config: &Config, recovers: bool) -> Result<PresentationConnect, NoMemory>
    ensures { IfOk result (λ c. c ≡ connect_of config.now recovers) }
{
    let mut definitions = own_proposals(alloc, config.mode)?;
    push_all(alloc, &mut definitions, config.contexts.as_slice())?;
    let mut user: Pdvs = ListOf::new(alloc);
    user.push(request_pdv(alloc, config, recovers)?)?;
    Ok(PresentationConnect {
        version: None,
        calling: Some(config.calling.copy(alloc)?),
        called: Some(config.called.copy(alloc)?),
        definitions,
        default_context: None,
        requirements: Some(both_requirements(alloc)?),
        session_requirements: None,
        user,
    })
}

/// The same as a unit of the presentation protocol.
fn connect_unit(alloc: Global, config: &Config, recovers: bool) -> Result<Ppdu, NoMemory>
    ensures { IfOk result (λ u. u ≡ unit.Connect (connect_of config.now recovers)) }
{
    Ok(Ppdu::Connect(connect(alloc, config, recovers)?))
}

/// The octets of the CP (X.226 8.2.1) with which an initiator of this configuration opens an
/// association, or recovers one: with its request for an association, and in reliable mode that
/// for transfers. `check_config` counts these.
pub fn connect_octets(alloc: Global, config: &Config, recovers: bool) -> Result<Octets, NoMemory>
    ensures { IfOk result (λ octets. octets ≡ connect_octets config.now recovers) }
{
    let unit = connect_unit(alloc, config, recovers)?;
    let octets = write_ppdu(alloc, &unit);
    drop(unit);
    octets
}
