//! The opening that an end writes.

ghost use Rattle.std.specs.Prelude.{◌≡◌, IfOk, pos};
ghost use Rattle.osi_base.specs.declared.rtse_word.Rtse.TheVariants as rtse;
ghost use Rattle.end_rules.specs.Units.{proposed_units};
ghost use Rattle.end_rules.specs.Base.{application_context};
ghost use Rattle.end_rules.specs.Writing.{in_reliable, initial_number, requirement_bits, session_connect, presentation_connect, connection_data, connect_values, connect_message, connection_request};
ghost use Rattle.association_words.specs.Seen.{seen_message, seen_values};
ghost use Rattle.association_state.specs.Seen.{base_in};

use crate::values::{acse_value, rtse_information};
use association_ground::{application_context, proposed_units};
use association_state::Basis;
use association_words::{AssociationWord, Message, TransportUnit, Values, Word};
use dialogue::Mode;
use osi_base::{
    Acse, BitString, ConnectionData, Copied, ListOf, NoMemory, Octets, PresentationConnect, Rtse,
    SessionConnect,
};
use set_rules::proposals;
use std::alloc::Global;

/// A reference of the association, which stands in the CN of reliable mode.
fn in_reliable(alloc: Global, mode: Mode, octets: &Octets) -> Result<Option<Octets>, NoMemory>
    ensures { IfOk result (λ o. o ≡ in_reliable mode octets.now) }
{
    match mode {
        Mode::Reliable => Ok(Some(octets.copy(alloc)?)),
        Mode::Direct => Ok(None),
        Mode::Bare => Ok(None),
    }
}

/// The initial serial number, in direct mode.
pub(crate) fn initial_number(mode: Mode) -> Option<u32>
    ensures { result ≡ initial_number mode }
{
    match mode {
        Mode::Direct => Some(1),
        Mode::Reliable => None,
        Mode::Bare => None,
    }
}

/// Context management and restoration, both or none.
pub(crate) fn requirement_bits(alloc: Global, both: bool) -> Result<BitString, NoMemory>
    ensures { IfOk result (λ bits. bits ≡ requirement_bits both) }
{
    if both {
        Ok(BitString {
            octets: Octets::from_slice(alloc, &[192])?,
            unused: 6,
        })
    } else {
        Ok(BitString {
            octets: Octets::from_slice(alloc, &[0])?,
            unused: 6,
        })
    }
}

/// The session part of the opening.
fn session_connect(basis: &Basis<'_>) -> Result<SessionConnect, NoMemory>
    ensures { IfOk result (λ s. s ≡ session_connect (base_in basis.now)) }
{
    let alloc = basis.alloc;
    let config = &basis.config;
    Ok(SessionConnect {
        calling_reference: in_reliable(alloc, config.mode, &config.reference)?,
        common_reference: in_reliable(alloc, config.mode, &config.common)?,
        options: Some(0),
        version: Some(2),
        initial: initial_number(config.mode),
        token_setting: None,
        requirements: Some(proposed_units(config.mode)),
        calling: Some(config.calling.copy(alloc)?),
        called: Some(config.called.copy(alloc)?),
        user: Octets::new(alloc),
    })
}

/// The presentation part of the opening.
fn presentation_connect(basis: &Basis<'_>) -> Result<PresentationConnect, NoMemory>
    ensures { IfOk result (λ p. p ≡ presentation_connect (base_in basis.now)) }
{
    let alloc = basis.alloc;
    let config = &basis.config;
    Ok(PresentationConnect {
        version: None,
        calling: Some(config.calling.copy(alloc)?),
        called: Some(config.called.copy(alloc)?),
        definitions: proposals(alloc, config)?,
        default_context: None,
        requirements: Some(requirement_bits(alloc, true)?),
        session_requirements: None,
        user: ListOf::new(alloc),
    })
}

/// What the opening of an association carries for its user, NULL; or which association it recovers.
pub fn connection_data(basis: &Basis<'_>, recovers: bool) -> Result<ConnectionData, NoMemory>
    ensures { IfOk result (λ d. d ≡ connection_data (base_in basis.now) recovers) }
{
    if recovers {
        Ok(ConnectionData::Recover {
            reference: basis.config.reference.copy(basis.alloc)?,
            common: basis.config.common.copy(basis.alloc)?,
        })
    } else {
        Ok(ConnectionData::Open(Octets::from_slice(basis.alloc, &[5, 0])?))
    }
}

/// The request of reliable transfer.
fn open_request(basis: &Basis<'_>, recovers: bool) -> Result<Rtse, NoMemory>
    ensures { IfOk result (λ r. r ≡ rtse.OpenRequest basis.now.config.checkpoint
        basis.now.config.window (pos 1) (connection_data (base_in basis.now) recovers)) }
{
    Ok(Rtse::OpenRequest {
        checkpoint: basis.config.checkpoint,
        window: basis.config.window,
        mode: 1,
        data: connection_data(basis, recovers)?,
    })
}

/// The values of the opening: the request for an association.
fn connect_values(basis: &Basis<'_>, recovers: bool) -> Result<Values, NoMemory>
    ensures { IfOk result (λ values. seen_values values ≡ connect_values (base_in basis.now)
        recovers) }
{
    let alloc = basis.alloc;
    let request = open_request(basis, recovers)?;
    let user = rtse_information(alloc, basis.config.mode, &[], request)?;
    let apdu = Acse::AssociateRequest {
        version: None,
        context: application_context(alloc, basis.config.mode)?,
        user: ListOf::new(alloc),
    };
    let mut values: Values = ListOf::new(alloc);
    values.push(acse_value(alloc, &[], apdu, user)?)?;
    Ok(values)
}

/// CN, for an opening or a recovery.
pub fn connect_message(basis: &Basis<'_>, recovers: bool) -> Result<Message, NoMemory>
    ensures { IfOk result (λ m. seen_message m ≡ connect_message (base_in basis.now) recovers) }
{
    let values = connect_values(basis, recovers)?;
    let session = session_connect(basis)?;
    let presentation = presentation_connect(basis)?;
    Ok(Message::Session(Word::OfAssociation(AssociationWord::Connect {
        session,
        presentation,
        values,
    })))
}

/// CR, which proposes 1,024 octets.
pub fn connection_request(basis: &Basis<'_>) -> Result<Message, NoMemory>
    ensures { IfOk result (λ m. seen_message m ≡ connection_request (base_in basis.now)) }
{
    Ok(Message::Transport(TransportUnit::ConnectionRequest {
        source: 1,
        size: Some(10),
        calling: basis.config.calling.copy(basis.alloc)?,
        called: basis.config.called.copy(basis.alloc)?,
    }))
}
