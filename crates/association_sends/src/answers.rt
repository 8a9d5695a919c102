//! Answers to an opening, and the release, that an end writes.

ghost use Rattle.std.specs.Prelude.{◌≡◌, IfOk, Some, None, map, [], ◌∷◌, pos};
ghost use Rattle.osi_base.specs.declared.acse_word.Acse.TheVariants as acse;
ghost use Rattle.osi_base.specs.declared.acse_word.Diagnostic.TheVariants.{User};
ghost use Rattle.end_rules.specs.Writing.{requirement_bits, acse_value, accept_message, refuse_message, provider_refusal, finish_message, disconnect_message};
ghost use Rattle.association_words.specs.Seen.{seen_message, seen_information, seen_value};
ghost use Rattle.association_state.specs.Seen.{base_in, seen};

use crate::opening::{initial_number, requirement_bits};
use crate::values::acse_value;
use association_state::{Basis, Body};
use association_words::{
    Accepting, AssociationWord, Message, UserInformation, Value, Values, Word,
};
use osi_base::{
    Acse, AddAnswers, Copied, Diagnostic, ListOf, NoMemory, Oid, PresentationAccept,
    PresentationReject, SetItem,
};
use std::alloc::Global;

/// One value alone.
fn alone(alloc: Global, value: Value) -> Result<Values, NoMemory>
    ensures { IfOk result (λ values. values ≡ value ∷ []) }
{
    let mut values: Values = ListOf::new(alloc);
    values.push(value)?;
    Ok(values)
}

/// The presentation part of an acceptance.
fn presentation_accept(
    basis: &Basis<'_>,
    results: AddAnswers,
    manages: bool,
) -> Result<PresentationAccept, NoMemory>
    ensures { IfOk result (λ p. p ≡ record {
      version = None;
      responding = Some basis.now.config.called;
      results = results;
      requirements = Some (requirement_bits manages);
      session_requirements = None;
      user = [];
    }) }
{
    let alloc = basis.alloc;
    Ok(PresentationAccept {
        version: None,
        responding: Some(basis.config.called.copy(alloc)?),
        results,
        requirements: Some(requirement_bits(alloc, manages)?),
        session_requirements: None,
        user: ListOf::new(alloc),
    })
}

/// What an AARE says: the application context, and the user information.
#[derive(Debug, Drop)]
pub struct Response {
    /// The application context name.
    pub context: Oid,
    /// The user information, in its order.
    pub user: UserInformation,
}

/// The AARE that accepts, or refuses.
fn response_value(
    alloc: Global,
    accepted: &[SetItem],
    refused: u8,
    response: Response,
) -> Result<Value, NoMemory>
    ensures { IfOk result (λ value. seen_value value ≡ acse_value accepted.now
        (acse.AssociateResponse response.context refused (User (pos refused)) [])
        (map seen_information response.user)) }
{
    let Response { context, user } = response;
    let apdu = Acse::AssociateResponse {
        context,
        result: refused,
        diagnostic: Diagnostic::User(i64::from(refused)),
        user: ListOf::new(alloc),
    };
    acse_value(alloc, accepted, apdu, user)
}

/// AC with these results.
pub fn accept_message(
    basis: &Basis<'_>,
    accepted: &[SetItem],
    results: AddAnswers,
    selected: u16,
    manages: bool,
    response: Response,
) -> Result<Message, NoMemory>
    ensures { IfOk result (λ m. seen_message m ≡ accept_message (base_in basis.now) accepted.now
        results selected manages response.context (map seen_information response.user)) }
{
    let alloc = basis.alloc;
    let value = response_value(alloc, accepted, 0, response)?;
    let values = alone(alloc, value)?;
    let presentation = presentation_accept(basis, results, manages)?;
    Ok(Message::Session(Word::OfAssociation(AssociationWord::Accept {
        session: Accepting {
            options: Some(0),
            version: Some(2),
            initial: initial_number(basis.config.mode),
            requirements: Some(selected),
        },
        presentation,
        values,
    })))
}

/// The presentation part of a refusal.
fn reject_with(alloc: Global, results: AddAnswers, reason: Option<i64>) -> PresentationReject
    ensures { result ≡ record {
      version = None;
      responding = None;
      results = results;
      default_result = None;
      reason = reason;
      user = [];
    } }
{
    PresentationReject {
        version: None,
        responding: None,
        results,
        default_result: None,
        reason,
        user: ListOf::new(alloc),
    }
}

/// RF with an AARE.
pub fn refuse_message(
    alloc: Global,
    accepted: &[SetItem],
    results: AddAnswers,
    response: Response,
) -> Result<Message, NoMemory>
    ensures { IfOk result (λ m. seen_message m ≡ refuse_message accepted.now results
        response.context (map seen_information response.user)) }
{
    let value = response_value(alloc, accepted, 1, response)?;
    let values = alone(alloc, value)?;
    Ok(Message::Session(Word::OfAssociation(AssociationWord::Refuse {
        transport: Some(1),
        reason: Some(2),
        presentation: Some(reject_with(alloc, results, None)),
        values,
    })))
}

/// RF of the provider: reason not specified.
pub fn provider_refusal(alloc: Global) -> Message
    ensures { seen_message result ≡ provider_refusal }
{
    Message::Session(Word::OfAssociation(AssociationWord::Refuse {
        transport: Some(1),
        reason: Some(2),
        presentation: Some(reject_with(alloc, ListOf::new(alloc), Some(0))),
        values: ListOf::new(alloc),
    }))
}

/// FN with its request.
pub fn finish_message(alloc: Global, body: &Body) -> Result<Message, NoMemory>
    ensures { IfOk result (λ m. seen_message m ≡ finish_message (seen body.now)) }
{
    let apdu = Acse::ReleaseRequest { reason: 0 };
    let value = acse_value(
        alloc,
        body.link.accepted.as_slice(),
        apdu,
        ListOf::new(alloc),
    )?;
    Ok(Message::Session(Word::OfAssociation(AssociationWord::Finish {
        transport: Some(1),
        values: alone(alloc, value)?,
    })))
}

/// DN with its response.
pub fn disconnect_message(alloc: Global, body: &Body) -> Result<Message, NoMemory>
    ensures { IfOk result (λ m. seen_message m ≡ disconnect_message (seen body.now)) }
{
    let apdu = Acse::ReleaseResponse { reason: 0 };
    let value = acse_value(
        alloc,
        body.link.accepted.as_slice(),
        apdu,
        ListOf::new(alloc),
    )?;
    Ok(Message::Session(Word::OfAssociation(AssociationWord::Disconnect {
        values: alone(alloc, value)?,
    })))
}
