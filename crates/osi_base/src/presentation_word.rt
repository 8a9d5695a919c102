//! The units of the presentation protocol (X.226 8.2), with the fields that are read or written.

ghost use Rattle.std.specs.Prelude.{◌≡◌, IfOk};
ghost use Rattle.osi_base.specs.declared.presentation_word.PresentationWord.TheVariants as words;

use crate::bit_string::BitString;
use crate::copied::Copied;
use crate::fault::NoMemory;
use crate::layer_words::{AddAnswers, Answers, Ids, Proposals, RestoredList};
use crate::list::ListOf;
use crate::octets::Octets;
use crate::oid::Oid;
use std::alloc::Global;

/// The form in which a presentation data value stands (X.226 8.4.2).
#[derive(Debug, Drop)]
pub enum PdvContent {
    /// `[0]`: one whole BER value of any type.
    SingleAsn1Type(Octets),
    /// `[1]`: octets of any kind.
    OctetAligned(Octets),
    /// `[2]`: bits of any kind.
    Arbitrary(BitString),
}

impl PdvContent {
    ghost use Rattle.std.specs.Prelude.{◌≡◌};
    ghost use Rattle.osi_base.specs.PdvContent.{octets_of};

    /// The octets of the value. Those of bits are without how many are unused.
    pub fn octets(&self) -> &Octets
        ensures { result.now ≡ octets_of self.now }
    {
        match self {
            PdvContent::SingleAsn1Type(octets) => octets,
            PdvContent::OctetAligned(octets) => octets,
            PdvContent::Arbitrary(bits) => &bits.octets,
        }
    }
}

/// A presentation data value with its context (PDV-list of X.226 8.4.2).
#[derive(Debug, Drop)]
pub struct Pdv {
    /// Transfer syntax name, where it is told.
    pub transfer: Option<Oid>,
    /// Presentation context identifier, 1 to 32,767.
    pub id: u32,
    /// Presentation data values.
    pub content: PdvContent,
}

/// Presentation data values in their order, as user data. With none of them there is no user data.
pub type Pdvs = ListOf<Pdv>;

/// The fields of a CONNECT PRESENTATION unit, CP (X.226 8.2.1). One that isn't there is `None`; a
/// list that isn't there has no items.
#[derive(Debug, Drop)]
pub struct PresentationConnect {
    /// Protocol version, `[0]`: bit 0 stands for version 1.
    pub version: Option<BitString>,
    /// Calling presentation selector, `[1]`.
    pub calling: Option<Octets>,
    /// Called presentation selector, `[2]`.
    pub called: Option<Octets>,
    /// Presentation context definition list, `[4]`.
    pub definitions: Proposals,
    /// Default context name, `[6]`: one whole BER value.
    pub default_context: Option<Octets>,
    /// Presentation requirements, `[8]`: bit 0 context management, bit 1 context restoration.
    pub requirements: Option<BitString>,
    /// User session requirements, `[9]`, a bit for each functional unit: 0 half-duplex, 1 duplex, 3
    /// minor synchronize, 5 resynchronize, 6 activities, 10 typed data.
    pub session_requirements: Option<BitString>,
    /// User data: the presentation data values that the unit carries, in their order.
    pub user: Pdvs,
}

/// The fields of a CONNECT PRESENTATION ACCEPT unit, CPA (X.226 8.2.2).
#[derive(Debug, Drop)]
pub struct PresentationAccept {
    /// Protocol version, `[0]`: bit 0 stands for version 1.
    pub version: Option<BitString>,
    /// Responding presentation selector, `[3]`.
    pub responding: Option<Octets>,
    /// Presentation context definition result list, `[5]`.
    pub results: AddAnswers,
    /// Presentation requirements, `[8]`: bit 0 context management, bit 1 context restoration.
    pub requirements: Option<BitString>,
    /// User session requirements, `[9]`, a bit for each functional unit: 0 half-duplex, 1 duplex, 3
    /// minor synchronize, 5 resynchronize, 6 activities, 10 typed data.
    pub session_requirements: Option<BitString>,
    /// User data: the presentation data values that the unit carries, in their order.
    pub user: Pdvs,
}

/// The fields of a CONNECT PRESENTATION REJECT unit, CPR (X.226 8.2.3).
#[derive(Debug, Drop)]
pub struct PresentationReject {
    /// Protocol version, `[0]`: bit 0 stands for version 1.
    pub version: Option<BitString>,
    /// Responding presentation selector, `[3]`.
    pub responding: Option<Octets>,
    /// Presentation context definition result list, `[5]`.
    pub results: AddAnswers,
    /// Default context result, `[7]`: 0 accepted, 1 rejected by the user, 2 by the provider.
    pub default_result: Option<u8>,
    /// Provider reason, `[10]`: 0 not told, 1 congestion for a while, 2 a local limit, 3 an unknown
    /// called address, 4 the protocol version, 5 the default context, 6 user data that can't be
    /// read, 7 nobody at the address.
    pub reason: Option<i64>,
    /// User data: the presentation data values that the unit carries, in their order.
    pub user: Pdvs,
}

/// One unit of the presentation protocol. A field that isn't there is `None`; a list that isn't
/// there has no items, but in a restart, where a list that lacks tells nothing.
#[derive(Debug, Drop)]
pub enum PresentationWord {
    /// CONNECT PRESENTATION, CP.
    Connect(PresentationConnect),
    /// CONNECT PRESENTATION ACCEPT, CPA.
    Accept(PresentationAccept),
    /// CONNECT PRESENTATION REJECT, CPR.
    Reject(PresentationReject),
    /// ALTER CONTEXT, AC.
    Alter {
        /// Contexts to be defined, `[0]`.
        add: Proposals,
        /// Contexts to be deleted, `[1]`.
        delete: Ids,
    },
    /// ALTER CONTEXT ACKNOWLEDGE, ACA.
    AlterAck {
        /// One result for each definition, `[0]`, and for each deletion, `[1]`.
        answers: Answers,
    },
    /// RESYNCHRONIZE, RS.
    Resynchronize {
        /// The contexts that are restored, `[0]`.
        restored: Option<RestoredList>,
    },
    /// RESYNCHRONIZE ACKNOWLEDGE, RSA.
    ResynchronizeAck {
        /// The contexts that are restored, `[0]`.
        restored: Option<RestoredList>,
    },
    /// ABNORMAL RELEASE USER, ARU.
    UserAbort {
        /// The contexts of the set, `[0]`.
        contexts: Option<RestoredList>,
        /// User data: the presentation data values that the unit carries, in their order.
        user: Pdvs,
    },
    /// ABNORMAL RELEASE PROVIDER, ARP.
    ProviderAbort {
        /// The provider reason, `[0]`: 0 not told, 1 a unit that isn't known, 2 one that isn't
        /// expected, 3 an event of the session that isn't, 4 a field that isn't known, 5 one that
        /// isn't expected, 6 a value that is wrong.
        reason: Option<i64>,
        /// The unit or event that led to it, `[1]`, as X.226 numbers them: 0 CP, 1 CPA, 2 CPR.
        event: Option<i64>,
    },
    /// User data alone, as data, releases and pleas for the token carry it.
    Data {
        /// User data: the presentation data values that the unit carries, in their order.
        user: Pdvs,
    },
}

/// A unit of the presentation protocol.
pub type Ppdu = PresentationWord;

impl Copied for PdvContent {
    fn copy(&self, alloc: Global) -> Result<PdvContent, NoMemory> {
        match self {
            PdvContent::SingleAsn1Type(octets) => {
                Ok(PdvContent::SingleAsn1Type(octets.copy(alloc)?))
            }
            PdvContent::OctetAligned(octets) => Ok(PdvContent::OctetAligned(octets.copy(alloc)?)),
            PdvContent::Arbitrary(bits) => Ok(PdvContent::Arbitrary(bits.copy(alloc)?)),
        }
    }
}

impl Copied for Pdv {
    fn copy(&self, alloc: Global) -> Result<Pdv, NoMemory> {
        Ok(Pdv {
            transfer: self.transfer.copy(alloc)?,
            id: self.id,
            content: self.content.copy(alloc)?,
        })
    }
}

impl Copied for PresentationConnect {
    fn copy(&self, alloc: Global) -> Result<PresentationConnect, NoMemory> {
        Ok(PresentationConnect {
            version: self.version.copy(alloc)?,
            calling: self.calling.copy(alloc)?,
            called: self.called.copy(alloc)?,
            definitions: self.definitions.copy(alloc)?,
            default_context: self.default_context.copy(alloc)?,
            requirements: self.requirements.copy(alloc)?,
            session_requirements: self.session_requirements.copy(alloc)?,
            user: self.user.copy(alloc)?,
        })
    }
}

impl Copied for PresentationAccept {
    fn copy(&self, alloc: Global) -> Result<PresentationAccept, NoMemory> {
        Ok(PresentationAccept {
            version: self.version.copy(alloc)?,
            responding: self.responding.copy(alloc)?,
            results: self.results.copy(alloc)?,
            requirements: self.requirements.copy(alloc)?,
            session_requirements: self.session_requirements.copy(alloc)?,
            user: self.user.copy(alloc)?,
        })
    }
}

impl Copied for PresentationReject {
    fn copy(&self, alloc: Global) -> Result<PresentationReject, NoMemory> {
        Ok(PresentationReject {
            version: self.version.copy(alloc)?,
            responding: self.responding.copy(alloc)?,
            results: self.results.copy(alloc)?,
            default_result: self.default_result,
            reason: self.reason,
            user: self.user.copy(alloc)?,
        })
    }
}

fn copy_connect(alloc: Global, fields: &PresentationConnect) -> Result<PresentationWord, NoMemory>
    ensures { IfOk result (λ copy. copy ≡ words.Connect fields.now) }
{
    Ok(PresentationWord::Connect(fields.copy(alloc)?))
}

fn copy_accept(alloc: Global, fields: &PresentationAccept) -> Result<PresentationWord, NoMemory>
    ensures { IfOk result (λ copy. copy ≡ words.Accept fields.now) }
{
    Ok(PresentationWord::Accept(fields.copy(alloc)?))
}

fn copy_reject(alloc: Global, fields: &PresentationReject) -> Result<PresentationWord, NoMemory>
    ensures { IfOk result (λ copy. copy ≡ words.Reject fields.now) }
{
    Ok(PresentationWord::Reject(fields.copy(alloc)?))
}

fn copy_alter(alloc: Global, add: &Proposals, delete: &Ids) -> Result<PresentationWord, NoMemory>
    ensures { IfOk result (λ copy. copy ≡ words.Alter add.now delete.now) }
{
    Ok(PresentationWord::Alter {
        add: add.copy(alloc)?,
        delete: delete.copy(alloc)?,
    })
}

fn copy_alter_ack(alloc: Global, answers: &Answers) -> Result<PresentationWord, NoMemory>
    ensures { IfOk result (λ copy. copy ≡ words.AlterAck answers.now) }
{
    Ok(PresentationWord::AlterAck {
        answers: answers.copy(alloc)?,
    })
}

fn copy_resynchronize(
    alloc: Global,
    restored: &Option<RestoredList>,
) -> Result<PresentationWord, NoMemory>
    ensures { IfOk result (λ copy. copy ≡ words.Resynchronize restored.now) }
{
    Ok(PresentationWord::Resynchronize {
        restored: restored.copy(alloc)?,
    })
}

fn copy_resynchronize_ack(
    alloc: Global,
    restored: &Option<RestoredList>,
) -> Result<PresentationWord, NoMemory>
    ensures { IfOk result (λ copy. copy ≡ words.ResynchronizeAck restored.now) }
{
    Ok(PresentationWord::ResynchronizeAck {
        restored: restored.copy(alloc)?,
    })
}

fn copy_user_abort(
    alloc: Global,
    contexts: &Option<RestoredList>,
    user: &Pdvs,
) -> Result<PresentationWord, NoMemory>
    ensures { IfOk result (λ copy. copy ≡ words.UserAbort contexts.now user.now) }
{
    Ok(PresentationWord::UserAbort {
        contexts: contexts.copy(alloc)?,
        user: user.copy(alloc)?,
    })
}

fn copy_data(alloc: Global, user: &Pdvs) -> Result<PresentationWord, NoMemory>
    ensures { IfOk result (λ copy. copy ≡ words.Data user.now) }
{
    Ok(PresentationWord::Data {
        user: user.copy(alloc)?,
    })
}

impl Copied for PresentationWord {
    fn copy(&self, alloc: Global) -> Result<PresentationWord, NoMemory> {
        match self {
            PresentationWord::Connect(fields) => copy_connect(alloc, fields),
            PresentationWord::Accept(fields) => copy_accept(alloc, fields),
            PresentationWord::Reject(fields) => copy_reject(alloc, fields),
            PresentationWord::Alter { add, delete } => copy_alter(alloc, add, delete),
            PresentationWord::AlterAck { answers } => copy_alter_ack(alloc, answers),
            PresentationWord::Resynchronize { restored } => copy_resynchronize(alloc, restored),
            PresentationWord::ResynchronizeAck { restored } => {
                copy_resynchronize_ack(alloc, restored)
            }
            PresentationWord::UserAbort { contexts, user } => {
                copy_user_abort(alloc, contexts, user)
            }
            PresentationWord::ProviderAbort { reason, event } => {
                Ok(PresentationWord::ProviderAbort {
                    reason: *reason,
                    event: *event,
                })
            }
            PresentationWord::Data { user } => copy_data(alloc, user),
        }
    }
}
