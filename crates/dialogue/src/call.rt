//! What an end is asked, and why it refuses.

use crate::config::Phase;
use asn1_types::Val;
use osi_base::{Copied, Ids, NoMemory, Proposals, WordWithNumber};
use std::alloc::Global;
use std::error::Error;
use std::fmt;

/// A call of an end.
#[derive(Debug, Drop)]
pub enum Call {
    /// Opens the association.
    Open,
    /// Invokes the operation at this place on a context, linked to a peer's invocation or not.
    Invoke {
        /// The identifier of the presentation context.
        context: u32,
        /// The operation's place in the module's table, counted from 0.
        operation: u32,
        /// The argument, where there is one.
        argument: Option<Val>,
        /// The identifier of the peer's invocation that it is linked to, if it is.
        linked: Option<i64>,
    },
    /// Returns the result of the peer's invocation of this identifier.
    Answer {
        /// The identifier of the peer's invocation.
        id: i64,
        /// The value of the result, where it has one.
        result: Option<Val>,
    },
    /// Returns an error for the peer's invocation of this identifier.
    Refuse {
        /// The identifier of the peer's invocation.
        id: i64,
        /// The error's place in the module's table, counted from 0.
        error: u32,
        /// The error's parameter, where there is one.
        parameter: Option<Val>,
    },
    /// Asks for an alteration of the context set.
    Alter {
        /// The contexts that are proposed.
        add: Proposals,
        /// The identifiers of the contexts to be deleted.
        delete: Ids,
    },
    /// Sets a mark, in direct mode.
    Mark,
    /// Gives the turn to the peer.
    Give,
    /// Asks the peer for the turn, with this priority.
    Please {
        /// The priority; 0 is the highest.
        priority: u32,
    },
    /// Asks for a restart, in direct mode: the marks from this number on are forgotten, and the set
    /// of contexts is again that of the mark before.
    Resync {
        /// The mark's number, 1 up to that of the next mark.
        n: u32,
    },
    /// Interrupts the own activity, in reliable mode.
    Interrupt,
    /// Resumes the own activity that is suspended, in reliable mode.
    Resume,
    /// Discards the own activity, in reliable mode.
    Discard,
    /// Recovers the broken association over a new connection.
    Recover,
    /// Releases the association in order.
    Release,
    /// Aborts the association.
    Abort,
}

/// Why an end refuses a call. It prints as a transcript tells it: by the name of the variant, with
/// the number that it carries.
#[derive(Clone, Copy, Debug, PartialEq, Eq)]
pub enum CallRefusal {
    /// An allocation was refused within an earlier call.
    Dead,
    /// The call is the initiator's alone.
    NotInitiator,
    /// The call isn't one for this phase, which is the end's.
    WrongPhase(Phase),
    /// The mode, or what the ends agreed on, doesn't provide the call.
    NotNegotiated,
    /// An own request isn't answered yet.
    Waiting,
    /// The module has no operation at this place.
    UnknownOperation,
    /// The context of this identifier isn't in the set, or can't carry the operation.
    Absent(u32),
    /// An own alteration isn't answered yet, and the call has to wait for it.
    AlterPending,
    /// The peer's invocation of this identifier, which is to be linked to, isn't open.
    ParentClosed(i64),
    /// The operation may not be linked to the peer's invocation of this identifier.
    LinkNotAllowed(i64),
    /// The value, or its lack, doesn't fit what is to carry it.
    NotTyped,
    /// The APDU would have too many octets.
    TooLong,
    /// 4,096 own invocations are open.
    TooManyOpen,
    /// The identifiers of invocations, up to 2,147,483,647, are used up.
    NumbersSpent,
    /// 64 APDUs wait for their transfers.
    QueueFull,
    /// The peer has no open invocation of this identifier.
    NoInvocation(i64),
    /// The operation doesn't return a result, or doesn't have this error.
    NotAllowed,
    /// There is no context on which the outcome can go.
    NoContext,
    /// The module has no error at this place.
    UnknownError,
    /// The turn is at the peer.
    NoTurn,
    /// The end of the own activity of this number was sent, and isn't answered yet.
    Ending(u32),
    /// The alteration asks for nothing, names an identifier twice or one that isn't 1 to 32,767, or
    /// an addition offers no or too many transfer syntaxes.
    BadProposal,
    /// The identifier of this context is odd or even as only the peer's may be.
    WrongParity(u32),
    /// An own alteration that isn't answered yet names this context.
    Named(u32),
    /// The context of this identifier is in the set.
    Present(u32),
    /// The context of this identifier may not be deleted.
    Fixed(u32),
    /// The context of this identifier is in use.
    InUse(u32),
    /// The set would have more than 64 contexts, own additions that wait among them.
    SetFull,
    /// All 65,536 marks are set.
    MarksFull,
    /// The own activity of this number is in progress, or for a release is suspended.
    ActivityOpen(u32),
    /// The turn is at this end.
    HasTurn,
    /// The number is 0, or above that of the next mark.
    NoSuchMark(u32),
    /// No own activity is in progress.
    NoActivity,
    /// No own activity is suspended.
    NotSuspended,
    /// So many APDUs wait for their transfers.
    QueueWaiting(u32),
    /// So many own invocations are open.
    OpenInvocations(u32),
    /// An allocation was refused.
    NoMemory,
}

impl fmt::Display for CallRefusal {
    ghost use Rattle.std.specs.Prelude.{Some};
    ghost use Rattle.dialogue.specs.Printed.{call_refusal_text};

    ghost output = { λ refusal. Some (call_refusal_text refusal) };

    fn fmt<W: fmt::Write>(&self, f: &mut fmt::Formatter<W>) -> fmt::Result {
        let word = self.word();
        let number = self.number();
        fmt::Display::fmt(&WordWithNumber { word, number }, f)
    }
}

impl Error for CallRefusal {}

impl CallRefusal {
    ghost use Rattle.std.specs.Prelude.{◌≡◌};
    ghost use Rattle.dialogue.specs.Printed.{call_refusal_word, call_refusal_number};

    /// Its name, as a transcript tells it.
    pub fn word(self) -> &'static str
        ensures { result.now ≡ call_refusal_word self }
    {
        match self {
            CallRefusal::Dead => "Dead",
            CallRefusal::NotInitiator => "NotInitiator",
            CallRefusal::WrongPhase(_) => "WrongPhase",
            CallRefusal::NotNegotiated => "NotNegotiated",
            CallRefusal::Waiting => "Waiting",
            CallRefusal::UnknownOperation => "UnknownOperation",
            CallRefusal::Absent(_) => "Absent",
            CallRefusal::AlterPending => "AlterPending",
            CallRefusal::ParentClosed(_) => "ParentClosed",
            CallRefusal::LinkNotAllowed(_) => "LinkNotAllowed",
            CallRefusal::NotTyped => "NotTyped",
            CallRefusal::TooLong => "TooLong",
            CallRefusal::TooManyOpen => "TooManyOpen",
            CallRefusal::NumbersSpent => "NumbersSpent",
            CallRefusal::QueueFull => "QueueFull",
            CallRefusal::NoInvocation(_) => "NoInvocation",
            CallRefusal::NotAllowed => "NotAllowed",
            CallRefusal::NoContext => "NoContext",
            CallRefusal::UnknownError => "UnknownError",
            CallRefusal::NoTurn => "NoTurn",
            CallRefusal::Ending(_) => "Ending",
            CallRefusal::BadProposal => "BadProposal",
            CallRefusal::WrongParity(_) => "WrongParity",
            CallRefusal::Named(_) => "Named",
            CallRefusal::Present(_) => "Present",
            CallRefusal::Fixed(_) => "Fixed",
            CallRefusal::InUse(_) => "InUse",
            CallRefusal::SetFull => "SetFull",
            CallRefusal::MarksFull => "MarksFull",
            CallRefusal::ActivityOpen(_) => "ActivityOpen",
            CallRefusal::HasTurn => "HasTurn",
            CallRefusal::NoSuchMark(_) => "NoSuchMark",
            CallRefusal::NoActivity => "NoActivity",
            CallRefusal::NotSuspended => "NotSuspended",
            CallRefusal::QueueWaiting(_) => "QueueWaiting",
            CallRefusal::OpenInvocations(_) => "OpenInvocations",
            CallRefusal::NoMemory => "NoMemory",
        }
    }

    /// The number that it carries, where a transcript tells one.
    pub fn number(self) -> Option<i64>
        ensures { result ≡ call_refusal_number self }
    {
        match self {
            CallRefusal::Absent(number) => Some(i64::from(number)),
            CallRefusal::ParentClosed(number) => Some(number),
            CallRefusal::LinkNotAllowed(number) => Some(number),
            CallRefusal::NoInvocation(number) => Some(number),
            CallRefusal::Ending(number) => Some(i64::from(number)),
            CallRefusal::WrongParity(number) => Some(i64::from(number)),
            CallRefusal::Named(number) => Some(i64::from(number)),
            CallRefusal::Present(number) => Some(i64::from(number)),
            CallRefusal::Fixed(number) => Some(i64::from(number)),
            CallRefusal::InUse(number) => Some(i64::from(number)),
            CallRefusal::ActivityOpen(number) => Some(i64::from(number)),
            CallRefusal::NoSuchMark(number) => Some(i64::from(number)),
            CallRefusal::QueueWaiting(number) => Some(i64::from(number)),
            CallRefusal::OpenInvocations(number) => Some(i64::from(number)),
            _ => None,
        }
    }
}

impl From<NoMemory> for CallRefusal {
    ghost use Rattle.std.specs.Prelude.{◌≡◌};
    ghost use Rattle.dialogue.specs.declared.call.CallRefusal.TheVariants as refusals;

    ghost from_gives = { λ _ e. e ≡ refusals.NoMemory };

    fn from(_error: NoMemory) -> CallRefusal {
        CallRefusal::NoMemory
    }
}

impl Copied for Call {
    fn copy(&self, alloc: Global) -> Result<Call, NoMemory> {
        match self {
            Call::Open => Ok(Call::Open),
            Call::Invoke {
                context,
                operation,
                argument,
                linked,
            } => Ok(Call::Invoke {
                context: *context,
                operation: *operation,
                argument: argument.copy(alloc)?,
                linked: *linked,
            }),
            Call::Answer { id, result } => Ok(Call::Answer {
                id: *id,
                result: result.copy(alloc)?,
            }),
            Call::Refuse {
                id,
                error,
                parameter,
            } => Ok(Call::Refuse {
                id: *id,
                error: *error,
                parameter: parameter.copy(alloc)?,
            }),
            Call::Alter { add, delete } => Ok(Call::Alter {
                add: add.copy(alloc)?,
                delete: delete.copy(alloc)?,
            }),
            Call::Mark => Ok(Call::Mark),
            Call::Give => Ok(Call::Give),
            Call::Please { priority } => Ok(Call::Please {
                priority: *priority,
            }),
            Call::Resync { n } => Ok(Call::Resync { n: *n }),
            Call::Interrupt => Ok(Call::Interrupt),
            Call::Resume => Ok(Call::Resume),
            Call::Discard => Ok(Call::Discard),
            Call::Recover => Ok(Call::Recover),
            Call::Release => Ok(Call::Release),
            Call::Abort => Ok(Call::Abort),
        }
    }
}
